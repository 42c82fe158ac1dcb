//! What a connection calls, and what it notes of the answers.

use pg_cancel::RegistryAnswer;

/// A call of a connection.
#[derive(Clone, Copy)]
pub enum Kind {
    /// It starts a query.
    Start,
    /// It asks.
    Ask,
    /// It cancels another connection by its pid and key.
    Cancel,
    /// It names the pid of another connection with a key that nobody has.
    Miss,
}

/// Which calls a connection makes.
#[derive(Clone, Copy)]
pub enum Mix {
    /// Starts, questions, and cancels by pid and key or by another key.
    All,
    /// Starts and questions in turn.
    Queries,
}

impl Mix {
    /// The call of this number.
    pub fn kind_of(self, call: u64) -> Kind {
        let place = match self {
            Mix::All => call % 5,
            Mix::Queries => call % 2,
        };
        match place {
            0 => Kind::Start,
            1 | 3 => Kind::Ask,
            2 => Kind::Cancel,
            _ => Kind::Miss,
        }
    }
}

/// The registry's answer to a call; a start is done.
pub fn answer_of(kind: Kind, yes: bool) -> RegistryAnswer {
    match kind {
        Kind::Start => RegistryAnswer::Done,
        _ if yes => RegistryAnswer::Yes,
        _ => RegistryAnswer::No,
    }
}

/// How many cancels there were, and how many were answered true.
#[derive(Clone, Copy)]
pub struct Counts {
    /// Those that name the pid and the key of a connection.
    pub right: u64,
    pub hits: u64,
    /// Those that name its pid with another key.
    pub wrong: u64,
    pub misses: u64,
}

impl Counts {
    /// No cancel.
    pub fn none() -> Counts {
        Counts {
            right: 0,
            hits: 0,
            wrong: 0,
            misses: 0,
        }
    }

    /// Both together.
    pub fn with(self, more: Counts) -> Counts {
        Counts {
            right: self.right.wrapping_add(more.right),
            hits: self.hits.wrapping_add(more.hits),
            wrong: self.wrong.wrapping_add(more.wrong),
            misses: self.misses.wrapping_add(more.misses),
        }
    }
}

/// What a connection notes.
#[derive(Clone, Copy)]
pub struct Notes {
    pub counts: Counts,
    /// How many of its queries a question found canceled, and whether the last one was.
    pub canceled: u64,
    is_canceled: bool,
    /// A question was answered no after one of the same query that was answered yes.
    pub wavers: bool,
    /// A call found no memory.
    pub failed: bool,
}

impl Notes {
    /// Nothing so far.
    pub fn none() -> Notes {
        Notes {
            counts: Counts::none(),
            canceled: 0,
            is_canceled: false,
            wavers: false,
            failed: false,
        }
    }

    /// Notes the answer to a call.
    pub fn note(&mut self, kind: Kind, yes: bool) {
        let hit = u64::from(yes);
        let mut more = Counts::none();
        match kind {
            Kind::Start => self.is_canceled = false,
            Kind::Ask => self.hears(yes),
            Kind::Cancel => {
                more.right = 1;
                more.hits = hit;
            }
            Kind::Miss => {
                more.wrong = 1;
                more.misses = hit;
            }
        }
        self.counts = self.counts.with(more);
    }

    /// Notes the answer to a question: the first yes of a query, or a no after it.
    fn hears(&mut self, yes: bool) {
        if yes && !self.is_canceled {
            self.is_canceled = true;
            self.canceled = self.canceled.wrapping_add(1);
        }
        if !yes && self.is_canceled {
            self.wavers = true;
        }
    }
}
