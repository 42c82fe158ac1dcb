//! The cases of a sweep.

use crate::fronts::{
    Front, all_of, front_of_bytes, front_of_calls, front_of_replies, front_of_turns, turns_of,
};
use crate::script::Step;
use crate::serving::{Plan, Reads};
use crate::told::end_told;
use crate::verdict::{Between, Expected, expected_at};
use row_files::Fault;

/// What differs from case to case.
#[derive(Clone, Copy)]
pub enum Sweep {
    /// What the first read gives.
    Cuts,
    /// Behind how many bytes each message is cut.
    Headers,
    /// Where the input ends; single bytes.
    Lengths,
    /// Which read fails; single bytes.
    Reads,
    /// Which write fails, after how many bytes; single bytes.
    Writes,
    /// The turns; single bytes.
    Turns,
    /// Which call of the registry finds no memory; single bytes.
    Desk,
}

/// The sweep of this word.
pub fn sweep_of<'t>(word: &'t str) -> Result<Option<Sweep>, Fault<'t>> {
    let sweep = match word {
        "cuts" => Sweep::Cuts,
        "headers" => Sweep::Headers,
        "lengths" => Sweep::Lengths,
        "reads" => Sweep::Reads,
        "writes" => Sweep::Writes,
        "turns" => Sweep::Turns,
        "desk" => Sweep::Desk,
        _ => return Err(Fault::Line(word)),
    };
    Ok(Some(sweep))
}

/// The conversation of a sweep: its end, all of it, and how many turns single bytes take.
#[derive(Clone, Copy)]
pub struct Swept<'t> {
    end: &'t str,
    all: Front,
    turns: usize,
}

/// A case: how many of the client's bytes there are, how they are served, and what is expected.
#[derive(Clone, Copy)]
pub struct Case<'t> {
    pub client: usize,
    pub plan: Plan<'t>,
    pub expected: Expected<'t>,
}

/// The conversation that the lines tell, whose steps these are.
pub fn swept_of<'t>(lines: &[&'t str], steps: &[Step]) -> Swept<'t> {
    let end = end_told(lines);
    let mut turns = if end == "InputEnd" { 1 } else { 0 };
    for step in steps {
        turns = turns_of(*step).saturating_add(turns);
    }
    Swept {
        end,
        all: all_of(steps),
        turns,
    }
}

/// How many cases a sweep has; one without a sweep.
pub fn count_of(sweep: Option<Sweep>, swept: Swept<'_>) -> usize {
    match sweep {
        None => 1,
        Some(Sweep::Cuts) => swept.all.client.saturating_sub(1),
        Some(Sweep::Headers) => 9,
        Some(Sweep::Lengths) => swept.all.client.saturating_add(1),
        Some(Sweep::Reads) => swept.all.client,
        Some(Sweep::Writes) => swept.all.replies,
        Some(Sweep::Turns) => swept.turns.saturating_add(1),
        Some(Sweep::Desk) => swept.all.calls,
    }
}

/// The case of a sweep at this place.
pub fn case_of<'t>(sweep: Sweep, swept: Swept<'t>, steps: &[Step], place: usize) -> Case<'t> {
    match sweep {
        Sweep::Cuts => swept.served(Reads::First(place.saturating_add(1))),
        Sweep::Headers => swept.served(Reads::Messages(place)),
        Sweep::Lengths => swept.short(steps, place),
        Sweep::Reads => swept.read_fails(steps, place),
        Sweep::Writes => swept.write_fails(steps, place),
        Sweep::Turns => swept.limited(steps, place),
        Sweep::Desk => swept.desk_fails(steps, place),
    }
}

impl<'t> Swept<'t> {
    /// All is served.
    fn served(self, reads: Reads<'t>) -> Case<'t> {
        self.case(self.plan(reads), expected_at(self.end, self.all))
    }

    /// Nothing fails, and there are enough turns.
    fn plan(self, reads: Reads<'t>) -> Plan<'t> {
        Plan {
            reads,
            source_fails: None,
            sink_fails: None,
            desk_fails: None,
            turns: self.turns.saturating_add(1) as u64,
        }
    }

    fn case(self, plan: Plan<'t>, expected: Expected<'t>) -> Case<'t> {
        Case {
            client: self.all.client,
            plan,
            expected,
        }
    }

    /// The client sends only `len` bytes.
    fn short(self, steps: &[Step], len: usize) -> Case<'t> {
        let end = if len < self.all.client {
            "InputEnd"
        } else {
            self.end
        };
        Case {
            client: len,
            plan: self.plan(Reads::Single),
            expected: expected_at(end, front_of_bytes(steps, len)),
        }
    }

    /// The read of this number fails.
    fn read_fails(self, steps: &[Step], call: usize) -> Case<'t> {
        let mut plan = self.plan(Reads::Single);
        plan.source_fails = Some(call as u64);
        self.case(plan, expected_at("ReadFault", front_of_bytes(steps, call)))
    }

    /// The write of the byte at this place fails, and takes those before it.
    fn write_fails(self, steps: &[Step], place: usize) -> Case<'t> {
        let front = front_of_replies(steps, place);
        let mut plan = self.plan(Reads::Single);
        plan.sink_fails = Some((front.answered as u64, place.saturating_sub(front.sure)));
        let expected = Expected {
            end: "WriteFault",
            written: Between::just(place),
            calls: Between {
                least: 0,
                most: front.calls,
            },
        };
        self.case(plan, expected)
    }

    /// There are `turns` turns.
    fn limited(self, steps: &[Step], turns: usize) -> Case<'t> {
        let end = if turns < self.turns {
            "TurnLimit"
        } else {
            self.end
        };
        let mut plan = self.plan(Reads::Single);
        plan.turns = turns as u64;
        self.case(plan, expected_at(end, front_of_turns(steps, turns)))
    }

    /// The registry's call of this number finds no memory.
    fn desk_fails(self, steps: &[Step], call: usize) -> Case<'t> {
        let mut plan = self.plan(Reads::Single);
        plan.desk_fails = Some(call as u64);
        self.case(plan, expected_at("NoMemory", front_of_calls(steps, call)))
    }
}
