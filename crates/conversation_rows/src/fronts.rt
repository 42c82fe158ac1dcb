//! How far a conversation that is cut off comes.

use crate::script::Step;

/// The front of a conversation.
#[derive(Clone, Copy)]
pub struct Front {
    /// The bytes of the client's messages.
    pub client: usize,
    /// The bytes that answer the messages before the last one.
    pub sure: usize,
    /// The bytes that answer the messages.
    pub replies: usize,
    /// How many of the messages before the last one are answered by a byte.
    pub answered: usize,
    /// How many calls of the registry are made.
    pub calls: usize,
}

impl Front {
    /// Before the first message.
    pub fn empty() -> Front {
        Front {
            client: 0,
            sure: 0,
            replies: 0,
            answered: 0,
            calls: 0,
        }
    }

    /// One step further.
    fn with(self, step: Step) -> Front {
        match step {
            Step::Client(len) => self.with_message(len),
            Step::Reply(len) => Front {
                replies: self.replies.saturating_add(len),
                ..self
            },
            Step::Ask | Step::Call => Front {
                calls: self.calls.saturating_add(1),
                ..self
            },
        }
    }

    /// One message further.
    fn with_message(self, len: usize) -> Front {
        let answered = if self.replies > self.sure { 1 } else { 0 };
        Front {
            client: self.client.saturating_add(len),
            sure: self.replies,
            answered: self.answered.saturating_add(answered),
            ..self
        }
    }

    /// The same where the last message is answered to its end.
    fn whole(self) -> Front {
        Front {
            sure: self.replies,
            ..self
        }
    }
}

/// The whole conversation.
pub fn all_of(steps: &[Step]) -> Front {
    let mut front = Front::empty();
    for step in steps {
        front = front.with(*step);
    }
    front.whole()
}

/// The front that answers the first `taken` bytes of the client: their whole messages.
pub fn front_of_bytes(steps: &[Step], taken: usize) -> Front {
    let mut front = Front::empty();
    for step in steps {
        let next = front.with(*step);
        if next.client > taken {
            return front.whole();
        }
        front = next;
    }
    front.whole()
}

/// The front up to the reply that has the byte at this place.
pub fn front_of_replies(steps: &[Step], place: usize) -> Front {
    let mut front = Front::empty();
    for step in steps {
        front = front.with(*step);
        if front.replies > place {
            return front;
        }
    }
    front
}

/// The front before the registry's call of this number, from 0.
pub fn front_of_calls(steps: &[Step], call: usize) -> Front {
    let mut front = Front::empty();
    for step in steps {
        let next = front.with(*step);
        if next.calls > call {
            return front;
        }
        front = next;
    }
    front
}

/// The front that comes in `turns` turns, where each read gives one byte: up to the byte or the
/// question that finds no turn left.
pub fn front_of_turns(steps: &[Step], turns: usize) -> Front {
    let mut front = Front::empty();
    let mut left = turns;
    for step in steps {
        match *step {
            Step::Client(len) if len > left => return front.whole(),
            Step::Ask if left == 0 => return front,
            _ => left = left.saturating_sub(turns_of(*step)),
        }
        front = front.with(*step);
    }
    front.whole()
}

/// How many turns a step takes, where each read gives one byte.
pub fn turns_of(step: Step) -> usize {
    match step {
        Step::Client(len) => len,
        Step::Ask => 1,
        _ => 0,
    }
}
