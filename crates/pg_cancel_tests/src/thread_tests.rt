//! The stories of the registry on two threads: one asks, the other one cancels.

ghost use Rattle.std.specs.Prelude.{◌≡◌, IfOk};
ghost use Rattle.std.specs.Thread.{IsSync};

use crate::keys::Key;
use crate::step_gate::StepGate;
use Act::*;
use pg_cancel::{ConnectionHandle, ConnectionManager, Door, RegisterError};
use std::alloc::Global;
use std::sync::Wait;
use std::thread::{Threads, join};

/// What one of two threads does: a call of its connection, with the answer that it has to get; or it
/// tells the other one that a step has come, or waits for one.
#[derive(Clone, Copy)]
enum Act {
    Start,
    Ask(bool),
    Cancel(Key, bool),
    Narrow,
    Open(u32),
    Await(u32),
}

/// A connection with the manager that issued its handle.
#[derive(Drop)]
struct Player<'m> {
    manager: &'m ConnectionManager,
    handle: ConnectionHandle,
    ghost issued: { handle.issuer ≡ manager.now },
}

impl<'m> Player<'m> {
    /// Whether a cancel of the pid 7 by a key gets this answer.
    fn is_cancel<R: Wait>(&mut self, rt: &R, alloc: Global, key: Key, answer: bool) -> bool {
        match key.secret(alloc) {
            Some(key) => self.manager.cancel(rt, &mut self.handle, 7, &key) == Ok(answer),
            None => false,
        }
    }

    /// Does this, and tells whether a call got the answer that it has to get.
    fn is_right<R: Wait>(&mut self, rt: &R, alloc: Global, gate: &StepGate, act: Act) -> bool {
        match act {
            Act::Start => self.manager.start_query(rt, &mut self.handle).is_ok(),
            Act::Ask(answer) => self.manager.ask(rt, &mut self.handle) == Ok(answer),
            Act::Cancel(key, answer) => self.is_cancel(rt, alloc, key, answer),
            Act::Narrow => self.manager.narrow(rt, &mut self.handle).is_ok(),
            Act::Open(step) => {
                gate.open(rt, step);
                true
            }
            Act::Await(step) => {
                gate.wait(rt, step);
                true
            }
        }
    }

    /// Does all of these, and tells whether each call got its answer.
    fn are_right<R: Wait>(&mut self, rt: &R, alloc: Global, gate: &StepGate, acts: &[Act]) -> bool {
        let mut are_so = true;
        for act in acts {
            let is_so = self.is_right(rt, alloc, gate, *act);
            are_so = are_so && is_so;
        }
        are_so
    }

    /// The player after all of these, where each call got its answer.
    fn behind<R: Wait>(
        mut self,
        rt: &R,
        alloc: Global,
        gate: &StepGate,
        acts: &[Act],
    ) -> Option<Player<'m>> {
        if self.are_right(rt, alloc, gate, acts) {
            Some(self)
        } else {
            None
        }
    }

    /// Whether its registration ends.
    fn is_ended<R: Wait>(self, rt: &R) -> bool {
        self.manager.unregister(rt, self.handle).is_ok()
    }
}

/// Registers a pid under a key.
fn register<R: Wait>(
    rt: &R,
    alloc: Global,
    manager: &ConnectionManager,
    door: &mut Door,
    pid: i32,
    key: Key,
) -> Result<ConnectionHandle, RegisterError>
    requires issued { door.old.issuer ≡ manager.now }
    ensures issued { door.new.issuer ≡ door.old.issuer }
    ensures handle { IfOk result (λ handle. handle.issuer ≡ manager.now) }
{
    match key.secret(alloc) {
        Some(key) => manager.register(rt, door, pid, key),
        None => Err(RegisterError::NoMemory),
    }
}

/// The player of a new registration, which is the entry of this number.
fn player_at<'m, R: Wait>(
    rt: &R,
    alloc: Global,
    manager: &'m ConnectionManager,
    door: &mut Door,
    number: u64,
    pid: i32,
    key: Key,
) -> Option<Player<'m>>
    requires issued { door.old.issuer ≡ manager.now }
    ensures issued { door.new.issuer ≡ door.old.issuer }
{
    let handle = register(rt, alloc, manager, door, pid, key).ok()?;
    if handle.number() == number {
        Some(Player { manager, handle })
    } else {
        None
    }
}

/// A story: the key of the first connection, what the two do, and how many entries there are after
/// the end of the first.
#[derive(Clone, Copy)]
struct Story {
    key: Key,
    first: &'static [Act],
    second: &'static [Act],
    entries: u64,
}

/// Both players after what they do on threads of their own, each where its calls got their answers.
fn both<'m, R: Threads + Wait + Sync>(
    rt: &R,
    alloc: Global,
    first: Player<'m>,
    second: Player<'m>,
    story: Story,
) -> (Option<Player<'m>>, Option<Player<'m>>) {
    let gate = StepGate::new();
    join(
        rt,
        || -> Option<Player>
            requires { IsSync R.row }
        { first.behind(rt, alloc, &gate, story.first) },
        || -> Option<Player>
            requires { IsSync R.row }
        { second.behind(rt, alloc, &gate, story.second) },
    )
}

/// Three Registers, of which the second is refused, since the registration at 0 has its pid.
fn opening<'m, R: Wait>(
    rt: &R,
    alloc: Global,
    manager: &'m ConnectionManager,
    door: &mut Door,
    key: Key,
) -> Option<(Player<'m>, Player<'m>)>
    requires issued { door.old.issuer ≡ manager.now }
    ensures issued { door.new.issuer ≡ door.old.issuer }
{
    let first = player_at(rt, alloc, manager, door, 0, 7, key)?;
    if !is_taken(rt, alloc, manager, door) {
        return None;
    }
    let second = player_at(rt, alloc, manager, door, 2, 8, Key::C)?;
    Some((first, second))
}

/// Whether the pid 7 is refused under another key, since the registration at 0 has it.
fn is_taken<R: Wait>(rt: &R, alloc: Global, manager: &ConnectionManager, door: &mut Door) -> bool
    requires issued { door.old.issuer ≡ manager.now }
    ensures issued { door.new.issuer ≡ door.old.issuer }
{
    matches!(
        register(rt, alloc, manager, door, 7, Key::B),
        Err(RegisterError::PidTaken(0))
    )
}

/// Whether both came to the end of their story, and the first ends its registration, so that the
/// second's cancel is answered no.
fn is_ending<R: Wait>(
    rt: &R,
    alloc: Global,
    first: Option<Player<'_>>,
    second: Option<Player<'_>>,
) -> Option<bool> {
    let first = first?;
    let mut second = second?;
    Some(first.is_ended(rt) && second.is_cancel(rt, alloc, Key::A, false))
}

/// Whether the story of two connections goes as it has to, up to the end of the first.
fn is_told_by<R: Threads + Wait + Sync>(
    rt: &R,
    alloc: Global,
    manager: &ConnectionManager,
    door: &mut Door,
    story: Story,
) -> Option<bool>
    requires issued { door.old.issuer ≡ manager.now }
    ensures issued { door.new.issuer ≡ door.old.issuer }
{
    let (first, second) = opening(rt, alloc, manager, door, story.key)?;
    let (first, second) = both(rt, alloc, first, second, story);
    is_ending(rt, alloc, first, second)
}

/// Whether the story goes as it has to, and then the pid of the first is free again, and a
/// registration of it is the story's next entry.
fn is_told<R: Threads + Wait + Sync>(
    rt: &R,
    alloc: Global,
    manager: &ConnectionManager,
    door: &mut Door,
    story: Story,
) -> bool
    requires issued { door.old.issuer ≡ manager.now }
{
    is_told_by(rt, alloc, manager, door, story) == Some(true)
        && player_at(rt, alloc, manager, door, story.entries, 7, Key::A).is_some()
}

/// The same at a new registry.
fn is_told_at_new<R: Threads + Wait + Sync>(rt: &R, alloc: Global, story: Story) -> bool {
    match ConnectionManager::new(alloc) {
        Ok((manager, mut door)) => is_told(rt, alloc, &manager, &mut door, story),
        Err(_) => false,
    }
}

/// The first starts a query, is canceled, and starts another one, which isn't canceled. The second
/// cancels by the right key and by a wrong one.
const STORY: Story = Story {
    key: Key::A,
    first: &[
        Start,
        Ask(false),
        Open(1),
        Await(2),
        Ask(true),
        Start,
        Ask(false),
        Open(3),
    ],
    second: &[
        Await(1),
        Cancel(Key::A, true),
        Open(2),
        Await(3),
        Cancel(Key::Zero, false),
    ],
    entries: 12,
};

#[test]
fn story_on_two_threads(rt: HostRuntime) {
    assert!(rt; is_told_at_new(&rt, rt.alloc(), STORY));
}

/// The first starts a query, is canceled by its long key, narrows it, and starts another query,
/// which is canceled by the short key. The second cancels by the short key and by the long one,
/// before the narrow and after it.
const NARROW: Story = Story {
    key: Key::Long,
    first: &[
        Start,
        Open(1),
        Await(2),
        Ask(true),
        Narrow,
        Start,
        Open(3),
        Await(4),
        Ask(true),
    ],
    second: &[
        Await(1),
        Cancel(Key::A, false),
        Cancel(Key::Long, true),
        Open(2),
        Await(3),
        Cancel(Key::Long, false),
        Cancel(Key::A, true),
        Open(4),
    ],
    entries: 14,
};

#[test]
fn narrow_on_two_threads(rt: HostRuntime) {
    assert!(rt; is_told_at_new(&rt, rt.alloc(), NARROW));
}
