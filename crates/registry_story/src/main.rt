//! Two stories of a cancel registry: its calls one after another, each printed with its answer. A
//! call that finds no memory says so in a line of its own and is made once more, since it has given
//! the turn back with nothing done.
#![tactic(auto)]

mod calls;

ghost use Rattle.std.specs.Prelude.{◌≡◌};

use crate::calls::{Call, Connection, Key, Stop, key_of_bytes, refused, registered};
use pg_cancel::{ConnectionManager, Door};
use std::alloc::Global;
use std::process::ExitCode;
use std::sync::Wait;

/// What happens at the registry.
#[derive(Clone, Copy)]
enum Step {
    /// A registration of a pid under a key succeeds.
    Registers(i32, Key),
    /// A registration is refused, since its pid is taken.
    Refuses(i32, Key),
    /// The connection with this pid makes a call.
    Calls(i32, Call),
    /// The connection with this pid ends.
    Ends(i32),
}

/// The first connection makes two queries, of which the second connection cancels one, and ends:
/// then its key reaches nobody, and its pid is free again.
const STORY: &[Step] = &[
    Step::Registers(7, Key::First),
    Step::Refuses(7, Key::Other),
    Step::Registers(8, Key::Second),
    Step::Calls(7, Call::Start),
    Step::Calls(7, Call::Ask),
    Step::Calls(8, Call::Cancel(7, Key::First)),
    Step::Calls(7, Call::Ask),
    Step::Calls(7, Call::Start),
    Step::Calls(7, Call::Ask),
    Step::Calls(8, Call::Cancel(7, Key::Zero)),
    Step::Ends(7),
    Step::Calls(8, Call::Cancel(7, Key::First)),
    Step::Registers(7, Key::First),
];

/// The first query of the first connection is canceled by the long key, which is narrowed then.
/// The long key doesn't cancel the second query, and the short one does.
const LONG_STORY: &[Step] = &[
    Step::Registers(7, Key::Long),
    Step::Registers(8, Key::Second),
    Step::Calls(7, Call::Start),
    Step::Calls(8, Call::Cancel(7, Key::First)),
    Step::Calls(8, Call::Cancel(7, Key::Long)),
    Step::Calls(7, Call::Ask),
    Step::Calls(7, Call::Narrow),
    Step::Calls(7, Call::Start),
    Step::Calls(8, Call::Cancel(7, Key::Long)),
    Step::Calls(8, Call::Cancel(7, Key::First)),
    Step::Calls(7, Call::Ask),
];

/// All steps of a story, at a new registry.
fn tell_story<R: Wait + Print>(rt: &R, alloc: Global, steps: &[Step]) -> Result<(), Stop> {
    let (manager, mut door) = ConnectionManager::new(alloc)?;
    tell_steps(rt, alloc, &manager, &mut door, steps)
}

/// All steps of a story.
fn tell_steps<R: Wait + Print>(
    rt: &R,
    alloc: Global,
    manager: &ConnectionManager,
    door: &mut Door,
    steps: &[Step],
) -> Result<(), Stop>
    requires issued { door.old.issuer ≡ manager.now }
{
    let mut live = Vec::new(alloc);
    for step in steps {
        tell_step(rt, alloc, manager, door, &mut live, *step)?;
    }
    Ok(())
}

/// A step of a story, before which these connections are registered.
fn tell_step<'a, R: Wait + Print>(
    rt: &R,
    alloc: Global,
    manager: &'a ConnectionManager,
    door: &mut Door,
    live: &mut Vec<Connection<'a>>,
    step: Step,
) -> Result<(), Stop>
    requires issued { door.old.issuer ≡ manager.now }
    ensures issued { door.new.issuer ≡ manager.now }
{
    match step {
        Step::Registers(pid, key) => {
            let connection = registered(rt, alloc, manager, door, pid, key)?;
            Ok(live.push(connection)?)
        }
        Step::Refuses(pid, key) => refused(rt, alloc, manager, door, pid, key),
        Step::Calls(pid, call) => tell_call(rt, alloc, live, pid, call),
        Step::Ends(pid) => tell_end(rt, live, pid),
    }
}

/// A call of the connection with this pid.
fn tell_call<R: Wait + Print>(
    rt: &R,
    alloc: Global,
    live: &mut Vec<Connection<'_>>,
    pid: i32,
    call: Call,
) -> Result<(), Stop> {
    let place = place_of(live, pid);
    match live.get_mut(place) {
        Some(connection) => connection.tell(rt, alloc, call),
        None => Err(Stop::OtherAnswer),
    }
}

/// The end of the connection with this pid.
fn tell_end<R: Wait + Print>(rt: &R, live: &mut Vec<Connection<'_>>, pid: i32) -> Result<(), Stop> {
    let place = place_of(live, pid);
    if place < live.len() {
        live.swap_remove(place).end(rt)
    } else {
        Err(Stop::OtherAnswer)
    }
}

/// The place of the connection with this pid; how many there are, where none has it.
fn place_of(live: &[Connection<'_>], pid: i32) -> usize {
    let mut place = 0usize;
    for connection in live {
        if connection.pid() == pid {
            return place;
        }
        place = place.saturating_add(1);
    }
    place
}

/// Which lengths a key may have.
fn tell_lengths<R: Print>(rt: &R, alloc: Global) -> Result<(), Stop> {
    let zeros = [0u8; 257];
    key_of_bytes(rt, alloc, &zeros[..3])?;
    key_of_bytes(rt, alloc, &zeros[..4])?;
    key_of_bytes(rt, alloc, &zeros[..256])?;
    key_of_bytes(rt, alloc, &zeros)
}

/// Both stories, and the lengths.
fn tell_all<R: Wait + Print>(rt: &R, alloc: Global) -> Result<(), Stop> {
    tell_story(rt, alloc, STORY)?;
    println!(rt; "registry story with long keys")?;
    tell_story(rt, alloc, LONG_STORY)?;
    tell_lengths(rt, alloc)
}

fn main(rt: HostRuntime) -> ExitCode {
    match tell_all(&rt, rt.alloc()) {
        Ok(()) => ExitCode::SUCCESS,
        Err(Stop::NoMemory) => ExitCode::from(7),
        Err(Stop::Output) => ExitCode::from(5),
        Err(Stop::OtherAnswer) => ExitCode::from(1),
    }
}
