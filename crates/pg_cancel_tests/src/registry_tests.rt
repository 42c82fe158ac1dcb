//! Calls of a registry, one after another, each with the answer that it has to get.

use crate::keys::Key;
use Call::*;
use RegistryAnswer::*;
use pg_cancel::{Registry, RegistryAnswer, RegistryCall};
use std::alloc::Global;

/// A call whose key isn't made yet.
#[derive(Clone, Copy)]
enum Call {
    Register(i32, Key),
    Start,
    Ask,
    Cancel(i32, Key),
    Narrow,
    Unregister,
}

/// A call under a number, and its answer.
type Step = (u64, Call, RegistryAnswer);

/// The call with its key.
fn made(alloc: Global, call: Call) -> Option<RegistryCall> {
    Some(match call {
        Call::Register(pid, key) => RegistryCall::Register(pid, key.secret(alloc)?),
        Call::Start => RegistryCall::Start,
        Call::Ask => RegistryCall::Ask,
        Call::Cancel(pid, key) => RegistryCall::Cancel(pid, key.secret(alloc)?),
        Call::Narrow => RegistryCall::Narrow,
        Call::Unregister => RegistryCall::Unregister,
    })
}

/// Whether the call gets this answer. Only a Register may come under a number that isn't live.
fn is_answer(
    registry: &mut Registry,
    number: u64,
    call: RegistryCall,
    answer: RegistryAnswer,
) -> bool {
    if matches!(call, RegistryCall::Register(..)) || registry.is_live(number) {
        registry.apply(number, call) == Ok(answer)
    } else {
        false
    }
}

/// Whether the call of a step is answered as the step tells.
fn is_answered(registry: &mut Registry, alloc: Global, step: Step) -> bool {
    let (number, call, answer) = step;
    match made(alloc, call) {
        Some(call) => is_answer(registry, number, call, answer),
        None => false,
    }
}

/// Whether a registry gives the answers of these steps.
fn are_all_answered(registry: &mut Registry, alloc: Global, steps: &[Step]) -> bool {
    let mut are_so = true;
    for step in steps {
        are_so = are_so && is_answered(registry, alloc, *step);
    }
    are_so
}

/// Whether a new registry gives the answers of these steps, and then has an entry for each.
fn are_answered(alloc: Global, steps: &[Step]) -> bool {
    let mut registry = Registry::new(alloc);
    are_all_answered(&mut registry, alloc, steps) && registry.history().len() == steps.len()
}

const STORY: [Step; 13] = [
    (0, Register(7, Key::A), Registered),
    (0, Register(7, Key::B), Taken(0)),
    (0, Register(8, Key::C), Registered),
    (0, Start, Done),
    (0, Ask, No),
    (2, Cancel(7, Key::A), Yes),
    (0, Ask, Yes),
    (0, Start, Done),
    (0, Ask, No),
    (2, Cancel(7, Key::Zero), No),
    (0, Unregister, Done),
    (2, Cancel(7, Key::A), No),
    (0, Register(7, Key::A), Registered),
];

#[test]
fn registry_story(rt: HostRuntime) {
    assert!(rt; are_answered(rt.alloc(), &STORY));
}

const BESIDE: [Step; 16] = [
    (9, Register(7, Key::A), Registered),
    (9, Register(8, Key::A), Registered),
    // Before any start a cancel finds the registration, and cancels nothing.
    (1, Cancel(7, Key::A), Yes),
    (0, Ask, No),
    (0, Start, Done),
    (0, Ask, No),
    // The other pid, the other key.
    (1, Cancel(7, Key::B), No),
    (1, Cancel(8, Key::A), Yes),
    (0, Ask, No),
    // It is canceled twice, once by itself; a start then forgets both.
    (1, Cancel(7, Key::A), Yes),
    (0, Cancel(7, Key::A), Yes),
    (0, Ask, Yes),
    (0, Ask, Yes),
    (1, Ask, No),
    (0, Start, Done),
    (0, Ask, No),
];

#[test]
fn cancels_beside_the_story(rt: HostRuntime) {
    assert!(rt; are_answered(rt.alloc(), &BESIDE));
}

const NEW_HOLDER: [Step; 11] = [
    (0, Register(7, Key::A), Registered),
    (0, Start, Done),
    (0, Cancel(7, Key::A), Yes),
    (0, Unregister, Done),
    (0, Register(7, Key::A), Registered),
    // It knows nothing of the cancels of the old one.
    (4, Ask, No),
    (4, Start, Done),
    (4, Ask, No),
    (4, Register(7, Key::B), Taken(4)),
    (4, Cancel(7, Key::A), Yes),
    (4, Ask, Yes),
];

#[test]
fn a_new_holder_of_the_pid(rt: HostRuntime) {
    assert!(rt; are_answered(rt.alloc(), &NEW_HOLDER));
}

const LONG_KEYS: [Step; 16] = [
    (0, Register(7, Key::Long), Registered),
    (0, Register(8, Key::C), Registered),
    (0, Start, Done),
    (1, Cancel(7, Key::A), No),
    (1, Cancel(7, Key::Long), Yes),
    // A cancel by the long key still counts after the narrow.
    (0, Narrow, Done),
    (0, Ask, Yes),
    (0, Start, Done),
    (1, Cancel(7, Key::Long), No),
    (0, Ask, No),
    (1, Cancel(7, Key::A), Yes),
    (0, Ask, Yes),
    // Another narrow changes nothing, and neither does a narrow of a key of four bytes.
    (0, Narrow, Done),
    (1, Narrow, Done),
    (0, Cancel(8, Key::C), Yes),
    (1, Cancel(7, Key::A), Yes),
];

#[test]
fn long_keys(rt: HostRuntime) {
    assert!(rt; are_answered(rt.alloc(), &LONG_KEYS));
}

/// Whether the call gets its answer a million times.
fn is_answered_often(registry: &mut Registry, alloc: Global, step: Step) -> bool {
    let mut is_so = true;
    for _ in 0..1_000_000 {
        is_so = is_so && is_answered(registry, alloc, step);
    }
    is_so
}

/// Whether a registration is followed by a million questions and a million refused registrations.
fn is_indexed(alloc: Global) -> bool {
    let mut registry = Registry::new(alloc);
    is_answered(&mut registry, alloc, (0, Register(7, Key::A), Registered))
        && is_answered_often(&mut registry, alloc, (0, Ask, No))
        && is_answered_often(&mut registry, alloc, (0, Register(7, Key::A), Taken(0)))
}

#[test]
fn t_index(rt: HostRuntime) {
    assert!(rt; is_indexed(rt.alloc()));
}
