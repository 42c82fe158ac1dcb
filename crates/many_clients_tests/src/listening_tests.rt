//! Clients are taken in, and then served by handlers.

ghost use Rattle.std.specs.Prelude.{◌≡◌, IfSome};

use crate::fakes::{Keeping, OneKey, Refusing, Silence, Waiting};
use client_listening::take_in_clients;
use many_clients::{AdmittedClient, AdmittedClients, HandlerService, ServiceJob, listen_with};
use pg_session::{EndKind, NoopHandler, PgWireServerHandlers};
use sample_registry::Registry;
use std::alloc::Global;
use std::collections::VecDeque;
use std::sync::{Arc, Wait};

/// A client that sends nothing.
type SilentClient = AdmittedClient<Silence, Silence>;

/// How many turns a client has.
const TURNS: u64 = 5;

/// Three connections wait, whose numbers are 1, 2 and 3.
fn three_waiting(alloc: Global) -> Option<Waiting>
    ensures { IfSome result (λ waiting. waiting.accepted ≡ 0) }
{
    let mut connections = VecDeque::new(alloc);
    for number in 1..4u64 {
        let connection = (Silence::new(number), Silence::new(number));
        connections.push_back(connection).ok()?;
    }
    Some(Waiting::new(connections))
}

/// Takes in the connections that wait, as many as `count`.
fn take_in<R: Wait>(rt: &R, registry: &mut Registry, count: u64) -> Option<Keeping<SilentClient>> {
    let mut waiting = three_waiting(registry.alloc)?;
    let mut keeping = Keeping::new(registry.alloc);
    let mut keys = OneKey {
        alloc: registry.alloc,
    };
    let manager = Arc::try_clone(&registry.manager).ok()?;
    let maker = AdmittedClients { turn_limit: TURNS };
    let taken = listen_with(
        rt,
        &mut waiting,
        &mut keeping,
        &mut keys,
        manager,
        &mut registry.door,
        &maker,
        Some(count),
    );
    if taken.is_ok() && waiting.accepted == count {
        Some(keeping)
    } else {
        None
    }
}

/// Whether a client is the one of this number.
fn is_client_of(client: &SilentClient, number: u64) -> bool {
    u64::try_from(client.handle.pid()) == Ok(number)
        && client.source.number == number
        && client.sink.number == number
        && client.turn_limit == TURNS
}

/// Whether each client is the one of its number, from 1 on.
fn are_clients(clients: &[SilentClient]) -> bool {
    let mut number = 0u64;
    let mut are_so = true;
    for client in clients {
        number = number.saturating_add(1);
        are_so = are_so && is_client_of(client, number);
    }
    are_so
}

/// Each connection that is taken in becomes the client of its own pid.
#[test]
fn each_connection_becomes_a_client(rt: HostRuntime) {
    let are_so = match Registry::new(rt.alloc()) {
        Some(mut registry) => take_in(&rt, &mut registry, 3).is_some_and(|keeping| keeping.started
            == 3
            && are_clients(keeping.jobs.as_slice())),
        None => false,
    };
    assert!(rt; are_so);
}

/// Takes in the connections that wait, as many as `count`, over a registry of their own.
fn take_in_alone<R: Wait>(rt: &R, alloc: Global, count: u64) -> Option<Keeping<SilentClient>> {
    let mut waiting = three_waiting(alloc)?;
    let mut keeping = Keeping::new(alloc);
    let mut keys = OneKey { alloc };
    let taken = take_in_clients(
        rt,
        alloc,
        &mut waiting,
        &mut keeping,
        &mut keys,
        Some(count),
        TURNS,
    );
    if taken == Ok(count) {
        Some(keeping)
    } else {
        None
    }
}

/// Clients that are taken in over a new registry have the pids from 1 on, too.
#[test]
fn clients_are_taken_in_over_a_new_registry(rt: HostRuntime) {
    let keeping = take_in_alone(&rt, rt.alloc(), 2);
    let are_so = keeping.is_some_and(|keeping| keeping.started == 2
        && are_clients(keeping.jobs.as_slice()));
    assert!(rt; are_so);
}

/// Serves a client by these handlers, and tells how the conversation ended.
fn end_of<R: Wait, H: PgWireServerHandlers>(
    rt: &R,
    alloc: Global,
    handlers: Arc<H>,
    client: SilentClient,
) -> Option<EndKind> {
    let service = HandlerService { handlers };
    let (answer, _source, _sink, _note) = ServiceJob { service, client }.run(rt, alloc);
    answer.ok()
}

/// Takes in one client, serves it, and tells how the conversation ended.
fn served<R: Wait>(rt: &R, registry: &mut Registry) -> Option<EndKind> {
    let alloc = registry.alloc;
    let handlers = Refusing {
        handler: NoopHandler,
    };
    let handlers = Arc::new(alloc, handlers).ok()?;
    let client = take_in(rt, registry, 1)?.jobs.pop()?;
    end_of(rt, alloc, handlers, client)
}

/// A client that was taken in is served by handlers, and then its pid is free.
#[test]
fn a_client_is_served_and_leaves(rt: HostRuntime) {
    let is_so = match Registry::new(rt.alloc()) {
        Some(mut registry) => {
            served(&rt, &mut registry) == Some(EndKind::InputEnd) && registry.is_free(&rt, 1)
        }
        None => false,
    };
    assert!(rt; is_so);
}
