//! The program's command `demo`: a generated load is served in memory, and counted.

ghost use Rattle.std.specs.Prelude.{◌≡◌, ◌≤◌, List, ℕ, Option, Err, length, string_bytes, IfErr, IfOk, IsOk, IsErr};
ghost use Rattle.pg_cancel.specs.Connections.{Registers};
ghost use Rattle.pg_cancel.specs.declared.entries.RegistryAnswer.{RegistryAnswer};
ghost use Rattle.pg_cancel.specs.declared.entries.RegistryCall.{RegistryCall};
ghost use Rattle.pg_messages.specs.declared.backend.PgWireBackendMessage.{PgWireBackendMessage};
ghost use Rattle.pg_messages.specs.Replies.{replies_bytes};
ghost use Rattle.relation_demo.specs.Client as client;
ghost use Rattle.relation_demo.specs.Counting.{row_count};
ghost use Rattle.relation_demo.specs.Load.{demo_relations};
ghost use Rattle.conversation_runs.specs.declared.ends.ServeError.{ServeError};
ghost use Rattle.relation_server.specs.declared.outcome.Outcome.{Outcome};
ghost use Rattle.relation_server.specs.Demo.{HasCounted, HasTold, IsNotRegistered};
ghost use Rattle.relation_server.specs.Program.{HasShown, counts, demo_lines, demo_registration, newcomer, surroundings};

use crate::connection_job::serve_and_leave;
use crate::outcome::Outcome;
use conversation_runs::{ServeError, Sink, SinkError};
use pg_cancel::{ConnectionHandle, ConnectionManager, Door, Note, RegisterError};
use pg_client::EndKind;
use pg_messages::{PgBytes, PgList, SecretKey};
use pg_serve::{MemorySink, MemorySource};
use relation_demo::{count_rows, demo_client, demo_table};
use relation_handlers::RelationTable;
use relation_words::Load;
use std::alloc::{AllocError, Global};
use std::sync::Wait;

/// The pid and the key that the demo's client is registered under.
const PID: i32 = 1;

const KEY: [u8; 4] = [0; 4];

/// How many turns the demo's client has.
const TURNS: u64 = 1 << 63;

/// The most bytes of replies that are counted.
const GREATEST_LENGTH: usize = 4_294_967_295;

/// Serves the generated load, and writes four lines that count it. The replies are kept in memory
/// for that: some 6 MB for ten thousand relations. Where they have more than 4,294,967,295 bytes,
/// which no load comes near, the outcome is that memory ran out.
pub(crate) fn show_demo<R: Wait, K: Sink>(
    rt: &R,
    alloc: Global,
    load: Load,
    manager: &ConnectionManager,
    door: &mut Door,
    out: &mut K,
) -> (Outcome, Option<Note>)
    requires issued { door.old.issuer ≡ manager.now }
    requires few { load.count ≤ 10000 }
    ensures shown { (file client : Option (List ℕ)) (faults reads read_faults : ℕ)
        → HasShown manager.now load result.0 result.1
        (surroundings file faults client (K.written out.old)
        (counts reads read_faults (K.faults out.old)) door.old.seen)
        (surroundings file faults client (K.written out.new)
        (counts reads read_faults (K.faults out.new)) door.new.seen) }
    ensures never_falls { K.faults out.old ≤ K.faults out.new }
    ensures issued { door.new.issuer ≡ door.old.issuer }
{
    let Ok((relations, client)) = generate(alloc, load) else {
        return (Outcome::OUT_OF_MEMORY, None);
    };
    match register_client(rt, alloc, manager, door) {
        Err(outcome) => (outcome, None),
        Ok(handle) => serve_demo(
            rt, alloc, load.count, manager, handle, &relations, client, out,
        ),
    }
}

/// Generates the relations of the load, and the bytes of its client.
fn generate(alloc: Global, load: Load) -> Result<(RelationTable, PgBytes), AllocError>
    requires few { load.count ≤ 10000 }
    ensures table { IfOk result (λ made. made.0 ≡ demo_relations load.seed load.count) }
    ensures client { IfOk result (λ made. made.1 ≡ client.demo_client load.count) }
{
    let relations = demo_table(alloc, load.seed, load.count)?;
    let client = demo_client(alloc, load.count)?;
    Ok((relations, client))
}

/// Registers the demo's client.
fn register_client<R: Wait>(
    rt: &R,
    alloc: Global,
    manager: &ConnectionManager,
    door: &mut Door,
) -> Result<ConnectionHandle, Outcome>
    requires issued { door.old.issuer ≡ manager.now }
    ensures handle { IfOk result (λ handle.
        handle ≡ newcomer manager.now handle.number demo_registration door.new.seen) }
    ensures registered { IfOk result (λ handle. Registers handle.number
        (RegistryCall.Register demo_registration.0 demo_registration.1)
        door.old.seen door.new.seen RegistryAnswer.Registered) }
    ensures refused { IfErr result (λ outcome. IsNotRegistered outcome door.old.seen door.new.seen) }
    ensures issued { door.new.issuer ≡ door.old.issuer }
{
    let Ok(key) = SecretKey::try_new(alloc, &KEY) else {
        return Err(Outcome::OUT_OF_MEMORY);
    };
    match manager.register(rt, door, PID, key) {
        Ok(handle) => Ok(handle),
        Err(RegisterError::PidTaken(_)) => Err(Outcome::PidTaken),
        Err(RegisterError::NoMemory) => Err(Outcome::OUT_OF_MEMORY),
    }
}

/// Serves the client under its registration, ends the registration, and writes the lines.
fn serve_demo<R: Wait, K: Sink>(
    rt: &R,
    alloc: Global,
    count: u32,
    manager: &ConnectionManager,
    handle: ConnectionHandle,
    relations: &RelationTable,
    client: PgBytes,
    out: &mut K,
) -> (Outcome, Option<Note>)
    requires issued { handle.issuer ≡ manager.now }
    ensures counted { HasCounted handle relations.now count client result.0 result.1
        (K.written out.old) (K.written out.new)
        (K.faults out.old) (K.faults out.new) }
    ensures never_falls { K.faults out.old ≤ K.faults out.new }
{
    let length = client.len();
    let mut source = MemorySource::new(client, PgList::new(alloc), PgList::new(alloc));
    let mut replies = MemorySink::new(alloc, PgList::new(alloc));
    let (answer, note) = serve_and_leave(
        rt,
        alloc,
        manager,
        handle,
        relations,
        &mut source,
        &mut replies,
        TURNS,
    );
    let outcome = tell_end(alloc, answer, count, length, replies.bytes(), out);
    (outcome, Some(note))
}

/// Writes the lines of a conversation that came to its end. With 2^63 turns and no faults, a
/// conversation is given up only where memory ran out.
fn tell_end<K: Sink>(
    alloc: Global,
    answer: Result<EndKind, ServeError>,
    count: u32,
    client: usize,
    replies: &[u8],
    out: &mut K,
) -> Outcome
    ensures ended { IsOk answer → (messages : List PgWireBackendMessage)
        → replies.now ≡ replies_bytes messages
        → HasTold result (demo_lines count (row_count messages) client (length replies.now))
        (K.written out.old) (K.written out.new) (K.faults out.old) (K.faults out.new) }
    ensures given_up { IsErr answer → (result ≡ Outcome.Conversation (Err ServeError.NoMemory))
        × (K.written out.new ≡ K.written out.old) × (K.faults out.new ≡ K.faults out.old) }
    ensures never_falls { K.faults out.old ≤ K.faults out.new }
{
    match answer {
        Ok(_) => tell(alloc, count, client, replies, out),
        Err(_) => Outcome::OUT_OF_MEMORY,
    }
}

/// Counts the rows of the replies, and writes the lines.
fn tell<K: Sink>(
    alloc: Global,
    relations: u32,
    client: usize,
    replies: &[u8],
    out: &mut K,
) -> Outcome
    ensures told { (messages : List PgWireBackendMessage) → replies.now ≡ replies_bytes messages
        → HasTold result (demo_lines relations (row_count messages) client (length replies.now))
        (K.written out.old) (K.written out.new) (K.faults out.old) (K.faults out.new) }
    ensures never_falls { K.faults out.old ≤ K.faults out.new }
{
    if replies.len() > GREATEST_LENGTH {
        return Outcome::OUT_OF_MEMORY;
    }
    let rows = count_rows(replies);
    match lines(alloc, relations, rows, client, replies.len()) {
        Ok(lines) => write_lines(lines.as_str(), out),
        Err(AllocError) => Outcome::OUT_OF_MEMORY,
    }
}

/// The four lines.
fn lines(
    alloc: Global,
    relations: u32,
    rows: u64,
    client: usize,
    replies: usize,
) -> Result<String, AllocError>
    ensures { IfOk result (λ lines. string_bytes lines ≡ demo_lines relations rows client replies) }
{
    let lines = format!(in alloc;
        "relations {relations}\nrows {rows}\nin {client}\nout {replies}\n"
    )?;
    Ok(lines)
}

/// Writes the lines.
fn write_lines<K: Sink>(lines: &str, out: &mut K) -> Outcome
    ensures told { HasTold result lines.now (K.written out.old) (K.written out.new)
        (K.faults out.old) (K.faults out.new) }
    ensures never_falls { K.faults out.old ≤ K.faults out.new }
{
    match out.send(lines.as_bytes()) {
        Ok(()) => Outcome::Done,
        Err(SinkError::Failed) => Outcome::Conversation(Err(ServeError::WriteFault)),
        Err(SinkError::NoMemory) => Outcome::OUT_OF_MEMORY,
    }
}
