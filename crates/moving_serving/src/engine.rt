//! The engine: it reads the client's bytes, feeds a conversation with them, and counts turns.

ghost use Rattle.std.specs.Prelude.{◌≡◌, ◌≤◌, ◌<◌, [], length, take, true, IfOk};
ghost use Rattle.pg_portal.specs.Maps.{no_maps};
ghost use Rattle.pg_client.specs.State.{first_state};
ghost use Rattle.pg_engine.specs.Around.{around};
ghost use Rattle.moving_serving.specs.Serving.{ServesMet, ServesAndLeaves};

use moving_session::{MovingConversation, MovingHandlers, MovingSession};
use pg_portal::PortalStore;
use pg_session::{
    CancelDesk, EndKind, ExtendedQueryHandler, PgWireServerHandlers, Progress, ServeError, Sink,
    Source, Turns,
};
use std::alloc::{AllocError, Global};

/// How many bytes a read asks for.
const READ_LEN: usize = 8192;

/// Serves a client by handlers that change: takes its bytes from the source, has each message met,
/// and writes its answer to the sink, until the conversation ends. Then the handlers are told so.
///
/// A read that gives at least one byte or the end costs one turn, and so does each poll that finds a
/// query unready. The store has to be empty. Ok says how the conversation ended, and all of its
/// replies are written then. ReadFault comes where a read failed, and the whole answer to the frames
/// taken before is written then. WriteFault comes where a write failed, TurnLimit where all turns
/// were spent and one more was needed, NoMemory where memory ran out. After these three a front of
/// the answer is written. Where memory runs out before the conversation begins, the handlers are
/// dropped, and are told nothing.
pub fn serve_moving<
    M: MovingHandlers,
    St: PortalStore<
        Statement = <<M::Sheet as PgWireServerHandlers>::Extended as ExtendedQueryHandler>::Statement,
        Rows = <<M::Sheet as PgWireServerHandlers>::Extended as ExtendedQueryHandler>::Rows,
    >,
    D: CancelDesk,
    S: Source,
    K: Sink,
>(
    alloc: Global,
    handlers: M,
    store: St,
    desk: &mut D,
    source: &mut S,
    sink: &mut K,
    turn_limit: u64,
) -> Result<EndKind, ServeError>
    requires empty { St.maps store ≡ no_maps }
    ensures { let round = around S.left S.reads S.faults S.origin K.written K.faults K.origin D.told in
        (last : M.World) × ServesMet M.meets (M.world handlers) last
        (first_state (D.told desk.old).registration.0 (D.told desk.old).registration.1)
        turn_limit result (round source.old sink.old desk.old)
        (round source.new sink.new desk.new) }
{
    let Ok(mut session) = session_at(alloc, handlers, store, desk) else {
        return Err(ServeError::NoMemory);
    };
    serve(alloc, &mut session, desk, source, sink, turn_limit)
}

/// A session that awaits a client's startup packet, with the pid and the key of this desk. The only
/// error is running out of memory.
fn session_at<
    M: MovingHandlers,
    St: PortalStore<
        Statement = <<M::Sheet as PgWireServerHandlers>::Extended as ExtendedQueryHandler>::Statement,
        Rows = <<M::Sheet as PgWireServerHandlers>::Extended as ExtendedQueryHandler>::Rows,
    >,
    D: CancelDesk,
>(alloc: Global, handlers: M, store: St, desk: &D) -> Result<MovingSession<M, St>, AllocError>
    requires empty { St.maps store ≡ no_maps }
    ensures { IfOk result (λ session. session ≡ record {
      handlers = handlers;
      state = first_state (D.told desk.now).registration.0 (D.told desk.now).registration.1;
      rest = [];
      unsent = [];
      is_open = true;
    }) }
{
    let (pid, key) = desk.identity();
    let key = key.copy_of()?;
    MovingSession::new(alloc, handlers, store, pid, key)
}

/// Serves a client by a conversation that has taken nothing yet, as [`serve_moving`] does, and tells
/// its handlers of the end.
pub fn serve<C: MovingConversation, D: CancelDesk, S: Source, K: Sink>(
    alloc: Global,
    conversation: &mut C,
    desk: &mut D,
    source: &mut S,
    sink: &mut K,
    turn_limit: u64,
) -> Result<EndKind, ServeError>
    requires open { (C.told conversation.old).is_open ≡ true }
    requires rest { C.rest conversation.old ≡ [] }
    requires unsent { (C.told conversation.old).unsent ≡ [] }
    ensures { let round = around S.left S.reads S.faults S.origin K.written K.faults K.origin D.told in
        ServesAndLeaves C.meets C.leaves (C.told conversation.old).world
        (C.told conversation.new).world (C.told conversation.old).state turn_limit result
        (round source.old sink.old desk.old) (round source.new sink.new desk.new) }
{
    let mut turns = Turns {
        spent: 0,
        limit: turn_limit,
    };
    let mut buffer = [0u8; READ_LEN];
    let outcome = serve_pieces(
        alloc,
        conversation,
        desk,
        source,
        sink,
        &mut turns,
        &mut buffer,
    );
    conversation.leave();
    outcome
}

/// Feeds a conversation with what the source gives, until it ends.
fn serve_pieces<C: MovingConversation, D: CancelDesk, S: Source, K: Sink>(
    alloc: Global,
    conversation: &mut C,
    desk: &mut D,
    source: &mut S,
    sink: &mut K,
    turns: &mut Turns,
    buffer: &mut [u8],
) -> Result<EndKind, ServeError>
    requires open { (C.told conversation.old).is_open ≡ true }
    requires rest { C.rest conversation.old ≡ [] }
    requires unsent { (C.told conversation.old).unsent ≡ [] }
    requires fresh { turns.old.spent ≡ 0 }
    requires room { 0 < length buffer.old }
    ensures { let round = around S.left S.reads S.faults S.origin K.written K.faults K.origin D.told in
        ServesMet C.meets (C.told conversation.old).world (C.told conversation.new).world
        (C.told conversation.old).state turns.old.limit result
        (round source.old sink.old desk.old) (round source.new sink.new desk.new) }
{
    'turns: loop {
        if !turns.spend() {
            return Err(ServeError::TurnLimit);
        }
        let Ok(n) = source.receive(buffer) else {
            return Err(ServeError::ReadFault);
        };
        if n == 0 {
            return Ok(EndKind::InputEnd);
        }
        match conversation.feed(alloc, desk, front_of(buffer, n), sink, turns) {
            Ok(Progress::More) => {}
            Ok(Progress::Ended(kind)) => return Ok(kind),
            Err(error) => return Err(error),
        }
    }
}

/// The first bytes of a buffer.
fn front_of(buffer: &[u8], n: usize) -> &[u8]
    requires { n ≤ length buffer.now }
    ensures { result.now ≡ take n buffer.now }
{
    &buffer[..n]
}
