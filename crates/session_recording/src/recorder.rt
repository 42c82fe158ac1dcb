//! A session over relations is served and recorded.

ghost use Rattle.std.specs.Prelude.{◌≡◌, ◌++◌, List, IfOk, IfErr, IfSome};
ghost use Rattle.client_services.specs.Served.{IsServedBy};
ghost use Rattle.conversation_table.specs.Questions.{questions_since};
ghost use Rattle.pg_client.specs.declared.desk.DeskCall.{DeskCall};
ghost use Rattle.pg_engine.specs.Around.{ServesSession, around};
ghost use Rattle.pg_engine.specs.Serving.{HasCause, counts_of};
ghost use Rattle.relation_serving.specs.Completeness.{IsComplete};
ghost use Rattle.relation_serving.specs.Serving.{WentByTables};
ghost use Rattle.relation_tables.specs.RelationHandler.{relation_handlers};
ghost use Rattle.session_recording.specs.Kept.{IsCountedBy, IsTakenOf, IsSentTo};
ghost use Rattle.session_recording.specs.Making.{IsMadeOf, IsRefusedOf, IsSpaceFor, IsUnused};
ghost use Rattle.session_recording.specs.Recorded.{IsRecorded, IsFaithful, passage};

use crate::desk::RecordingDesk;
use crate::error::RecordError;
use crate::keeping::FirstBytes;
use crate::sink::RecordingSink;
use crate::source::RecordingSource;
use client_services::Service;
use conversation_runs::{ServeError, Sink, Source};
use pg_handlers::{CancelDesk, DeskCall, EndKind};
use pg_messages::{PgBytes, PgList, SecretKey};
use recording_text::Recording;
use relation_handlers::RelationTable;
use relation_services::LentRelations;
use std::alloc::{AllocError, Global};

/// Serves a client over relations, as `serve_relations_on` of relation_serving does, and records the
/// session. The first answer is that of serving; the second is the recording, whose `pid` and `key`
/// are those that the desk had before.
///
/// Room for `room` bytes of the client, and for `room` bytes of the replies, is taken before
/// anything is served. Where there isn't enough memory, nothing is served, and both answers are
/// NoMemory. Then each byte is copied once, and only calls of the desk take more memory.
///
/// TooLong comes where there was no room for all bytes, however the session ended. It tells how many
/// were read, or how many were sent by the sends that were answered with Ok, whichever is the
/// greater. Else Unended comes where the first answer is an error. Else NoMemory comes where a send
/// was refused and the session came to its end all the same.
pub fn record_session<D: CancelDesk, S: Source, K: Sink>(
    alloc: Global,
    relations: &RelationTable,
    desk: &mut D,
    source: &mut S,
    sink: &mut K,
    turn_limit: u64,
    room: usize,
) -> (Result<EndKind, ServeError>, Result<Recording, RecordError>)

    // The recording, or why there is none; and it is that of a run.
    ensures recorded { (calls : List DeskCall)
        × ((D.told desk.new).calls ≡ (D.told desk.old).calls ++ calls)
        × IsRecorded (D.told desk.old).registration room result.0 result.1
        (passage S.left K.written K.refused K.sent source.old sink.old source.new sink.new) calls }
    ensures faithful { IsFaithful relations.now
        (passage S.left K.written K.refused K.sent source.old sink.old source.new sink.new) result.1 }

    // The session is served as without a recorder.
    ensures went { (calls : List DeskCall)
        × ((D.told desk.new).calls ≡ (D.told desk.old).calls ++ calls)
        × WentByTables relations.now (D.told desk.old).registration result.0 (S.left source.old)
        (S.left source.new)
        (K.written sink.old) (K.written sink.new) calls }
    ensures cause { HasCause result.0 turn_limit
        (questions_since (D.told desk.old).calls (D.told desk.new).calls)
        (counts_of S.reads S.faults K.faults source.old sink.old)
        (counts_of S.reads S.faults K.faults source.new sink.new) }
    ensures complete { IsComplete relations.now turn_limit result.0 (S.left source.old)
        (counts_of S.reads S.faults K.faults source.old sink.old)
        (counts_of S.reads S.faults K.faults source.new sink.new) }
    ensures serves { let round = around S.left S.reads S.faults S.origin K.written K.faults K.origin D.told in
        ServesSession (relation_handlers relations.now) turn_limit result.0
        (round source.old sink.old desk.old) (round source.new sink.new desk.new) }
{
    let _valid = relations.relations();
    let Ok(space) = reserve(alloc, room, desk) else {
        return (Err(ServeError::NoMemory), Err(RecordError::NoMemory));
    };
    let service = LentRelations { relations };
    record_in(alloc, &service, desk, source, sink, turn_limit, room, space)
}

/// What is taken before a session is served.
#[derive(Drop)]
pub(crate) struct Space {
    pid: i32,
    key: SecretKey,
    client: FirstBytes,
    replies: FirstBytes,
}

/// Makes room, and copies the registration.
pub(crate) fn reserve<D: CancelDesk>(
    alloc: Global,
    room: usize,
    desk: &D,
) -> Result<Space, AllocError>
    ensures { IfOk result (IsSpaceFor (D.told desk.now).registration room) }
{
    let (pid, key) = desk.identity();
    Ok(Space {
        pid,
        key: key.copy_of()?,
        client: FirstBytes::with_room(alloc, room)?,
        replies: FirstBytes::with_room(alloc, room)?,
    })
}

/// Serves a client by a service, and records the session in the space that was made.
pub(crate) fn record_in<V: Service, D: CancelDesk, S: Source, K: Sink>(
    alloc: Global,
    service: &V,
    desk: &mut D,
    source: &mut S,
    sink: &mut K,
    turn_limit: u64,
    room: usize,
    space: Space,
) -> (Result<EndKind, ServeError>, Result<Recording, RecordError>)
    requires { IsSpaceFor (D.told desk.old).registration room space }
    ensures recorded { (calls : List DeskCall)
        × ((D.told desk.new).calls ≡ (D.told desk.old).calls ++ calls)
        × IsRecorded (D.told desk.old).registration room result.0 result.1
        (passage S.left K.written K.refused K.sent source.old sink.old source.new sink.new) calls }
    ensures served { let round = around S.left S.reads S.faults S.origin K.written K.faults K.origin D.told in
        IsServedBy (V.rules service.now)
        (V.begins service.now (D.told desk.old).registration.0 (D.told desk.old).registration.1)
        (V.also service.now) turn_limit result.0
        (round source.old sink.old desk.old) (round source.new sink.new desk.new) }
{
    let Space {
        pid,
        key,
        client,
        replies,
    } = space;
    let (answer, kept) = serve_recorded(
        alloc, service, desk, source, sink, turn_limit, client, replies,
    );
    (answer, recording_of(answer, room, pid, key, kept))
}

/// What was kept of a session.
#[derive(Drop)]
struct Kept {
    client: FirstBytes,
    replies: FirstBytes,
    has_refused: bool,
    calls: Vec<DeskCall>,
}

/// Serves a client by a service, and keeps what passes in the room that there is.
fn serve_recorded<V: Service, D: CancelDesk, S: Source, K: Sink>(
    alloc: Global,
    service: &V,
    desk: &mut D,
    source: &mut S,
    sink: &mut K,
    turn_limit: u64,
    client: FirstBytes,
    replies: FirstBytes,
) -> (Result<EndKind, ServeError>, Kept)
    requires client { IsUnused client client.room }
    requires replies { IsUnused replies replies.room }
    ensures client { IfSome (S.left source.old) (λ text. IsTakenOf text (S.left source.new)
        client.room result.1.client.bytes.items result.1.client.count) }
    ensures replies { IfSome (K.written sink.old) (λ first. IsSentTo first (K.written sink.new)
        replies.room result.1.replies.bytes.items result.1.replies.count result.1.has_refused) }
    ensures counted { IsCountedBy result.1.replies.count result.1.has_refused
        (K.sent sink.old) (K.sent sink.new) (K.refused sink.old) (K.refused sink.new) }
    ensures client_room { result.1.client.room ≡ client.room }
    ensures replies_room { result.1.replies.room ≡ replies.room }
    ensures calls { (D.told desk.new).calls ≡ (D.told desk.old).calls ++ result.1.calls.items }
    ensures served { let round = around S.left S.reads S.faults S.origin K.written K.faults K.origin D.told in
        IsServedBy (V.rules service.now)
        (V.begins service.now (D.told desk.old).registration.0 (D.told desk.old).registration.1)
        (V.also service.now) turn_limit result.0
        (round source.old sink.old desk.old) (round source.new sink.new desk.new) }
{
    let mut desk = RecordingDesk::new(alloc, desk);
    let mut source = RecordingSource::new(source, client);
    let mut sink = RecordingSink::new(sink, replies);
    let answer = service.serve(alloc, &mut desk, &mut source, &mut sink, turn_limit);
    let RecordingDesk { desk, kept: calls } = desk;
    give_back(desk);
    let RecordingSource {
        source,
        before: _,
        kept: client,
    } = source;
    give_back(source);
    let RecordingSink {
        sink,
        before: _,
        kept: replies,
        has_refused,
    } = sink;
    give_back(sink);
    let kept = Kept {
        client,
        replies,
        has_refused,
        calls,
    };
    (answer, kept)
}

/// Gives a borrow back, so that the owner's value is what the borrow left. The checker needs this
/// call for a reference that stood in a struct beside memory.
fn give_back<T>(_lent: &mut T)
    ensures { _lent.new ≡ _lent.old }
{}

/// The recording of a session with this answer, or why there is none.
fn recording_of(
    answer: Result<EndKind, ServeError>,
    room: usize,
    pid: i32,
    key: SecretKey,
    kept: Kept,
) -> Result<Recording, RecordError>
    ensures made { IfOk result (IsMadeOf answer room pid key kept) }
    ensures refused { IfErr result (IsRefusedOf answer room kept) }
{
    let needed = kept.client.count.max(kept.replies.count);
    if needed > room as u64 {
        return Err(RecordError::TooLong(needed));
    }
    let Ok(end) = answer else {
        return Err(RecordError::Unended);
    };
    if kept.has_refused {
        // The session came to its end all the same, and it isn't known what the sink took.
        return Err(RecordError::NoMemory);
    }
    Ok(Recording {
        pid,
        key,
        client: PgBytes::from_vec(kept.client.bytes),
        calls: PgList::from_vec(kept.calls),
        replies: PgBytes::from_vec(kept.replies.bytes),
        end,
    })
}
