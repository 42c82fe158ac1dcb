//! A client is served by any service and recorded.

ghost use Rattle.std.specs.Prelude.{◌≡◌, ◌++◌, List};
ghost use Rattle.client_services.specs.Served.{IsServedBy};
ghost use Rattle.pg_client.specs.declared.desk.DeskCall.{DeskCall};
ghost use Rattle.pg_engine.specs.Around.{around};
ghost use Rattle.session_recording.specs.Recorded.{IsRecordedIfRoom, passage};

use crate::error::RecordError;
use crate::recorder::{record_in, reserve};
use client_services::Service;
use conversation_runs::{ServeError, Sink, Source};
use pg_handlers::{CancelDesk, EndKind};
use recording_text::Recording;
use std::alloc::Global;

/// Serves a client by a service, as [`Service::serve`] does, and records the session. The first
/// answer is that of serving; the second is the recording, whose `pid` and `key` are those that the
/// desk had before.
///
/// Room for `room` bytes of the client, and for `room` bytes of the replies, is taken before
/// anything is served. Where there isn't enough memory for it, the client is served all the same, and
/// the second answer is NoMemory. Else each byte is copied once, and only calls of the desk take more
/// memory; a call for which there is none ends the session with NoMemory.
///
/// TooLong comes where there was no room for all bytes, however the session ended. It tells how many
/// were read, or how many were sent by the sends that were answered with Ok, whichever is the
/// greater. Else Unended comes where the first answer is an error. Else NoMemory comes where a send
/// was refused and the session came to its end all the same.
pub fn record_service<V: Service, D: CancelDesk, S: Source, K: Sink>(
    alloc: Global,
    service: &V,
    desk: &mut D,
    source: &mut S,
    sink: &mut K,
    turn_limit: u64,
    room: usize,
) -> (Result<EndKind, ServeError>, Result<Recording, RecordError>)

    // The recording, or why there is none.
    ensures recorded { (calls : List DeskCall)
        × ((D.told desk.new).calls ≡ (D.told desk.old).calls ++ calls)
        × IsRecordedIfRoom (D.told desk.old).registration room result.0 result.1
        (passage S.left K.written K.refused K.sent source.old sink.old source.new sink.new) calls }

    // The client is served as without a recorder.
    ensures served { let round = around S.left S.reads S.faults S.origin K.written K.faults K.origin D.told in
        IsServedBy (V.rules service.now)
        (V.begins service.now (D.told desk.old).registration.0 (D.told desk.old).registration.1)
        (V.also service.now) turn_limit result.0
        (round source.old sink.old desk.old) (round source.new sink.new desk.new) }
{
    let Ok(space) = reserve(alloc, room, desk) else {
        let answer = service.serve(alloc, desk, source, sink, turn_limit);
        return (answer, Err(RecordError::NoMemory));
    };
    record_in(alloc, service, desk, source, sink, turn_limit, room, space)
}
