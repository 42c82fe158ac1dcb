//! What clients are served, without the clients.

ghost use Rattle.std.specs.Prelude.{ℤ, List, ℕ};
ghost use Rattle.client_services.specs.Served.{IsServedBy, Promise};
ghost use Rattle.conversation_runs.specs.Run.{Rules};
ghost use Rattle.pg_engine.specs.Around.{around};

use pg_session::{CancelDesk, EndKind, ServeError, Sink, Source};
use std::alloc::Global;

/// What clients are served: it holds a conversation of its own with each, and tells by which rules.
/// Clients that are served at once have a value each, over what they share.
pub trait Service: Drop {
    // the states of its table
    ghost At: { Type 0 };
    // the rules that its conversations go by
    ghost rules: { Self → Rules At };
    // where the conversation with a client of this pid and this key may begin
    ghost begins: { Self → ℤ → List ℕ → At → Type 0 };
    // what it promises beside
    ghost also: { Self → Promise At };

    /// Serves the client whom the desk knows: takes its bytes from the source, and writes the
    /// answer to the sink, until the conversation ends. A read that gives at least one byte or the
    /// end costs one turn, and so does each poll that finds a query unready. No more than
    /// `turn_limit` turns are spent.
    ///
    /// Ok tells how the conversation ended, with all of its replies written. ReadFault comes where
    /// a read failed, and the whole answer to the frames taken before is written; WriteFault where
    /// a write failed, TurnLimit where all turns were spent and one more was needed, NoMemory where
    /// memory ran out: then a front of the answer is written.
    fn serve<D: CancelDesk, S: Source, K: Sink>(
        &self,
        alloc: Global,
        desk: &mut D,
        source: &mut S,
        sink: &mut K,
        turn_limit: u64,
    ) -> Result<EndKind, ServeError>
        ensures { let round = around S.left S.reads S.faults S.origin K.written K.faults K.origin D.told in
            IsServedBy (rules self.now)
            (begins self.now (D.told desk.old).registration.0 (D.told desk.old).registration.1)
            (also self.now) turn_limit result
            (round source.old sink.old desk.old) (round source.new sink.new desk.new) };
}
