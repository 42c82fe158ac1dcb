//! What the engine serves: a conversation that takes a client's bytes piece by piece.

ghost use Rattle.std.specs.Prelude.{◌≡◌, ◌≤◌, [], true, OnOk};
ghost use Rattle.conversation_table.specs.Lawful.{IsLawful};
ghost use Rattle.conversation_runs.specs.Causes.{HasCauses};
ghost use Rattle.conversation_runs.specs.Session.{is_more};
ghost use Rattle.pg_engine.specs.Conversing.{Talk, TakesPiece};

use pg_portal::PortalStore;
use pg_session::{
    CancelDesk, ExtendedQueryHandler, PgWireServerHandlers, Progress, ServeError, Session, Sink,
    Turns,
};
use std::alloc::Global;

/// A conversation with one client, which answers the frames of the client's bytes by a table. A
/// session is one, and so is a wrapper of a session that answers some messages in another way.
pub trait Conversation {
    // the states of its table
    ghost At: { Type 0 };
    // the rules that it goes by, and where it stands
    ghost told: { Self → Talk At };

    /// Takes a piece of the client's bytes, sends what waits, and writes the whole answer to the
    /// messages that the piece completes. Ok(More) says that no whole frame is left,
    /// Ok(Ended(kind)) that the conversation has ended. After that, and after an error, it is
    /// closed: WriteFault comes where the sink failed, TurnLimit where a query needed a turn and
    /// none was left, NoMemory where memory ran out. ReadFault never comes.
    fn feed<D: CancelDesk, K: Sink>(
        &mut self,
        alloc: Global,
        desk: &mut D,
        piece: &[u8],
        sink: &mut K,
        turns: &mut Turns,
    ) -> Result<Progress, ServeError>
        requires open { (told self.old).is_open ≡ true }
        ensures fed { TakesPiece (told self.old) (told self.new) piece.now
            (K.written sink.old) (K.written sink.new) (D.told desk.old).calls
            (D.told desk.new).calls result }
        ensures rules { (told self.new).rules ≡ (told self.old).rules }
        ensures sent { OnOk result ((told self.new).unsent ≡ []) }
        ensures open { (told self.new).is_open ≡ is_more result }

        // The cause of each error.
        ensures causes { HasCauses K.faults K.origin sink.old sink.new (D.told desk.old)
            (D.told desk.new) turns.old turns.new result };

    // its table keeps the law of conversation tables: further answers change nothing where none was
    // missing
    ghost lawful: { (c : Self) → IsLawful (told c).rules.table (told c).rules.awaits };
}

impl<
    H: PgWireServerHandlers,
    St: PortalStore<
        Statement = <H::Extended as ExtendedQueryHandler>::Statement,
        Rows = <H::Extended as ExtendedQueryHandler>::Rows,
    >,
> Conversation for Session<H, St> {
    ghost use Rattle.pg_client.specs.State.{State};
    ghost use Rattle.conversation_runs.specs.Session.{whole_rules};
    ghost use Rattle.conversation_runs.proofs.Answering.{whole_lawful};

    ghost At = { State H.Extended.Statement };

    ghost told = { λ s. record {
      rules = whole_rules (H.told s.handlers);
      state = s.state;
      rest = s.rest;
      unsent = s.unsent;
      is_open = s.is_open;
    } };

    ghost lawful = { λ s. whole_lawful (H.told s.handlers) };

    fn feed<D: CancelDesk, K: Sink>(
        &mut self,
        alloc: Global,
        desk: &mut D,
        piece: &[u8],
        sink: &mut K,
        turns: &mut Turns,
    ) -> Result<Progress, ServeError> {
        Session::feed(self, alloc, desk, piece, sink, turns)
    }
}
