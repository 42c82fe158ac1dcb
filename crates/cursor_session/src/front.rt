//! The front of a session: it takes the client's bytes, and answers commands of cursors.

ghost use Rattle.std.specs.Prelude.{◌≡◌, ◌≤◌, ◌++◌, [], true, false, IfOk, OnOk};
ghost use Rattle.std.specs.Arc.{arc_value};
ghost use Rattle.pg_portal.specs.Maps.{no_maps};
ghost use Rattle.pg_client.specs.State.{first_state};
ghost use Rattle.conversation_runs.specs.Session.{is_more};

use crate::parts::Front;
use pg_engine::Conversation;
use pg_messages::SecretKey;
use pg_portal::PortalStore;
use pg_session::{
    CancelDesk, ExtendedQueryHandler, PgWireServerHandlers, Progress, ServeError, Session, Sink,
    Turns,
};
use std::alloc::{AllocError, Global};
use std::marker::Model;
use std::sync::Arc;

/// A session whose client may use cursors in simple queries: DECLARE, FETCH and CLOSE over the
/// session's own portals. It is a conversation by the cursor table.
///
/// A Query frame that comes in pieces while the server is ready for one is held until it is whole.
/// Of any other frame, the header is held until it is whole. All other bytes go on to the session as
/// they come.
#[derive(Drop)]
pub struct CursorSession<
    H: PgWireServerHandlers,
    St: PortalStore<Statement = <H::Extended as ExtendedQueryHandler>::Statement>,
> {
    front: Front<Session<H, St>>,
    opened: bool,
}

impl<
    H: PgWireServerHandlers,
    St: PortalStore<Statement = <H::Extended as ExtendedQueryHandler>::Statement>,
> Model for CursorSession<H, St> {
    ghost use Rattle.std.specs.Prelude.{◌≡◌, true};
    ghost use Rattle.std.specs.Coded.{codes};
    ghost use Rattle.std.specs.FinMap as fin;
    ghost use Rattle.cursor_session.specs.Fronts.{CursorValue, IsStanding};
    ghost use Rattle.cursor_session.specs.Seen.{front_seen};

    ghost Value = { CursorValue H H.Extended.Statement };

    ghost coded = { Prim.hlevel (codes, fin.code) };

    ghost view = { λ s. record {
      front = front_seen (λ session. session) s.front;
      is_open = s.opened;
    } };

    ghost invariant = { λ s. s.opened ≡ true
        → IsStanding (front_seen (λ session. session) s.front) };
}

impl<
    H: PgWireServerHandlers,
    St: PortalStore<
        Statement = <H::Extended as ExtendedQueryHandler>::Statement,
        Rows = <H::Extended as ExtendedQueryHandler>::Rows,
    >,
> CursorSession<H, St> {
    /// A front of a session that awaits the startup packet of a client, who is told this pid and
    /// key, in 3.0 the key's first four bytes. Its store is empty. The only error is want of memory.
    pub fn new(
        alloc: Global,
        handlers: Arc<H>,
        store: St,
        pid: i32,
        key: SecretKey,
    ) -> Result<CursorSession<H, St>, AllocError>
        requires empty { St.maps store ≡ no_maps }
        ensures { IfOk result (λ session. session ≡ record {
          front = record {
            inner = record {
              handlers = arc_value handlers;
              state = first_state pid key;
              rest = [];
              unsent = [];
              is_open = true;
            };
            held = [];
            owed = 0;
          };
          is_open = true;
        }) }
    {
        let inner = Session::new(alloc, handlers, store, pid, key)?;
        Ok(CursorSession {
            front: Front::new(alloc, inner),
            opened: true,
        })
    }
}

/// Whether the conversation goes on.
fn is_more(outcome: &Result<Progress, ServeError>) -> bool
    ensures { result ≡ is_more outcome.now }
{
    matches!(outcome, Ok(Progress::More))
}

impl<
    H: PgWireServerHandlers,
    St: PortalStore<
        Statement = <H::Extended as ExtendedQueryHandler>::Statement,
        Rows = <H::Extended as ExtendedQueryHandler>::Rows,
    >,
> Conversation for CursorSession<H, St> {
    ghost use Rattle.pg_client.specs.State.{State};
    ghost use Rattle.cursor_session.specs.Fronts.{talk_of};
    ghost use Rattle.cursor_table.proofs.CursorLaws.{rules_lawful};

    ghost At = { State H.Extended.Statement };

    ghost told = { λ s. talk_of H.told s };

    ghost lawful = { λ s. rules_lawful (H.told s.front.inner.handlers) };

    fn feed<D: CancelDesk, K: Sink>(
        &mut self,
        alloc: Global,
        desk: &mut D,
        piece: &[u8],
        sink: &mut K,
        turns: &mut Turns,
    ) -> Result<Progress, ServeError> {
        self.opened = false;
        let outcome = self.front.take(alloc, desk, piece, sink, turns);
        self.opened = is_more(&outcome);
        outcome
    }
}
