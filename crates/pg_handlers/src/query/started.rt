//! Execute of a portal that was started, and Execute where no portal has the name.

ghost use Rattle.std.specs.Prelude.{◌≡◌, false, length, take, Some, None, IfSome, IfErr, OnOk, OnErr};
ghost use Rattle.std.specs.FinMap as fin;
ghost use Rattle.pg_messages.specs.declared.frontend.PgWireFrontendMessage.TheVariants as frontend;
ghost use Rattle.pg_portal.specs.Told.{Unstarted, portal_of, stage_of, value_under};
ghost use Rattle.pg_client.specs.Desk.{DeskTold};
ghost use Rattle.pg_client.specs.Effect.{IsRow, IsRefusedRow, Done};
ghost use Rattle.conversation_table.specs.ExecuteRow.{on_execute};
ghost use Rattle.conversation_table.specs.Executing.{IsLeftBehind, is_unstarted, portal_under};
ghost use Rattle.conversation_table.specs.Good.{HasGoodTag, IsGiven, IsGoodState};
ghost use Rattle.conversation_table.specs.Handlers.{ExtendedTold};
ghost use Rattle.conversation_table.specs.Questions.{IsCausedSo, HasSpent, questions_since};
ghost use Rattle.pg_client.specs.Ends.{IsAnswerableError, AtTurnLimit};
ghost use Rattle.pg_client.specs.State.{state_of};
ghost use Rattle.pg_client.specs.declared.ends.Turns.{Turns};

use crate::ends::session_outcome;
use crate::query::respond::{is_unstarted, send_page};
use crate::query::statements::execute_no_portal;
use pg_client::{Client, SessionError};
use pg_messages::Execute;
use pg_portal::{Entry, Portal, PortalStore};
use std::alloc::Global;
use std::mem::drop;

/// The portal under a name, if it isn't started. None where it is, where no portal has the name,
/// and where an empty one has it.
#[inline(always)]
pub(crate) fn unstarted_portal<'s, St: PortalStore>(
    store: &'s St,
    name: &str,
) -> Option<&'s Portal<St::Statement, St::Rows>>
    ensures found { IfSome result (λ p. value_under (fin.get (St.maps store.now).portals name.now)
        ≡ Some (portal_of St.Rows.items p.now)) }
    ensures unstarted { IfSome result (λ p. stage_of St.Rows.items p.now ≡ Unstarted) }
    ensures none { result ≡ None
        → IfSome (value_under (fin.get (St.maps store.now).portals name.now))
        (λ p. is_unstarted p.stage ≡ false) }
{
    match store.get_portal(name) {
        Some(Entry::Value(portal)) => {
            if is_unstarted(portal) {
                Some(portal)
            } else {
                None
            }
        }
        Some(Entry::Empty) | None => None,
    }
}

/// Answers Execute with the next page of a portal that was started. Where no portal has the name,
/// the error is PortalNotFound. An empty one gives EmptyQueryResponse.
pub(crate) fn execute_started<St: PortalStore>(
    alloc: Global,
    client: &mut Client<St>,
    message: Execute,
) -> Result<(), SessionError>
    requires given { IsGiven (frontend.Execute message) }
    requires started { IfSome (portal_under (St.maps client.old.store) message.name)
        (λ p. (is_unstarted p.stage ≡ false) × HasGoodTag p.stage) }
    ensures { (h : ExtendedTold St.Statement) (desk : DeskTold) (turns : Turns)
        → IsGoodState h.parser (state_of St.maps client.old)
        → OnOk result (IsRow
        (λ answers. on_execute h answers (state_of St.maps client.old) message)
        client.old.outbox client.new.outbox desk.calls desk.calls
        (Done (state_of St.maps client.new)))
        × IfErr result (IsRefusedRow
        (λ answers. on_execute h answers (state_of St.maps client.old) message)
        client.old.outbox client.new.outbox desk.calls desk.calls
        (state_of St.maps client.new))
        × IfErr result IsAnswerableError
        × IfErr result (IsCausedSo desk.calls desk.calls)
        × IfErr result (λ e. AtTurnLimit e
        ((state_of St.maps client.new ≡ state_of St.maps client.old)
        × (client.new.outbox ≡ client.old.outbox)))
        × OnErr result (client.new.info ≡ client.old.info)
        × OnErr result (IsLeftBehind (St.maps client.old.store) message.name
        (St.maps client.new.store))
        × (take (length client.old.outbox) client.new.outbox ≡ client.old.outbox)
        × IsGoodState h.parser (state_of St.maps client.new)
        × HasSpent turns turns (questions_since desk.calls desk.calls) result }
{
    let Some(portal) = client.store.portal_mut(message.name.as_str()) else {
        return session_outcome(execute_no_portal(client, message.name));
    };
    let limit = message.max_rows;
    drop(message);
    session_outcome(send_page(alloc, &mut client.outbox, portal, limit))
}
