//! How an Execute runs the query of a portal that isn't started, and answers with its response.

ghost use Rattle.std.specs.Prelude.{◌≡◌, ◌≤◌, false, suc, List, length, take, Some, Result, IfOk, IfErr, OnOk, OnErr};
ghost use Rattle.pg_messages.specs.declared.frontend.PgWireFrontendMessage.TheVariants as frontend;
ghost use Rattle.pg_results.specs.Responses.{told_response};
ghost use Rattle.pg_results.specs.Rows.{IsAnswerableItem};
ghost use Rattle.pg_results.specs.Told.{ParserTold, told_rows};
ghost use Rattle.pg_portal.specs.Told.{TablePortal};
ghost use Rattle.pg_client.specs.Desk.{DeskTold};
ghost use Rattle.pg_client.specs.Ends.{IsAnswerableError};
ghost use Rattle.pg_client.specs.declared.desk.DeskCall.{DeskCall};
ghost use Rattle.pg_client.specs.declared.ends.Turns.{Turns};
ghost use Rattle.pg_results.specs.declared.error.PgWireError.{PgWireError};
ghost use Rattle.pg_results.specs.declared.response.Response.{Response};
ghost use Rattle.pg_handlers.specs.Beginning.{IfAnswered, IfUnready, IsPolledOnce};
ghost use Rattle.pg_client.specs.Effect.{IsEffect, IsRefusedEffect, Done};
ghost use Rattle.conversation_table.specs.ExecuteRow.{executed, execute_polled, fetched};
ghost use Rattle.conversation_table.specs.Executing.{HasUnstarted, portal_under};
ghost use Rattle.conversation_table.specs.Outcomes.{IsRunEnd};
ghost use Rattle.pg_replies.specs.Replies.{IsTag};
ghost use Rattle.conversation_table.specs.Good.{IsGiven, IsGoodState, IsSendableOutcome, IsSendableResponse};
ghost use Rattle.conversation_table.specs.Handlers.{told_one};
ghost use Rattle.conversation_table.specs.Questions.{Verdict, IsAsked, IsVerdict};
ghost use Rattle.pg_client.specs.State.{state_of};
ghost use Rattle.conversation_table.specs.Waiting.{HasWaited, IsQueryError, KeptByExecute};

use crate::ends::query_out_of_memory;
use crate::query::respond::{respond, send_page};
use crate::query::{Begun, QueryState, Turn, wait_for};
use pg_client::{CancelDesk, Client, SessionError, Turns};
use pg_messages::Execute;
use pg_portal::{CopySource, PgWireError, PortalStore, QueryResponse, Response};
use std::alloc::Global;
use std::mem::drop;

/// Polls the query of a portal that isn't started for the first time, after the desk's `start`.
/// Where it is ready, the Execute is answered with its response. Where it isn't, nothing changes.
#[inline(always)]
pub(crate) fn begin_unstarted<
    St: PortalStore,
    C: CopySource,
    Q: QueryState<Out = Result<Response<St::Rows, C>, PgWireError>>,
>(alloc: Global, client: &mut Client<St>, message: Execute, mut query: Q) -> Begun<Execute, Q>
    requires given { IsGiven (frontend.Execute message) }
    requires portal { HasUnstarted (St.maps client.old.store) message.name }
    requires unspent { (Q.told query).is_spent ≡ false }
    requires sendable { IsSendableOutcome
        (told_one St.Rows.items C.items (Q.told query).outcome) }
    ensures ran { IfAnswered result (λ told. (p : TablePortal St.Statement)
        → portal_under (St.maps client.old.store) message.name ≡ Some p → (calls : List DeskCall)
        → (verdict : Verdict) × IsAsked (Q.told query).owes calls calls verdict
        × IsRunEnd (execute_polled (state_of St.maps client.old) message p verdict
        (told_one St.Rows.items C.items (Q.told query).outcome)) verdict
        client.old.outbox client.new.outbox (state_of St.maps client.new) told) }
    ensures errors { IfAnswered result (λ told.
        IfErr told (IsQueryError St.maps client.old client.new)) }
    ensures kept { IfAnswered result (λ told.
        KeptByExecute St.maps message.name client.old client.new told) }
    ensures calm { IfAnswered result (λ told. (desk : DeskTold) (turns : Turns)
        → HasWaited desk desk turns turns told) }
    ensures good { (parser : ParserTold St.Statement)
        → IsGoodState parser (state_of St.maps client.old)
        → IsGoodState parser (state_of St.maps client.new) }
    ensures unready { IfUnready result (λ kept waiting. (kept ≡ message)
        × IsPolledOnce (Q.told query) (Q.told waiting)) }
    ensures same { IfUnready result (λ kept waiting. client.new ≡ client.old) }
{
    match query.poll() {
        Ok(Turn::Ready(outcome)) => {
            Begun::Answered(answer_waited(alloc, client, message, Ok(outcome)))
        }
        Ok(Turn::Unready) => Begun::Unready(message, query),
        Err(_) => Begun::Answered(query_out_of_memory(message)),
    }
}

/// Waits for the query of a portal that isn't started, which its first poll found unready, and
/// answers the Execute with the query's response. Nothing changes before the response.
pub(crate) fn finish_unstarted<
    St: PortalStore,
    C: CopySource,
    Q: QueryState<Out = Result<Response<St::Rows, C>, PgWireError>>,
    D: CancelDesk,
>(
    alloc: Global,
    client: &mut Client<St>,
    message: Execute,
    query: Q,
    desk: &mut D,
    turns: &mut Turns,
) -> Result<(), SessionError>
    requires given { IsGiven (frontend.Execute message) }
    requires portal { HasUnstarted (St.maps client.old.store) message.name }
    requires unspent { (Q.told query).is_spent ≡ false }
    requires sendable { IsSendableOutcome
        (told_one St.Rows.items C.items (Q.told query).outcome) }
    ensures ran { (p : TablePortal St.Statement)
        → portal_under (St.maps client.old.store) message.name ≡ Some p
        → (verdict : Verdict) × IsAsked (suc (Q.told query).owes) (D.told desk.old).calls
        (D.told desk.new).calls verdict
        × IsRunEnd (execute_polled (state_of St.maps client.old) message p verdict
        (told_one St.Rows.items C.items (Q.told query).outcome)) verdict
        client.old.outbox client.new.outbox (state_of St.maps client.new) result }
    ensures errors { IfErr result (IsQueryError St.maps client.old client.new) }
    ensures kept { KeptByExecute St.maps message.name client.old client.new result }
    ensures good { (parser : ParserTold St.Statement)
        → IsGoodState parser (state_of St.maps client.old)
        → IsGoodState parser (state_of St.maps client.new) }
    ensures waited { HasWaited (D.told desk.old) (D.told desk.new) turns.old turns.new result }
{
    let waited = wait_for(query, desk, turns);
    answer_waited(alloc, client, message, waited)
}

/// Answers an Execute with what the wait for its portal's query came to.
#[inline(always)]
fn answer_waited<St: PortalStore, C: CopySource>(
    alloc: Global,
    client: &mut Client<St>,
    message: Execute,
    waited: Result<Result<Response<St::Rows, C>, PgWireError>, SessionError>,
) -> Result<(), SessionError>
    requires given { IsGiven (frontend.Execute message) }
    requires portal { HasUnstarted (St.maps client.old.store) message.name }
    requires sendable { IfOk waited (λ outcome. IsSendableOutcome
        (told_one St.Rows.items C.items outcome)) }
    requires answerable { IfErr waited IsAnswerableError }
    ensures ran { (p : TablePortal St.Statement)
        → portal_under (St.maps client.old.store) message.name ≡ Some p → (verdict : Verdict)
        → (outcome : Result (Response St.Rows C) PgWireError) → IsVerdict outcome verdict waited
        → IsRunEnd (execute_polled (state_of St.maps client.old) message p verdict
        (told_one St.Rows.items C.items outcome)) verdict
        client.old.outbox client.new.outbox (state_of St.maps client.new) result }
    ensures errors { IfErr result (IsQueryError St.maps client.old client.new) }
    ensures kept { KeptByExecute St.maps message.name client.old client.new result }
    ensures good { (parser : ParserTold St.Statement)
        → IsGoodState parser (state_of St.maps client.old)
        → IsGoodState parser (state_of St.maps client.new) }
    ensures told { (desk new_desk : DeskTold) (before after : Turns)
        → HasWaited desk new_desk before after waited
        → HasWaited desk new_desk before after result }
{
    match waited {
        Ok(Ok(response)) => {
            answer(alloc, client, message, response)?;
            Ok(())
        }
        Ok(Err(error)) => {
            drop(message);
            Err(SessionError::Wire(error))
        }
        Err(error) => {
            drop(message);
            Err(error)
        }
    }
}

/// Answers an Execute with the response of its portal's query: rows start the portal, and its first
/// page is appended. Any other response leaves the portal unstarted.
#[inline(always)]
fn answer<St: PortalStore, C: CopySource>(
    alloc: Global,
    client: &mut Client<St>,
    message: Execute,
    response: Response<St::Rows, C>,
) -> Result<(), PgWireError>
    requires given { IsGiven (frontend.Execute message) }
    requires portal { HasUnstarted (St.maps client.old.store) message.name }
    requires sendable { IsSendableResponse (told_response St.Rows.items C.items response) }
    ensures ok { (p : TablePortal St.Statement)
        → portal_under (St.maps client.old.store) message.name ≡ Some p → OnOk result (IsEffect
        (executed (state_of St.maps client.old) message p
        (told_response St.Rows.items C.items response)) client.old.outbox client.new.outbox
        (Done (state_of St.maps client.new))) }
    ensures refused { (p : TablePortal St.Statement)
        → portal_under (St.maps client.old.store) message.name ≡ Some p
        → IfErr result (IsRefusedEffect (executed (state_of St.maps client.old) message p
        (told_response St.Rows.items C.items response)) client.old.outbox client.new.outbox
        (state_of St.maps client.new)) }
    ensures answerable { IfErr result IsAnswerableItem }
    ensures kept { KeptByExecute St.maps message.name client.old client.new result }
    ensures good { (parser : ParserTold St.Statement)
        → IsGoodState parser (state_of St.maps client.old)
        → IsGoodState parser (state_of St.maps client.new) }
{
    match response {
        Response::Query(rows) => start_portal(alloc, client, message, rows),
        other => {
            drop(message);
            respond(alloc, client, other)
        }
    }
}

/// Starts the portal of an Execute with these rows, and appends its first page.
#[inline(always)]
fn start_portal<St: PortalStore>(
    alloc: Global,
    client: &mut Client<St>,
    message: Execute,
    rows: QueryResponse<St::Rows>,
) -> Result<(), PgWireError>
    requires given { IsGiven (frontend.Execute message) }
    requires portal { HasUnstarted (St.maps client.old.store) message.name }
    requires tag { IsTag rows.command_tag }
    ensures ok { (p : TablePortal St.Statement)
        → portal_under (St.maps client.old.store) message.name ≡ Some p → OnOk result (IsEffect
        (fetched (state_of St.maps client.old) message p (told_rows St.Rows.items rows) 0)
        client.old.outbox client.new.outbox (Done (state_of St.maps client.new))) }
    ensures refused { (p : TablePortal St.Statement)
        → portal_under (St.maps client.old.store) message.name ≡ Some p
        → IfErr result (IsRefusedEffect
        (fetched (state_of St.maps client.old) message p (told_rows St.Rows.items rows) 0)
        client.old.outbox client.new.outbox (state_of St.maps client.new)) }
    ensures answerable { IfErr result IsAnswerableItem }
    ensures kept { KeptByExecute St.maps message.name client.old client.new result }
    ensures good { (parser : ParserTold St.Statement)
        → IsGoodState parser (state_of St.maps client.old)
        → IsGoodState parser (state_of St.maps client.new) }
{
    let Some(portal) = client.store.portal_mut(message.name.as_str()) else {
        unreachable!()
    };
    let limit = message.max_rows;
    drop(message);
    portal.start(rows);
    send_page(alloc, &mut client.outbox, portal, limit)
}
