//! How responses are sent, the same in an Execute and in a Query.

ghost use Rattle.std.specs.Prelude.{◌≡◌, ◌⊎◌, ◌++◌, ◌∷◌, [], None, Some, false, List, map, length, take, IfOk, IfErr, OnOk, OnErr, codes};
ghost use Rattle.std.specs.List.{AllByRecursion};
ghost use Rattle.pg_messages.specs.Replies.{replies_bytes, IsEncodable};
ghost use Rattle.pg_messages.specs.declared.backend.PgWireBackendMessage.TheVariants as server;
ghost use Rattle.pg_replies.specs.Replies.{error_reply};
ghost use Rattle.pg_results.specs.Told.{with_items, told_rows};
ghost use Rattle.pg_results.specs.Page.{item_page, PageEnd, AtLimit, AtEnd, AtError};
ghost use Rattle.pg_results.specs.Responses.{told_response, told_responses};
ghost use Rattle.pg_results.specs.Rows.{IsAnswerableItem};
ghost use Rattle.pg_portal.specs.Told.{Stage, stage_of, bound_of, portal_of};
ghost use Rattle.pg_results.specs.declared.error.PgWireError.{PgWireError};
ghost use Rattle.pg_client.specs.Effect.{IsEffect, IsRefusedEffect, Done};
ghost use Rattle.conversation_table.specs.ExecuteRow.{executed_without_rows, executed_other};
ghost use Rattle.conversation_table.specs.Executing.{IsPageOf, HasComeTo, OnlyLosesUnnamed, page_result, has_rows, is_unstarted};
ghost use Rattle.conversation_table.specs.Good.{IsSendableResponse, HasGoodTag};
ghost use Rattle.pg_replies.specs.ResponseRows.{responded};
ghost use Rattle.conversation_table.specs.SimpleRows.{responded_all};
ghost use Rattle.pg_replies.specs.Sending.{IsAllSent};
ghost use Rattle.pg_handlers.specs.Sending.{behind};
ghost use Rattle.pg_client.specs.State.{state_of};
ghost use Rattle.conversation_table.specs.Waiting.{OnlyAnswers};

use crate::ends::out_of_memory;
use pg_client::Client;
use pg_messages::{
    EmptyQueryResponse, ErrorInfo, ErrorResponse, PgList, PgWireBackendMessage, TransactionStatus,
};
use pg_outbox::Outbox;
use pg_portal::{
    CopySource, PgWireConnectionState, PgWireError, Portal, PortalExecutionState, PortalStore,
    Response, RowSource,
};
use pg_replies::{
    push_reply, send_copy_both_response, send_copy_in, send_copy_out_response, send_done,
    send_execution_response, send_next_page, send_query_response,
};
use std::alloc::{AllocError, Global};

/// What a response left: the transaction status after it, and whether a COPY of the client has
/// begun.
#[derive(Clone, Copy)]
pub(crate) struct Behind {
    pub status: TransactionStatus,
    pub copying: bool,
}

impl Behind {
    /// This status, and no COPY has begun.
    fn at(status: TransactionStatus) -> Behind
        ensures { result ≡ record { status = status; copying = false } }
    {
        Behind {
            status,
            copying: false,
        }
    }
}

/// Appends EmptyQueryResponse.
pub(crate) fn send_empty_query_response(outbox: &mut Outbox) -> Result<(), PgWireError>
    ensures ok { OnOk result (outbox.new ≡ outbox.old
        ++ replies_bytes (server.EmptyQueryResponse (record {}) ∷ [])) }
    ensures refused { IfErr result (λ e. e ≡ PgWireError.NoMemory) }
    ensures err { OnErr result (outbox.new ≡ outbox.old) }
{
    push_reply(
        outbox,
        PgWireBackendMessage::EmptyQueryResponse(EmptyQueryResponse {}),
    )?;
    Ok(())
}

/// Appends ErrorResponse.
fn send_error(outbox: &mut Outbox, info: ErrorInfo) -> Result<(), PgWireError>
    requires { IsEncodable (error_reply info) }
    ensures ok { OnOk result (outbox.new ≡ outbox.old ++ replies_bytes (error_reply info ∷ [])) }
    ensures refused { IfErr result (λ e. e ≡ PgWireError.NoMemory) }
    ensures err { OnErr result (outbox.new ≡ outbox.old) }
{
    push_reply(
        outbox,
        PgWireBackendMessage::ErrorResponse(ErrorResponse { info }),
    )?;
    Ok(())
}

/// Appends the replies to a response at this transaction status, and returns what it left. An error
/// in the place of a row or of data is returned, and the replies before it stay in the outbox.
#[inline(always)]
pub(crate) fn send_response<R: RowSource, C: CopySource>(
    alloc: Global,
    outbox: &mut Outbox,
    status: TransactionStatus,
    response: Response<R, C>,
) -> Result<Behind, PgWireError>
    requires { IsSendableResponse (told_response R.items C.items response) }
    ensures sent { IsAllSent (responded status (told_response R.items C.items response))
        outbox.old outbox.new result }
    ensures left { IfOk result (λ left.
        left ≡ behind (responded status (told_response R.items C.items response))) }
    ensures answerable { IfErr result IsAnswerableItem }
    ensures kept { take (length outbox.old) outbox.new ≡ outbox.old }
{
    let left = left_by(status, &response);
    send_replies(alloc, outbox, response)?;
    Ok(left)
}

/// What a response leaves at this transaction status, if all of it is sent.
fn left_by<R: RowSource, C: CopySource>(
    status: TransactionStatus,
    response: &Response<R, C>,
) -> Behind
    ensures { (responded status (told_response R.items C.items response.now)).refusal ≡ None
        → result ≡ behind (responded status (told_response R.items C.items response.now)) }
{
    match response {
        Response::TransactionStart(_) => Behind::at(status.to_in_transaction_state()),
        Response::TransactionEnd(_) => Behind::at(status.to_idle_state()),
        Response::Error(_) => Behind::at(status.to_error_state()),
        Response::CopyIn(_) | Response::CopyBoth(_) => Behind {
            status,
            copying: true,
        },
        Response::EmptyQuery | Response::Query(_) | Response::Execution(_) | Response::CopyOut(_) =>
            Behind::at(status),
    }
}

/// Appends the replies to a response. They are the same at every transaction status.
fn send_replies<R: RowSource, C: CopySource>(
    alloc: Global,
    outbox: &mut Outbox,
    response: Response<R, C>,
) -> Result<(), PgWireError>
    requires { IsSendableResponse (told_response R.items C.items response) }
    ensures sent { (now : TransactionStatus) → IsAllSent
        (responded now (told_response R.items C.items response)) outbox.old outbox.new result }
    ensures answerable { IfErr result IsAnswerableItem }
    ensures kept { take (length outbox.old) outbox.new ≡ outbox.old }
{
    match response {
        Response::EmptyQuery => send_empty_query_response(outbox),
        Response::Query(rows) => send_query_response(alloc, outbox, rows, true),
        Response::Execution(tag)
        | Response::TransactionStart(tag)
        | Response::TransactionEnd(tag) => { Ok(send_execution_response(alloc, outbox, tag)?) }
        Response::Error(info) => send_error(outbox, info),
        Response::CopyIn(copy) => Ok(send_copy_in(alloc, outbox, copy)?),
        Response::CopyOut(copy) => send_copy_out_response(alloc, outbox, copy),
        Response::CopyBoth(copy) => send_copy_both_response(alloc, outbox, copy),
    }
}

/// Appends the replies to several responses, in their order. The first error in the place of a row
/// or of data is returned, and the replies before it stay in the outbox.
pub(crate) fn send_responses<R: RowSource, C: CopySource>(
    alloc: Global,
    outbox: &mut Outbox,
    status: TransactionStatus,
    responses: PgList<Response<R, C>>,
) -> Result<Behind, PgWireError>
    requires { AllByRecursion IsSendableResponse (told_responses R.items C.items responses) }
    ensures sent { IsAllSent (responded_all status (told_responses R.items C.items responses))
        outbox.old outbox.new result }
    ensures left { IfOk result (λ left.
        left ≡ behind (responded_all status (told_responses R.items C.items responses))) }
    ensures answerable { IfErr result IsAnswerableItem }
    ensures kept { take (length outbox.old) outbox.new ≡ outbox.old }
{
    let mut left = Behind::at(status);
    for response in responses.into_vec() {
        let next = send_response(alloc, outbox, left.status, response)?;
        left = Behind {
            status: next.status,
            copying: left.copying || next.copying,
        };
    }
    Ok(left)
}

/// Whether a portal isn't started.
pub(crate) fn is_unstarted<S: Drop, R: RowSource>(portal: &Portal<S, R>) -> bool
    ensures { result ≡ is_unstarted (stage_of R.items portal.now) }
{
    matches!(portal.state, PortalExecutionState::Initial)
}

/// Appends the next page of a started portal, and counts its rows. An error in the place of a row
/// is returned, and the rows before it are taken back and not counted.
pub(crate) fn send_page<S: Drop, R: RowSource>(
    alloc: Global,
    outbox: &mut Outbox,
    portal: &mut Portal<S, R>,
    max_rows: i32,
) -> Result<(), PgWireError>
    requires started { is_unstarted (stage_of R.items portal.old) ≡ false }
    requires tag { HasGoodTag (stage_of R.items portal.old) }
    ensures page { IsPageOf (page_result max_rows (stage_of R.items portal.old))
        (stage_of R.items portal.new) outbox.old outbox.new result }
    ensures answerable { IfErr result IsAnswerableItem }
    ensures stays { OnErr result
        (HasComeTo (stage_of R.items portal.old) (stage_of R.items portal.new)) }
    ensures kept { take (length outbox.old) outbox.new ≡ outbox.old }
    ensures bound { bound_of portal.new ≡ bound_of portal.old }
    ensures tag { HasGoodTag (stage_of R.items portal.new) }
{
    let delivered = portal.delivered;
    let page = match &mut portal.state {
        PortalExecutionState::Initial => return Err(PgWireError::PortalNotStarted),
        PortalExecutionState::Finished => {
            let Ok(()) = send_done(alloc, outbox, "SELECT", delivered) else {
                return out_of_memory(());
            };
            return Ok(());
        }
        PortalExecutionState::Suspended(response) => {
            let start = outbox.len();
            match send_next_page(alloc, outbox, response, delivered, max_rows) {
                Ok(page) => page,
                Err(error) => {
                    outbox.truncate(start);
                    return Err(error);
                }
            }
        }
    };
    portal.delivered = page.delivered;
    if page.suspended {
        return Ok(());
    }
    portal.state = PortalExecutionState::Finished;
    Ok(())
}

/// Answers an Execute with a response without rows.
pub(crate) fn respond<St: PortalStore, C: CopySource>(
    alloc: Global,
    client: &mut Client<St>,
    response: Response<St::Rows, C>,
) -> Result<(), PgWireError>
    requires sendable { IsSendableResponse (told_response St.Rows.items C.items response) }
    requires without_rows { has_rows (told_response St.Rows.items C.items response) ≡ false }
    ensures ok { OnOk result (IsEffect
        (executed_without_rows (state_of St.maps client.old)
        (told_response St.Rows.items C.items response)) client.old.outbox client.new.outbox
        (Done (state_of St.maps client.new))) }
    ensures refused { IfErr result (IsRefusedEffect
        (executed_without_rows (state_of St.maps client.old)
        (told_response St.Rows.items C.items response)) client.old.outbox client.new.outbox
        (state_of St.maps client.new)) }
    ensures answerable { IfErr result IsAnswerableItem }
    ensures metadata { client.new.info.metadata ≡ client.old.info.metadata }
    ensures store { OnlyLosesUnnamed (St.maps client.old.store) (St.maps client.new.store) }
    ensures left { OnErr result (client.new.store ≡ client.old.store) }
    ensures info { OnErr result (client.new.info ≡ client.old.info) }
    ensures kept { take (length client.old.outbox) client.new.outbox ≡ client.old.outbox }
{
    match response {
        Response::Error(info) => Err(PgWireError::UserError(info)),
        Response::TransactionEnd(tag) => {
            send_execution_response(alloc, &mut client.outbox, tag)?;
            client.store.rm_portal("");
            client.info.status = client.info.status.to_idle_state();
            Ok(())
        }
        other => respond_otherwise(alloc, client, other),
    }
}

/// Answers an Execute with a response that has no rows, is no error and ends no transaction.
fn respond_otherwise<St: PortalStore, C: CopySource>(
    alloc: Global,
    client: &mut Client<St>,
    response: Response<St::Rows, C>,
) -> Result<(), PgWireError>
    requires sendable { IsSendableResponse (told_response St.Rows.items C.items response) }
    ensures ok { OnOk result (IsEffect
        (executed_other (state_of St.maps client.old)
        (told_response St.Rows.items C.items response)) client.old.outbox client.new.outbox
        (Done (state_of St.maps client.new))) }
    ensures refused { IfErr result (IsRefusedEffect
        (executed_other (state_of St.maps client.old)
        (told_response St.Rows.items C.items response)) client.old.outbox client.new.outbox
        (state_of St.maps client.new)) }
    ensures answerable { IfErr result IsAnswerableItem }
    ensures kept { OnlyAnswers client.old client.new result }
{
    let left = send_response(alloc, &mut client.outbox, client.info.status, response)?;
    client.info.status = left.status;
    if left.copying {
        client.info.state = PgWireConnectionState::CopyInProgress(true);
    }
    Ok(())
}
