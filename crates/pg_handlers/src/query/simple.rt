//! The simple query (protocol: Message Flow, Simple Query).

ghost use Rattle.std.specs.Prelude.{◌≡◌, ◌≢◌, ◌≤◌, ◌++◌, ◌∷◌, [], false, suc, List, length, take, Result, Err, IfOk, IfErr, OnOk, OnErr};
ghost use Rattle.pg_messages.specs.Replies.{replies_bytes};
ghost use Rattle.pg_messages.specs.declared.backend.PgWireBackendMessage.TheVariants as server;
ghost use Rattle.pg_messages.specs.declared.frontend.PgWireFrontendMessage.TheVariants as frontend;
ghost use Rattle.pg_results.specs.Clients.{HasShortMetadata};
ghost use Rattle.std.specs.List.{AllByRecursion};
ghost use Rattle.pg_results.specs.Responses.{told_responses};
ghost use Rattle.pg_results.specs.Rows.{IsAnswerableItem};
ghost use Rattle.pg_results.specs.Texts.{IsShortText};
ghost use Rattle.pg_client.specs.Desk.{DeskTold, KeepsDesk, after_calls};
ghost use Rattle.pg_client.specs.Ends.{IsAnswerableError};
ghost use Rattle.pg_client.specs.declared.desk.DeskCall.{DeskCall};
ghost use Rattle.pg_client.specs.declared.desk.DeskCall.TheVariants as call;
ghost use Rattle.pg_client.specs.declared.ends.Turns.{Turns};
ghost use Rattle.pg_messages.specs.declared.simplequery.Query.{Query};
ghost use Rattle.pg_results.specs.declared.error.PgWireError.{PgWireError};
ghost use Rattle.pg_results.specs.declared.response.Response.{Response};
ghost use Rattle.pg_handlers.specs.Beginning.{IfAnswered, IfUnready, IsPolledOnce, WaitsToQuery};
ghost use Rattle.conversation_table.specs.Handlers.{SimpleTold, told_all, told_query};
ghost use Rattle.pg_client.specs.State.{state_of};
ghost use Rattle.pg_client.specs.Effect.{IsEffect, IsRefusedEffect, IsRow, IsRefusedRow, Done, when_ready};
ghost use Rattle.conversation_table.specs.SimpleRows.{on_query, query_polled, answered_all};
ghost use Rattle.conversation_table.specs.Outcomes.{IsRunEnd};
ghost use Rattle.pg_replies.specs.Replies.{ready};
ghost use Rattle.conversation_table.specs.Good.{IsGiven, AreSendable, IsSendableResponse};
ghost use Rattle.conversation_table.specs.Questions.{Verdict, IsAsked, IsVerdict, IsCausedSo, HasSpent, questions_since};
ghost use Rattle.pg_results.specs.declared.client.PgWireConnectionState.TheVariants as phase;
ghost use Rattle.pg_results.specs.declared.error.PgWireError.TheVariants as wire;
ghost use Rattle.pg_client.specs.declared.ends.SessionError.TheVariants as session;
ghost use Rattle.conversation_table.specs.Waiting.{HasWaited, IsQueryError, OnlyAnswers};

use crate::ends::{query_out_of_memory, session_outcome};
use crate::query::respond::{send_empty_query_response, send_responses};
use crate::query::{Begun, QueryState, Turn, wait_for};
use pg_client::{CancelDesk, Client, SessionError, Turns};
use pg_messages::{PgList, Query, TransactionStatus};
use pg_outbox::Outbox;
use pg_portal::{
    ClientInfo, CopySource, PgWireConnectionState, PgWireError, PortalStore, Response, RowSource,
    is_blank,
};
use pg_replies::send_ready_for_query;
use std::alloc::{AllocError, Global};
use std::mem::drop;

/// What a server does for simple queries. An implementation gives its own queries. The `on_` calls
/// have the protocol's rules as their bodies.
pub trait SimpleQueryHandler {
    /// Where the rows of a query come from.
    type Rows: RowSource;

    /// Where the data of a COPY come from.
    type CopyRows: CopySource;

    /// A query that was begun.
    type Query: QueryState<Out = Result<PgList<Response<Self::Rows, Self::CopyRows>>, PgWireError>>;

    // its query for a client and a text
    ghost told: { Self → SimpleTold };

    /// Begins a query that isn't blank. Its responses can be sent as replies. The only error is
    /// running out of memory, and nothing was begun then.
    fn do_query(
        &self,
        alloc: Global,
        client: &ClientInfo,
        query: &str,
    ) -> Result<Self::Query, AllocError>
        requires short_metadata { HasShortMetadata client.now }
        requires short_query { IsShortText query.now }
        ensures unspent { IfOk result (λ state. (Self.Query.told state).is_spent ≡ false) }
        ensures told { IfOk result (λ state.
            told_query (told_all Self.Rows.items Self.CopyRows.items) (Self.Query.told state)
            ≡ told self.now client.now query.now) }
        ensures sendable { IfOk result (λ state. AreSendable
            (told self.now client.now query.now).outcome) };

    /// Answers Query by the conversation table, where the session is ready. Elsewhere the error is
    /// NotReadyForQuery, and nothing has changed. The other errors are those of `_on_query`.
    fn on_query<St: PortalStore, D: CancelDesk>(
        &self,
        alloc: Global,
        client: &mut Client<St>,
        desk: &mut D,
        turns: &mut Turns,
        query: Query,
    ) -> Result<(), SessionError>
        requires given { IsGiven (frontend.Query query) }
        requires short_metadata { HasShortMetadata client.old.info }
        ensures ok { OnOk result (IsRow
            (λ answers. when_ready (state_of St.maps client.old)
            (on_query (told self.now) answers (state_of St.maps client.old) query))
            client.old.outbox client.new.outbox (D.told desk.old).calls (D.told desk.new).calls
            (Done (state_of St.maps client.new))) }
        ensures refused { IfErr result (IsRefusedRow
            (λ answers. when_ready (state_of St.maps client.old)
            (on_query (told self.now) answers (state_of St.maps client.old) query))
            client.old.outbox client.new.outbox (D.told desk.old).calls (D.told desk.new).calls
            (state_of St.maps client.new)) }
        ensures errors { IfErr result (IsQueryError St.maps client.old client.new) }
        ensures not_ready { client.old.info.state ≢ phase.ReadyForQuery
            → result ≡ Err (session.Wire wire.NotReadyForQuery) }
        ensures caused { client.old.info.state ≡ phase.ReadyForQuery
            → IfErr result (IsCausedSo (D.told desk.old).calls (D.told desk.new).calls) }
        ensures kept { OnlyAnswers client.old client.new result }
        ensures turns { HasSpent turns.old turns.new
            (questions_since (D.told desk.old).calls (D.told desk.new).calls) result }
        ensures bounded { turns.old.spent ≤ turns.old.limit → turns.new.spent ≤ turns.new.limit }
        ensures keeps { KeepsDesk (D.told desk.old) (D.told desk.new) }
    {
        match client.info.state {
            PgWireConnectionState::ReadyForQuery => {
                self._on_query(alloc, client, desk, turns, query)
            }
            _ => Err(SessionError::Wire(PgWireError::NotReadyForQuery)),
        }
    }

    /// Answers Query in any phase. A blank text gives EmptyQueryResponse and ReadyForQuery, and the
    /// desk isn't called. For any other text the desk's `start` is called, and the query is polled.
    /// Each poll that finds the query unready spends a turn, and the desk is then asked once
    /// whether the query was canceled. Where it was, the error is QueryCanceled. Where no turn is
    /// left, it is TurnLimit. Then come the replies to its responses in their order, and
    /// ReadyForQuery with the status that they left, unless a COPY has begun.
    ///
    /// The other errors are the query's own, with which nothing is sent; an error in the place of a
    /// row or of data, and the replies before it stay in the outbox; and NoMemory, after which the
    /// outbox may hold a part of the replies. After each error the status, the phase and the store
    /// are as they were.
    fn _on_query<St: PortalStore, D: CancelDesk>(
        &self,
        alloc: Global,
        client: &mut Client<St>,
        desk: &mut D,
        turns: &mut Turns,
        query: Query,
    ) -> Result<(), SessionError>
        requires given { IsGiven (frontend.Query query) }
        requires short_metadata { HasShortMetadata client.old.info }
        ensures ok { OnOk result (IsRow
            (λ answers. on_query (told self.now) answers (state_of St.maps client.old) query)
            client.old.outbox client.new.outbox (D.told desk.old).calls (D.told desk.new).calls
            (Done (state_of St.maps client.new))) }
        ensures refused { IfErr result (IsRefusedRow
            (λ answers. on_query (told self.now) answers (state_of St.maps client.old) query)
            client.old.outbox client.new.outbox (D.told desk.old).calls (D.told desk.new).calls
            (state_of St.maps client.new)) }
        ensures errors { IfErr result (IsQueryError St.maps client.old client.new) }
        ensures kept { OnlyAnswers client.old client.new result }
        ensures waited { HasWaited (D.told desk.old) (D.told desk.new) turns.old turns.new result }
    {
        match self.begin_query(alloc, client, desk, query) {
            Begun::Answered(told) => told,
            Begun::Unready((), waiting) => {
                let waited = wait_for(waiting, desk, turns);
                answer_waited(alloc, client, waited)
            }
        }
    }

    /// Begins to answer Query in any phase, as `_on_query` does, up to the first poll of the query.
    /// Unready says that this poll found the query unready: the desk's `start` was called, and the
    /// client is as it was. `finish_query` goes on from there. So replies that wait can be sent
    /// between the two. No turn is spent, and the desk isn't asked.
    fn begin_query<St: PortalStore, D: CancelDesk>(
        &self,
        alloc: Global,
        client: &mut Client<St>,
        desk: &mut D,
        query: Query,
    ) -> Begun<(), Self::Query>
        requires given { IsGiven (frontend.Query query) }
        requires short_metadata { HasShortMetadata client.old.info }
        ensures ok { IfAnswered result (λ done. OnOk done (IsRow
            (λ answers. on_query (told self.now) answers (state_of St.maps client.old) query)
            client.old.outbox client.new.outbox (D.told desk.old).calls (D.told desk.new).calls
            (Done (state_of St.maps client.new)))) }
        ensures refused { IfAnswered result (λ done. IfErr done (IsRefusedRow
            (λ answers. on_query (told self.now) answers (state_of St.maps client.old) query)
            client.old.outbox client.new.outbox (D.told desk.old).calls (D.told desk.new).calls
            (state_of St.maps client.new))) }
        ensures errors { IfAnswered result (λ done.
            IfErr done (IsQueryError St.maps client.old client.new)) }
        ensures kept { IfAnswered result (λ done. OnlyAnswers client.old client.new done) }
        ensures waited { IfAnswered result (λ done. (turns : Turns)
            → HasWaited (D.told desk.old) (D.told desk.new) turns turns done) }
        ensures unready { IfUnready result (λ kept waiting. WaitsToQuery
            (told self.now)
            (told_all Self.Rows.items Self.CopyRows.items) (state_of St.maps client.old) query
            (Self.Query.told waiting)) }
        ensures started { IfUnready result (λ kept waiting.
            D.told desk.new ≡ after_calls (D.told desk.old) (call.Start ∷ [])) }
        ensures same { IfUnready result (λ kept waiting. client.new ≡ client.old) }
    {
        if is_blank(query.query.as_str()) {
            drop(query);
            let blank = answer_blank(&mut client.outbox, client.info.status);
            return Begun::Answered(session_outcome(blank));
        }
        let Ok(()) = desk.start() else {
            return Begun::Answered(query_out_of_memory(query));
        };
        let begun = self.do_query(alloc, &client.info, query.query.as_str());
        drop(query);
        match begun {
            Ok(state) => begin_run(alloc, client, state),
            Err(error) => Begun::Answered(Err(SessionError::from(error))),
        }
    }
}

/// Goes on with a Query whose query was found unready, as `_on_query` does: a turn is spent, the
/// desk is asked, and the query is polled again, until it is ready. Between the two only the
/// outbox may have changed.
pub fn finish_query<H: SimpleQueryHandler, St: PortalStore, D: CancelDesk>(
    alloc: Global,
    handler: &H,
    client: &mut Client<St>,
    desk: &mut D,
    turns: &mut Turns,
    waiting: H::Query,
) -> Result<(), SessionError>
    requires unready { (query : Query) × WaitsToQuery
        (H.told handler.now)
        (told_all H.Rows.items H.CopyRows.items) (state_of St.maps client.old) query
        (H.Query.told waiting) }
    ensures ok { (query : Query) (first : DeskTold) → WaitsToQuery
        (H.told handler.now)
        (told_all H.Rows.items H.CopyRows.items) (state_of St.maps client.old) query
        (H.Query.told waiting) → D.told desk.old ≡ after_calls first (call.Start ∷ [])
        → OnOk result (IsRow
        (λ answers. on_query (H.told handler.now) answers (state_of St.maps client.old) query)
        client.old.outbox client.new.outbox first.calls (D.told desk.new).calls
        (Done (state_of St.maps client.new))) }
    ensures refused { (query : Query) (first : DeskTold) → WaitsToQuery
        (H.told handler.now)
        (told_all H.Rows.items H.CopyRows.items) (state_of St.maps client.old) query
        (H.Query.told waiting) → D.told desk.old ≡ after_calls first (call.Start ∷ [])
        → IfErr result (IsRefusedRow
        (λ answers. on_query (H.told handler.now) answers (state_of St.maps client.old) query)
        client.old.outbox client.new.outbox first.calls (D.told desk.new).calls
        (state_of St.maps client.new)) }
    ensures errors { IfErr result (IsQueryError St.maps client.old client.new) }
    ensures kept { OnlyAnswers client.old client.new result }
    ensures waited { (query : Query) (first : DeskTold) → WaitsToQuery
        (H.told handler.now)
        (told_all H.Rows.items H.CopyRows.items) (state_of St.maps client.old) query
        (H.Query.told waiting) → D.told desk.old ≡ after_calls first (call.Start ∷ [])
        → HasWaited first (D.told desk.new) turns.old turns.new result }
{
    let _ = handler;
    let waited = wait_for(waiting, desk, turns);
    answer_waited(alloc, client, waited)
}

/// Answers a blank Query at this transaction status.
fn answer_blank(outbox: &mut Outbox, status: TransactionStatus) -> Result<(), PgWireError>
    ensures ok { OnOk result (outbox.new ≡ outbox.old ++ replies_bytes
        (server.EmptyQueryResponse (record {}) ∷ ready status ∷ [])) }
    ensures refused { IfErr result (λ e. e ≡ wire.NoMemory) }
    ensures kept { take (length outbox.old) outbox.new ≡ outbox.old }
{
    send_empty_query_response(outbox)?;
    send_ready_for_query(outbox, status)?;
    Ok(())
}

/// Polls a query for the first time, after the desk's `start`. Where it is ready, the Query is
/// answered with its responses. Where it isn't, nothing changes.
#[inline(always)]
fn begin_run<
    St: PortalStore,
    R: RowSource,
    C: CopySource,
    Q: QueryState<Out = Result<PgList<Response<R, C>>, PgWireError>>,
>(alloc: Global, client: &mut Client<St>, mut query: Q) -> Begun<(), Q>
    requires unspent { (Q.told query).is_spent ≡ false }
    requires sendable { AreSendable (told_all R.items C.items (Q.told query).outcome) }
    ensures ran { IfAnswered result (λ told. (calls : List DeskCall) → (verdict : Verdict)
        × IsAsked (Q.told query).owes calls calls verdict
        × IsRunEnd (query_polled (state_of St.maps client.old) verdict
        (told_all R.items C.items (Q.told query).outcome)) verdict
        client.old.outbox client.new.outbox (state_of St.maps client.new) told) }
    ensures errors { IfAnswered result (λ told.
        IfErr told (IsQueryError St.maps client.old client.new)) }
    ensures kept { IfAnswered result (λ told. OnlyAnswers client.old client.new told) }
    ensures calm { IfAnswered result (λ told. (desk : DeskTold) (turns : Turns)
        → HasWaited desk desk turns turns told) }
    ensures unready { IfUnready result (λ kept waiting.
        IsPolledOnce (Q.told query) (Q.told waiting)) }
    ensures same { IfUnready result (λ kept waiting. client.new ≡ client.old) }
{
    match query.poll() {
        Ok(Turn::Ready(outcome)) => Begun::Answered(answer_waited(alloc, client, Ok(outcome))),
        Ok(Turn::Unready) => Begun::Unready((), query),
        Err(error) => Begun::Answered(Err(SessionError::from(error))),
    }
}

/// Answers a Query with what the wait for its query came to.
fn answer_waited<St: PortalStore, R: RowSource, C: CopySource>(
    alloc: Global,
    client: &mut Client<St>,
    waited: Result<Result<PgList<Response<R, C>>, PgWireError>, SessionError>,
) -> Result<(), SessionError>
    requires sendable { IfOk waited (λ outcome. AreSendable
        (told_all R.items C.items outcome)) }
    requires answerable { IfErr waited IsAnswerableError }
    ensures ran { (verdict : Verdict) (outcome : Result (List (Response R C)) PgWireError)
        → IsVerdict outcome verdict waited
        → IsRunEnd (query_polled (state_of St.maps client.old) verdict
        (told_all R.items C.items outcome)) verdict
        client.old.outbox client.new.outbox (state_of St.maps client.new) result }
    ensures errors { IfErr result (IsQueryError St.maps client.old client.new) }
    ensures kept { OnlyAnswers client.old client.new result }
    ensures told { (desk new_desk : DeskTold) (before after : Turns)
        → HasWaited desk new_desk before after waited
        → HasWaited desk new_desk before after result }
{
    let responses = waited??;
    session_outcome(answer_query(alloc, client, responses))
}

/// Answers a Query with its responses.
fn answer_query<St: PortalStore, R: RowSource, C: CopySource>(
    alloc: Global,
    client: &mut Client<St>,
    responses: PgList<Response<R, C>>,
) -> Result<(), PgWireError>
    requires { AllByRecursion IsSendableResponse (told_responses R.items C.items responses) }
    ensures ok { OnOk result (IsEffect
        (answered_all (state_of St.maps client.old) (told_responses R.items C.items responses))
        client.old.outbox client.new.outbox (Done (state_of St.maps client.new))) }
    ensures refused { IfErr result (IsRefusedEffect
        (answered_all (state_of St.maps client.old) (told_responses R.items C.items responses))
        client.old.outbox client.new.outbox (state_of St.maps client.new)) }
    ensures answerable { IfErr result IsAnswerableItem }
    ensures kept { OnlyAnswers client.old client.new result }
{
    let left = send_responses(alloc, &mut client.outbox, client.info.status, responses)?;
    if left.copying {
        client.info.state = PgWireConnectionState::CopyInProgress(false);
        return Ok(());
    }
    send_ready_for_query(&mut client.outbox, left.status)?;
    client.info.status = left.status;
    Ok(())
}
