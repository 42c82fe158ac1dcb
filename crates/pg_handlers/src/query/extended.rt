//! The extended query (protocol: Message Flow, Extended Query).

ghost use Rattle.std.specs.Prelude.{◌≡◌, ◌≢◌, ◌≤◌, ◌∷◌, [], List, false, length, take, Err, Some, None, IfOk, IfErr, OnOk, OnErr, Bool};
ghost use Rattle.std.specs.Arc.{arc_value};
ghost use Rattle.std.specs.FinMap as fin;
ghost use Rattle.pg_messages.specs.Replies.{IsEncodable};
ghost use Rattle.pg_client.specs.Desk.{DeskTold, KeepsDesk, after_calls};
ghost use Rattle.pg_client.specs.declared.desk.DeskCall.TheVariants as call;
ghost use Rattle.pg_client.specs.declared.ends.Turns.{Turns};
ghost use Rattle.pg_handlers.specs.Beginning.{IfAnswered, IfUnready, WaitsToExecute};
ghost use Rattle.pg_replies.specs.Replies.{row_description};
ghost use Rattle.pg_messages.specs.declared.frontend.PgWireFrontendMessage.TheVariants as frontend;
ghost use Rattle.pg_results.specs.Clients.{HasShortMetadata};
ghost use Rattle.pg_results.specs.Rows.{IsAnswerable};
ghost use Rattle.pg_results.specs.Told.{IsOutcome};
ghost use Rattle.pg_portal.specs.Told.{bound_of, portal_of, stage_of};
ghost use Rattle.pg_results.specs.declared.error.PgWireError.{PgWireError};
ghost use Rattle.conversation_table.specs.Handlers.{ExtendedTold, told_one, told_query};
ghost use Rattle.pg_client.specs.State.{state_of};
ghost use Rattle.pg_client.specs.Effect.{IsEffect, IsRefusedEffect, IsRow, IsRefusedRow, Done, says, when_ready};
ghost use Rattle.conversation_table.specs.ExtendedRows.{on_parse, on_bind, on_describe, on_close, on_sync};
ghost use Rattle.conversation_table.specs.ExecuteRow.{on_execute};
ghost use Rattle.pg_results.specs.declared.client.PgWireConnectionState.TheVariants as phase;
ghost use Rattle.pg_results.specs.declared.error.PgWireError.TheVariants as wire;
ghost use Rattle.pg_client.specs.declared.ends.SessionError.TheVariants as session;
ghost use Rattle.conversation_table.specs.Good.{IsGiven, IsSendableOutcome, IsSendableDescription, IsGoodStatement, IsGoodPortal, IsGoodState};
ghost use Rattle.conversation_table.specs.Questions.{IsCausedSo, HasSpent, questions_since};
ghost use Rattle.pg_client.specs.Before.{IsAsBefore};
ghost use Rattle.conversation_table.specs.Waiting.{HasWaited, IsQueryError, KeptByExecute};

use crate::ends::{out_of_memory, query_out_of_memory};
use crate::query::describing::{
    describe_no_portal, describe_no_statement, described_portal, described_statement,
    invalid_target,
};
use crate::query::run::{begin_unstarted, finish_unstarted};
use crate::query::started::{execute_started, unstarted_portal};
use crate::query::statements::{
    bind_checked, bind_no_statement, bind_statement, close, name_of, parse_by, statement_under,
    store_parsed,
};
use crate::query::{Begun, QueryState};
use pg_client::{CancelDesk, Client, SessionError, Turns};
use pg_messages::{
    Bind, Close, CloseComplete, Describe, Execute, Flush, Parse, PgSync, PgWireBackendMessage,
    TARGET_TYPE_BYTE_PORTAL, TARGET_TYPE_BYTE_STATEMENT,
};
use pg_portal::{
    ClientInfo, CopySource, DescribePortalResponse, DescribeStatementResponse,
    PgWireConnectionState, PgWireError, Portal, PortalStore, QueryParser, Response, RowSource,
    StoredStatement,
};
use pg_replies::{push_reply, send_ready_for_query, send_told};
use std::alloc::{AllocError, Global};
use std::mem::drop;
use std::sync::Arc;

/// What a server does for extended queries. An implementation gives its own queries and
/// descriptions. The `on_` calls have the protocol's rules as their bodies, and append their
/// replies to the client's outbox.
///
/// An `on_` call requires that its message is one that a good frame carries, and that the client's
/// state is good. It leaves the state good. Its error is an error of the message, and the caller
/// tells the client. What the message replied and changed before its error stays. After each error
/// of Parse, Bind, Describe, Close and Sync, `NoMemory` too, the statements, the portals, what is
/// known of the client and the outbox are as they were. After `NoMemory` the session is closed.
pub trait ExtendedQueryHandler {
    /// What a statement means.
    type Statement: Drop;

    /// The parser, which makes statements of queries.
    type QueryParser: QueryParser<Statement = Self::Statement> + Drop;

    /// Where the rows of a query come from.
    type Rows: RowSource;

    /// Where the data of a COPY come from.
    type CopyRows: CopySource;

    /// A query that was begun.
    type Query: QueryState<Out = Result<Response<Self::Rows, Self::CopyRows>, PgWireError>>;

    // its parser, its queries and its descriptions
    ghost told: { Self → ExtendedTold Self.Statement };

    /// The parser of queries. The only error is running out of memory.
    fn query_parser(&self, alloc: Global) -> Result<Arc<Self::QueryParser>, AllocError>
        ensures { IfOk result (λ parser.
            Self.QueryParser.told (arc_value parser) ≡ (told self.now).parser) };

    /// The parameters' types and the columns of a statement. They can be sent as replies. The
    /// errors are the handler's own, which the client is told, and NoMemory.
    fn do_describe_statement(
        &self,
        alloc: Global,
        client: &ClientInfo,
        target: &StoredStatement<Self::Statement>,
    ) -> Result<DescribeStatementResponse, PgWireError>
        requires short_metadata { HasShortMetadata client.now }
        requires good { IsGoodStatement (told self.now).parser target.now }
        ensures outcome { IsOutcome ((told self.now).describe_statement client.now target.now)
            result }
        ensures sendable { IfOk result IsSendableDescription }
        ensures answerable { IfErr result IsAnswerable };

    /// The columns of a portal. They can be sent as a reply. The errors are the handler's own,
    /// which the client is told, and NoMemory.
    fn do_describe_portal(
        &self,
        alloc: Global,
        client: &ClientInfo,
        target: &Portal<Self::Statement, Self::Rows>,
    ) -> Result<DescribePortalResponse, PgWireError>
        requires short_metadata { HasShortMetadata client.now }
        requires good { IsGoodPortal (told self.now).parser (portal_of Self.Rows.items target.now) }
        ensures outcome { IsOutcome
            ((told self.now).describe_portal client.now (bound_of target.now)) result }
        ensures sendable { IfOk result (λ d. IsEncodable (row_description d.fields)) }
        ensures answerable { IfErr result IsAnswerable };

    /// Begins the query of a portal that isn't started. Its responses can be sent as replies. The
    /// only error is running out of memory, and nothing was begun then.
    fn do_query(
        &self,
        alloc: Global,
        client: &ClientInfo,
        portal: &Portal<Self::Statement, Self::Rows>,
        max_rows: i32,
    ) -> Result<Self::Query, AllocError>
        requires short_metadata { HasShortMetadata client.now }
        requires good { IsGoodPortal (told self.now).parser (portal_of Self.Rows.items portal.now) }
        ensures unspent { IfOk result (λ query. (Self.Query.told query).is_spent ≡ false) }
        ensures told { IfOk result (λ query.
            told_query (told_one Self.Rows.items Self.CopyRows.items) (Self.Query.told query)
            ≡ (told self.now).query client.now (bound_of portal.now) max_rows) }
        ensures sendable { IfOk result (λ query. IsSendableOutcome
            ((told self.now).query client.now (bound_of portal.now) max_rows).outcome) };

    /// Answers Parse: stores the statement that the parser makes of the query, and appends
    /// ParseComplete. A blank query, and one for which the parser gives None, is stored as an empty
    /// statement. The errors are the parser's, and NoMemory. After each the client is as it was.
    fn on_parse<St: PortalStore<Statement = Self::Statement, Rows = Self::Rows>>(
        &self,
        alloc: Global,
        client: &mut Client<St>,
        message: Parse,
    ) -> Result<(), PgWireError>
        requires given { IsGiven (frontend.Parse message) }
        requires good { IsGoodState (told self.now).parser (state_of St.maps client.old) }
        ensures ok { OnOk result (IsEffect
            (on_parse (told self.now) (state_of St.maps client.old) message)
            client.old.outbox client.new.outbox (Done (state_of St.maps client.new))) }
        ensures refused { IfErr result (IsRefusedEffect
            (on_parse (told self.now) (state_of St.maps client.old) message)
            client.old.outbox client.new.outbox (state_of St.maps client.new)) }
        ensures answerable { IfErr result IsAnswerable }
        ensures kept { OnErr result (IsAsBefore St.maps client.old client.new) }
        ensures good { IsGoodState (told self.now).parser (state_of St.maps client.new) }
    {
        let Ok(parser) = self.query_parser(alloc) else {
            return out_of_memory(message);
        };
        let found = parse_by(alloc, &client.info, &message, parser);
        let name = name_of(message);
        match found {
            Ok(found) => store_parsed(alloc, client, name, found),
            Err(error) => {
                drop(name);
                Err(error)
            }
        }
    }

    /// Answers Bind: stores a portal of the statement, and appends BindComplete. StatementNotFound
    /// comes exactly where no statement has this name. 08P01 comes where an empty statement is
    /// given parameters, or where there are two or more result codes, but fewer than the columns.
    /// The other errors are the parser's, and NoMemory. After each the client is as it was.
    fn on_bind<St: PortalStore<Statement = Self::Statement, Rows = Self::Rows>>(
        &self,
        alloc: Global,
        client: &mut Client<St>,
        message: Bind,
    ) -> Result<(), PgWireError>
        requires given { IsGiven (frontend.Bind message) }
        requires good { IsGoodState (told self.now).parser (state_of St.maps client.old) }
        ensures ok { OnOk result (IsEffect
            (on_bind (told self.now) (state_of St.maps client.old) message)
            client.old.outbox client.new.outbox (Done (state_of St.maps client.new))) }
        ensures refused { IfErr result (IsRefusedEffect
            (on_bind (told self.now) (state_of St.maps client.old) message)
            client.old.outbox client.new.outbox (state_of St.maps client.new)) }
        ensures answerable { IfErr result IsAnswerable }
        ensures kept { OnErr result (IsAsBefore St.maps client.old client.new) }
        ensures good { IsGoodState (told self.now).parser (state_of St.maps client.new) }
    {
        let Some(statement) = statement_under(&client.store, message.statement_name.as_str()) else {
            return bind_no_statement(alloc, client, message);
        };
        let Ok(statement) = statement.clone() else {
            return out_of_memory(message);
        };
        if message.result_column_format_codes.len() < 2 {
            return bind_statement(alloc, client, message, statement);
        }
        let Ok(parser) = self.query_parser(alloc) else {
            drop(statement);
            return out_of_memory(message);
        };
        bind_checked(alloc, client, parser, message, statement)
    }

    /// Answers Execute by the conversation table, where the session is ready. Elsewhere the error
    /// is NotReadyForQuery, and nothing has changed. The other errors are those of `_on_execute`.
    /// After TurnLimit the client is as it was.
    fn on_execute<St: PortalStore<Statement = Self::Statement, Rows = Self::Rows>, D: CancelDesk>(
        &self,
        alloc: Global,
        client: &mut Client<St>,
        desk: &mut D,
        turns: &mut Turns,
        message: Execute,
    ) -> Result<(), SessionError>
        requires given { IsGiven (frontend.Execute message) }
        requires good { IsGoodState (told self.now).parser (state_of St.maps client.old) }
        ensures ok { OnOk result (IsRow
            (λ answers. when_ready (state_of St.maps client.old)
            (on_execute (told self.now) answers (state_of St.maps client.old) message))
            client.old.outbox client.new.outbox (D.told desk.old).calls (D.told desk.new).calls
            (Done (state_of St.maps client.new))) }
        ensures refused { IfErr result (IsRefusedRow
            (λ answers. when_ready (state_of St.maps client.old)
            (on_execute (told self.now) answers (state_of St.maps client.old) message))
            client.old.outbox client.new.outbox (D.told desk.old).calls (D.told desk.new).calls
            (state_of St.maps client.new)) }
        ensures errors { IfErr result (IsQueryError St.maps client.old client.new) }
        ensures not_ready { client.old.info.state ≢ phase.ReadyForQuery
            → result ≡ Err (session.Wire wire.NotReadyForQuery) }
        ensures caused { client.old.info.state ≡ phase.ReadyForQuery
            → IfErr result (IsCausedSo (D.told desk.old).calls (D.told desk.new).calls) }
        ensures kept { KeptByExecute St.maps message.name client.old client.new result }
        ensures good { IsGoodState (told self.now).parser (state_of St.maps client.new) }
        ensures turns { HasSpent turns.old turns.new
            (questions_since (D.told desk.old).calls (D.told desk.new).calls) result }
        ensures bounded { turns.old.spent ≤ turns.old.limit → turns.new.spent ≤ turns.new.limit }
        ensures keeps { KeepsDesk (D.told desk.old) (D.told desk.new) }
    {
        match client.info.state {
            PgWireConnectionState::ReadyForQuery => {
                self._on_execute(alloc, client, desk, turns, message)
            }
            _ => Err(SessionError::Wire(PgWireError::NotReadyForQuery)),
        }
    }

    /// Answers Execute in any phase. PortalNotFound comes exactly where no portal has this name. An
    /// empty portal gives EmptyQueryResponse. A started portal gives its next page: DataRows, then
    /// PortalSuspended or CommandComplete. For a portal that isn't started the desk's `start` is
    /// called, and its query is polled. Each poll that finds the query unready spends a turn, and
    /// the desk is then asked once whether the query was canceled. Where it was, the error is
    /// QueryCanceled. Where no turn is left, it is TurnLimit. Both leave the portal unstarted and
    /// the client as it was. A response with rows starts the portal, and no other does.
    ///
    /// The other errors are the query's own, after which the client is as it was; an error in the
    /// place of a row or of data; and NoMemory. An error in the place of a row is consumed with the
    /// rows before it, and those rows are taken back from the outbox. The data of a COPY before an
    /// error stay there. After NoMemory the rows that were read are consumed, the portal may be
    /// started, and the outbox may hold a part of the replies.
    fn _on_execute<St: PortalStore<Statement = Self::Statement, Rows = Self::Rows>, D: CancelDesk>(
        &self,
        alloc: Global,
        client: &mut Client<St>,
        desk: &mut D,
        turns: &mut Turns,
        message: Execute,
    ) -> Result<(), SessionError>
        requires given { IsGiven (frontend.Execute message) }
        requires good { IsGoodState (told self.now).parser (state_of St.maps client.old) }
        ensures ok { OnOk result (IsRow
            (λ answers. on_execute (told self.now) answers (state_of St.maps client.old) message)
            client.old.outbox client.new.outbox (D.told desk.old).calls (D.told desk.new).calls
            (Done (state_of St.maps client.new))) }
        ensures refused { IfErr result (IsRefusedRow
            (λ answers. on_execute (told self.now) answers (state_of St.maps client.old) message)
            client.old.outbox client.new.outbox (D.told desk.old).calls (D.told desk.new).calls
            (state_of St.maps client.new)) }
        ensures errors { IfErr result (IsQueryError St.maps client.old client.new) }
        ensures kept { KeptByExecute St.maps message.name client.old client.new result }
        ensures good { IsGoodState (told self.now).parser (state_of St.maps client.new) }
        ensures waited { HasWaited (D.told desk.old) (D.told desk.new) turns.old turns.new result }
    {
        match self.begin_execute(alloc, client, desk, message) {
            Begun::Answered(told) => told,
            Begun::Unready(message, query) => {
                finish_unstarted(alloc, client, message, query, desk, turns)
            }
        }
    }

    /// Begins to answer Execute in any phase, as `_on_execute` does, up to the first poll of the
    /// query. Unready says that this poll found the query unready: the desk's `start` was called,
    /// and the client is as it was. `finish_execute` goes on from there. So replies that wait can
    /// be sent between the two. No turn is spent, and the desk isn't asked.
    fn begin_execute<
        St: PortalStore<Statement = Self::Statement, Rows = Self::Rows>,
        D: CancelDesk,
    >(
        &self,
        alloc: Global,
        client: &mut Client<St>,
        desk: &mut D,
        message: Execute,
    ) -> Begun<Execute, Self::Query>
        requires given { IsGiven (frontend.Execute message) }
        requires good { IsGoodState (told self.now).parser (state_of St.maps client.old) }
        ensures ok { IfAnswered result (λ done. OnOk done (IsRow
            (λ answers. on_execute (told self.now) answers (state_of St.maps client.old) message)
            client.old.outbox client.new.outbox (D.told desk.old).calls (D.told desk.new).calls
            (Done (state_of St.maps client.new)))) }
        ensures refused { IfAnswered result (λ done. IfErr done (IsRefusedRow
            (λ answers. on_execute (told self.now) answers (state_of St.maps client.old) message)
            client.old.outbox client.new.outbox (D.told desk.old).calls (D.told desk.new).calls
            (state_of St.maps client.new))) }
        ensures errors { IfAnswered result (λ done.
            IfErr done (IsQueryError St.maps client.old client.new)) }
        ensures kept { IfAnswered result (λ done.
            KeptByExecute St.maps message.name client.old client.new done) }
        ensures waited { IfAnswered result (λ done. (turns : Turns)
            → HasWaited (D.told desk.old) (D.told desk.new) turns turns done) }
        ensures unready { IfUnready result (λ kept waiting. (kept ≡ message)
            × WaitsToExecute
            (told self.now)
            (told_one Self.Rows.items Self.CopyRows.items) (state_of St.maps client.old) message
            (Self.Query.told waiting)) }
        ensures started { IfUnready result (λ kept waiting.
            D.told desk.new ≡ after_calls (D.told desk.old) (call.Start ∷ [])) }
        ensures same { IfUnready result (λ kept waiting. client.new ≡ client.old) }
        ensures good { IsGoodState (told self.now).parser (state_of St.maps client.new) }
    {
        let Some(portal) = unstarted_portal(&client.store, message.name.as_str()) else {
            return Begun::Answered(execute_started(alloc, client, message));
        };
        let Ok(()) = desk.start() else {
            return Begun::Answered(query_out_of_memory(message));
        };
        let Ok(query) = self.do_query(alloc, &client.info, portal, message.max_rows) else {
            return Begun::Answered(query_out_of_memory(message));
        };
        begin_unstarted(alloc, client, message, query)
    }

    /// Answers Describe: appends the description of a statement (`S`) or a portal (`P`).
    /// StatementNotFound and PortalNotFound come exactly where none has this name,
    /// InvalidTargetType for any other byte. The other errors are those of `do_describe_statement`
    /// and `do_describe_portal`, and NoMemory. After each the client is as it was.
    fn on_describe<St: PortalStore<Statement = Self::Statement, Rows = Self::Rows>>(
        &self,
        alloc: Global,
        client: &mut Client<St>,
        message: Describe,
    ) -> Result<(), PgWireError>
        requires given { IsGiven (frontend.Describe message) }
        requires good { IsGoodState (told self.now).parser (state_of St.maps client.old) }
        ensures ok { OnOk result (IsEffect
            (on_describe (told self.now) (state_of St.maps client.old) message)
            client.old.outbox client.new.outbox (Done (state_of St.maps client.new))) }
        ensures refused { IfErr result (IsRefusedEffect
            (on_describe (told self.now) (state_of St.maps client.old) message)
            client.old.outbox client.new.outbox (state_of St.maps client.new)) }
        ensures answerable { IfErr result IsAnswerable }
        ensures kept { OnErr result (IsAsBefore St.maps client.old client.new) }
        ensures good { IsGoodState (told self.now).parser (state_of St.maps client.new) }
    {
        self._on_describe(alloc, client, message)
    }

    /// Answers Describe, as `on_describe` does.
    fn _on_describe<St: PortalStore<Statement = Self::Statement, Rows = Self::Rows>>(
        &self,
        alloc: Global,
        client: &mut Client<St>,
        message: Describe,
    ) -> Result<(), PgWireError>
        requires given { IsGiven (frontend.Describe message) }
        requires good { IsGoodState (told self.now).parser (state_of St.maps client.old) }
        ensures ok { OnOk result (IsEffect
            (on_describe (told self.now) (state_of St.maps client.old) message)
            client.old.outbox client.new.outbox (Done (state_of St.maps client.new))) }
        ensures refused { IfErr result (IsRefusedEffect
            (on_describe (told self.now) (state_of St.maps client.old) message)
            client.old.outbox client.new.outbox (state_of St.maps client.new)) }
        ensures answerable { IfErr result IsAnswerable }
        ensures kept { OnErr result (IsAsBefore St.maps client.old client.new) }
        ensures good { IsGoodState (told self.now).parser (state_of St.maps client.new) }
    {
        match message.target_type {
            TARGET_TYPE_BYTE_STATEMENT => match described_statement(&client.store, message) {
                Ok(statement) => {
                    let told = self.do_describe_statement(alloc, &client.info, statement);
                    send_told(alloc, &mut client.outbox, told)
                }
                Err(message) => describe_no_statement(alloc, client, message),
            },
            TARGET_TYPE_BYTE_PORTAL => match described_portal(&client.store, message) {
                Ok(portal) => {
                    let told = self.do_describe_portal(alloc, &client.info, portal);
                    send_told(alloc, &mut client.outbox, told)
                }
                Err(message) => describe_no_portal(alloc, client, message),
            },
            _ => Err(invalid_target(message)),
        }
    }

    /// Answers Flush, which needs nothing: what waits is sent at the end of each `feed`, and before
    /// a query that was found unready is polled again.
    fn on_flush<St: PortalStore<Statement = Self::Statement, Rows = Self::Rows>>(
        &self,
        client: &mut Client<St>,
        message: Flush,
    ) -> Result<(), PgWireError>
        requires given { IsGiven (frontend.Flush message) }
        requires good { IsGoodState (told self.now).parser (state_of St.maps client.old) }
        ensures same { client.new ≡ client.old }
        ensures refused { IfErr result (λ e. e ≡ PgWireError.NoMemory) }
        ensures good { IsGoodState (told self.now).parser (state_of St.maps client.new) }
    {
        let _ = message;
        let _ = client;
        Ok(())
    }

    /// Answers Sync: the unnamed portal is removed, ReadyForQuery is appended, and the session is
    /// ready. The only error is NoMemory, after which the client is as it was.
    fn on_sync<St: PortalStore<Statement = Self::Statement, Rows = Self::Rows>>(
        &self,
        client: &mut Client<St>,
        message: PgSync,
    ) -> Result<(), PgWireError>
        requires given { IsGiven (frontend.PgSync message) }
        requires good { IsGoodState (told self.now).parser (state_of St.maps client.old) }
        ensures ok { OnOk result (IsEffect
            (on_sync (state_of St.maps client.old))
            client.old.outbox client.new.outbox (Done (state_of St.maps client.new))) }
        ensures refused { IfErr result (IsRefusedEffect
            (on_sync (state_of St.maps client.old))
            client.old.outbox client.new.outbox (state_of St.maps client.new)) }
        ensures answerable { IfErr result IsAnswerable }
        ensures kept { OnErr result (IsAsBefore St.maps client.old client.new) }
        ensures good { IsGoodState (told self.now).parser (state_of St.maps client.new) }
    {
        let Ok(()) = send_ready_for_query(&mut client.outbox, client.info.status) else {
            return out_of_memory(message);
        };
        client.store.rm_portal("");
        client.info.state = PgWireConnectionState::ReadyForQuery;
        Ok(())
    }

    /// Answers Close: removes the statement (`S`) or the portal (`P`) of this name, where there is
    /// one, and appends CloseComplete. Portals of a removed statement stay. The only error is
    /// NoMemory, after which the client is as it was.
    fn on_close<St: PortalStore<Statement = Self::Statement, Rows = Self::Rows>>(
        &self,
        client: &mut Client<St>,
        message: Close,
    ) -> Result<(), PgWireError>
        requires given { IsGiven (frontend.Close message) }
        requires good { IsGoodState (told self.now).parser (state_of St.maps client.old) }
        ensures ok { OnOk result (IsEffect
            (on_close (state_of St.maps client.old) message)
            client.old.outbox client.new.outbox (Done (state_of St.maps client.new))) }
        ensures refused { IfErr result (IsRefusedEffect
            (on_close (state_of St.maps client.old) message)
            client.old.outbox client.new.outbox (state_of St.maps client.new)) }
        ensures answerable { IfErr result IsAnswerable }
        ensures kept { OnErr result (IsAsBefore St.maps client.old client.new) }
        ensures good { IsGoodState (told self.now).parser (state_of St.maps client.new) }
    {
        push_reply(
            &mut client.outbox,
            PgWireBackendMessage::CloseComplete(CloseComplete {}),
        )?;
        close(&mut client.store, message);
        Ok(())
    }
}

/// Goes on with an Execute whose query was found unready, as `_on_execute` does: a turn is
/// spent, the desk is asked, and the query is polled again, until it is ready. Between the two
/// only the outbox may have changed.
pub fn finish_execute<
    H: ExtendedQueryHandler,
    St: PortalStore<Statement = H::Statement, Rows = H::Rows>,
    D: CancelDesk,
>(
    alloc: Global,
    handler: &H,
    client: &mut Client<St>,
    desk: &mut D,
    turns: &mut Turns,
    message: Execute,
    query: H::Query,
) -> Result<(), SessionError>
    requires given { IsGiven (frontend.Execute message) }
    requires good { IsGoodState (H.told handler.now).parser (state_of St.maps client.old) }
    requires unready { WaitsToExecute
        (H.told handler.now)
        (told_one H.Rows.items H.CopyRows.items) (state_of St.maps client.old)
        message (H.Query.told query) }
    ensures ok { (first : DeskTold)
        → D.told desk.old ≡ after_calls first (call.Start ∷ []) → OnOk result (IsRow
        (λ answers.
        on_execute (H.told handler.now) answers (state_of St.maps client.old) message)
        client.old.outbox client.new.outbox first.calls (D.told desk.new).calls
        (Done (state_of St.maps client.new))) }
    ensures refused { (first : DeskTold)
        → D.told desk.old ≡ after_calls first (call.Start ∷ []) → IfErr result (IsRefusedRow
        (λ answers.
        on_execute (H.told handler.now) answers (state_of St.maps client.old) message)
        client.old.outbox client.new.outbox first.calls (D.told desk.new).calls
        (state_of St.maps client.new)) }
    ensures errors { IfErr result (IsQueryError St.maps client.old client.new) }
    ensures kept { KeptByExecute St.maps message.name client.old client.new result }
    ensures good { IsGoodState (H.told handler.now).parser (state_of St.maps client.new) }
    ensures waited { (first : DeskTold)
        → D.told desk.old ≡ after_calls first (call.Start ∷ [])
        → HasWaited first (D.told desk.new) turns.old turns.new result }
{
    let _ = handler;
    finish_unstarted(alloc, client, message, query, desk, turns)
}
