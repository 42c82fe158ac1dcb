//! What Parse, Bind and Close do to the store.

ghost use Rattle.std.specs.Prelude.{◌≡◌, ◌≤◌, ◌⊎◌, ◌++◌, ◌==◌, length, Some, None, Option, IsTrue, IfOk, IfErr, IfSome, OnOk, OnErr, codes, string_bytes, if◌then◌else◌};
ghost use Rattle.std.specs.Option.{option_map};
ghost use Rattle.pg_messages.specs.Replies.{replies_bytes};
ghost use Rattle.pg_results.specs.Errors.{error as error_info};
ghost use Rattle.pg_portal.specs.Maps.{maps_with_statement};
ghost use Rattle.pg_results.specs.Told.{IsOutcome, ParserTold};
ghost use Rattle.pg_portal.specs.Told.{Unstarted, bound_of, portal_of, stage_of, value_under};
ghost use Rattle.pg_results.specs.Clients.{HasShortMetadata};
ghost use Rattle.pg_results.specs.Statements.{prepared};
ghost use Rattle.pg_portal.specs.Statements.{bound_by};
ghost use Rattle.pg_client.specs.Errors.{values_for_empty, too_few_codes};
ghost use Rattle.std.specs.Arc.{arc_value};
ghost use Rattle.std.specs.FinMap as fin;
ghost use Rattle.pg_messages.specs.declared.frontend.PgWireFrontendMessage.TheVariants as frontend;
ghost use Rattle.pg_results.specs.Rows.{IsAnswerable};
ghost use Rattle.pg_results.specs.Texts.{IsShortText};
ghost use Rattle.pg_results.specs.declared.error.PgWireError.{PgWireError};
ghost use Rattle.pg_results.specs.declared.error.PgWireError.TheVariants as wire;
ghost use Rattle.pg_portal.specs.declared.store.Entry.TheVariants as entry;
ghost use Rattle.pg_client.specs.Effect.{IsEffect, IsRefusedEffect, Done};
ghost use Rattle.conversation_table.specs.ExtendedRows.{parse_complete, bind_complete, bound_empty, bound_portal, bound_statement, on_bind, entry_of, maps_after_close, HasEnough, IsTooFew};
ghost use Rattle.conversation_table.specs.Handlers.{ExtendedTold};
ghost use Rattle.pg_results.specs.Formats.{format_of};
ghost use Rattle.conversation_table.specs.ExecuteRow.{executed_nothing};
ghost use Rattle.conversation_table.specs.Good.{IsGiven, IsGoodStatement, IsGoodState};
ghost use Rattle.pg_client.specs.State.{state_of, with_portal, with_statement};
ghost use Rattle.pg_client.specs.Before.{IsAsBefore};

use crate::ends::out_of_memory;
use crate::query::respond::send_empty_query_response;
use pg_client::Client;
use pg_messages::{
    Bind, BindComplete, Close, ErrorInfo, Parse, ParseComplete, PgList, PgStr,
    PgWireBackendMessage, TARGET_TYPE_BYTE_PORTAL, TARGET_TYPE_BYTE_STATEMENT,
};
use pg_outbox::Outbox;
use pg_portal::{
    ClientInfo, Entry, Format, PgWireError, Portal, PortalExecutionState, PortalStore, QueryParser,
    RowSource, StoredStatement,
};
use pg_replies::push_reply;
use std::alloc::{AllocError, Global};
use std::mem::drop;
use std::sync::Arc;

/// The error that no statement has this name.
pub(crate) fn missing_statement(name: PgStr) -> PgWireError
    requires { IsShortText name }
    ensures error { result ≡ wire.StatementNotFound name }
    ensures answerable { IsAnswerable result }
{
    PgWireError::StatementNotFound(name)
}

/// The statement under a name, or None where none stands there or it is empty.
#[inline(always)]
pub(crate) fn statement_under<'s, St: PortalStore>(
    store: &'s St,
    name: &str,
) -> Option<&'s Arc<StoredStatement<St::Statement>>>
    ensures { option_map (λ s. arc_value s.now) result
        ≡ value_under (fin.get (St.maps store.now).statements name.now) }
{
    match store.get_statement(name) {
        Some(Entry::Value(statement)) => Some(statement),
        Some(Entry::Empty) | None => None,
    }
}

/// The name of the statement in a Parse.
#[inline(always)]
pub(crate) fn name_of(message: Parse) -> PgStr
    ensures { result ≡ message.name }
{
    message.name
}

/// The statement of a Parse, as `StoredStatement::parse` makes it. The parser is dropped.
#[inline(always)]
pub(crate) fn parse_by<Q: QueryParser + Drop>(
    alloc: Global,
    client: &ClientInfo,
    message: &Parse,
    parser: Arc<Q>,
) -> Result<Option<StoredStatement<Q::Statement>>, PgWireError>
    requires short_metadata { HasShortMetadata client.now }
    requires short_query { IsShortText message.now.query }
    ensures outcome { IsOutcome
        (prepared (Q.told (arc_value parser)) client.now message.now) result }
    ensures given { IfOk result (λ found. IfSome found
        (λ stored. IsTrue ((Q.told (arc_value parser)).gives stored.statement))) }
    ensures answerable { IfErr result IsAnswerable }
{
    StoredStatement::parse(alloc, client, message, &*parser)
}

/// The error that no portal has this name.
pub(crate) fn missing_portal(name: PgStr) -> PgWireError
    requires { IsShortText name }
    ensures error { result ≡ wire.PortalNotFound name }
    ensures answerable { IsAnswerable result }
{
    PgWireError::PortalNotFound(name)
}

/// Stores what a parser found under a name: a statement of this name, or an empty one.
#[inline(always)]
fn store_statement<St: PortalStore>(
    alloc: Global,
    store: &mut St,
    name: &str,
    found: Option<StoredStatement<St::Statement>>,
) -> Result<(), AllocError>
    requires { IfSome found (λ statement. statement.id ≡ name.now) }
    ensures ok { OnOk result
        (St.maps store.new ≡ maps_with_statement (St.maps store.old) name.now (entry_of found)) }
    ensures err { OnErr result (St.maps store.new ≡ St.maps store.old) }
{
    match found {
        Some(statement) => {
            let statement = Arc::new(alloc, statement)?;
            store.put_statement(alloc, statement)
        }
        None => store.put_empty_statement(alloc, name),
    }
}

/// Appends ParseComplete, and stores what a parser found under a name. After an error neither is
/// done.
#[inline(always)]
pub(crate) fn store_parsed<St: PortalStore>(
    alloc: Global,
    client: &mut Client<St>,
    name: PgStr,
    found: Option<StoredStatement<St::Statement>>,
) -> Result<(), PgWireError>
    requires { IfSome found (λ statement. statement.id ≡ name) }
    ensures ok { OnOk result (state_of St.maps client.new
        ≡ with_statement (state_of St.maps client.old) name (entry_of found)) }
    ensures replied { OnOk result (client.new.outbox
        ≡ client.old.outbox ++ replies_bytes parse_complete) }
    ensures refused { IfErr result (λ e. e ≡ wire.NoMemory) }
    ensures kept { OnErr result (IsAsBefore St.maps client.old client.new) }
{
    let start = client.outbox.len();
    let complete = PgWireBackendMessage::ParseComplete(ParseComplete {});
    let Ok(()) = push_reply(&mut client.outbox, complete) else {
        drop(found);
        return out_of_memory(name);
    };
    let stored = store_statement(alloc, &mut client.store, name.as_str(), found);
    drop(name);
    let Ok(()) = stored else {
        client.outbox.truncate(start);
        return out_of_memory(());
    };
    Ok(())
}

/// The error of severity ERROR and code 08P01 with this text.
fn protocol_violation(alloc: Global, text: String) -> Result<PgWireError, AllocError>
    ensures { IfOk result (λ error. error
        ≡ wire.UserError (error_info (codes "08P01") (string_bytes text))) }
{
    Ok(PgWireError::UserError(ErrorInfo::new(
        PgStr::copy_of(alloc, "ERROR")?,
        PgStr::copy_of(alloc, "08P01")?,
        PgStr::copy_of(alloc, text.as_str())?,
    )))
}

/// The error that parameters were given for an empty statement.
fn values_for_empty(alloc: Global, count: usize, name: &str) -> Result<PgWireError, AllocError>
    requires name { IsShortText name.now }
    ensures error { IfOk result (λ error. error
        ≡ wire.UserError (values_for_empty count name.now)) }
    ensures answerable { IfOk result IsAnswerable }
{
    let text = format!(in alloc;
        "bind message supplies {count} parameters, but prepared statement \"{name}\" requires 0"
    )?;
    protocol_violation(alloc, text)
}

/// The error that there are fewer result codes than columns.
fn too_few_codes(alloc: Global, count: usize, columns: usize) -> Result<PgWireError, AllocError>
    ensures error { IfOk result (λ error. error ≡ wire.UserError (too_few_codes count columns)) }
    ensures answerable { IfOk result IsAnswerable }
{
    let text = format!(in alloc;
        "bind message has {count} result formats but query has {columns} columns"
    )?;
    protocol_violation(alloc, text)
}

/// Answers Bind where no statement has the name, or an empty one has it. Without one the error is
/// StatementNotFound. An empty one is bound as `bind_empty` does.
pub(crate) fn bind_no_statement<St: PortalStore>(
    alloc: Global,
    client: &mut Client<St>,
    message: Bind,
) -> Result<(), PgWireError>
    requires given { IsGiven (frontend.Bind message) }
    requires none { value_under
        (fin.get (St.maps client.old.store).statements message.statement_name) ≡ None }
    ensures ok { (h : ExtendedTold St.Statement) → OnOk result (IsEffect
        (on_bind h (state_of St.maps client.old) message)
        client.old.outbox client.new.outbox (Done (state_of St.maps client.new))) }
    ensures refused { (h : ExtendedTold St.Statement) → IfErr result (IsRefusedEffect
        (on_bind h (state_of St.maps client.old) message)
        client.old.outbox client.new.outbox (state_of St.maps client.new)) }
    ensures answerable { IfErr result IsAnswerable }
    ensures kept { OnErr result (IsAsBefore St.maps client.old client.new) }
    ensures good { (parser : ParserTold St.Statement)
        → IsGoodState parser (state_of St.maps client.old)
        → IsGoodState parser (state_of St.maps client.new) }
{
    if client
        .store
        .get_statement(message.statement_name.as_str())
        .is_none()
    {
        return Err(no_statement(message));
    }
    let bound = bind_empty(alloc, client, &message);
    drop(message);
    bound
}

/// The error that no statement has the name in a Bind.
fn no_statement(message: Bind) -> PgWireError
    requires { IsGiven (frontend.Bind message) }
    ensures error { result ≡ wire.StatementNotFound message.statement_name }
    ensures answerable { IsAnswerable result }
{
    missing_statement(message.statement_name)
}

/// Answers Bind of an empty statement: stores an empty portal, where there are no parameters. With
/// parameters the error is 08P01.
fn bind_empty<St: PortalStore>(
    alloc: Global,
    client: &mut Client<St>,
    message: &Bind,
) -> Result<(), PgWireError>
    requires given { IsGiven (frontend.Bind message.now) }
    ensures ok { OnOk result (IsEffect
        (bound_empty (state_of St.maps client.old) message.now)
        client.old.outbox client.new.outbox (Done (state_of St.maps client.new))) }
    ensures refused { IfErr result (IsRefusedEffect
        (bound_empty (state_of St.maps client.old) message.now)
        client.old.outbox client.new.outbox (state_of St.maps client.new)) }
    ensures answerable { IfErr result IsAnswerable }
    ensures kept { OnErr result (IsAsBefore St.maps client.old client.new) }
    ensures good { (parser : ParserTold St.Statement)
        → IsGoodState parser (state_of St.maps client.old)
        → IsGoodState parser (state_of St.maps client.new) }
{
    let count = message.parameters.len();
    if count > 0 {
        return Err(values_for_empty(alloc, count, message.statement_name.as_str())?);
    }
    store_empty_portal(alloc, client, message.portal_name.as_str())?;
    Ok(())
}

/// Checks that a Bind has enough result codes: none, one, or as many as the columns or more.
fn check_codes<Q: QueryParser>(
    alloc: Global,
    parser: &Q,
    statement: &StoredStatement<Q::Statement>,
    codes: usize,
) -> Result<(), PgWireError>
    requires { IsTrue ((Q.told parser.now).gives statement.now.statement) }
    ensures ok { OnOk result (HasEnough
        codes ((Q.told parser.now).columns statement.now.statement None)) }
    ensures refused { IfErr result (λ e. (e ≡ wire.NoMemory)
        ⊎ IsTooFew codes ((Q.told parser.now).columns statement.now.statement None) e) }
    ensures answerable { IfErr result IsAnswerable }
{
    if codes < 2 {
        return Ok(());
    }
    let columns = parser
        .get_result_schema(alloc, &statement.statement, None)?
        .len();
    if codes < columns {
        return Err(too_few_codes(alloc, codes, columns)?);
    }
    Ok(())
}

/// Answers Bind with two or more result codes. The parser tells the statement's columns. Where the
/// codes are enough, the portal is stored as by `bind_statement`.
pub(crate) fn bind_checked<St: PortalStore, Q: QueryParser<Statement = St::Statement> + Drop>(
    alloc: Global,
    client: &mut Client<St>,
    parser: Arc<Q>,
    message: Bind,
    statement: Arc<StoredStatement<St::Statement>>,
) -> Result<(), PgWireError>
    requires given { IsGiven (frontend.Bind message) }
    requires good { IsGoodStatement (Q.told (arc_value parser)) (arc_value statement) }
    ensures ok { OnOk result (IsEffect
        (bound_statement (Q.told (arc_value parser)) (state_of St.maps client.old) message
        (arc_value statement))
        client.old.outbox client.new.outbox (Done (state_of St.maps client.new))) }
    ensures refused { IfErr result (IsRefusedEffect
        (bound_statement (Q.told (arc_value parser)) (state_of St.maps client.old) message
        (arc_value statement))
        client.old.outbox client.new.outbox (state_of St.maps client.new)) }
    ensures answerable { IfErr result IsAnswerable }
    ensures kept { OnErr result (IsAsBefore St.maps client.old client.new) }
    ensures good { IsGoodState (Q.told (arc_value parser)) (state_of St.maps client.old)
        → IsGoodState (Q.told (arc_value parser)) (state_of St.maps client.new) }
{
    let codes = message.result_column_format_codes.len();
    let checked = check_codes(alloc, &*parser, &*statement, codes);
    drop(parser);
    checked?;
    bind_statement(alloc, client, message, statement)
}

/// Answers Bind with enough result codes: stores a portal of the statement, unstarted. The only
/// error is NoMemory.
#[inline(always)]
pub(crate) fn bind_statement<St: PortalStore>(
    alloc: Global,
    client: &mut Client<St>,
    message: Bind,
    statement: Arc<StoredStatement<St::Statement>>,
) -> Result<(), PgWireError>
    ensures ok { OnOk result (IsEffect
        (bound_portal (state_of St.maps client.old) message (arc_value statement))
        client.old.outbox client.new.outbox (Done (state_of St.maps client.new))) }
    ensures refused { IfErr result (λ e. e ≡ wire.NoMemory) }
    ensures kept { OnErr result (IsAsBefore St.maps client.old client.new) }
    ensures good { (parser : ParserTold St.Statement) → IsGoodStatement parser (arc_value statement)
        → HasEnough (length message.result_column_format_codes)
        (parser.columns (arc_value statement).statement None)
        → IsGoodState parser (state_of St.maps client.old)
        → IsGoodState parser (state_of St.maps client.new) }
{
    store_portal(alloc, client, portal_for(message, statement))
}

/// The portal that a Bind makes of a statement, unstarted. What the message holds is moved into it,
/// and no memory is taken.
#[inline(always)]
fn portal_for<S: Drop, R: RowSource>(
    message: Bind,
    statement: Arc<StoredStatement<S>>,
) -> Portal<S, R>
    ensures bound { bound_of result ≡ bound_by message (arc_value statement) }
    ensures unstarted { stage_of R.items result ≡ Unstarted }
{
    Portal {
        name: message.portal_name,
        statement,
        parameter_format: format_of(message.parameter_format_codes),
        parameters: message.parameters,
        result_column_format: format_of(message.result_column_format_codes),
        state: PortalExecutionState::Initial,
        delivered: 0,
    }
}

/// The formats of a Bind's codes: none is text, one is for all, several are one for each.
fn format_of(codes: PgList<i16>) -> Format
    ensures { result ≡ format_of codes }
{
    match codes.as_slice() {
        [] => Format::UnifiedText,
        [code] => Format::from(*code),
        _ => Format::Individual(codes),
    }
}

/// Appends BindComplete, and stores a portal under its name. After an error neither is done.
#[inline(always)]
fn store_portal<St: PortalStore>(
    alloc: Global,
    client: &mut Client<St>,
    portal: Portal<St::Statement, St::Rows>,
) -> Result<(), PgWireError>
    ensures ok { OnOk result (state_of St.maps client.new
        ≡ with_portal (state_of St.maps client.old) portal.name
        (entry.Value (portal_of St.Rows.items portal))) }
    ensures replied { OnOk result (client.new.outbox
        ≡ client.old.outbox ++ replies_bytes bind_complete) }
    ensures refused { IfErr result (λ e. e ≡ wire.NoMemory) }
    ensures kept { OnErr result (IsAsBefore St.maps client.old client.new) }
{
    let start = client.outbox.len();
    let Ok(()) = push_bind_complete(&mut client.outbox) else {
        return out_of_memory(portal);
    };
    let Ok(()) = client.store.put_portal(alloc, portal) else {
        client.outbox.truncate(start);
        return out_of_memory(());
    };
    Ok(())
}

/// Appends BindComplete, and stores an empty portal under a name. After an error neither is done.
fn store_empty_portal<St: PortalStore>(
    alloc: Global,
    client: &mut Client<St>,
    name: &str,
) -> Result<(), AllocError>
    ensures ok { OnOk result (state_of St.maps client.new
        ≡ with_portal (state_of St.maps client.old) name.now entry.Empty) }
    ensures replied { OnOk result (client.new.outbox
        ≡ client.old.outbox ++ replies_bytes bind_complete) }
    ensures err { OnErr result (IsAsBefore St.maps client.old client.new) }
{
    let start = client.outbox.len();
    push_bind_complete(&mut client.outbox)?;
    if let Err(error) = client.store.put_empty_portal(alloc, name) {
        client.outbox.truncate(start);
        return Err(error);
    }
    Ok(())
}

/// Appends BindComplete.
fn push_bind_complete(outbox: &mut Outbox) -> Result<(), AllocError>
    ensures ok { OnOk result (outbox.new ≡ outbox.old ++ replies_bytes bind_complete) }
    ensures err { OnErr result (outbox.new ≡ outbox.old) }
{
    push_reply(outbox, PgWireBackendMessage::BindComplete(BindComplete {}))
}

/// Answers Execute where no portal has the name, or an empty one has it.
pub(crate) fn execute_no_portal<St: PortalStore>(
    client: &mut Client<St>,
    name: PgStr,
) -> Result<(), PgWireError>
    requires short { IsShortText name }
    requires none { value_under (fin.get (St.maps client.old.store).portals name) ≡ None }
    ensures ok { OnOk result (IsEffect
        (executed_nothing (state_of St.maps client.old) name
        (fin.get (St.maps client.old.store).portals name))
        client.old.outbox client.new.outbox (Done (state_of St.maps client.new))) }
    ensures refused { IfErr result (IsRefusedEffect
        (executed_nothing (state_of St.maps client.old) name
        (fin.get (St.maps client.old.store).portals name))
        client.old.outbox client.new.outbox (state_of St.maps client.new)) }
    ensures answerable { IfErr result IsAnswerable }
    ensures same { state_of St.maps client.new ≡ state_of St.maps client.old }
    ensures waiting { OnErr result (client.new.outbox ≡ client.old.outbox) }
{
    if client.store.get_portal(name.as_str()).is_none() {
        return Err(missing_portal(name));
    }
    send_empty_query_response(&mut client.outbox)?;
    Ok(())
}

/// Close: removes the statement or the portal of this name.
pub(crate) fn close<St: PortalStore>(store: &mut St, message: Close)
    ensures { St.maps store.new ≡ maps_after_close (St.maps store.old) message }
{
    match message.target_type {
        TARGET_TYPE_BYTE_STATEMENT => store.rm_statement(message.name.as_str()),
        TARGET_TYPE_BYTE_PORTAL => store.rm_portal(message.name.as_str()),
        _ => {}
    }
}
