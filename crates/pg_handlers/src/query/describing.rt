//! What a Describe names, and its answer where no statement or portal has the name, or an empty one
//! has it.

ghost use Rattle.std.specs.Prelude.{◌≡◌, None, Some, IfOk, IfErr, OnOk, OnErr};
ghost use Rattle.std.specs.FinMap as fin;
ghost use Rattle.pg_messages.specs.declared.frontend.PgWireFrontendMessage.TheVariants as frontend;
ghost use Rattle.pg_messages.specs.Frames.{statement_target, portal_target};
ghost use Rattle.pg_results.specs.Rows.{IsAnswerable};
ghost use Rattle.pg_portal.specs.Told.{portal_of, value_under};
ghost use Rattle.pg_results.specs.declared.error.PgWireError.TheVariants as wire;
ghost use Rattle.pg_client.specs.Effect.{IsEffect, IsRefusedEffect, Done};
ghost use Rattle.conversation_table.specs.ExtendedRows.{on_describe};
ghost use Rattle.conversation_table.specs.Good.{IsGiven};
ghost use Rattle.conversation_table.specs.Handlers.{ExtendedTold};
ghost use Rattle.pg_client.specs.State.{state_of};

use crate::query::statements::{missing_portal, missing_statement};
use pg_client::Client;
use pg_messages::Describe;
use pg_portal::{
    DescribePortalResponse, DescribeResponse, DescribeStatementResponse, Entry, PgWireError,
    Portal, PortalStore, StoredStatement,
};
use pg_replies::send_described;
use std::alloc::Global;
use std::mem::drop;

/// The statement that a Describe names. Err gives the message back, where no statement has the name
/// or an empty one has it.
pub(crate) fn described_statement<St: PortalStore>(
    store: &St,
    message: Describe,
) -> Result<&StoredStatement<St::Statement>, Describe>
    ensures found { IfOk result (λ s.
        value_under (fin.get (St.maps store.now).statements message.name) ≡ Some s.now) }
    ensures same { IfErr result (λ left. left ≡ message) }
    ensures none { OnErr result
        (value_under (fin.get (St.maps store.now).statements message.name) ≡ None) }
{
    match store.get_statement(message.name.as_str()) {
        Some(Entry::Value(statement)) => {
            drop(message);
            Ok(statement)
        }
        Some(Entry::Empty) | None => Err(message),
    }
}

/// The portal that a Describe names. Err gives the message back, where no portal has the name or an
/// empty one has it.
pub(crate) fn described_portal<St: PortalStore>(
    store: &St,
    message: Describe,
) -> Result<&Portal<St::Statement, St::Rows>, Describe>
    ensures found { IfOk result (λ p. value_under (fin.get (St.maps store.now).portals message.name)
        ≡ Some (portal_of St.Rows.items p.now)) }
    ensures same { IfErr result (λ left. left ≡ message) }
    ensures none { OnErr result
        (value_under (fin.get (St.maps store.now).portals message.name) ≡ None) }
{
    match store.get_portal(message.name.as_str()) {
        Some(Entry::Value(portal)) => {
            drop(message);
            Ok(portal)
        }
        Some(Entry::Empty) | None => Err(message),
    }
}

/// The error of a Describe whose target is neither a statement nor a portal.
pub(crate) fn invalid_target(message: Describe) -> PgWireError
    ensures error { result ≡ wire.InvalidTargetType message.target_type }
    ensures answerable { IsAnswerable result }
{
    PgWireError::InvalidTargetType(message.target_type)
}

/// Answers a Describe where no statement has the name, or an empty one has it. An empty one has no
/// data.
pub(crate) fn describe_no_statement<St: PortalStore>(
    alloc: Global,
    client: &mut Client<St>,
    message: Describe,
) -> Result<(), PgWireError>
    requires given { IsGiven (frontend.Describe message) }
    requires target { message.target_type ≡ statement_target }
    requires none { value_under
        (fin.get (St.maps client.old.store).statements message.name) ≡ None }
    ensures ok { (h : ExtendedTold St.Statement) → OnOk result (IsEffect
        (on_describe h (state_of St.maps client.old) message)
        client.old.outbox client.new.outbox (Done (state_of St.maps client.new))) }
    ensures refused { (h : ExtendedTold St.Statement) → IfErr result (IsRefusedEffect
        (on_describe h (state_of St.maps client.old) message)
        client.old.outbox client.new.outbox (state_of St.maps client.new)) }
    ensures answerable { IfErr result IsAnswerable }
    ensures same { state_of St.maps client.new ≡ state_of St.maps client.old }
    ensures waiting { OnErr result (client.new.outbox ≡ client.old.outbox) }
{
    if client.store.get_statement(message.name.as_str()).is_none() {
        return Err(missing_statement(message.name));
    }
    drop(message);
    let described = DescribeStatementResponse::no_data(alloc);
    Ok(send_described(alloc, &mut client.outbox, described)?)
}

/// Answers a Describe where no portal has the name, or an empty one has it. An empty one has no
/// data.
pub(crate) fn describe_no_portal<St: PortalStore>(
    alloc: Global,
    client: &mut Client<St>,
    message: Describe,
) -> Result<(), PgWireError>
    requires given { IsGiven (frontend.Describe message) }
    requires target { message.target_type ≡ portal_target }
    requires none { value_under (fin.get (St.maps client.old.store).portals message.name) ≡ None }
    ensures ok { (h : ExtendedTold St.Statement) → OnOk result (IsEffect
        (on_describe h (state_of St.maps client.old) message)
        client.old.outbox client.new.outbox (Done (state_of St.maps client.new))) }
    ensures refused { (h : ExtendedTold St.Statement) → IfErr result (IsRefusedEffect
        (on_describe h (state_of St.maps client.old) message)
        client.old.outbox client.new.outbox (state_of St.maps client.new)) }
    ensures answerable { IfErr result IsAnswerable }
    ensures same { state_of St.maps client.new ≡ state_of St.maps client.old }
    ensures waiting { OnErr result (client.new.outbox ≡ client.old.outbox) }
{
    if client.store.get_portal(message.name.as_str()).is_none() {
        return Err(missing_portal(message.name));
    }
    drop(message);
    let described = DescribePortalResponse::no_data(alloc);
    Ok(send_described(alloc, &mut client.outbox, described)?)
}
