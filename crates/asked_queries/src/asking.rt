//! Which query a message asks for.

ghost use Rattle.std.specs.Prelude.{◌≡◌};
ghost use Rattle.std.specs.Option.{option_map};
ghost use Rattle.pg_client.specs.State.{state_of};
ghost use Rattle.pg_portal.specs.Told.{entry_map, portal_of, value_under};
ghost use Rattle.asked_queries.specs.Asking.{asked, asked_of, asked_simply};
ghost use Rattle.asked_queries.specs.Seen.{seen};

use pg_client::Client;
use pg_messages::PgWireFrontendMessage;
use pg_portal::{
    Entry, PgWireConnectionState, Portal, PortalExecutionState, PortalStore, RowSource, is_blank,
};

/// Which query a message asks for.
pub enum Asked<'c, S, R> {
    /// None.
    Nothing,
    /// A simple query, by its text, which isn't blank.
    Simple(&'c str),
    /// The query of a portal that isn't started.
    Extended(&'c Portal<S, R>),
}

/// Which query a message of a client asks for. While the server isn't ready, none is asked for.
pub fn asked_by<'c, St: PortalStore>(
    client: &'c Client<St>,
    message: &'c PgWireFrontendMessage,
) -> Asked<'c, St::Statement, St::Rows>
    ensures { seen result ≡ asked (state_of St.maps client.now) message.now }
{
    match (client.info.state, message) {
        (PgWireConnectionState::ReadyForQuery, PgWireFrontendMessage::Query(query)) => {
            asked_simply(query.query.as_str())
        }
        (PgWireConnectionState::ReadyForQuery, PgWireFrontendMessage::Execute(execute)) => {
            asked_of(client.store.get_portal(execute.name.as_str()))
        }
        _ => Asked::Nothing,
    }
}

/// A simple query of this text, if it isn't blank.
fn asked_simply<'c, S, R>(text: &'c str) -> Asked<'c, S, R>
    ensures { seen result ≡ asked_simply text.now }
{
    if is_blank(text) {
        Asked::Nothing
    } else {
        Asked::Simple(text)
    }
}

/// The query of what stands under a portal's name.
fn asked_of<'c, S: Drop, R: RowSource>(found: Option<Entry<&'c Portal<S, R>>>) -> Asked<'c, S, R>
    ensures { seen result ≡ asked_of (value_under
        (option_map (entry_map (λ portal. portal_of R.items portal.now)) found.entry)) }
{
    match found {
        Some(Entry::Value(portal)) => match portal.state() {
            PortalExecutionState::Initial => Asked::Extended(portal),
            _ => Asked::Nothing,
        },
        _ => Asked::Nothing,
    }
}
