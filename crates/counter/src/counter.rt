//! The counter.

ghost use Rattle.std.specs.Prelude.{◌≡◌, IfOk};
ghost use Rattle.std.specs.Arc.{arc_value};
ghost use Rattle.pg_results.specs.declared.client.PgWireConnectionState.{PgWireConnectionState};
ghost use Rattle.counter.specs.Counter.{asks_next};

use crate::answers::{CounterAnswers, CounterStatement};
use moving_session::MovingHandlers;
use pg_messages::PgWireFrontendMessage;
use pg_portal::{ListRows, PgWireConnectionState, PortalStore};
use pg_session::Client;
use row_handlers::RowHandlers;
use std::alloc::{AllocError, Global};
use std::sync::Arc;

/// A counter, whose world is the number that it told last. The simple query NEXT, asked where a
/// query is awaited, counts by one and is answered by the number. At the greatest number,
/// 18,446,744,073,709,551,615, it stays.
#[derive(Drop)]
pub struct Counter {
    /// The number that it told last.
    pub number: u64,
}

impl MovingHandlers for Counter {
    ghost use Rattle.std.specs.Prelude.{ℕ, ◌≡◌};
    ghost use Rattle.counter.specs.Counter.{counter_parser, CounterMeets};

    type Sheet = RowHandlers<CounterAnswers>;

    ghost World = { ℕ };

    ghost world = { λ c. c.number };

    ghost parser = { λ _. counter_parser };

    ghost meets = { CounterMeets };

    ghost leaves = { λ w v. v ≡ w };

    fn sheet(&self, alloc: Global) -> Result<Arc<RowHandlers<CounterAnswers>>, AllocError> {
        sheet_of(alloc, self.number)
    }

    fn meet<St: PortalStore<Statement = CounterStatement, Rows = ListRows>>(
        &mut self,
        alloc: Global,
        client: &Client<St>,
        message: &PgWireFrontendMessage,
    ) -> Result<Arc<RowHandlers<CounterAnswers>>, AllocError> {
        let number = if asks_next(client.info.state, message) {
            self.number.saturating_add(1)
        } else {
            self.number
        };
        let sheet = sheet_of(alloc, number)?;
        self.number = number;
        Ok(sheet)
    }

    fn leave(&mut self) {}
}

/// The sheet that tells this number.
fn sheet_of(alloc: Global, number: u64) -> Result<Arc<RowHandlers<CounterAnswers>>, AllocError>
    ensures { IfOk result (λ sheet. arc_value sheet ≡ record { number = number }) }
{
    Ok(Arc::new(alloc, RowHandlers::new(alloc, CounterAnswers { number })?)?)
}

/// Whether a message asks for the next number.
fn asks_next(state: PgWireConnectionState, message: &PgWireFrontendMessage) -> bool
    ensures { result ≡ asks_next state message.now }
{
    match (state, message) {
        (PgWireConnectionState::ReadyForQuery, PgWireFrontendMessage::Query(query)) => {
            query.query.as_str() == "NEXT"
        }
        _ => false,
    }
}
