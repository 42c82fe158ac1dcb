//! The counter, as it lies under the lock.

ghost use Rattle.std.specs.Prelude.{◌≡◌};
ghost use Rattle.shared_counter.specs.Counting.{change_of};

use counter::{Counter, CounterAnswers, CounterStatement};
use moving_session::MovingHandlers;
use pg_messages::PgWireFrontendMessage;
use pg_portal::{ListRows, PortalStore};
use pg_session::Client;
use row_handlers::RowHandlers;
use shared_worlds::SharedWorld;
use std::alloc::{AllocError, Global};
use std::sync::Arc;

/// One NEXT was counted, and was told this number.
#[derive(Drop)]
pub struct Counted {
    /// The number.
    pub number: u64,
}

/// A counter that many clients share. Where it stands is the number that it told last. A NEXT that is
/// counted is one change; at the greatest number the counter stays, and nothing changes.
#[derive(Drop)]
pub struct SharedCounter {
    counter: Counter,
}

/// The change from one number to another, if they differ.
fn change_of(before: u64, after: u64) -> Option<Counted>
    ensures { result ≡ change_of before after }
{
    if before == after {
        None
    } else {
        Some(Counted { number: after })
    }
}

impl SharedWorld for SharedCounter {
    ghost use Rattle.std.specs.Prelude.{ℕ};
    ghost use Rattle.shared_counter.specs.Counting.{shared_counter};

    type Change = Counted;

    type Own = ();

    type Sheet = RowHandlers<CounterAnswers>;

    ghost Place = { ℕ };

    ghost place = { λ c. c.counter.number };

    ghost told = { shared_counter };

    fn new(_alloc: Global) -> Result<SharedCounter, AllocError> {
        Ok(SharedCounter {
            counter: Counter { number: 0 },
        })
    }

    fn own(_alloc: Global) -> Result<(), AllocError> {
        Ok(())
    }

    fn sheet(alloc: Global) -> Result<Arc<RowHandlers<CounterAnswers>>, AllocError> {
        Counter { number: 0 }.sheet(alloc)
    }

    fn meet<St: PortalStore<Statement = CounterStatement, Rows = ListRows>>(
        &mut self,
        alloc: Global,
        _own: &mut (),
        client: &Client<St>,
        message: &PgWireFrontendMessage,
    ) -> Result<(Arc<RowHandlers<CounterAnswers>>, Option<Counted>), AllocError> {
        let before = self.counter.number;
        match self.counter.meet(alloc, client, message) {
            Ok(sheet) => Ok((sheet, change_of(before, self.counter.number))),
            Err(AllocError) => {
                self.counter.number = before;
                Err(AllocError)
            }
        }
    }

    fn leave(_own: &mut ()) {}
}
