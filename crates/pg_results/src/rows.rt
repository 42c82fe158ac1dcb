//! Rows that come one by one.

ghost use Rattle.std.specs.Prelude.{◌≡◌, List, Ok, true, IfOk, IfSome};
ghost use Rattle.std.specs.List.{AllByRecursion};
ghost use Rattle.pg_results.specs.Rows.{RowItem, IsNext, IsNextRow, IsSendable, IsSendableRow};

use crate::error::PgWireError;
use pg_messages::{DataRow, PgList};
use std::alloc::AllocError;
use std::marker::Model;

/// Rows that are made one by one: finitely many items, each a row or an error in its place.
pub trait RowSource: Drop {
    // the items to come
    ghost items: { Self → List RowItem };

    /// The next item, or None exactly at the end. Each can be sent as a reply, and an error in the
    /// place of a row is none of the session's own: `NoMemory`, `QueryCanceled`,
    /// `NotReadyForQuery`, `PortalNotStarted`. After an AllocError all items are still to come.
    fn next(&mut self) -> Result<Option<Result<DataRow, PgWireError>>, AllocError>
        ensures next { IsNext (items self.old) result (items self.new) }
        ensures sendable { IfOk result (λ found. IfSome found IsSendable) };

    /// A faster `next`, for a source that can write its row into a buffer. It needs no new memory
    /// for the row, and no room for an error in its place. True: the next item is a row, and `_row`
    /// holds it, whatever it held before. False takes no item and says nothing about the items:
    /// `next` gives the next one. After an AllocError all items are still to come. Unless the
    /// result is true, nothing is known of what `_row` holds.
    #[inline(always)]
    fn next_row(&mut self, _row: &mut DataRow) -> Result<bool, AllocError>
        ensures next { IsNextRow (items self.old) result _row.new (items self.new) }
        ensures sendable { result ≡ Ok true → IsSendableRow _row.new }
    {
        Ok(false)
    }
}

/// The items of a list.
#[derive(Drop)]
pub struct ListRows {
    // the items to come, the next one last
    items: Vec<Result<DataRow, PgWireError>>,
}

impl Model for ListRows {
    ghost use Rattle.std.specs.Prelude.{List, reverse};
    ghost use Rattle.std.specs.List.{AllByRecursion};
    ghost use Rattle.pg_results.specs.Rows.{RowItem, IsSendable};

    ghost Value = { List RowItem };

    ghost view = { λ rows. reverse rows.items.items };

    ghost invariant = { λ rows. AllByRecursion IsSendable rows.items.items };
}

impl ListRows {
    /// These items, in their order. It takes no memory.
    pub fn new(items: PgList<Result<DataRow, PgWireError>>) -> ListRows
        requires { AllByRecursion IsSendable items }
        ensures { result ≡ items }
    {
        let mut items = items.into_vec();
        items.reverse();
        ListRows { items }
    }
}

impl RowSource for ListRows {
    ghost items = { λ rows. rows };

    /// The first item is moved out, which takes no memory.
    fn next(&mut self) -> Result<Option<Result<DataRow, PgWireError>>, AllocError> {
        Ok(self.items.pop())
    }
}
