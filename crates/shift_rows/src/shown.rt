//! Shifts that are shown.

ghost use Rattle.std.specs.Prelude.{◌≡◌};
ghost use Rattle.std.specs.Arc.{arc_value};
ghost use Rattle.shift_rows.specs.ShiftRows.{shift_items};

use crate::shift_rows::ShiftRows;
use pg_messages::DataRow;
use pg_portal::{Format, OnDemand, PgWireError, RowSource};
use shift_table::Shift;
use std::alloc::{AllocError, Global};
use std::marker::Model;
use std::sync::Arc;

/// Shifts that are shown: their rows one by one, each made when it is asked for. Contracts see the rows
/// to come.
#[derive(Drop)]
pub struct ShownShifts {
    rows: OnDemand<ShiftRows>,
}

impl Model for ShownShifts {
    ghost use Rattle.std.specs.Prelude.{List, drop};
    ghost use Rattle.pg_results.specs.Rows.{RowItem};
    ghost use Rattle.shift_rows.specs.ShiftRows.{shift_items};

    ghost Value = { List RowItem };

    ghost view = { λ shown. drop shown.rows.position (shift_items shown.rows.maker) };
}

impl ShownShifts {
    /// A row for each of these shifts, in their order, whose cells are in these formats. It takes no
    /// memory.
    pub fn new(alloc: Global, shifts: Arc<Vec<Shift>>, formats: Format) -> ShownShifts
        ensures { result ≡ shift_items (record {
          shifts = (arc_value shifts).items;
          formats = formats;
        }) }
    {
        ShownShifts {
            rows: OnDemand::new(ShiftRows::new(alloc, shifts, formats)),
        }
    }
}

impl RowSource for ShownShifts {
    ghost items = { λ rows. rows };

    #[inline(always)]
    fn next(&mut self) -> Result<Option<Result<DataRow, PgWireError>>, AllocError> {
        self.rows.next()
    }

    #[inline(always)]
    fn next_row(&mut self, row: &mut DataRow) -> Result<bool, AllocError> {
        self.rows.next_row(row)
    }
}
