//! Rows of shifts that are made when they are asked for.

ghost use Rattle.std.specs.Prelude.{◌≡◌, ◌≢◌, ◌<◌, true, false, Some, Ok, length, slice_get};
ghost use Rattle.std.specs.Arc.{arc_value};
ghost use Rattle.pg_results.specs.Rows.{IsSendableRow};
ghost use Rattle.shift_rows.specs.ShiftRows.{shift_items};

use crate::cells::{empty_row, write_row};
use pg_messages::DataRow;
use pg_portal::{Format, PgWireError, RowMaker};
use pg_text::FieldFormat;
use shift_table::Shift;
use std::alloc::{AllocError, Global};
use std::marker::Model;
use std::sync::Arc;

/// Makes the rows of shifts, each by its index. It keeps none of them.
#[derive(Drop)]
pub struct ShiftRows {
    shifts: Arc<Vec<Shift>>,
    formats: Format,
    // the formats of the columns start and length, judged once
    start_format: FieldFormat,
    length_format: FieldFormat,
    alloc: Global,
}

impl Model for ShiftRows {
    ghost use Rattle.std.specs.Arc.{arc_value};
    ghost use Rattle.shift_rows.specs.ShiftRows.{AreJudged, ToldShifts};

    ghost Value = { ToldShifts };

    ghost view = { λ r. record {
      shifts = (arc_value r.shifts).items;
      formats = r.formats;
    } };

    ghost invariant = { λ r. AreJudged r.formats r.start_format r.length_format };
}

impl ShiftRows {
    /// The maker of the rows of these shifts, whose cells are in these formats. It takes no memory.
    pub fn new(alloc: Global, shifts: Arc<Vec<Shift>>, formats: Format) -> ShiftRows
        ensures { result ≡ record {
          shifts = (arc_value shifts).items;
          formats = formats;
        } }
    {
        let start_format = formats.format_for(1).unwrap_or(FieldFormat::Text);
        let length_format = formats.format_for(2).unwrap_or(FieldFormat::Text);
        ShiftRows {
            shifts,
            formats,
            start_format,
            length_format,
            alloc,
        }
    }

    /// The shift at an index.
    #[inline(always)]
    fn shift(&self, index: usize) -> &Shift
        requires { index < length self.now.shifts }
        ensures { slice_get self.now.shifts index ≡ Some result.now }
    {
        &self.shifts[index]
    }
}

impl RowMaker for ShiftRows {
    ghost use Rattle.shift_rows.specs.ShiftRows.{shift_items};

    ghost items = { shift_items };

    /// How many shifts there are.
    #[inline(always)]
    fn rows(&self) -> usize {
        self.shifts.len()
    }

    /// The row of the shift at an index.
    #[inline(always)]
    fn make(&self, index: usize) -> Result<Result<DataRow, PgWireError>, AllocError> {
        let mut made = empty_row(self.alloc);
        write_row(
            self.alloc,
            self.shift(index),
            self.start_format,
            self.length_format,
            &mut made,
        )?;
        Ok(Ok(made))
    }

    /// Writes the row of the shift at an index. It is never false.
    #[inline(always)]
    fn make_row(&self, index: usize, made: &mut DataRow) -> Result<bool, AllocError>
        requires { index < length (shift_items self.now) }
        ensures item { result ≡ Ok true
            → slice_get (shift_items self.now) index ≡ Some (Ok made.new) }
        ensures sendable { result ≡ Ok true → IsSendableRow made.new }
        ensures written { result ≢ Ok false }
    {
        write_row(
            self.alloc,
            self.shift(index),
            self.start_format,
            self.length_format,
            made,
        )?;
        Ok(true)
    }
}
