//! Sample rows.

ghost use Rattle.std.specs.Prelude.{◌≡◌, ◌≤◌, ◌∷◌, ◌++◌, [], pos, Ok, Err, IfOk, OnOk, length};
ghost use Rattle.std.specs.List.{AllByRecursion};
ghost use Rattle.pg_results.specs.Rows.{IsSendable};
ghost use Rattle.sample_handlers.specs.Told.{division_by_zero, first_row, pair_items, broken_items, long_items};

use crate::errors::division_by_zero;
use pg_messages::{DataRow, PgBytes, PgList};
use pg_portal::{ListRows, PgWireError};
use pg_text::FieldFormat;
use std::alloc::{AllocError, Global};

/// `a` and one day, as text.
const TEXT_ROW: [u8; 14] = [0, 0, 0, 1, b'a', 0, 0, 0, 5, b'1', b' ', b'd', b'a', b'y'];

/// `a` and one day, whose sixteen bytes are Int64 microseconds, Int32 days, Int32 months.
const BINARY_ROW: [u8; 25] = [
    0, 0, 0, 1, b'a', 0, 0, 0, 16, 0, 0, 0, 0, 0, 0, 0, 0, 0, 0, 0, 1, 0, 0, 0, 0,
];

/// `b` and a null.
const NULL_ROW: [u8; 9] = [0, 0, 0, 1, b'b', 255, 255, 255, 255];

/// Rows, and errors in place of rows.
type Items = PgList<Result<DataRow, PgWireError>>;

/// Appends the row of `a` and one day.
fn push_first(alloc: Global, format: FieldFormat, items: &mut Items) -> Result<(), AllocError>
    ensures ok { OnOk result (items.new ≡ items.old ++ Ok (first_row format) ∷ []) }
    ensures sendable { OnOk result
        (AllByRecursion IsSendable items.old → AllByRecursion IsSendable items.new) }
{
    match format {
        FieldFormat::Text => push_row(alloc, &TEXT_ROW, items),
        FieldFormat::Binary => push_row(alloc, &BINARY_ROW, items),
    }
}

/// Appends a row of two cells.
#[tactic(auto, using(crate::proofs::LongRows::each_append))]
fn push_row(alloc: Global, payload: &[u8], items: &mut Items) -> Result<(), AllocError>
    requires { length payload.now ≤ 100 }
    ensures ok { OnOk result (items.new
        ≡ items.old ++ Ok (record { payload = payload.now; field_count = pos 2 }) ∷ []) }
    ensures sendable { OnOk result
        (AllByRecursion IsSendable items.old → AllByRecursion IsSendable items.new) }
{
    let payload = PgBytes::copy_of(alloc, payload)?;
    let row = DataRow {
        payload,
        field_count: 2,
    };
    Ok(items.push(Ok(row))?)
}

/// Appends an error in place of a row.
#[tactic(auto, using(crate::proofs::LongRows::each_append))]
fn push_error(alloc: Global, items: &mut Items) -> Result<(), AllocError>
    ensures ok { OnOk result (items.new ≡ items.old ++ Err division_by_zero ∷ []) }
    ensures sendable { OnOk result
        (AllByRecursion IsSendable items.old → AllByRecursion IsSendable items.new) }
{
    let error = division_by_zero(alloc)?;
    Ok(items.push(Err(error))?)
}

/// Both rows, the interval in this format.
pub(crate) fn pair_rows(alloc: Global, format: FieldFormat) -> Result<ListRows, AllocError>
    ensures { IfOk result (λ rows. rows ≡ pair_items format) }
{
    let mut items = PgList::new(alloc);
    push_first(alloc, format, &mut items)?;
    push_row(alloc, &NULL_ROW, &mut items)?;
    Ok(ListRows::new(items))
}

/// The first row, an error, and the second row twice.
pub(crate) fn broken_rows(alloc: Global, format: FieldFormat) -> Result<ListRows, AllocError>
    ensures { IfOk result (λ rows. rows ≡ broken_items format) }
{
    let mut items = PgList::new(alloc);
    push_first(alloc, format, &mut items)?;
    push_error(alloc, &mut items)?;
    push_row(alloc, &NULL_ROW, &mut items)?;
    push_row(alloc, &NULL_ROW, &mut items)?;
    Ok(ListRows::new(items))
}

/// `count` first rows, an error, and the second row.
pub(crate) fn long_rows(
    alloc: Global,
    format: FieldFormat,
    count: usize,
) -> Result<ListRows, AllocError>
    ensures { IfOk result (λ rows. rows ≡ long_items count format) }
{
    let mut items = PgList::new(alloc);
    for _ in 0..count {
        push_first(alloc, format, &mut items)?;
    }
    push_error(alloc, &mut items)?;
    push_row(alloc, &NULL_ROW, &mut items)?;
    Ok(ListRows::new(items))
}
