//! A page of rows, and the receiver of its rows.

ghost use Rattle.std.specs.Prelude.{◌≡◌, ◌++◌, [], ◌∷◌, List, Ok, true, false, pos, length, map, IfOk, IfErr, OnOk, OnErr};
ghost use Rattle.std.proofs.Common.{append-nil, append_assoc};
ghost use Rattle.pg_messages.specs.declared.backend.PgWireBackendMessage.TheVariants as server;
ghost use Rattle.pg_messages.specs.declared.data.DataRow.{DataRow};
ghost use Rattle.pg_messages.specs.Replies.{IsEncodable};
ghost use Rattle.pg_results.specs.Page.{EndsPage, CutsPage, delivered_after, is_reached, item_page};
ghost use Rattle.pg_results.specs.Rows.{IsAnswerableItem};

use crate::error::PgWireError;
use crate::rows::RowSource;
use pg_messages::{DataRow, PgBytes, PgList};
use std::alloc::{AllocError, Global};

/// Receives rows one by one.
pub trait RowReceiver {
    // the receiver after these rows too
    ghost with_rows: { Self → List DataRow → Self };

    /// Receives the next row, which can be sent as a reply. After an error the receiver is as it
    /// was.
    fn receive(&mut self, alloc: Global, row: &DataRow) -> Result<(), AllocError>
        requires { IsEncodable (server.DataRow row.now) }
        ensures ok { OnOk result (self.new ≡ with_rows self.old (row.now ∷ [])) }
        ensures err { OnErr result (self.new ≡ self.old) };

    // Receiving no rows leaves it as it is. Receiving rows, and then more, is receiving all of
    // them.
    ghost none: { (receiver : Self) → with_rows receiver [] ≡ receiver };

    ghost more: { (receiver : Self) (rows behind : List DataRow)
        → with_rows (with_rows receiver rows) behind ≡ with_rows receiver (rows ++ behind) };
}

/// A list keeps a copy of each row, in their order.
impl RowReceiver for PgList<DataRow> {
    ghost with_rows = { λ list rows. list ++ rows };

    fn receive(&mut self, alloc: Global, row: &DataRow) -> Result<(), AllocError> {
        let payload = PgBytes::copy_of(alloc, row.payload.as_slice())?;
        self.push(DataRow {
            payload,
            field_count: row.field_count,
        })
    }

    ghost none = { append-nil };

    ghost more = { append_assoc };
}

/// How a page ended.
#[derive(Clone, Copy)]
pub struct DeliveredPage {
    /// Whether it ended at its limit. Else it ended at the end of the rows.
    pub suspended: bool,
    /// How many rows were delivered since the portal was started, with those of this page. The
    /// number saturates at the greatest u64.
    pub delivered: u64,
}

/// Whether a page of `rows` rows has reached its limit. A limit below 1 is never reached.
#[inline(always)]
fn is_reached(max_rows: i32, rows: usize) -> bool
    ensures { result ≡ is_reached max_rows rows }
{
    max_rows >= 1 && max_rows.cast_unsigned() as usize <= rows
}

/// How many rows were delivered since a portal was started: `before` of them before a page, and
/// `rows` in it. The number saturates at the greatest u64.
#[inline(always)]
fn delivered_after(before: u64, rows: usize) -> u64
    ensures { result ≡ delivered_after before rows }
{
    before.saturating_add(rows as u64)
}

/// Delivers the next page of rows to a receiver: at most `max_rows` rows, or all that are left
/// where `max_rows` is below 1. `delivered` rows were delivered before. The page is suspended where
/// the limit was reached, even by the last row. Else it is complete.
///
/// An error in the place of a row is returned and consumed, and the receiver has the rows before
/// it. After `NoMemory` the receiver has the rows so far, and at most one row that was taken is
/// lost. No row is taken ahead. The rows of a page that `next_row` writes share one buffer.
pub fn deliver_page<R: RowSource, T: RowReceiver>(
    alloc: Global,
    rows: &mut R,
    receiver: &mut T,
    delivered: u64,
    max_rows: i32,
) -> Result<DeliveredPage, PgWireError>
    ensures ended { IfOk result (λ page. EndsPage (item_page max_rows (R.items rows.old)).ending
        page.suspended (R.items rows.new)) }
    ensures delivered { IfOk result (λ page. page.delivered
        ≡ delivered_after delivered (length (item_page max_rows (R.items rows.old)).rows)) }
    ensures received { OnOk result (receiver.new
        ≡ T.with_rows receiver.old (item_page max_rows (R.items rows.old)).rows) }
    ensures taken { OnOk result (R.items rows.old
        ≡ map Ok (item_page max_rows (R.items rows.old)).rows ++ R.items rows.new) }
    ensures cut_short { IfErr result (λ error. (received : List DataRow)
        × CutsPage max_rows (R.items rows.old) received error (R.items rows.new)
        × (receiver.new ≡ T.with_rows receiver.old received)) }
    ensures own { IfErr result IsAnswerableItem }
{
    let mut row = DataRow {
        payload: PgBytes::from_vec(Vec::new(alloc)),
        field_count: 0,
    };
    deliver_through(alloc, rows, receiver, &mut row, delivered, max_rows)
}

/// Delivers the next page, as `deliver_page` does. `lent` is the buffer for `next_row`.
#[inline(always)]
fn deliver_through<R: RowSource, T: RowReceiver>(
    alloc: Global,
    rows: &mut R,
    receiver: &mut T,
    lent: &mut DataRow,
    delivered: u64,
    max_rows: i32,
) -> Result<DeliveredPage, PgWireError>
    ensures ended { IfOk result (λ page. EndsPage (item_page max_rows (R.items rows.old)).ending
        page.suspended (R.items rows.new)) }
    ensures delivered { IfOk result (λ page. page.delivered
        ≡ delivered_after delivered (length (item_page max_rows (R.items rows.old)).rows)) }
    ensures received { OnOk result (receiver.new
        ≡ T.with_rows receiver.old (item_page max_rows (R.items rows.old)).rows) }
    ensures taken { OnOk result (R.items rows.old
        ≡ map Ok (item_page max_rows (R.items rows.old)).rows ++ R.items rows.new) }
    ensures cut_short { IfErr result (λ error. (received : List DataRow)
        × CutsPage max_rows (R.items rows.old) received error (R.items rows.new)
        × (receiver.new ≡ T.with_rows receiver.old received)) }
    ensures own { IfErr result IsAnswerableItem }
{
    // No receiver that keeps its rows gets so many that the count saturates. One that only counts
    // them may.
    let mut count = 0;
    while !is_reached(max_rows, count) {
        // Most sources write their rows into the lent buffer.
        if rows.next_row(lent)? {
            receiver.receive(alloc, lent)?;
            count = count.saturating_add(1);
            continue;
        }
        if !deliver_next(alloc, rows, receiver)? {
            return Ok(DeliveredPage {
                suspended: false,
                delivered: delivered_after(delivered, count),
            });
        }
        count = count.saturating_add(1);
    }
    Ok(DeliveredPage {
        suspended: true,
        delivered: delivered_after(delivered, count),
    })
}

/// Delivers the next item, which `next_row` didn't write, where it is a row, and returns whether
/// there was an item. An error in the place of a row is returned.
#[cold]
#[inline(never)]
fn deliver_next<R: RowSource, T: RowReceiver>(
    alloc: Global,
    rows: &mut R,
    receiver: &mut T,
) -> Result<bool, PgWireError>
    ensures row { result ≡ Ok true → (row : DataRow) × (R.items rows.old ≡ Ok row ∷ R.items rows.new)
        × (receiver.new ≡ T.with_rows receiver.old (row ∷ [])) }
    ensures end { result ≡ Ok false → (R.items rows.old ≡ []) × (R.items rows.new ≡ [])
        × (receiver.new ≡ receiver.old) }
    ensures cut_short { IfErr result (λ error.
        CutsPage (pos 1) (R.items rows.old) [] error (R.items rows.new)) }
    ensures kept { OnErr result (receiver.new ≡ receiver.old) }
    ensures own { IfErr result IsAnswerableItem }
{
    match rows.next() {
        Ok(Some(Ok(row))) => receiver.receive(alloc, &row)?,
        Ok(Some(Err(error))) => return Err(error),
        Ok(None) => return Ok(false),
        Err(_) => return Err(PgWireError::NoMemory),
    }
    Ok(true)
}
