//! What a client is told of an order.

use pg_messages::PgList;
use shift_table::Shift;

/// What a client is told of an order.
#[derive(Debug, Drop)]
pub enum Outcome {
    /// A transaction is open.
    Began,
    /// The transaction's changes were made, or there was no transaction.
    Committed,
    /// Nothing of the transaction is kept.
    RolledBack,
    /// A shift was booked.
    Booked,
    /// A shift was canceled.
    Canceled,
    /// These are the shifts.
    Shown(PgList<Shift>),
    /// The order was refused, and nothing was changed by it.
    Refused(Refusal),
}

/// Why an order was refused.
#[derive(Clone, Copy, Debug, PartialEq, Eq)]
pub enum Refusal {
    /// The length of the shift isn't above zero.
    NotPositive,
    /// A shift of its name that is booked overlaps it.
    Clash,
    /// No shift of the name starts at the moment.
    UnknownShift,
    /// Others changed the table, so that the transaction's changes can't be made any more.
    Changed,
    /// The transaction has failed. Only its end is awaited.
    Failed,
}
