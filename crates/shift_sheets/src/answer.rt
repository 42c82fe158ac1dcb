//! What a query is answered.

use pg_messages::ErrorInfo;
use shift_table::Shift;
use shift_transactions::Refusal;
use std::sync::Arc;

/// What a query is answered.
#[derive(Drop)]
pub enum Answer {
    /// A transaction is open.
    Began,
    /// The transaction's changes were made, or there was no transaction.
    Committed,
    /// Nothing of the transaction is kept.
    RolledBack,
    /// A shift was booked.
    Booked,
    /// A shift was canceled.
    Canceled,
    /// These are the shifts.
    Shown(Arc<Vec<Shift>>),
    /// The order was refused.
    Refused(Refusal),
    /// The query's text means nothing, or a parameter stands for no value.
    Error(ErrorInfo),
    /// No query is asked for.
    Nothing,
}
