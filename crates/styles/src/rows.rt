//! The row of an interval.

ghost use Rattle.std.specs.Prelude.{◌≡◌, IfOk};
ghost use Rattle.pg_messages.specs.declared.backend.PgWireBackendMessage.TheVariants as server;
ghost use Rattle.pg_messages.specs.Replies.{IsEncodable};
ghost use Rattle.styles.specs.Rows.{row_of, Shows};

use pg_interval::Interval;
use pg_messages::{DataRow, PgBytes};
use pg_portal::push_cell;
use pg_text::IntervalStyle;
use std::alloc::{AllocError, Global};

/// The row of an interval, which can be sent as a reply: its text in each style. Each cell stands
/// for the interval and for no other.
pub(crate) fn row_of(alloc: Global, interval: &Interval) -> Result<DataRow, AllocError>
    ensures row { IfOk result (λ row. row ≡ row_of interval.now) }
    ensures shows { IfOk result (λ row. Shows row interval.now) }
    ensures encodable { IfOk result (λ row. IsEncodable (server.DataRow row)) }
{
    let mut payload = Vec::with_capacity(alloc, 400)?;
    let text = IntervalStyle::Postgres.text(interval);
    push_cell(&mut payload, text.as_bytes())?;
    let text = IntervalStyle::PostgresVerbose.text(interval);
    push_cell(&mut payload, text.as_bytes())?;
    let text = IntervalStyle::ISO8601.text(interval);
    push_cell(&mut payload, text.as_bytes())?;
    let text = IntervalStyle::SQLStandard.text(interval);
    push_cell(&mut payload, text.as_bytes())?;
    Ok(DataRow {
        payload: PgBytes::from_vec(payload),
        field_count: 4,
    })
}
