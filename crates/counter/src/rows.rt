//! The row of a number.

ghost use Rattle.std.specs.Prelude.{◌≡◌, IfOk};
ghost use Rattle.pg_messages.specs.declared.backend.PgWireBackendMessage.TheVariants as server;
ghost use Rattle.pg_messages.specs.Replies.{IsEncodable};
ghost use Rattle.counter.specs.Counter.{row_of};

use itoa::Buffer;
use pg_messages::{DataRow, PgBytes};
use pg_portal::push_cell;
use std::alloc::{AllocError, Global};

/// The row of a number, which can be sent as a reply.
pub(crate) fn row_of(alloc: Global, number: u64) -> Result<DataRow, AllocError>
    ensures row { IfOk result (λ row. row ≡ row_of number) }
    ensures encodable { IfOk result (λ row. IsEncodable (server.DataRow row)) }
{
    let mut digits = Buffer::new();
    let mut payload = Vec::with_capacity(alloc, 24)?;
    push_cell(&mut payload, digits.format(number).as_bytes())?;
    Ok(DataRow {
        payload: PgBytes::from_vec(payload),
        field_count: 1,
    })
}
