//! The columns of shifts.

ghost use Rattle.std.specs.Prelude.{◌≡◌, IfOk};
ghost use Rattle.pg_messages.specs.Replies.{IsEncodable};
ghost use Rattle.pg_replies.specs.Replies.{row_description};
ghost use Rattle.shift_rows.specs.ShiftRows.{columns};

use pg_messages::PgList;
use pg_portal::{FieldInfo, Format};
use pg_text::PgType;
use row_handlers::put_column;
use std::alloc::{AllocError, Global};

/// The columns of the rows of shifts in these formats: `name` of type text, `start` and `length` of
/// type interval. They can be sent as a reply.
#[tactic(auto, using(crate::proofs::Sendable::columns_sendable))]
pub fn columns(alloc: Global, formats: &Format) -> Result<PgList<FieldInfo>, AllocError>
    ensures columns { IfOk result (λ fields. fields ≡ columns formats.now) }
    ensures sendable { IfOk result (λ fields. IsEncodable (row_description fields)) }
{
    let mut fields = PgList::new(alloc);
    put_column(alloc, &mut fields, formats, "name", PgType::Text, -1)?;
    put_column(alloc, &mut fields, formats, "start", PgType::Interval, 16)?;
    put_column(alloc, &mut fields, formats, "length", PgType::Interval, 16)?;
    Ok(fields)
}
