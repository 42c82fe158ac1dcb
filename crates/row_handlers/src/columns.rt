//! Short ways to make columns and rows.

ghost use Rattle.std.specs.Prelude.{◌≡◌, ◌++◌, [], ◌∷◌, Ok, IfOk, OnOk, OnErr, length};
ghost use Rattle.pg_messages.specs.declared.backend.PgWireBackendMessage.TheVariants as server;
ghost use Rattle.pg_messages.specs.Replies.{IsEncodable};
ghost use Rattle.row_handlers.specs.Answers.{column_of, format_at};

use pg_messages::{DataRow, PgList, PgStr};
use pg_portal::{FieldInfo, Format, ListRows};
use pg_text::{FieldFormat, PgType};
use std::alloc::{AllocError, Global};

/// The column of this name at place `index`, counted from 0. It belongs to no table. Its format is
/// the one that `formats` has for its place, or text where there is none. `size` is that of a value
/// in bytes, and -1 for a type of varying length.
pub fn column(
    alloc: Global,
    formats: &Format,
    index: usize,
    name: &str,
    datatype: PgType,
    size: i16,
) -> Result<FieldInfo, AllocError>
    ensures { IfOk result (λ field.
        field ≡ column_of (format_at formats.now index) name.now datatype size) }
{
    let format = formats.format_for(index).unwrap_or(FieldFormat::Text);
    let name = PgStr::copy_of(alloc, name)?;
    let field = FieldInfo::new(alloc, name, None, None, datatype, format)?;
    Ok(field.with_type_size(size))
}

/// Appends the column that `column` makes for the place after those that are there. The only error
/// is want of memory, and then the columns are as they were.
pub fn put_column(
    alloc: Global,
    fields: &mut PgList<FieldInfo>,
    formats: &Format,
    name: &str,
    datatype: PgType,
    size: i16,
) -> Result<(), AllocError>
    ensures ok { OnOk result (fields.new ≡ fields.old
        ++ column_of (format_at formats.now (length fields.old)) name.now datatype size ∷ []) }
    ensures err { OnErr result (fields.new ≡ fields.old) }
{
    let place = fields.len();
    fields.push(column(alloc, formats, place, name, datatype, size)?)
}

/// The rows that are this row alone.
pub fn one_row(alloc: Global, row: DataRow) -> Result<ListRows, AllocError>
    requires { IsEncodable (server.DataRow row) }
    ensures { IfOk result (λ rows. rows ≡ Ok row ∷ []) }
{
    let mut rows = PgList::new(alloc);
    rows.push(Ok(row))?;
    Ok(ListRows::new(rows))
}
