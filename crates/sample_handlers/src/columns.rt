//! The columns of sample rows.

ghost use Rattle.std.specs.Prelude.{◌≡◌, None, IfOk};
ghost use Rattle.pg_results.specs.Fields.{plain_field};
ghost use Rattle.pg_messages.specs.Replies.{IsEncodable};
ghost use Rattle.pg_replies.specs.Replies.{row_description};
ghost use Rattle.sample_handlers.specs.Told.{column_format, columns, columns_of};

use crate::meaning::SampleStatement;
use pg_messages::{PgList, PgStr};
use pg_portal::{FieldInfo, Format};
use pg_text::{FieldFormat, PgType};
use std::alloc::{AllocError, Global};

/// The columns of a statement in these formats, which can be sent as a reply. Those without rows
/// have none.
pub(crate) fn columns_of(
    alloc: Global,
    statement: SampleStatement,
    formats: &Format,
) -> Result<PgList<FieldInfo>, AllocError>
    ensures columns { IfOk result (λ fields. fields ≡ columns_of statement formats.now) }
    ensures encodable { IfOk result (λ fields. IsEncodable (row_description fields)) }
{
    match statement {
        SampleStatement::Pair => columns(alloc, formats),
        SampleStatement::Broken => columns(alloc, formats),
        SampleStatement::Long => columns(alloc, formats),
        SampleStatement::Late => columns(alloc, formats),
        _ => Ok(PgList::new(alloc)),
    }
}

/// The format of the column at an index.
pub(crate) fn column_format(formats: &Format, index: usize) -> FieldFormat
    ensures { result ≡ column_format formats.now index }
{
    formats.format_for(index).unwrap_or(FieldFormat::Text)
}

/// The columns of rows: `name` of type text and `span` of type interval.
#[tactic(auto, using(crate::proofs::Sendable::columns_sendable))]
pub(crate) fn columns(alloc: Global, formats: &Format) -> Result<PgList<FieldInfo>, AllocError>
    ensures columns { IfOk result (λ fields. fields ≡ columns formats.now) }
    ensures encodable { IfOk result (λ fields. IsEncodable (row_description fields)) }
{
    let mut fields = PgList::new(alloc);
    fields.push(column(alloc, "name", PgType::Text, -1, column_format(formats, 0))?)?;
    fields.push(column(
        alloc,
        "span",
        PgType::Interval,
        16,
        column_format(formats, 1),
    )?)?;
    Ok(fields)
}

/// A column of a type with a size, which belongs to no table.
fn column(
    alloc: Global,
    name: &str,
    ty: PgType,
    size: i16,
    format: FieldFormat,
) -> Result<FieldInfo, AllocError>
    ensures { IfOk result (λ field. field
        ≡ record (plain_field name.now None None ty format) { type_size = size }) }
{
    let name = PgStr::copy_of(alloc, name)?;
    let field = FieldInfo::new(alloc, name, None, None, ty, format)?;
    Ok(field.with_type_size(size))
}
