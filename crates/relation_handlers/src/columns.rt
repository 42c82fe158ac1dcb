//! The columns of relations, and their formats.

ghost use Rattle.std.specs.Prelude.{◌≡◌, ◌<◌, IfOk, IsTrue, length, map, zip};
ghost use Rattle.pg_messages.specs.declared.backend.PgWireBackendMessage.TheVariants as server;
ghost use Rattle.pg_messages.specs.Replies.{IsEncodable};
ghost use Rattle.pg_replies.specs.Replies.{row_description};
ghost use Rattle.relation_tables.specs.Relations.{column, relation_at};
ghost use Rattle.relation_tables.specs.RelationHandler.{column_format, column_formats, columns_in, fields_of, is_statement_of};
ghost use Rattle.relation_handlers.specs.Shared.{shared_of, told_columns};

use crate::named_relations::NamedRelations;
use crate::shared::{Columns, SharedColumns};
use pg_messages::{PgList, PgStr};
use pg_portal::{FieldInfo, Format};
use pg_text::{FieldFormat, PgType};
use relation_tables::RelationStatement;
use std::alloc::{AllocError, Global};

/// The columns of a statement's rows in these formats, which can be sent as a reply. BEGIN and
/// COMMIT have none.
pub(crate) fn fields_of(
    alloc: Global,
    relations: &NamedRelations,
    means: RelationStatement,
    formats: &Format,
) -> Result<PgList<FieldInfo>, AllocError>
    requires { IsTrue (is_statement_of relations.now means) }
    ensures fields { IfOk result (λ fields. fields ≡ fields_of relations.now means formats.now) }
    ensures encodable { IfOk result (λ fields. IsEncodable (row_description fields)) }
{
    match means {
        RelationStatement::Begin => Ok(PgList::new(alloc)),
        RelationStatement::Commit => Ok(PgList::new(alloc)),
        RelationStatement::Relation(place) => {
            let names = relations.at(place).columns.as_slice();
            fields_in(alloc, relations.columns_at(place), formats, names)
        }
    }
}

/// The columns of these names in these formats, each made anew. Where all have one format they are
/// copied from those that are shared.
fn fields_in(
    alloc: Global,
    shared: &SharedColumns,
    formats: &Format,
    names: &[PgStr],
) -> Result<PgList<FieldInfo>, AllocError>
    requires { shared.now ≡ shared_of names.now }
    ensures { IfOk result (λ fields. fields ≡ columns_in formats.now names.now) }
{
    match formats {
        Format::UnifiedText => copy_of_fields(alloc, shared.text.fields()),
        Format::UnifiedBinary => copy_of_fields(alloc, shared.binary.fields()),
        Format::Individual(_) => {
            let formats = column_formats(alloc, formats, names)?;
            columns(alloc, formats.as_slice(), names)
        }
    }
}

/// The columns of the relation at a place in these formats, which can be sent as a reply.
pub(crate) fn columns_at(
    alloc: Global,
    relations: &NamedRelations,
    place: u32,
    formats: &Format,
) -> Result<Columns, AllocError>
    requires { place < length relations.now }
    ensures columns { IfOk result (λ columns.
        columns ≡ told_columns formats.now (relation_at relations.now place).columns) }
    ensures length { IfOk result (λ columns.
        length columns.formats ≡ length (relation_at relations.now place).columns) }
    ensures encodable { IfOk result (λ columns. IsEncodable (row_description columns.fields)) }
{
    let names = relations.at(place).columns.as_slice();
    columns_in(alloc, relations.columns_at(place), formats, names)
}

/// The columns of these names in these formats. Where all have one format they are those that are
/// shared.
fn columns_in(
    alloc: Global,
    shared: &SharedColumns,
    formats: &Format,
    names: &[PgStr],
) -> Result<Columns, AllocError>
    requires { shared.now ≡ shared_of names.now }
    ensures { IfOk result (λ columns. columns ≡ told_columns formats.now names.now) }
{
    match formats {
        Format::UnifiedText => shared.text.share(),
        Format::UnifiedBinary => shared.binary.share(),
        Format::Individual(_) => Columns::new(alloc, formats, names),
    }
}

/// A copy of columns, which shares their options.
fn copy_of_fields(alloc: Global, fields: &[FieldInfo]) -> Result<PgList<FieldInfo>, AllocError>
    ensures { IfOk result (λ copy. copy ≡ fields.now) }
{
    let mut copy = PgList::new(alloc);
    for field in fields {
        copy.push(field.copy_of(alloc)?)?;
    }
    Ok(copy)
}

/// The formats of columns, one for each.
pub(crate) fn column_formats(
    alloc: Global,
    formats: &Format,
    names: &[PgStr],
) -> Result<PgList<FieldFormat>, AllocError>
    ensures formats { IfOk result (λ all. all ≡ column_formats formats.now names.now) }
    ensures length { IfOk result (λ all. length all ≡ length names.now) }
{
    let mut all = PgList::new(alloc);
    for (index, _name) in names.iter().enumerate() {
        all.push(column_format(formats, index))?;
    }
    Ok(all)
}

/// The format of the column at an index.
fn column_format(formats: &Format, index: usize) -> FieldFormat
    ensures { result ≡ column_format formats.now index }
{
    match formats.format_for(index) {
        Some(format) => format,
        None => FieldFormat::Text,
    }
}

/// The columns of these names, each in its format.
pub(crate) fn columns(
    alloc: Global,
    formats: &[FieldFormat],
    names: &[PgStr],
) -> Result<PgList<FieldInfo>, AllocError>
    requires { length formats.now ≡ length names.now }
    ensures { IfOk result (λ fields. fields
        ≡ map (λ p. column p.0 p.1) (zip formats.now names.now)) }
{
    let mut fields = PgList::new(alloc);
    for (index, name) in names.iter().enumerate() {
        fields.push(column(alloc, name.as_str(), formats[index])?)?;
    }
    Ok(fields)
}

/// A column of intervals.
fn column(alloc: Global, name: &str, format: FieldFormat) -> Result<FieldInfo, AllocError>
    ensures { IfOk result (λ field. field ≡ column format name.now) }
{
    let name = PgStr::copy_of(alloc, name)?;
    let field = FieldInfo::new(alloc, name, None, None, PgType::Interval, format)?;
    Ok(field.with_type_size(16))
}
