//! Columns and tags: both ways, and copies. What is told of a column of no table is shown by rows
//! of conversation_rows, and so are tags with rows.

use pg_messages::{FieldDescription, PgStr};
use pg_portal::{FieldInfo, Format, Tag};
use pg_text::{FieldFormat, FormatOptions, PgType};
use std::alloc::{AllocError, Global};
use std::sync::Arc;
use std::test::Fail;

/// A column of a table, with a size and a modifier.
fn column(alloc: Global) -> Result<FieldInfo, AllocError> {
    let name = PgStr::copy_of(alloc, "span")?;
    let field = FieldInfo::new(
        alloc,
        name,
        Some(7),
        Some(2),
        PgType::Interval,
        FieldFormat::Binary,
    )?;
    Ok(field.with_type_size(16).with_type_modifier(5))
}

/// Options with this interval style.
fn options(alloc: Global, style: &str) -> Result<Arc<FormatOptions>, AllocError> {
    let mut options = FormatOptions::new_default(alloc)?;
    options.interval_style = PgStr::copy_of(alloc, style)?;
    Ok(Arc::new(alloc, options)?)
}

/// The column of a table with this interval style.
fn styled(alloc: Global, style: &str) -> Result<FieldInfo, AllocError> {
    let options = options(alloc, style)?;
    Ok(column(alloc)?.with_format_options(options))
}

/// Whether the description of the column of a table has all that the column has.
fn is_told(alloc: Global, field: &FieldInfo) -> Result<bool, AllocError> {
    let told = field.to_description(alloc)?;
    Ok(
        told.name.as_str() == "span"
            && (told.table_id, told.column_id, told.format_code) == (7, 2, 1)
            && (told.type_id, told.type_size, told.type_modifier) == (1186, 16, 5),
    )
}

/// Whether two columns are equal.
fn is_equal(field: &FieldInfo, other: FieldInfo) -> bool {
    *field == other
}

/// Whether a column is equal to its copy, and to the one that is read from its description.
fn is_read_back(alloc: Global, field: &FieldInfo) -> Result<bool, AllocError> {
    let copied = is_equal(field, field.copy_of(alloc)?);
    let read = FieldInfo::from_description(alloc, field.to_description(alloc)?)?;
    Ok(copied && is_equal(field, read))
}

/// Whether a column is equal to one that has the same modifier and options, and to no other.
fn is_compared(alloc: Global, field: &FieldInfo) -> Result<bool, AllocError> {
    let modified = is_equal(field, column(alloc)?.with_type_modifier(6));
    let same = is_equal(field, styled(alloc, "postgres")?);
    let other = is_equal(field, styled(alloc, "iso_8601")?);
    Ok(!modified && same && !other)
}

/// The description of a column of a type and a format that aren't known.
fn unknown(alloc: Global) -> Result<FieldDescription, AllocError> {
    Ok(FieldDescription {
        name: PgStr::copy_of(alloc, "a")?,
        table_id: 1,
        column_id: 2,
        type_id: 4_000_000_000,
        type_size: -1,
        type_modifier: 3,
        format_code: 2,
    })
}

/// Whether a column of a type and a format that aren't known is read.
fn unknown_is_read(alloc: Global) -> Result<bool, AllocError> {
    let read = FieldInfo::from_description(alloc, unknown(alloc)?)?;
    Ok(
        (read.table_id(), read.column_id()) == (Some(1), Some(2))
            && read.datatype() == PgType::Unknown
            && read.format() == FieldFormat::Text,
    )
}

/// Whether a tag is equal to its copy, and has this text.
fn is_tag(alloc: Global, tag: Tag, text: &str) -> Result<bool, AllocError> {
    let copied = tag == tag.copy_of(alloc)?;
    Ok(copied && tag.into_command_complete(alloc)?.tag.as_str() == text)
}

/// Whether tags with an oid, and with an oid alone, have their texts.
fn have_texts(alloc: Global) -> Result<bool, AllocError> {
    let insert = Tag::new(alloc, "INSERT")?.with_oid(0).with_rows(1);
    let is_told = is_tag(alloc, insert, "INSERT 0 1")?;
    Ok(is_told && is_tag(alloc, Tag::new(alloc, "BEGIN")?.with_oid(4), "BEGIN")?)
}

#[test]
fn a_column_is_told(rt: HostRuntime) -> Result<(), Fail> {
    let field = column(rt.alloc())?;
    assert!(rt; is_told(rt.alloc(), &field) == Ok(true));
    assert!(rt; is_read_back(rt.alloc(), &field) == Ok(true));
    assert!(rt; is_compared(rt.alloc(), &field) == Ok(true));
    Ok(())
}

#[test]
fn an_unknown_oid(rt: HostRuntime) {
    assert!(rt; unknown_is_read(rt.alloc()) == Ok(true));
}

#[test]
fn tags_have_texts(rt: HostRuntime) {
    assert!(rt; have_texts(rt.alloc()) == Ok(true));
    assert!(rt; matches!(Format::default(), Format::UnifiedText));
}
