//! Columns of results.

ghost use Rattle.std.specs.Prelude.{◌≡◌, IfOk};
ghost use Rattle.std.specs.Arc.{arc_value};
ghost use Rattle.pg_results.specs.Fields.{plain_field, description_of, described_field};
ghost use Rattle.pg_results.specs.SameFields.{is_same_column, is_same_options, is_same_type};

use pg_messages::{FieldDescription, PgStr};
use pg_types::{FieldFormat, FormatOptions, PgType};
use std::alloc::{AllocError, Global};
use std::marker::Model;
use std::sync::Arc;

/// A column of results.
#[derive(Debug, Drop)]
pub struct FieldInfo {
    name: PgStr,
    table_id: Option<i32>,
    column_id: Option<i16>,
    datatype: PgType,
    format: FieldFormat,
    format_options: Arc<FormatOptions>,
    type_size: i16,
    type_modifier: i32,
}

impl Model for FieldInfo {
    ghost use Rattle.std.specs.Arc.{arc_value};
    ghost use Rattle.pg_results.specs.Fields.{Field};

    ghost Value = { Field };

    ghost view = { λ f. record {
      name = f.name;
      table_id = f.table_id;
      column_id = f.column_id;
      datatype = f.datatype;
      format = f.format;
      format_options = arc_value f.format_options;
      type_size = f.type_size;
      type_modifier = f.type_modifier;
    } };
}

impl FieldInfo {
    /// A column with the default options, type size 0 and modifier -1.
    pub fn new(
        alloc: Global,
        name: PgStr,
        table_id: Option<i32>,
        column_id: Option<i16>,
        datatype: PgType,
        format: FieldFormat,
    ) -> Result<FieldInfo, AllocError>
        ensures { IfOk result (λ field. field
            ≡ plain_field name table_id column_id datatype format) }
    {
        Ok(FieldInfo {
            name,
            table_id,
            column_id,
            datatype,
            format,
            format_options: Arc::new(alloc, FormatOptions::new_default(alloc)?)?,
            type_size: 0,
            type_modifier: -1,
        })
    }

    /// The column's name.
    pub fn name(&self) -> &str
        ensures { result.now ≡ self.now.name }
    {
        self.name.as_str()
    }

    /// The oid of its table, where it has one.
    pub fn table_id(&self) -> Option<i32>
        ensures { result ≡ self.now.table_id }
    {
        self.table_id
    }

    /// Its number in that table.
    pub fn column_id(&self) -> Option<i16>
        ensures { result ≡ self.now.column_id }
    {
        self.column_id
    }

    /// The type of its values.
    pub fn datatype(&self) -> PgType
        ensures { result ≡ self.now.datatype }
    {
        self.datatype
    }

    /// The format in which its values are sent.
    pub fn format(&self) -> FieldFormat
        ensures { result ≡ self.now.format }
    {
        self.format
    }

    /// The options by which its values are written as text.
    pub fn format_options(&self) -> &Arc<FormatOptions>
        ensures { arc_value result.now ≡ self.now.format_options }
    {
        &self.format_options
    }

    /// The column with these options.
    pub fn with_format_options(self, format_options: Arc<FormatOptions>) -> FieldInfo
        ensures { result ≡ record self { format_options = arc_value format_options } }
    {
        let mut field = self;
        field.format_options = format_options;
        field
    }

    /// How many bytes a value of its type has; negative where that varies.
    pub fn type_size(&self) -> i16
        ensures { result ≡ self.now.type_size }
    {
        self.type_size
    }

    /// The column with this type size.
    pub fn with_type_size(self, type_size: i16) -> FieldInfo
        ensures { result ≡ record self { type_size = type_size } }
    {
        let mut field = self;
        field.type_size = type_size;
        field
    }

    /// The modifier of its type; -1 for none.
    pub fn type_modifier(&self) -> i32
        ensures { result ≡ self.now.type_modifier }
    {
        self.type_modifier
    }

    /// The column with this modifier.
    pub fn with_type_modifier(self, type_modifier: i32) -> FieldInfo
        ensures { result ≡ record self { type_modifier = type_modifier } }
    {
        let mut field = self;
        field.type_modifier = type_modifier;
        field
    }

    /// The column as RowDescription describes it. An absent table or column is 0.
    pub fn to_description(&self, alloc: Global) -> Result<FieldDescription, AllocError>
        ensures { IfOk result (λ told. told ≡ description_of self.now) }
    {
        Ok(FieldDescription {
            name: PgStr::copy_of(alloc, self.name.as_str())?,
            table_id: self.table_id.unwrap_or(0),
            column_id: self.column_id.unwrap_or(0),
            type_id: self.datatype.oid(),
            type_size: self.type_size,
            type_modifier: self.type_modifier,
            format_code: self.format.value(),
        })
    }

    /// The column of a description, with the default options. An oid that isn't known is the type
    /// `unknown`.
    pub fn from_description(alloc: Global, value: FieldDescription) -> Result<FieldInfo, AllocError>
        ensures { IfOk result (λ field. field ≡ described_field value) }
    {
        let datatype = PgType::from_oid(value.type_id).unwrap_or(PgType::Unknown);
        let format = FieldFormat::from(value.format_code);
        let table_id = Some(value.table_id);
        let column_id = Some(value.column_id);
        let type_size = value.type_size;
        let type_modifier = value.type_modifier;
        let field = FieldInfo::new(alloc, value.name, table_id, column_id, datatype, format)?;
        Ok(
            field
                .with_type_size(type_size)
                .with_type_modifier(type_modifier),
        )
    }

    /// An equal value, which shares the options.
    pub fn copy_of(&self, alloc: Global) -> Result<FieldInfo, AllocError>
        ensures { IfOk result (λ copy. copy ≡ self.now) }
    {
        Ok(FieldInfo {
            name: PgStr::copy_of(alloc, self.name.as_str())?,
            table_id: self.table_id,
            column_id: self.column_id,
            datatype: self.datatype,
            format: self.format,
            format_options: self.format_options.clone()?,
            type_size: self.type_size,
            type_modifier: self.type_modifier,
        })
    }
}

impl PartialEq for FieldInfo {
    ghost use Rattle.std.specs.Cmp.{partial_equiv_from_equiv};
    ghost use Rattle.pg_results.specs.SameFields.{is_same_field, same_field_equiv};

    ghost eq = { is_same_field };

    ghost laws = { partial_equiv_from_equiv same_field_equiv };

    /// Whether all parts are equal; the options are compared by value.
    fn eq(&self, other: &FieldInfo) -> bool {
        is_same_column(self, other)
            && is_same_type(self, other)
            && is_same_options(&self.format_options, &other.format_options)
    }
}

impl Eq for FieldInfo {
    ghost use Rattle.pg_results.specs.SameFields.{same_field_equiv};

    ghost laws = { same_field_equiv };
}

/// Whether the names and the places in a table are equal.
fn is_same_column(a: &FieldInfo, b: &FieldInfo) -> bool
    ensures { result ≡ is_same_column a.now b.now }
{
    a.name == b.name && a.table_id == b.table_id && a.column_id == b.column_id
}

/// Whether the types, with their sizes and modifiers, and the formats are equal.
fn is_same_type(a: &FieldInfo, b: &FieldInfo) -> bool
    ensures { result ≡ is_same_type a.now b.now }
{
    a.datatype.oid() == b.datatype.oid()
        && a.format.value() == b.format.value()
        && a.type_size == b.type_size
        && a.type_modifier == b.type_modifier
}

/// Whether options are equal.
fn is_same_options(a: &FormatOptions, b: &FormatOptions) -> bool
    ensures { result ≡ is_same_options a.now b.now }
{
    a.date_style == b.date_style
        && a.interval_style == b.interval_style
        && a.bytea_output == b.bytea_output
        && a.time_zone == b.time_zone
        && a.extra_float_digits == b.extra_float_digits
}
