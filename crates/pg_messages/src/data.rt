//! Rows, and the descriptions of their columns.

use crate::put::Put;
use crate::values::{PgBytes, PgList, PgStr};
use bytes::BytesMut;

/// A format code of a value or a column: text.
pub const FORMAT_CODE_TEXT: i16 = 0;

/// A format code of a value or a column: binary.
pub const FORMAT_CODE_BINARY: i16 = 1;

/// The types of a statement's parameters. Protocol, ParameterDescription: Byte1 `t`, Int32 length,
/// Int16 count, and as many Int32 type oids.
#[derive(Drop)]
pub struct ParameterDescription {
    /// The type oids, one for each parameter.
    pub types: PgList<u32>,
}

/// A column of a result. Protocol, RowDescription, one of its fields: String name, Int32 table,
/// Int16 column, Int32 type, Int16 size, Int32 modifier, Int16 format.
#[derive(Drop)]
pub struct FieldDescription {
    /// The column's name.
    pub name: PgStr,
    /// The oid of its table, or 0.
    pub table_id: i32,
    /// Its number in that table, or 0.
    pub column_id: i16,
    /// The oid of its type.
    pub type_id: u32,
    /// How many bytes a value has; negative where that varies.
    pub type_size: i16,
    /// The type's modifier; -1 for none.
    pub type_modifier: i32,
    /// 0 for text, 1 for binary.
    pub format_code: i16,
}

/// The columns of the rows that follow. Protocol, RowDescription: Byte1 `T`, Int32 length, Int16
/// count, and as many fields.
#[derive(Drop)]
pub struct RowDescription {
    /// The columns in their order.
    pub fields: PgList<FieldDescription>,
}

/// There are no rows to come. Protocol, NoData: Byte1 `n`, Int32 length 4.
#[derive(Drop)]
pub struct NoData {}

/// A row of results. Protocol, DataRow: Byte1 `D`, Int32 length, Int16 count of cells, and for each
/// cell Int32 length (-1 for null) and as many bytes.
#[derive(Drop)]
pub struct DataRow {
    /// The cells as they are sent, each after its length.
    pub payload: PgBytes,
    /// How many cells the payload has.
    pub field_count: i16,
}

impl Put for FieldDescription {
    ghost use Rattle.pg_messages.specs.Replies.{field_description};

    ghost bytes_of = { field_description };

    fn byte_len(&self) -> u64 {
        self.name.byte_len().saturating_add(18)
    }

    fn put(&self, dst: &mut BytesMut) {
        self.name.put(dst);
        self.table_id.put(dst);
        self.column_id.put(dst);
        self.type_id.put(dst);
        self.type_size.put(dst);
        self.type_modifier.put(dst);
        self.format_code.put(dst);
    }
}
