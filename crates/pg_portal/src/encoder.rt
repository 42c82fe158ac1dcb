//! Rows as they are made, cell by cell.

ghost use Rattle.std.specs.Prelude.{◌≡◌, ◌<◌, ◌≤◌, OnOk, OnErr, IfOk, IfErr, IsSomeAnd, length, slice_get};
ghost use Rattle.std.specs.Arc.{arc_value};
ghost use Rattle.pg_messages.specs.declared.backend.PgWireBackendMessage.TheVariants as server;
ghost use Rattle.pg_messages.specs.Replies.{IsEncodable};
ghost use Rattle.pg_text.specs.Cells.{AtCell};
ghost use Rattle.pg_portal.specs.Encoding.{no_cells, columns_left, with_cell, field_cell, data_row, IsRefusal};

use crate::cell::push_value;
use bytes::BytesMut;
use pg_messages::{DataRow, PgBytes, PgList};
use pg_results::FieldInfo;
use pg_text::{CellError, FieldFormat, FormatOptions, PgType, ToSql, ToSqlText};
use std::alloc::{AllocError, Global};
use std::marker::Model;
use std::sync::Arc;

/// Makes rows of these columns, cell by cell. A cell is Int32 length and as many bytes; a null is
/// the length -1 alone (protocol: Message Formats, DataRow).
#[derive(Drop)]
pub struct DataRowEncoder {
    fields: Arc<PgList<FieldInfo>>,
    payload: BytesMut,
    cells: u16,
}

impl Model for DataRowEncoder {
    ghost use Rattle.std.specs.Prelude.{ℕ, ◌≤◌, ◌*◌, length};
    ghost use Rattle.std.specs.Arc.{arc_value};
    ghost use Rattle.pg_portal.specs.Encoding.{RowSoFar};

    ghost Value = { RowSoFar };

    ghost view = { λ e. record {
      fields = arc_value e.fields;
      payload = e.payload.items;
      cells = e.cells;
    } };

    ghost invariant = { λ e. (e.cells ≤ 32767) × (length e.payload.items ≤ e.cells * 32004)
        × (length (arc_value e.fields) ≤ 32767) };
}

impl DataRowEncoder {
    /// An encoder of rows with these columns.
    pub fn new(alloc: Global, fields: Arc<PgList<FieldInfo>>) -> Result<DataRowEncoder, AllocError>
        requires { length (arc_value fields) ≤ 32767 }
        ensures { IfOk result (λ encoder. encoder ≡ no_cells (arc_value fields)) }
    {
        Ok(DataRowEncoder {
            fields,
            payload: BytesMut::new(alloc),
            cells: 0,
        })
    }

    /// How many columns have no cell yet.
    pub fn columns_left(&self) -> usize
        ensures { result ≡ columns_left self.now }
    {
        self.fields.len().saturating_sub(usize::from(self.cells))
    }

    /// How many cells the row has so far.
    pub fn cells(&self) -> usize
        ensures { result ≡ self.now.cells }
    {
        usize::from(self.cells)
    }

    /// Appends the value's cell in the next column's type, format and options. After an error the
    /// encoder is as it was.
    pub fn encode_field<T: ToSql + ToSqlText>(&mut self, value: &T) -> Result<(), CellError>
        requires { 0 < columns_left self.old }
        ensures cell { OnOk result (IsSomeAnd (slice_get self.old.fields self.old.cells)
            (λ field. AtCell
            (field_cell T.binary T.text value.now field.datatype field.format field.format_options)
            (λ cell. self.new ≡ with_cell self.old cell))) }
        ensures unchanged { OnErr result (self.new ≡ self.old) }
        ensures refusal { IfErr result (λ error.
            IsSomeAnd (slice_get self.old.fields self.old.cells) (λ field. IsRefusal
            (field_cell T.binary T.text value.now field.datatype field.format field.format_options)
            error)) }
    {
        let field = &self.fields.as_slice()[usize::from(self.cells)];
        let options = field.format_options();
        push_value(
            &mut self.payload,
            value,
            field.datatype(),
            field.format(),
            options,
        )?;
        self.cells += 1;
        Ok(())
    }

    /// Appends the value's cell: in binary what `to_sql` gives, in text what `to_sql_text` gives.
    /// It counts as the cell of a column. After an error the encoder is as it was.
    pub fn encode_field_with_type_and_format<T: ToSql + ToSqlText>(
        &mut self,
        value: &T,
        data_type: PgType,
        format: FieldFormat,
        format_options: &FormatOptions,
    ) -> Result<(), CellError>
        requires { self.old.cells < 32767 }
        ensures cell { OnOk result (AtCell
            (field_cell T.binary T.text value.now data_type format format_options.now)
            (λ cell. self.new ≡ with_cell self.old cell)) }
        ensures unchanged { OnErr result (self.new ≡ self.old) }
        ensures refusal { IfErr result (IsRefusal
            (field_cell T.binary T.text value.now data_type format format_options.now)) }
    {
        push_value(&mut self.payload, value, data_type, format, format_options)?;
        self.cells += 1;
        Ok(())
    }

    /// The row of the cells so far, which can be sent as a reply. The encoder is empty then, and
    /// can make the next row of these columns. After an error it is as it was.
    pub fn take_row(&mut self) -> Result<DataRow, AllocError>
        ensures row { IfOk result (λ row. row ≡ data_row self.old) }
        ensures emptied { OnOk result (self.new ≡ no_cells self.old.fields) }
        ensures unchanged { OnErr result (self.new ≡ self.old) }
        ensures encodable { IfOk result (λ row. IsEncodable (server.DataRow row)) }
    {
        let payload = PgBytes::copy_of(*self.payload.allocator(), self.payload.as_slice())?;
        let field_count = self.cells as i16;
        self.payload.clear();
        self.cells = 0;
        Ok(DataRow {
            payload,
            field_count,
        })
    }

    /// The row of the cells so far, which can be sent as a reply.
    pub fn finish(self) -> Result<DataRow, AllocError>
        ensures row { IfOk result (λ row. row ≡ data_row self) }
        ensures encodable { IfOk result (λ row. IsEncodable (server.DataRow row)) }
    {
        let mut encoder = self;
        encoder.take_row()
    }
}
