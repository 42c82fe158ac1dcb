//! The rows of a relation, made one by one: rows of a query, or lines of a COPY.

ghost use Rattle.std.specs.Prelude.{◌≡◌, ◌≤◌, ◌<◌, Some, IfOk, length, slice_get};
ghost use Rattle.std.specs.Arc.{arc_value};
ghost use Rattle.pg_results.specs.Texts.{IsShortText};
ghost use Rattle.relation_tables.specs.Relations.{relation_at};
ghost use Rattle.relation_tables.specs.RelationHandler.{column_formats};
ghost use Rattle.relation_handlers.specs.Made.{ToldMaker, GivesFormats, relation_of, row_items, style_in};

use crate::copy_line::{line_item, write_line_in_style};
use crate::data_row::{row_item, write_in_style};
use crate::style::SessionStyle;
use crate::table::RelationTable;
use pg_interval::Interval;
use pg_messages::{CopyData, DataRow, PgList};
use pg_portal::{CopyMaker, Format, PgWireError, RowMaker};
use pg_text::{FieldFormat, FormatOptions};
use std::alloc::{AllocError, Global};
use std::marker::Model;
use std::sync::Arc;

/// Makes the rows of a relation, and the lines of a COPY of it, each by its index. It keeps none of
/// them.
#[derive(Drop)]
pub struct RelationRows<'r> {
    /// The table.
    pub relations: &'r RelationTable,
    /// The place of the relation in the table.
    pub relation: u32,
    /// The formats of the columns in a row. A line is text.
    pub formats: Format,
    /// The options with the interval style of texts: those of the session. Where all rows are
    /// binary they may be others.
    pub options: Arc<FormatOptions>,
    // the rows of the relation, looked up once
    rows: &'r PgList<PgList<Interval>>,
    // the format of each column, judged once
    each_format: Arc<PgList<FieldFormat>>,
    // the style of the options, judged once
    style: SessionStyle,
    alloc: Global,
}

impl<'r> Model for RelationRows<'r> {
    ghost use Rattle.std.specs.Arc.{arc_value};
    ghost use Rattle.relation_handlers.specs.Made.{ToldMaker, IsMaker};

    ghost Value = { ToldMaker };

    ghost view = { λ r. record {
      relations = r.relations.now;
      relation = r.relation;
      formats = r.formats;
      options = arc_value r.options;
    } };

    ghost invariant = { λ r. IsMaker (record {
      relations = r.relations.now;
      relation = r.relation;
      formats = r.formats;
      options = arc_value r.options;
    }) r.rows.now (arc_value r.each_format) r.style };
}

impl<'r> RelationRows<'r> {
    /// The maker of the rows of the relation at a place. The format of each column and the style of
    /// the options are judged already. It takes no memory.
    pub fn new(
        alloc: Global,
        relations: &'r RelationTable,
        relation: u32,
        formats: Format,
        options: Arc<FormatOptions>,
        each_format: Arc<PgList<FieldFormat>>,
        style: SessionStyle,
    ) -> RelationRows<'r>
        requires place { relation < length relations.now }
        requires formats { GivesFormats formats
            (length (relation_at relations.now relation).columns) }
        requires short_style { IsShortText (arc_value options).interval_style }
        requires judged { arc_value each_format
            ≡ column_formats formats (relation_at relations.now relation).columns }
        requires style { style ≡ style_in (arc_value options) }
        ensures relations { result.relations ≡ relations.now }
        ensures relation { result.relation ≡ relation }
        ensures formats { result.formats ≡ formats }
        ensures options { result.options ≡ arc_value options }
    {
        let rows = &relations.named().at(relation).rows;
        RelationRows {
            relations,
            relation,
            formats,
            options,
            rows,
            each_format,
            style,
            alloc,
        }
    }

    /// How many rows the relation has.
    #[inline(always)]
    fn len(&self) -> usize
        ensures { result ≡ length (relation_of self.now).rows }
    {
        self.rows.len()
    }

    /// The intervals of the row at an index, one for each column.
    #[inline(always)]
    fn row(&self, index: usize) -> &[Interval]
        requires { index < length (relation_of self.now).rows }
        ensures row { slice_get (relation_of self.now).rows index ≡ Some result.now }
        ensures wide { length result.now ≡ length (relation_of self.now).columns }
        ensures narrow { length result.now ≤ 1600 }
    {
        let rows = self.rows.as_slice();
        rows[index].as_slice()
    }
}

impl<'r> RowMaker for RelationRows<'r> {
    ghost use Rattle.relation_handlers.specs.Made.{row_items};

    ghost items = { row_items };

    /// How many rows the relation has.
    #[inline(always)]
    fn rows(&self) -> usize {
        self.len()
    }

    /// The row at an index.
    #[inline(always)]
    fn make(&self, index: usize) -> Result<Result<DataRow, PgWireError>, AllocError> {
        let formats = self.each_format.as_slice();
        row_item(self.alloc, &self.style, formats, self.row(index))
    }

    /// Writes the row at an index, if the session has a style.
    #[inline(always)]
    fn make_row(&self, index: usize, made: &mut DataRow) -> Result<bool, AllocError> {
        let formats = self.each_format.as_slice();
        write_in_style(self.alloc, &self.style, formats, self.row(index), made)
    }
}

impl<'r> CopyMaker for RelationRows<'r> {
    ghost use Rattle.relation_handlers.specs.Made.{line_items};

    ghost items = { line_items };

    /// How many rows the relation has, each of which is a line.
    fn data_len(&self) -> usize {
        self.len()
    }

    /// The line at an index.
    fn make_data(&self, index: usize) -> Result<Result<CopyData, PgWireError>, AllocError> {
        line_item(self.alloc, &self.style, self.row(index))
    }

    /// Writes the line at an index, if the session has a style.
    #[inline(always)]
    fn make_copied(&self, index: usize, made: &mut CopyData) -> Result<bool, AllocError> {
        write_line_in_style(self.alloc, &self.style, self.row(index), made)
    }
}
