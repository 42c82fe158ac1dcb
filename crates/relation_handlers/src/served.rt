//! Relations that are served: their rows, and their lines in a COPY, made on demand.

ghost use Rattle.std.specs.Prelude.{◌≡◌, ◌<◌, List, IfOk, length, map};
ghost use Rattle.std.specs.Arc.{arc_value};
ghost use Rattle.pg_results.specs.Clients.{HasShortMetadata};
ghost use Rattle.pg_results.specs.Responses as response;
ghost use Rattle.pg_results.specs.Responses.{told_copy};
ghost use Rattle.pg_results.specs.Told.{told_rows};
ghost use Rattle.conversation_table.specs.Good.{IsSendableResponse};
ghost use Rattle.relation_tables.specs.Relations.{relation_at};
ghost use Rattle.relation_tables.specs.RelationHandler.{column_formats, copy_response, line_item, row_item, rows_response, told_parser};
ghost use Rattle.relation_tables.specs.declared.Relation.{Relation};
ghost use Rattle.relation_handlers.specs.Made.{GivesFormats, IsSettled, line_items, lines_left, row_items, rows_left, style_in};

use crate::columns::columns_at;
use crate::copy::RelationCopy;
use crate::named_relations::NamedRelations;
use crate::options::Settings;
use crate::row_source::RelationRows;
use crate::table::RelationTable;
use pg_messages::PgList;
use pg_portal::{
    ClientInfo, CopyResponse, CopySource, Format, OnDemand, QueryParser, QueryResponse, RowSource,
};
use pg_text::FieldFormat;
use relation_tables::RelationStatement;
use std::alloc::{AllocError, Global};
use std::sync::Arc;

/// Relations that are served. Handlers are generic in them, and are used only with a
/// `&RelationTable`.
pub trait ServedRelations: Drop {
    /// The parser of queries of them.
    type Parser: QueryParser<Statement = RelationStatement> + Drop;

    /// Where the rows of a relation come from.
    type Rows: RowSource;

    /// Where the lines of a relation come from.
    type Lines: CopySource;

    // the relations
    ghost told: { Self → List Relation };

    /// The table of them.
    fn table(&self) -> &RelationTable
        ensures { result.now ≡ told self.now };

    /// The parser of queries of them.
    fn parser(&self, alloc: Global) -> Result<Arc<Self::Parser>, AllocError>
        ensures { IfOk result (λ parser.
            Self.Parser.told (arc_value parser) ≡ told_parser (told self.now)) };

    /// The rows of the relation at a place in these formats, under their columns and the tag
    /// SELECT.
    fn rows(
        &self,
        alloc: Global,
        client: &ClientInfo,
        formats: &Format,
        place: u32,
    ) -> Result<QueryResponse<Self::Rows>, AllocError>
        requires place { place < length (told self.now) }
        requires formats { GivesFormats formats.now
            (length (relation_at (told self.now) place).columns) }
        requires short_metadata { HasShortMetadata client.now }
        ensures told { IfOk result (λ rows. response.Query (told_rows Self.Rows.items rows)
            ≡ rows_response client.now formats.now (relation_at (told self.now) place)) }
        ensures sendable { IfOk result (λ rows. IsSendableResponse
            (rows_response client.now formats.now (relation_at (told self.now) place))) };

    /// The lines of the relation at a place, as text.
    fn lines(
        &self,
        alloc: Global,
        client: &ClientInfo,
        place: u32,
    ) -> Result<CopyResponse<Self::Lines>, AllocError>
        requires place { place < length (told self.now) }
        requires short_metadata { HasShortMetadata client.now }
        ensures { IfOk result (λ lines. response.CopyOut (told_copy Self.Lines.items lines)
            ≡ copy_response client.now (relation_at (told self.now) place)) };
}

impl<'r> ServedRelations for &'r RelationTable {
    type Parser = NamedRelations;

    type Rows = OnDemand<RelationRows<'r>>;

    type Lines = RelationCopy<'r, Global>;

    ghost told = { λ relations. relations.now };

    fn table(&self) -> &RelationTable {
        *self
    }

    /// The relations under their names, which parse their queries. It takes no memory.
    fn parser(&self, _alloc: Global) -> Result<Arc<NamedRelations>, AllocError> {
        (*self).share_named()
    }

    fn rows(
        &self,
        alloc: Global,
        client: &ClientInfo,
        formats: &Format,
        place: u32,
    ) -> Result<QueryResponse<OnDemand<RelationRows<'r>>>, AllocError> {
        rows_response(alloc, *self, client, formats, place)
    }

    fn lines(
        &self,
        alloc: Global,
        client: &ClientInfo,
        place: u32,
    ) -> Result<CopyResponse<RelationCopy<'r, Global>>, AllocError> {
        copy_response(alloc, *self, client, place)
    }
}

/// The rows of the relation at a place in these formats, under their columns and the tag SELECT.
#[inline(always)]
fn rows_response<'r>(
    alloc: Global,
    relations: &'r RelationTable,
    client: &ClientInfo,
    formats: &Format,
    place: u32,
) -> Result<QueryResponse<OnDemand<RelationRows<'r>>>, AllocError>
    requires place { place < length relations.now }
    requires formats { GivesFormats formats.now
        (length (relation_at relations.now place).columns) }
    requires short_metadata { HasShortMetadata client.now }
    ensures told { IfOk result (λ rows. response.Query (told_rows rows_left rows)
        ≡ rows_response client.now formats.now (relation_at relations.now place)) }
    ensures sendable { IfOk result (λ rows. IsSendableResponse
        (rows_response client.now formats.now (relation_at relations.now place))) }
{
    let columns = columns_at(alloc, relations.named(), place, formats)?;
    let (fields, each_format) = columns.into_parts();
    let settings = query_settings(alloc, relations, client, formats)?;
    let formats = formats.copy_of(alloc)?;
    let rows = rows_from_first(alloc, relations, place, formats, each_format, settings);
    QueryResponse::new(alloc, fields, rows)
}

/// The lines of the relation at a place, as text.
fn copy_response<'r>(
    alloc: Global,
    relations: &'r RelationTable,
    client: &ClientInfo,
    place: u32,
) -> Result<CopyResponse<RelationCopy<'r, Global>>, AllocError>
    requires place { place < length relations.now }
    requires short_metadata { HasShortMetadata client.now }
    ensures { IfOk result (λ lines. response.CopyOut (told_copy (λ items. items) lines)
        ≡ copy_response client.now (relation_at relations.now place)) }
{
    let named = relations.named();
    let each_format = named.columns_at(place).text.share_formats()?;
    let settings = relations.settings_of(alloc, client)?;
    let formats = Format::UnifiedText;
    let lines = rows_from_first(alloc, relations, place, formats, each_format, settings);
    let lines = RelationCopy::new(alloc, lines);
    Ok(CopyResponse::new(0, named.at(place).columns.len(), lines))
}

/// The settings of a query in these formats. Where all results are binary, the client's style
/// doesn't matter, and isn't looked up.
#[inline(always)]
fn query_settings(
    alloc: Global,
    relations: &RelationTable,
    client: &ClientInfo,
    formats: &Format,
) -> Result<Settings, AllocError>
    requires { HasShortMetadata client.now }
    ensures { IfOk result (λ settings. IsSettled formats.now client.now settings) }
{
    match formats {
        Format::UnifiedBinary => relations.default_settings(),
        Format::UnifiedText => relations.settings_of(alloc, client),
        Format::Individual(_) => relations.settings_of(alloc, client),
    }
}

/// The rows of the relation at a place from the first on, in these settings. The format of each
/// column is judged already.
#[inline(always)]
fn rows_from_first<'r>(
    alloc: Global,
    relations: &'r RelationTable,
    place: u32,
    formats: Format,
    each_format: Arc<PgList<FieldFormat>>,
    settings: Settings,
) -> OnDemand<RelationRows<'r>>
    requires place { place < length relations.now }
    requires formats { GivesFormats formats (length (relation_at relations.now place).columns) }
    requires judged { arc_value each_format
        ≡ column_formats formats (relation_at relations.now place).columns }
    ensures rows { rows_left result ≡ map (row_item (style_in settings)
        (column_formats formats (relation_at relations.now place).columns))
        (relation_at relations.now place).rows }
    ensures lines { lines_left result
        ≡ map (line_item (style_in settings)) (relation_at relations.now place).rows }
{
    let (options, style) = settings.into_parts();
    let maker = RelationRows::new(
        alloc,
        relations,
        place,
        formats,
        options,
        each_format,
        style,
    );
    OnDemand::new(maker)
}
