//! Relations under their names, and what queries mean among them.

ghost use Rattle.std.specs.Prelude.{◌≡◌, ℕ, List, ◌<◌, IsTrue, IfOk, IfErr, IfSome, length, map};
ghost use Rattle.std.specs.Arc.{arc_value};
ghost use Rattle.std.specs.Option.{option_copied};
ghost use Rattle.std.specs.FinMap as fin;
ghost use Rattle.pg_results.specs.Rows.{IsAnswerable};
ghost use Rattle.pg_results.specs.Texts.{IsShortText};
ghost use Rattle.relation_tables.specs.Relations.{place_of, relation_at};
ghost use Rattle.relation_tables.specs.RelationHandler.{told_parser};
ghost use Rattle.relation_handlers.specs.Shared.{shared_columns};
ghost use Rattle.relation_handlers.specs.Tables.{HoldIntervals, IsSound, IsValid};

use crate::columns::fields_of;
use crate::errors::unknown_relation;
use crate::shared::SharedColumns;
use crate::statement_lookup::find_trimmed_statement;
use crate::within::visit_relations;
use pg_messages::PgList;
use pg_portal::{ClientInfo, FieldInfo, Format, Named, PgWireError, QueryParser};
use pg_text::PgType;
use query_texts::trimmed;
use relation_tables::{Relation, RelationStatement};
use std::alloc::{AllocError, Global};
use std::marker::Model;
use std::sync::Arc;

/// Relations that keep the rules, under their names. As a parser it gives what a query means among
/// them: BEGIN, COMMIT, or a relation by its name. Any other text is the error 42P01.
#[derive(Drop)]
pub struct NamedRelations {
    relations: PgList<Relation>,
    places: Named<u32>,
    // the columns of each relation
    columns: PgList<SharedColumns>,
}

impl Model for NamedRelations {
    ghost use Rattle.std.specs.Prelude.{List, ℕ, ◌≡◌};
    ghost use Rattle.std.specs.Prelude as list;
    ghost use Rattle.std.specs.FinMap as map;
    ghost use Rattle.relation_tables.specs.declared.Relation.{Relation};

    ghost Value = { List Relation };

    ghost use Rattle.relation_tables.specs.Relations.{place_of};
    ghost use Rattle.relation_handlers.specs.Shared.{shared_columns};
    ghost use Rattle.relation_handlers.specs.Tables.{HoldIntervals, IsValid};

    ghost view = { λ r. r.relations };

    ghost invariant = { λ r. IsValid r.relations
        × ((name : List ℕ) → map.get r.places name ≡ place_of r.relations name)
        × (r.columns ≡ list.map shared_columns r.relations)
        × HoldIntervals r.relations };
}

impl NamedRelations {
    /// These relations, with the place of each name and the columns of each relation, to be shared.
    pub(crate) fn shared(
        alloc: Global,
        relations: PgList<Relation>,
        places: Named<u32>,
        columns: PgList<SharedColumns>,
    ) -> Result<Arc<NamedRelations>, AllocError>
        requires valid { IsValid relations }
        requires places { (name : List ℕ) → fin.get places name ≡ place_of relations name }
        requires columns { columns ≡ map shared_columns relations }
        ensures { IfOk result (λ named. arc_value named ≡ relations) }
    {
        visit_relations(relations.as_slice());
        let named = NamedRelations {
            relations,
            places,
            columns,
        };
        Ok(Arc::new(alloc, named)?)
    }

    /// The place of the relation of exactly this name, or None exactly where there is none.
    pub(crate) fn find(&self, name: &str) -> Option<u32>
        ensures { result ≡ place_of self.now name.now }
    {
        self.places.get(name).copied()
    }

    /// The relation at a place.
    pub(crate) fn at(&self, place: u32) -> &Relation
        requires { place < length self.now }
        ensures relation { result.now ≡ relation_at self.now place }
        ensures sound { IsSound result.now }
    {
        &self.relations.as_slice()[place as usize]
    }

    /// The columns of the relation at a place.
    pub(crate) fn columns_at(&self, place: u32) -> &SharedColumns
        requires { place < length self.now }
        ensures { result.now ≡ shared_columns (relation_at self.now place) }
    {
        &self.columns.as_slice()[place as usize]
    }

    /// The relations, in their order.
    pub(crate) fn relations(&self) -> &[Relation]
        ensures relations { result.now ≡ self.now }
        ensures valid { IsValid self.now }
        ensures within { HoldIntervals self.now }
    {
        self.relations.as_slice()
    }
}

impl QueryParser for NamedRelations {
    ghost use Rattle.relation_tables.specs.RelationHandler.{told_parser};

    type Statement = RelationStatement;

    ghost told = { λ relations. told_parser relations };

    fn parse_sql(
        &self,
        alloc: Global,
        _client: &ClientInfo,
        sql: &str,
        _types: &[Option<PgType>],
    ) -> Result<Option<RelationStatement>, PgWireError> {
        let text = trimmed(sql);
        match find_trimmed_statement(self, text) {
            Some(means) => Ok(Some(means)),
            None => Err(PgWireError::UserError(unknown_relation(alloc, text)?)),
        }
    }

    /// No statement has parameters of its own.
    fn get_parameter_types(
        &self,
        alloc: Global,
        _stmt: &RelationStatement,
    ) -> Result<PgList<PgType>, PgWireError> {
        Ok(PgList::new(alloc))
    }

    /// Without formats the columns are text.
    fn get_result_schema(
        &self,
        alloc: Global,
        stmt: &RelationStatement,
        column_format: Option<&Format>,
    ) -> Result<PgList<FieldInfo>, PgWireError> {
        match column_format {
            Some(formats) => Ok(fields_of(alloc, self, *stmt, formats)?),
            None => Ok(fields_of(alloc, self, *stmt, &Format::UnifiedText)?),
        }
    }
}
