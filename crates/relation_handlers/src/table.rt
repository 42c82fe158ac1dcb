//! A table of relations: its rules, and the look-up of a name.

ghost use Rattle.std.specs.Prelude.{◌≡◌, ℕ, List, [], ◌^◌, ◌<◌, ◌++◌, ◌||◌, Option, Some, None, length, IfOk, IfErr, OnOk};
ghost use Rattle.std.specs.Arc.{arc_value};
ghost use Rattle.std.specs.FinMap as map;
ghost use Rattle.std.specs.List.{list_all};
ghost use Rattle.pg_types.specs.Options.{default_options};
ghost use Rattle.pg_results.specs.Clients.{HasShortMetadata};
ghost use Rattle.relation_tables.specs.Names.{is_column_name, are_columns};
ghost use Rattle.relation_tables.specs.Relations.{are_even, place_of};
ghost use Rattle.relation_handlers.specs.Made.{session_options};
ghost use Rattle.relation_handlers.specs.Tables.{refusal_at, refusal, HoldIntervals, IsValid, IsCause};

use crate::named_relations::NamedRelations;
use crate::options::{Settings, SharedOptions};
use crate::shared::shared_columns;
use pg_interval::Interval;
use pg_messages::{PgList, PgStr};
use pg_portal::{ClientInfo, Named};
use relation_tables::{MOST_COLUMNS, Relation, is_column_name, is_name};
use std::alloc::{AllocError, Global};
use std::marker::Model;
use std::sync::Arc;

/// Why relations are no table, with the place of the first that breaks a rule.
#[derive(Clone, Copy, Debug, PartialEq, Eq)]
pub enum TableError {
    /// The name is empty, over 63 bytes, holds whitespace, `;` or a zero byte, is `BEGIN` or
    /// `COMMIT` in any ASCII case, or is that of an earlier relation.
    BadName(u32),
    /// There are over 1,600 columns, or a column's name is over 63 bytes or holds a zero byte.
    BadColumn(u32),
    /// A row has more or fewer intervals than there are columns.
    RaggedRow(u32),
    /// Memory ran out.
    NoMemory,
}

impl From<AllocError> for TableError {
    ghost use Rattle.std.specs.Prelude.{◌≡◌};
    ghost use Rattle.relation_handlers.specs.declared.table.TableError.TheVariants.{NoMemory};

    ghost from_gives = { λ _ e. e ≡ NoMemory };

    fn from(_e: AllocError) -> TableError {
        TableError::NoMemory
    }
}

/// Relations that keep the rules, found by their names.
#[derive(Drop)]
pub struct RelationTable {
    // the relations under their names, which the parsers of queries share
    named: Arc<NamedRelations>,
    // the name of the startup parameter `intervalstyle`
    style_name: PgStr,
    // the options of clients, by the style that they name
    options: SharedOptions,
}

impl Model for RelationTable {
    ghost use Rattle.std.specs.Prelude.{List, ◌≡◌, codes};
    ghost use Rattle.std.specs.Arc.{arc_value};
    ghost use Rattle.relation_tables.specs.declared.Relation.{Relation};

    ghost Value = { List Relation };

    ghost use Rattle.pg_text.specs.declared.format.interval_style.IntervalStyle.TheVariants as interval_style;

    ghost view = { λ t. arc_value t.named };

    ghost invariant = { λ t. (t.style_name ≡ codes "intervalstyle")
        × (t.options.postgres ≡ interval_style.Postgres) };
}

impl RelationTable {
    /// The table of these relations, if each keeps the rules that `TableError` tells. The relations
    /// are judged in their order; of each the name first, then the columns, then the rows.
    pub fn try_new(alloc: Global, relations: PgList<Relation>) -> Result<RelationTable, TableError>
        requires { length relations < 2 ^ 32 }
        ensures ok { IfOk result (λ table. table ≡ relations) }
        ensures valid { OnOk result (IsValid relations) }
        ensures refused { IfErr result (λ error. IsCause relations error) }
    {
        let named = judged(alloc, relations)?;
        let style_name = PgStr::copy_of(alloc, "intervalstyle")?;
        let options = SharedOptions::new(alloc)?;
        Ok(RelationTable {
            named,
            style_name,
            options,
        })
    }

    /// The place of the relation of exactly this name, or None exactly where there is none.
    pub fn find(&self, name: &str) -> Option<u32>
        ensures { result ≡ place_of self.now name.now }
    {
        self.named.find(name)
    }

    /// The relations under their names.
    #[inline(always)]
    pub(crate) fn named(&self) -> &NamedRelations
        ensures { result.now ≡ self.now }
    {
        &self.named
    }

    /// The same relations under their names. It takes no memory.
    #[inline(always)]
    pub(crate) fn share_named(&self) -> Result<Arc<NamedRelations>, AllocError>
        ensures { IfOk result (λ named. arc_value named ≡ self.now) }
    {
        Ok(self.named.clone()?)
    }

    /// The settings of a client, whose interval style is looked up once. Where the client names one
    /// of the four styles by its exact name, or no style, the settings are shared, which takes no
    /// memory.
    #[inline(always)]
    pub(crate) fn settings_of(
        &self,
        alloc: Global,
        client: &ClientInfo,
    ) -> Result<Settings, AllocError>
        requires { HasShortMetadata client.now }
        ensures { IfOk result (λ settings. settings ≡ session_options client.now) }
    {
        match client.metadata.get(&self.style_name) {
            Some(text) => self.options.named(alloc, text.as_str()),
            None => self.options.unnamed(),
        }
    }

    /// The settings of a client that names no style. They take no memory.
    #[inline(always)]
    pub(crate) fn default_settings(&self) -> Result<Settings, AllocError>
        ensures { IfOk result (λ settings. settings ≡ default_options) }
    {
        self.options.unnamed()
    }

    /// The relations, in their order.
    pub fn relations(&self) -> &[Relation]
        ensures relations { result.now ≡ self.now }
        ensures valid { IsValid self.now }
        ensures within { HoldIntervals self.now }
    {
        self.named.relations()
    }
}

/// The relations under their names, where they keep the rules.
fn judged(alloc: Global, relations: PgList<Relation>) -> Result<Arc<NamedRelations>, TableError>
    requires { length relations < 2 ^ 32 }
    ensures ok { IfOk result (λ named. arc_value named ≡ relations) }
    ensures valid { OnOk result (IsValid relations) }
    ensures refused { IfErr result (λ error. IsCause relations error) }
{
    let places = places_of(alloc, relations.as_slice())?;
    let columns = shared_columns(alloc, relations.as_slice())?;
    Ok(NamedRelations::shared(alloc, relations, places, columns)?)
}

/// The place of each name among relations that keep the rules.
fn places_of(alloc: Global, relations: &[Relation]) -> Result<Named<u32>, TableError>
    requires { length relations.now < 2 ^ 32 }
    ensures places { IfOk result (λ places. (name : List ℕ) → map.get places name
        ≡ place_of relations.now name) }
    ensures valid { OnOk result (IsValid relations.now) }
    ensures refused { IfErr result (λ error. IsCause relations.now error) }
{
    let mut places = Named::new(alloc);
    let mut place: u32 = 0;
    for relation in relations {
        let is_taken = places.get(relation.name.as_str()).is_some();
        if let Some(error) = judge(place, is_taken, relation) {
            return Err(error);
        }
        places.put(PgStr::copy_of(alloc, relation.name.as_str())?, place)?;
        place += 1;
    }
    Ok(places)
}

/// The rule that the relation at this place breaks, if it breaks one.
fn judge(place: u32, is_taken: bool, relation: &Relation) -> Option<TableError>
    ensures { result ≡ refusal_at place is_taken relation.now }
{
    if is_taken || !is_name(relation.name.as_str()) {
        Some(TableError::BadName(place))
    } else if !has_good_columns(relation.columns.as_slice()) {
        Some(TableError::BadColumn(place))
    } else if !has_even_rows(relation.columns.len(), relation.rows.as_slice()) {
        Some(TableError::RaggedRow(place))
    } else {
        None
    }
}

/// Whether there are at most 1,600 columns, each of a good name.
fn has_good_columns(columns: &[PgStr]) -> bool
    ensures { result ≡ are_columns columns.now }
{
    columns.len() <= MOST_COLUMNS && are_good_columns(columns)
}

/// Whether each column's name is good.
fn are_good_columns(columns: &[PgStr]) -> bool
    ensures { result ≡ list_all is_column_name columns.now }
{
    columns.iter().all(|column| is_column_name(column.as_str()))
}

/// Whether each row is as wide as the columns.
fn has_even_rows(width: usize, rows: &[PgList<Interval>]) -> bool
    ensures { result ≡ are_even width rows.now }
{
    rows.iter().all(|row| row.len() == width)
}
