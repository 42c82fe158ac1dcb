//! The store of a session's statements and portals.

ghost use Rattle.std.specs.Prelude.{◌≡◌, OnSome, OnOk, OnErr, is_none};
ghost use Rattle.std.specs.Arc.{arc_value};
ghost use Rattle.std.specs.Borrow.{LendsIf, LendsSo, sem};
ghost use Rattle.std.specs.FinMap as fin;
ghost use Rattle.std.specs.Option.{option_copied, option_copied_mut, option_map};
ghost use Rattle.pg_portal.specs.Maps.{Maps, maps_with_statement, maps_without_statement, maps_with_portal, maps_without_portal, maps_without_portals};
ghost use Rattle.pg_portal.specs.Told.{portal_of, entry_map, value_of, value_under};
ghost use Rattle.pg_portal.specs.contracts.portal.Portal.{the_row as portal_row};
ghost use Rattle.pg_portal.specs.contracts.store.Entry.{the_row as entry_row};
ghost use Rattle.pg_portal.specs.declared.store.Entry.TheVariants as entry;

use crate::portal::Portal;
use pg_results::{RowSource, StoredStatement};
use std::alloc::{AllocError, Global};
use std::sync::Arc;

/// What stands under a name.
#[derive(Clone, Drop)]
pub enum Entry<T> {
    /// A statement of an empty query, or a portal of one.
    Empty,
    /// A value.
    Value(T),
}

impl<T> Entry<T> {
    /// The value, or None exactly where the entry is empty.
    pub fn value(&self) -> Option<&T>
        ensures { option_copied result ≡ value_of self.now }
    {
        match self {
            Entry::Value(value) => Some(value),
            Entry::Empty => None,
        }
    }

    /// Whether the entry is empty.
    pub fn is_empty(&self) -> bool
        ensures { result ≡ is_none (value_of self.now) }
    {
        matches!(self, Entry::Empty)
    }

    /// The value, borrowed mutably, or None exactly where the entry is empty.
    pub(crate) fn value_mut(&mut self) -> Option<&mut T>
        ensures* writes_back { sem 𝓛 (LendsIf (entry_row T.row) T.row self.entry result entry.Value
            self.old) }
        ensures value { option_copied_mut result ≡ value_of self.old }
    {
        match self {
            Entry::Value(value) => Some(value),
            Entry::Empty => None,
        }
    }
}

/// Statements and portals under names: two finite maps. A call that puts replaces what stands under
/// the name, and changes nothing else. After an error both maps are as they were. Only the calls
/// that put take memory.
pub trait PortalStore: Drop {
    /// What a statement means.
    type Statement: Drop;

    /// Where the rows of a started portal come from.
    type Rows: RowSource;

    // its statements and portals
    ghost maps: { Self → Maps Self.Statement };

    /// Puts a statement under its name.
    fn put_statement(
        &mut self,
        alloc: Global,
        statement: Arc<StoredStatement<Self::Statement>>,
    ) -> Result<(), AllocError>
        ensures ok { OnOk result (maps self.new ≡ maps_with_statement (maps self.old)
            (arc_value statement).id (entry.Value (arc_value statement))) }
        ensures err { OnErr result (maps self.new ≡ maps self.old) };

    /// Puts an empty statement under a name.
    fn put_empty_statement(&mut self, alloc: Global, name: &str) -> Result<(), AllocError>
        ensures ok { OnOk result
            (maps self.new ≡ maps_with_statement (maps self.old) name.now entry.Empty) }
        ensures err { OnErr result (maps self.new ≡ maps self.old) };

    /// Removes the statement under a name, if there is one. Portals of it stay.
    fn rm_statement(&mut self, name: &str)
        ensures { maps self.new ≡ maps_without_statement (maps self.old) name.now };

    /// The statement under a name, or None exactly where none stands there.
    fn get_statement(&self, name: &str) -> Option<Entry<&Arc<StoredStatement<Self::Statement>>>>
        ensures { option_map (entry_map (λ s. arc_value s.now)) result
            ≡ fin.get (maps self.now).statements name.now };

    /// Puts a portal under its name.
    fn put_portal(
        &mut self,
        alloc: Global,
        portal: Portal<Self::Statement, Self::Rows>,
    ) -> Result<(), AllocError>
        ensures ok { OnOk result (maps self.new ≡ maps_with_portal (maps self.old)
            portal.name (entry.Value (portal_of Self.Rows.items portal))) }
        ensures err { OnErr result (maps self.new ≡ maps self.old) };

    /// Puts an empty portal under a name.
    fn put_empty_portal(&mut self, alloc: Global, name: &str) -> Result<(), AllocError>
        ensures ok { OnOk result
            (maps self.new ≡ maps_with_portal (maps self.old) name.now entry.Empty) }
        ensures err { OnErr result (maps self.new ≡ maps self.old) };

    /// Removes the portal under a name, if there is one.
    fn rm_portal(&mut self, name: &str)
        ensures { maps self.new ≡ maps_without_portal (maps self.old) name.now };

    /// Removes all portals.
    fn clear_portals(&mut self)
        ensures { maps self.new ≡ maps_without_portals (maps self.old) };

    /// The portal under a name, or None exactly where none stands there.
    fn get_portal(&self, name: &str) -> Option<Entry<&Portal<Self::Statement, Self::Rows>>>
        ensures { option_map (entry_map (λ portal. portal_of Self.Rows.items portal.now)) result
            ≡ fin.get (maps self.now).portals name.now };

    /// The portal under a name, borrowed mutably, or None exactly where none stands there or it is
    /// empty. When the borrow ends, the portal as it is then stands under this name, even if its
    /// own name has changed. All else is as it was.
    fn portal_mut(&mut self, name: &str) -> Option<&mut Portal<Self::Statement, Self::Rows>>
        ensures* writes_back { sem 𝓛 (LendsSo Self.row (portal_row Self.Statement.row Self.Rows.row)
            self.entry result
            (λ n w. OnSome result (maps n ≡ maps_with_portal (maps self.old) name.now
            (entry.Value (portal_of Self.Rows.items w))))
            (λ n. maps n ≡ maps self.old)) }
        ensures value { option_map (portal_of Self.Rows.items) (option_copied_mut result)
            ≡ value_under (fin.get (maps self.old).portals name.now) };
}
