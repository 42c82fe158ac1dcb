//! A store in memory.

ghost use Rattle.std.specs.Prelude.{◌≡◌, ◌==◌, false, length, OnOk, OnErr};
ghost use Rattle.std.specs.Arc.{arc_value};
ghost use Rattle.pg_portal.specs.Maps.{no_maps, maps_with_statement, maps_with_portal};
ghost use Rattle.pg_portal.specs.Told.{portal_of};
ghost use Rattle.pg_portal.specs.declared.store.Entry.TheVariants as entry;

use crate::portal::Portal;
use crate::store::{Entry, PortalStore};
use named_entries::Named;
use pg_messages::PgStr;
use pg_results::{RowSource, StoredStatement};
use std::alloc::{AllocError, Global};
use std::sync::Arc;

/// Statements and portals in two maps of names. A look-up by a name takes no memory.
#[derive(Drop)]
pub struct MemPortalStore<S, R> {
    statements: Named<Entry<Arc<StoredStatement<S>>>>,
    portals: Named<Entry<Portal<S, R>>>,
}

impl<S: Drop, R: RowSource> MemPortalStore<S, R> {
    /// An empty store, which takes no memory.
    pub fn new(alloc: Global) -> MemPortalStore<S, R>
        ensures { ⟦<MemPortalStore<S, R> as PortalStore>⟧.maps result ≡ no_maps }
    {
        MemPortalStore {
            statements: Named::new(alloc),
            portals: Named::new(alloc),
        }
    }

    // Puts a statement whose name isn't empty. Most names are empty, so this is a function of its
    // own.
    #[cold]
    #[inline(never)]
    fn put_named_statement(
        &mut self,
        alloc: Global,
        statement: Arc<StoredStatement<S>>,
    ) -> Result<(), AllocError>
        requires { (length (arc_value statement).id == 0) ≡ false }
        ensures ok { OnOk result (⟦<MemPortalStore<S, R> as PortalStore>⟧.maps self.new
            ≡ maps_with_statement (⟦<MemPortalStore<S, R> as PortalStore>⟧.maps self.old)
            (arc_value statement).id (entry.Value (arc_value statement))) }
        ensures err { OnErr result (⟦<MemPortalStore<S, R> as PortalStore>⟧.maps self.new
            ≡ ⟦<MemPortalStore<S, R> as PortalStore>⟧.maps self.old) }
    {
        let name = PgStr::copy_of(alloc, statement.id.as_str())?;
        self.statements.put_named(name, Entry::Value(statement))
    }

    // Puts a portal whose name isn't empty. Most names are empty, so this is a function of its own.
    #[cold]
    #[inline(never)]
    fn put_named_portal(&mut self, alloc: Global, portal: Portal<S, R>) -> Result<(), AllocError>
        requires { (length portal.name == 0) ≡ false }
        ensures ok { OnOk result (⟦<MemPortalStore<S, R> as PortalStore>⟧.maps self.new
            ≡ maps_with_portal (⟦<MemPortalStore<S, R> as PortalStore>⟧.maps self.old)
            portal.name (entry.Value (portal_of R.items portal))) }
        ensures err { OnErr result (⟦<MemPortalStore<S, R> as PortalStore>⟧.maps self.new
            ≡ ⟦<MemPortalStore<S, R> as PortalStore>⟧.maps self.old) }
    {
        let name = PgStr::copy_of(alloc, portal.name.as_str())?;
        self.portals.put_named(name, Entry::Value(portal))
    }
}

impl<S: Drop, R: RowSource> PortalStore for MemPortalStore<S, R> {
    ghost use Rattle.std.specs.Arc.{arc_value};
    ghost use Rattle.named_entries.specs.Names.{map_values};
    ghost use Rattle.pg_portal.specs.Told.{entry_map, portal_of};

    type Statement = S;

    type Rows = R;

    ghost maps = { λ store. record {
      statements = map_values (entry_map arc_value) store.statements;
      portals = map_values (entry_map (portal_of R.items)) store.portals;
    } };

    #[inline(always)]
    fn put_statement(
        &mut self,
        alloc: Global,
        statement: Arc<StoredStatement<S>>,
    ) -> Result<(), AllocError>
        ensures ok { OnOk result (⟦<MemPortalStore<S, R> as PortalStore>⟧.maps self.new
            ≡ maps_with_statement (⟦<MemPortalStore<S, R> as PortalStore>⟧.maps self.old)
            (arc_value statement).id (entry.Value (arc_value statement))) }
        ensures err { OnErr result (⟦<MemPortalStore<S, R> as PortalStore>⟧.maps self.new
            ≡ ⟦<MemPortalStore<S, R> as PortalStore>⟧.maps self.old) }
    {
        if statement.id.as_str().is_empty() {
            return self.statements.put_unnamed(Entry::Value(statement));
        }
        self.put_named_statement(alloc, statement)
    }

    fn put_empty_statement(&mut self, alloc: Global, name: &str) -> Result<(), AllocError> {
        let name = PgStr::copy_of(alloc, name)?;
        self.statements.put(name, Entry::Empty)
    }

    fn rm_statement(&mut self, name: &str) {
        self.statements.remove(name);
    }

    fn get_statement(&self, name: &str) -> Option<Entry<&Arc<StoredStatement<S>>>> {
        match self.statements.get(name) {
            Some(Entry::Value(statement)) => Some(Entry::Value(statement)),
            Some(Entry::Empty) => Some(Entry::Empty),
            None => None,
        }
    }

    #[inline(always)]
    fn put_portal(&mut self, alloc: Global, portal: Portal<S, R>) -> Result<(), AllocError>
        ensures ok { OnOk result (⟦<MemPortalStore<S, R> as PortalStore>⟧.maps self.new
            ≡ maps_with_portal (⟦<MemPortalStore<S, R> as PortalStore>⟧.maps self.old)
            portal.name (entry.Value (portal_of R.items portal))) }
        ensures err { OnErr result (⟦<MemPortalStore<S, R> as PortalStore>⟧.maps self.new
            ≡ ⟦<MemPortalStore<S, R> as PortalStore>⟧.maps self.old) }
    {
        if portal.name.as_str().is_empty() {
            return self.portals.put_unnamed(Entry::Value(portal));
        }
        self.put_named_portal(alloc, portal)
    }

    fn put_empty_portal(&mut self, alloc: Global, name: &str) -> Result<(), AllocError> {
        let name = PgStr::copy_of(alloc, name)?;
        self.portals.put(name, Entry::Empty)
    }

    fn rm_portal(&mut self, name: &str) {
        self.portals.remove(name);
    }

    fn clear_portals(&mut self) {
        self.portals.clear();
    }

    fn get_portal(&self, name: &str) -> Option<Entry<&Portal<S, R>>> {
        match self.portals.get(name) {
            Some(Entry::Value(portal)) => Some(Entry::Value(portal)),
            Some(Entry::Empty) => Some(Entry::Empty),
            None => None,
        }
    }

    fn portal_mut(&mut self, name: &str) -> Option<&mut Portal<S, R>> {
        match self.portals.get_mut(name) {
            Some(entry) => entry.value_mut(),
            None => None,
        }
    }
}
