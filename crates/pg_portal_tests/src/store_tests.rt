//! The store in memory.

use crate::fixtures::{cursor, statement};
use pg_messages::PgStr;
use pg_portal::{ListRows, MemPortalStore, PortalStore};
use std::alloc::{AllocError, Global};

type Store = MemPortalStore<PgStr, ListRows>;

/// Puts the statement `s1` and the portal `p`, and an empty statement and portal without a name.
fn fill(store: &mut Store, alloc: Global) -> Result<(), AllocError> {
    store.put_statement(alloc, statement(alloc)?)?;
    store.put_empty_statement(alloc, "")?;
    store.put_portal(alloc, cursor(alloc)?)?;
    store.put_empty_portal(alloc, "")
}

/// Whether a statement's entry is empty; None where there is none.
fn is_empty_statement(store: &Store, name: &str) -> Option<bool> {
    match store.get_statement(name) {
        Some(entry) => Some(entry.is_empty()),
        None => None,
    }
}

/// Whether a portal's entry is empty; None where there is none.
fn is_empty_portal(store: &Store, name: &str) -> Option<bool> {
    match store.get_portal(name) {
        Some(entry) => Some(entry.is_empty()),
        None => None,
    }
}

/// Whether the statements are these, and no other.
fn has_statements(store: &Store) -> bool {
    is_empty_statement(store, "s1") == Some(false)
        && is_empty_statement(store, "") == Some(true)
        && is_empty_statement(store, "p").is_none()
}

/// Whether the portals are these, and no other.
fn has_portals(store: &Store) -> bool {
    is_empty_portal(store, "p") == Some(false)
        && is_empty_portal(store, "") == Some(true)
        && is_empty_portal(store, "s1").is_none()
}

/// Whether there is no portal.
fn has_no_portal(store: &Store) -> bool {
    is_empty_portal(store, "p").is_none() && is_empty_portal(store, "").is_none()
}

/// Whether a store has what was put, and `clear_portals` removes only its portals.
fn are_cleared(alloc: Global, store: &mut Store) -> Result<bool, AllocError> {
    fill(store, alloc)?;
    let is_full = has_statements(store) && has_portals(store);
    store.clear_portals();
    Ok(is_full && has_statements(store) && has_no_portal(store))
}

#[test]
fn portals_are_cleared(rt: HostRuntime) {
    let mut store = MemPortalStore::new(rt.alloc());
    assert!(rt; are_cleared(rt.alloc(), &mut store) == Ok(true));
}
