//! Entries under names.

ghost use Rattle.std.specs.Prelude.{◌≡◌, ◌==◌, [], false, length, IsSome, OnOk, OnErr, OnSome};
ghost use Rattle.std.specs.Option.{option_copied, option_copied_mut};
ghost use Rattle.std.specs.Borrow.{LendsSo, sem};
ghost use Rattle.named_entries.specs.contracts.names.Named.{the_row};
ghost use Rattle.std.specs.FinMap as map;

use pg_messages::PgStr;
use std::alloc::{AllocError, Global};
use std::collections::BTreeMap;
use std::marker::Model;

/// Entries under names, which are compared by their bytes. The empty name has a place of its own,
/// which takes no look-up, and whose memory is kept for the next entry.
#[derive(Drop)]
pub struct Named<T> {
    // the entry under the empty name, where there is one
    unnamed: Vec<T>,
    others: BTreeMap<String, T>,
}

impl<T> Model for Named<T> {
    ghost use Rattle.std.specs.FinMap as fin;
    ghost use Rattle.std.specs.Coded.{coded_list, coded_ℕ};
    ghost use Rattle.std.specs.Prelude.{slice_get};
    ghost use Rattle.named_entries.specs.Names.{NameMap, name_map};
    ghost use Rattle.named_entries.specs.Unnamed.{with_unnamed};

    ghost Value = { NameMap T };

    ghost coded = { fin.code (coded_list coded_ℕ) T.code };

    ghost view = { λ n. with_unnamed (slice_get n.unnamed.items 0) (name_map n.others.entries) };
}

impl<T> Named<T> {
    /// No entry, which takes no memory.
    pub fn new(alloc: Global) -> Named<T>
        ensures { result ≡ map.empty }
    {
        Named {
            unnamed: Vec::new(alloc),
            others: BTreeMap::new(alloc),
        }
    }

    /// The entry under a name, or None exactly where there is none.
    pub fn get(&self, name: &str) -> Option<&T>
        ensures { option_copied result ≡ map.get self.now name.now }
    {
        if name.is_empty() {
            self.unnamed.first()
        } else {
            self.others.get(name)
        }
    }

    /// Puts an entry under a name, in the place of one that is there. After an error nothing has
    /// changed.
    #[inline(always)]
    pub fn put(&mut self, name: PgStr, entry: T) -> Result<(), AllocError>
    where
        T: Drop,
        ensures ok { OnOk result (self.new ≡ map.insert self.old name entry) }
        ensures err { OnErr result (self.new ≡ self.old) }
    {
        if name.as_str().is_empty() {
            self.put_unnamed(entry)
        } else {
            self.put_named(name, entry)
        }
    }

    /// Puts an entry under the empty name, in the place of one that is there. After an error nothing
    /// has changed.
    #[inline(always)]
    pub fn put_unnamed(&mut self, entry: T) -> Result<(), AllocError>
    where
        T: Drop,
        ensures ok { OnOk result (self.new ≡ map.insert self.old [] entry) }
        ensures err { OnErr result (self.new ≡ self.old) }
    {
        if self.unnamed.is_empty() {
            self.unnamed.reserve_exact(1)?;
            self.unnamed.push_reserved(entry);
        } else {
            self.replace_unnamed(entry);
        }
        Ok(())
    }

    // Puts an entry in the place of the one under the empty name.
    #[inline(never)]
    fn replace_unnamed(&mut self, entry: T)
    where
        T: Drop,
        requires { IsSome (map.get self.old []) }
        ensures { self.new ≡ map.insert self.old [] entry }
    {
        let Some(place) = self.unnamed.first_mut() else {
            unreachable!()
        };
        *place = entry;
    }

    /// Puts an entry under a name that isn't empty. Most names are empty, so this is a function of
    /// its own. After an error nothing has changed.
    #[cold]
    #[inline(never)]
    pub fn put_named(&mut self, name: PgStr, entry: T) -> Result<(), AllocError>
    where
        T: Drop,
        requires { (length name == 0) ≡ false }
        ensures ok { OnOk result (self.new ≡ map.insert self.old name entry) }
        ensures err { OnErr result (self.new ≡ self.old) }
    {
        self.others.insert(name.into_string(), entry)?;
        Ok(())
    }

    /// Removes the entry under a name, if there is one.
    #[inline(always)]
    pub fn remove(&mut self, name: &str)
    where
        T: Drop,
        ensures { self.new ≡ map.remove self.old name.now }
    {
        if !name.is_empty() {
            self.remove_named(name);
        } else if !self.unnamed.is_empty() {
            self.remove_unnamed();
        }
    }

    // Removes the entry under the empty name. Inlined, it would zero room for the removed entry,
    // whether there is one or not. So it is a function of its own.
    #[inline(never)]
    fn remove_unnamed(&mut self)
    where
        T: Drop,
        ensures { self.new ≡ map.remove self.old [] }
    {
        self.unnamed.clear();
    }

    // Removes the entry under a name that isn't empty. Most names are empty, so this is a function
    // of its own.
    #[cold]
    #[inline(never)]
    fn remove_named(&mut self, name: &str)
    where
        T: Drop,
        requires { (length name.now == 0) ≡ false }
        ensures { self.new ≡ map.remove self.old name.now }
    {
        self.others.remove(name);
    }

    /// Removes all entries. No memory is taken.
    pub fn clear(&mut self)
    where
        T: Drop,
        ensures { self.new ≡ map.empty }
    {
        self.unnamed.clear();
        self.others.clear();
    }

    /// The entry under a name, borrowed mutably, or None exactly where there is none. When the
    /// borrow ends, the entry as it is then stands under the name, and all else is as it was.
    pub fn get_mut(&mut self, name: &str) -> Option<&mut T>
        ensures* writes_back { sem 𝓛 (LendsSo (the_row T.row) T.row self.entry result
            (λ n w. OnSome result (n ≡ map.insert self.old name.now w)) (λ n. n ≡ self.old)) }
        ensures value { option_copied_mut result ≡ map.get self.old name.now }
    {
        if name.is_empty() {
            self.unnamed.first_mut()
        } else {
            self.others.get_mut(name)
        }
    }
}
