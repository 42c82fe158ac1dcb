//! Laws of pages, stores and columns. Each function takes nothing and does nothing: its contract is
//! the law.

ghost use Rattle.std.specs.Prelude.{◌≡◌, ◌≢◌, ◌↔◌, ℕ, ◌+◌, ◌≤◌, pos, List, Some, IsOk, true};
ghost use Rattle.std.specs.FinMap as fin;
ghost use Rattle.pg_portal.specs.Fetching.{fetched, AreOneFetch};
ghost use Rattle.pg_results.specs.Fields.{Field};
ghost use Rattle.named_entries.specs.Names.{NameMap};
ghost use Rattle.pg_results.specs.SameFields.{is_same_field};
ghost use Rattle.pg_portal.specs.Told.{Stage};

/// Two fetches with positive limits, one after another and without an error, give the rows that one
/// fetch with the sum of the limits gives. They leave the portal at the same stage.
pub fn two_fetches_are_one()
    ensures { (a b : ℕ) (stage : Stage) → 1 ≤ a → 1 ≤ b
        → IsOk (fetched (pos a) stage).answer
        → IsOk (fetched (pos b) (fetched (pos a) stage).stage).answer
        → AreOneFetch (fetched (pos a) stage) (fetched (pos b) (fetched (pos a) stage).stage)
        (fetched (pos (a + b)) stage) }
{}

/// What is put under a name is found under it, and the entries of all other names stay.
pub fn what_is_put_is_got<T>()
    ensures put { (names : NameMap T) (name : List ℕ) (entry : T)
        → fin.get (fin.insert names name entry) name ≡ Some entry }
    ensures others { (names : NameMap T) (name other : List ℕ) (entry : T) → other ≢ name
        → fin.get (fin.insert names name entry) other ≡ fin.get names other }
{}

/// `==` of two columns is true exactly where all their parts are the same.
pub fn equal_columns_are_one()
    ensures { (a b : Field) → (is_same_field a b ≡ true) ↔ (a ≡ b) }
{}
