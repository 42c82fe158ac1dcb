//! The name of a shift.

ghost use Rattle.std.specs.Prelude.{◌≡◌, ◌==◌, Some, nat_eq, refl, MatchOption, MatchResult};
ghost use Rattle.std.specs.List.{list_any};
ghost use Rattle.std.specs.Ordering.{nat_cmp};
ghost use Rattle.std.specs.Cmp.Lexicographic.{pointwise, slice_cmp, nat_list_eq_equiv, nat_list_cmp_total, texts_ties, texts_po};
ghost use Rattle.std.specs.Cmp.{partial_equiv_from_equiv};
ghost use Rattle.shift_table.specs.Names.{IsShiftName, name_fault};
ghost use Rattle.shift_table.specs.declared.name.NameError.TheVariants as error;

use std::alloc::{AllocError, Global};
use std::cmp::Ordering;
use std::marker::Model;

/// The name of a shift: a text of 1 to 63 bytes, of which none is zero. Names are compared and
/// ordered by their bytes.
#[derive(Debug, Drop)]
pub struct ShiftName {
    text: String,
}

impl Model for ShiftName {
    ghost use Rattle.std.specs.Prelude.{ℕ, List, string_bytes};

    ghost Value = { List ℕ };

    ghost use Rattle.shift_table.specs.Names.{IsShiftName};

    ghost view = { λ n. string_bytes n.text };

    ghost invariant = { λ n. IsShiftName (string_bytes n.text) };
}

/// Why a text is no name of a shift.
#[derive(Clone, Copy, Debug, PartialEq, Eq)]
pub enum NameError {
    /// It is empty, or longer than 63 bytes.
    Length,
    /// It has a zero byte.
    ZeroByte,
    /// There was no memory for it.
    NoMemory,
}

impl From<AllocError> for NameError {
    ghost from_gives = { λ _ e. e ≡ error.NoMemory };

    fn from(_error: AllocError) -> NameError {
        NameError::NoMemory
    }
}

impl ShiftName {
    /// The name that a text is. Of a text that is none it is told why.
    pub fn new(alloc: Global, text: &str) -> Result<ShiftName, NameError>
        ensures { MatchOption (name_fault text.now)
            (MatchResult result (λ name. name ≡ text.now) (λ e. e ≡ error.NoMemory))
            (λ fault. result ≡ Err fault) }
    {
        match fault_of(text) {
            Some(fault) => Err(fault),
            None => Ok(ShiftName {
                text: String::from_str(alloc, text)?,
            }),
        }
    }

    /// The text.
    pub fn as_str(&self) -> &str
        ensures text { result.now ≡ self.now }
        ensures name { IsShiftName self.now }
    {
        self.text.as_str()
    }
}

/// Why a text is no name, or `None` where it is one.
fn fault_of(text: &str) -> Option<NameError>
    ensures { result ≡ name_fault text.now }
{
    if text.is_empty() || text.len() > 63 {
        Some(NameError::Length)
    } else if has_zero(text.as_bytes()) {
        Some(NameError::ZeroByte)
    } else {
        None
    }
}

/// Whether one of the bytes is zero.
fn has_zero(text: &[u8]) -> bool
    ensures { result ≡ list_any (λ byte. byte == 0) text.now }
{
    text.iter().any(|byte| *byte == 0)
}

impl Clone for ShiftName {
    ghost is_clone = { λ name copy. copy ≡ name };

    fn clone(&self) -> Result<ShiftName, AllocError> {
        Ok(ShiftName {
            text: self.text.clone()?,
        })
    }
}

impl PartialEq for ShiftName {
    ghost eq = { pointwise nat_eq };

    ghost laws = { partial_equiv_from_equiv nat_list_eq_equiv };

    fn eq(&self, other: &ShiftName) -> bool {
        self.as_str() == other.as_str()
    }
}

impl Eq for ShiftName {
    ghost laws = { nat_list_eq_equiv };
}

impl PartialOrd for ShiftName {
    ghost partial_cmp = { λ x y. Some (slice_cmp nat_cmp x y) };

    ghost laws = { texts_po };

    fn partial_cmp(&self, other: &ShiftName) -> Option<Ordering> {
        Some(self.cmp(other))
    }
}

impl Ord for ShiftName {
    ghost cmp = { slice_cmp nat_cmp };

    ghost total = { nat_list_cmp_total };

    ghost matches_partial_cmp = { λ x y. refl };

    ghost matches_eq = { texts_ties };

    fn cmp(&self, other: &ShiftName) -> Ordering {
        self.as_str().cmp(other.as_str())
    }
}
