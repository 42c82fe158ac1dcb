//! Why a row has no verdict.

use std::alloc::{AllocError, AllocFailed};

/// Why a row has no verdict.
#[derive(Clone, Copy)]
pub enum Fault<'t> {
    /// Memory ran out.
    NoMemory,
    /// This text says nothing that a row can say.
    Line(&'t str),
}

impl<'t> From<AllocError> for Fault<'t> {
    fn from(_error: AllocError) -> Fault<'t> {
        Fault::NoMemory
    }
}

impl<'t, T: Drop> From<AllocFailed<T>> for Fault<'t> {
    fn from(_error: AllocFailed<T>) -> Fault<'t> {
        Fault::NoMemory
    }
}
