//! Errors of sample queries.

ghost use Rattle.std.specs.Prelude.{◌≡◌, IfOk};
ghost use Rattle.pg_results.specs.Errors.{error};
ghost use Rattle.pg_results.specs.Rows.{IsItemError};
ghost use Rattle.sample_handlers.specs.Told.{division_by_zero, not_known};

use pg_messages::{ErrorInfo, PgStr};
use pg_portal::PgWireError;
use std::alloc::{AllocError, Global};

/// An error of severity ERROR with this code and message.
pub(crate) fn error(alloc: Global, code: &str, message: &str) -> Result<ErrorInfo, AllocError>
    ensures { IfOk result (λ info. info ≡ error code.now message.now) }
{
    Ok(ErrorInfo::new(
        PgStr::copy_of(alloc, "ERROR")?,
        PgStr::copy_of(alloc, code)?,
        PgStr::copy_of(alloc, message)?,
    ))
}

/// The error in place of a query that isn't known.
#[tactic(auto, using(crate::proofs::Sendable::not_known_item))]
pub(crate) fn not_known(alloc: Global) -> Result<PgWireError, AllocError>
    ensures error { IfOk result (λ error. error ≡ not_known) }
    ensures item { IfOk result IsItemError }
{
    Ok(PgWireError::UserError(error(alloc, "42601", "not known")?))
}

/// The error in place of a row.
#[tactic(auto, using(crate::proofs::Sendable::division_item))]
pub(crate) fn division_by_zero(alloc: Global) -> Result<PgWireError, AllocError>
    ensures error { IfOk result (λ error. error ≡ division_by_zero) }
    ensures item { IfOk result IsItemError }
{
    Ok(PgWireError::UserError(error(alloc, "22012", "division by zero")?))
}
