//! Errors that handlers of one's own answer.

ghost use Rattle.std.specs.Prelude.{◌≡◌, IfOk};
ghost use Rattle.pg_results.specs.Errors.{error};
ghost use Rattle.pg_results.specs.declared.error.PgWireError.TheVariants as wire;

use pg_messages::{ErrorInfo, PgStr};
use pg_portal::PgWireError;
use std::alloc::{AllocError, Global};

/// The error of severity ERROR with this code (PostgreSQL: PostgreSQL Error Codes) and message.
pub fn user_error(alloc: Global, code: &str, message: &str) -> Result<PgWireError, AllocError>
    ensures { IfOk result (λ e. e ≡ wire.UserError (error code.now message.now)) }
{
    Ok(PgWireError::UserError(ErrorInfo::new(
        PgStr::copy_of(alloc, "ERROR")?,
        PgStr::copy_of(alloc, code)?,
        PgStr::copy_of(alloc, message)?,
    )))
}
