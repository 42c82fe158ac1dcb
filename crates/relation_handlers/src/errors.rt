//! The error for an unknown relation.

ghost use Rattle.std.specs.Prelude.{◌≡◌, IfOk};
ghost use Rattle.relation_tables.specs.Errors.{unknown_relation};

use pg_messages::ErrorInfo;
use pg_portal::error_of_parts;
use std::alloc::{AllocError, Global};

/// The error 42P01 `relation "name" does not exist`.
pub(crate) fn unknown_relation(alloc: Global, name: &str) -> Result<ErrorInfo, AllocError>
    ensures { IfOk result (λ info. info ≡ unknown_relation name.now) }
{
    error_of_parts(alloc, "42P01", "relation \"", name, "\" does not exist")
}
