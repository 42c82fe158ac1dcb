//! An example of what is answered to a query that comes while the session awaits Sync. The function
//! takes nothing and does nothing: its contract is the example.

ghost use Rattle.pg_client.specs.Effect.{Called};
ghost use Rattle.pg_client.specs.State.{State};
ghost use Rattle.pg_serve_tests.specs.Examples.{IsNotExecutedBeforeSync};
ghost use Rattle.std.specs.Prelude.{ℕ};

/// A query is refused before Sync: its row is left out.
pub fn nothing_is_executed_before_sync()
    ensures { (s : State ℕ) (row : Called ℕ) → IsNotExecutedBeforeSync s row }
{}
