//! A law of handlers that change. The function takes nothing and does nothing: its contract is the
//! law.

ghost use Rattle.std.specs.Prelude.{ℕ, Result};
ghost use Rattle.pg_client.specs.State.{State};
ghost use Rattle.pg_client.specs.declared.ends.EndKind.{EndKind};
ghost use Rattle.conversation_table.specs.Handlers.{Handlers};
ghost use Rattle.conversation_runs.specs.Session.{whole_rules};
ghost use Rattle.conversation_runs.specs.declared.ends.ServeError.{ServeError};
ghost use Rattle.pg_engine.specs.Around.{Around, Serves};
ghost use Rattle.moving_runs.specs.Unchanging.{TellsOnly};
ghost use Rattle.moving_serving.specs.Serving.{ServesMet};

use moving_session::MovingHandlers;

/// Handlers that never change are a case. Where each meeting tells the same sheet, a client is owed
/// what any client of a session over that sheet is owed.
pub fn unchanging_handlers<M: MovingHandlers>()
    ensures { (only : Handlers M.Sheet.Extended.Statement) → TellsOnly M.meets only
        → (w v : M.World) (first : State M.Sheet.Extended.Statement) (turns : ℕ)
        (result : Result EndKind ServeError) (before after : Around)
        → ServesMet M.meets w v first turns result before after
        → Serves (whole_rules only) first turns result before after }
{}
