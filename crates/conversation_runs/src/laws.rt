//! A law of the session's run. The function takes nothing and does nothing: its contract is the
//! law.

ghost use Rattle.std.specs.Prelude.{ℕ, List, ◌++◌, Option, Result};
ghost use Rattle.pg_client.specs.Answer.{Goes};
ghost use Rattle.conversation_table.specs.Handlers.{Handlers};
ghost use Rattle.pg_client.specs.State.{State};
ghost use Rattle.pg_client.specs.declared.desk.DeskCall.{DeskCall};
ghost use Rattle.conversation_runs.specs.Session.{whole_rules};
ghost use Rattle.conversation_runs.specs.Steps.{IsServed, WasFed};
ghost use Rattle.conversation_runs.specs.declared.ends.Progress.{Progress};
ghost use Rattle.conversation_runs.specs.declared.ends.ServeError.{ServeError};

/// Serving a text, and then feeding a piece, is the same as feeding the text and the piece as one.
/// The bytes, the calls and the state don't depend on how the client's bytes were cut.
pub fn pieces_join<S>()
    ensures { (h : Handlers S) (s t u : State S) (text mid piece rest : List ℕ)
        (first before after : Option (List ℕ)) (out waiting : List ℕ)
        (old calls new : List DeskCall)
        (result : Result Progress ServeError)
        → IsServed (whole_rules h) s text mid (Goes t) first before out waiting old calls
        → WasFed (whole_rules h) t (mid ++ piece) u rest before after waiting calls new result
        → WasFed (whole_rules h) s (text ++ piece) u rest first after out old new result }
{}
