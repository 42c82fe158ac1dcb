//! Laws of runs. The functions take nothing and do nothing: their contracts are the laws.

ghost use Rattle.std.specs.Prelude.{◌≡◌, ◌++◌, ℕ, Bool, List};
ghost use Rattle.pg_client.specs.Answer.{BeginsWith, answers_of};
ghost use Rattle.conversation_table.specs.Handlers.{Handlers};
ghost use Rattle.conversation_table.specs.Lawful.{IsLawful};
ghost use Rattle.conversation_table.specs.Table.{whole_table};
ghost use Rattle.pg_client.specs.declared.desk.DeskCall.{DeskCall};
ghost use Rattle.pg_client.specs.declared.ends.EndKind.{EndKind};
ghost use Rattle.conversation_runs.specs.Run.{Rules, IsRun};
ghost use Rattle.conversation_laws.specs.Steady.{IsSteady, IsCalledSoFar, AgreeAsFar, HasScriptedRun};

/// Over the same bytes there is only one run: where the answers of one run begin with those of the
/// other, both have the same replies, the same calls with their answers, and the same end.
pub fn one_run<T>()
    ensures { (rules : Rules T) (s : T) (text replies others : List ℕ) (calls made : List DeskCall)
        (kind other : EndKind) (more : List Bool)
        → IsLawful rules.table rules.awaits → IsRun rules s text replies calls kind
        → IsRun rules s text others made other → answers_of made ≡ answers_of calls ++ more
        → (replies ≡ others) × (calls ≡ made) × (kind ≡ other) }
{}

/// The calls of a run begin with those of the frames at the front of its bytes, where the answers
/// of both agree as far as both go.
pub fn calls_go_on<T>()
    ensures { (rules : Rules T) (s : T) (front behind replies : List ℕ) (made calls : List DeskCall)
        (kind : EndKind)
        → IsLawful rules.table rules.awaits → IsSteady rules.table
        → IsCalledSoFar rules s front made → IsRun rules s (front ++ behind) replies calls kind
        → AgreeAsFar (answers_of calls) (answers_of made) → BeginsWith calls made }
{}

/// Over any bytes there is a run whose calls are answered by a script, and with no past the
/// script's end.
pub fn scripted_run_exists<T>()
    ensures { (rules : Rules T) (s : T) (text : List ℕ) (script : List Bool)
        → IsLawful rules.table rules.awaits → IsSteady rules.table
        → HasScriptedRun rules s text script }
{}

/// The whole table is steady, with any handlers.
pub fn whole_table_is_steady<S>()
    ensures { (h : Handlers S) → IsSteady (whole_table h) }
{}
