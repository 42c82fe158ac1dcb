//! Laws of conversations whose handlers change. The functions take nothing and do nothing: their
//! contracts are the laws.

ghost use Rattle.std.specs.Prelude.{ℕ, List};
ghost use Rattle.pg_client.specs.State.{State};
ghost use Rattle.pg_client.specs.declared.desk.DeskCall.{DeskCall};
ghost use Rattle.pg_client.specs.declared.ends.EndKind.{EndKind};
ghost use Rattle.conversation_table.specs.Handlers.{Handlers};
ghost use Rattle.conversation_table.specs.Lawful.{IsLawful};
ghost use Rattle.conversation_runs.specs.Run.{IsRun, IsCutRun};
ghost use Rattle.conversation_runs.specs.Session.{whole_rules};
ghost use Rattle.moving_runs.specs.Sheets.{sheet_table, awaits_ahead, sheet_rules};
ghost use Rattle.moving_runs.specs.Unchanging.{AreAll};

/// The table of handlers that change is lawful: it takes the registry's answers from the front, and
/// awaits the startup packet until that came.
pub fn sheet_table_is_lawful<S>()
    ensures { IsLawful (sheet_table {S = S}) awaits_ahead }
{}

/// Handlers that never change are a case. Where all sheets are the same one, the run by the sheets
/// is the run by the whole table over that one: to its end, and where it was cut off.
pub fn one_sheet_is_the_whole_table<S>()
    ensures run { (only : Handlers S) (sheets : List (Handlers S)) → AreAll only sheets
        → (s : State S) (text bytes : List ℕ) (calls : List DeskCall) (kind : EndKind)
        → IsRun sheet_rules (record { sheets = sheets; state = s }) text bytes calls kind
        → IsRun (whole_rules only) s text bytes calls kind }
    ensures cut_off { (only : Handlers S) (sheets : List (Handlers S)) → AreAll only sheets
        → (s : State S) (text bytes : List ℕ) (calls : List DeskCall)
        → IsCutRun sheet_rules (record { sheets = sheets; state = s }) text bytes calls
        → IsCutRun (whole_rules only) s text bytes calls }
{}
