//! A law of changes. The function takes nothing and does nothing: its contract is the law.

ghost use Rattle.std.specs.Prelude.{List};
ghost use Rattle.shift_table.specs.Shifts.{IsTimetable};
ghost use Rattle.shift_table.specs.declared.shift.Shift.{Shift};
ghost use Rattle.shift_transactions.specs.Steps.{changed};
ghost use Rattle.shift_transactions.specs.declared.step.Step.{Step};

/// Whatever the steps of a change, no two shifts clash behind it, where none did before, and each
/// lasts.
pub fn no_two_shifts_clash()
    ensures { (t : List Shift) (steps : List Step) → IsTimetable t → IsTimetable (changed t steps) }
{}
