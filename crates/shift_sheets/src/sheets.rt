//! The sheets that are the same for each order of a kind.

ghost use Rattle.std.specs.Prelude.{◌≡◌, Ok, IfOk, IsErr};
ghost use Rattle.std.specs.Arc.{arc_value};
ghost use Rattle.shift_sheets.specs.Answers.{said};
ghost use Rattle.shift_sheets.specs.Orders.{answer_of, Fits, LeavesAll};
ghost use Rattle.shift_sheets.specs.declared.answer.Answer.TheVariants as answer;
ghost use Rattle.shift_transactions.specs.declared.outcome.Outcome.TheVariants as outcome;

use crate::answer::Answer;
use crate::sheet::ShiftSheet;
use pg_messages::PgList;
use shift_orders::ShiftOrder;
use shift_table::Shift;
use shift_transactions::{Outcome, Refusal};
use std::alloc::{AllocError, Global};
use std::marker::Model;
use std::sync::Arc;

/// The sheets that are the same for each order of a kind. They are made once.
#[derive(Drop)]
pub struct Sheets {
    nothing: Arc<ShiftSheet>,
    began: Arc<ShiftSheet>,
    committed: Arc<ShiftSheet>,
    rolled_back: Arc<ShiftSheet>,
    booked: Arc<ShiftSheet>,
    canceled: Arc<ShiftSheet>,
    refusals: Refusals,
}

/// The sheets of orders that were refused.
#[derive(Drop)]
struct Refusals {
    not_positive: Arc<ShiftSheet>,
    clash: Arc<ShiftSheet>,
    unknown_shift: Arc<ShiftSheet>,
    changed: Arc<ShiftSheet>,
    failed: Arc<ShiftSheet>,
}

/// The sheets that one order may need behind a change: that of an order which was done, and that of a
/// COMMIT which can't be. They are shared before it is done, so that nothing can fail between a change
/// and the sheet that tells it. Contracts see the answer of an order which was done.
#[derive(Drop)]
pub struct OrderSheets {
    done: Arc<ShiftSheet>,
    changed: Arc<ShiftSheet>,
}

impl Model for Sheets {
    ghost use Rattle.std.specs.Prelude.{◌≡◌};
    ghost use Rattle.std.specs.Arc.{arc_value};
    ghost use Rattle.shift_sheets.specs.declared.answer.Answer.TheVariants as answer;

    ghost Value = { Unit {0} };

    ghost view = { λ _. tt };

    ghost invariant = { λ s. (arc_value s.nothing ≡ answer.Nothing)
        × (arc_value s.began ≡ answer.Began)
        × (arc_value s.committed ≡ answer.Committed)
        × (arc_value s.rolled_back ≡ answer.RolledBack)
        × (arc_value s.booked ≡ answer.Booked)
        × (arc_value s.canceled ≡ answer.Canceled) };
}

impl Model for Refusals {
    ghost use Rattle.std.specs.Prelude.{◌≡◌};
    ghost use Rattle.std.specs.Arc.{arc_value};
    ghost use Rattle.shift_sheets.specs.declared.answer.Answer.TheVariants as answer;
    ghost use Rattle.shift_transactions.specs.declared.outcome.Refusal.TheVariants as refusal;

    ghost Value = { Unit {0} };

    ghost view = { λ _. tt };

    ghost invariant = { λ s. (arc_value s.not_positive ≡ answer.Refused refusal.NotPositive)
        × (arc_value s.clash ≡ answer.Refused refusal.Clash)
        × (arc_value s.unknown_shift ≡ answer.Refused refusal.UnknownShift)
        × (arc_value s.changed ≡ answer.Refused refusal.Changed)
        × (arc_value s.failed ≡ answer.Refused refusal.Failed) };
}

impl Model for OrderSheets {
    ghost use Rattle.std.specs.Prelude.{◌≡◌};
    ghost use Rattle.std.specs.Arc.{arc_value};
    ghost use Rattle.shift_sheets.specs.declared.answer.Answer.{Answer};
    ghost use Rattle.shift_sheets.specs.declared.answer.Answer.TheVariants as answer;
    ghost use Rattle.shift_transactions.specs.declared.outcome.Refusal.TheVariants as refusal;

    ghost Value = { Answer };

    ghost view = { λ s. arc_value s.done };

    ghost invariant = { λ s. arc_value s.changed ≡ answer.Refused refusal.Changed };
}

impl Sheets {
    /// Makes the sheets. The only error is running out of memory.
    pub fn new(alloc: Global) -> Result<Sheets, AllocError> {
        Ok(Sheets {
            nothing: ShiftSheet::new(alloc, Answer::Nothing)?,
            began: ShiftSheet::new(alloc, Answer::Began)?,
            committed: ShiftSheet::new(alloc, Answer::Committed)?,
            rolled_back: ShiftSheet::new(alloc, Answer::RolledBack)?,
            booked: ShiftSheet::new(alloc, Answer::Booked)?,
            canceled: ShiftSheet::new(alloc, Answer::Canceled)?,
            refusals: Refusals::new(alloc)?,
        })
    }

    /// The sheet where no query is asked for.
    pub fn nothing(&self) -> Result<Arc<ShiftSheet>, AllocError>
        ensures { IfOk result (λ sheet. arc_value sheet ≡ answer.Nothing) }
    {
        Arc::try_clone(&self.nothing)
    }

    /// The sheet of a refusal.
    pub fn refused(&self, refusal: Refusal) -> Result<Arc<ShiftSheet>, AllocError>
        ensures { IfOk result (λ sheet. arc_value sheet ≡ answer.Refused refusal) }
    {
        Arc::try_clone(self.refusals.sheet_of(refusal))
    }

    /// The sheets that an order may need behind a change, for a client whose transaction has failed or
    /// hasn't.
    pub fn for_order(&self, has_failed: bool, order: &ShiftOrder) -> Result<OrderSheets, AllocError>
        ensures { IfOk result (λ sheets. sheets ≡ answer_of has_failed order.now) }
    {
        Ok(OrderSheets {
            done: Arc::try_clone(self.of_done(has_failed, order))?,
            changed: Arc::try_clone(&self.refusals.changed)?,
        })
    }

    /// The sheet of an order that was done. What is shown has a sheet of its own.
    fn of_done(&self, has_failed: bool, order: &ShiftOrder) -> &Arc<ShiftSheet>
        ensures { arc_value result.now ≡ answer_of has_failed order.now }
    {
        match order {
            ShiftOrder::Book(_) => &self.booked,
            ShiftOrder::Cancel(_, _) => &self.canceled,
            ShiftOrder::Shifts | ShiftOrder::ShiftsOf(_) => &self.nothing,
            ShiftOrder::Begin => &self.began,
            ShiftOrder::Commit if !has_failed => &self.committed,
            ShiftOrder::Commit | ShiftOrder::Rollback => &self.rolled_back,
        }
    }
}

impl OrderSheets {
    /// The sheet of what the order came to. The only error is running out of memory, and it comes only
    /// where the order has changed nothing.
    pub fn sheet_of(
        self,
        alloc: Global,
        sheets: &Sheets,
        outcome: Outcome,
    ) -> Result<Arc<ShiftSheet>, AllocError>
        requires { Fits self outcome }
        ensures said { IfOk result (λ sheet. said (arc_value sheet) ≡ Ok outcome) }
        ensures leaves { IsErr result → LeavesAll outcome }
    {
        match outcome {
            Outcome::Shown(shifts) => shown(alloc, shifts),
            Outcome::Refused(Refusal::Changed) => Ok(self.changed),
            Outcome::Refused(refusal) => sheets.refused(refusal),
            _ => Ok(self.done),
        }
    }
}

impl Refusals {
    /// Makes the sheets.
    fn new(alloc: Global) -> Result<Refusals, AllocError> {
        Ok(Refusals {
            not_positive: ShiftSheet::new(alloc, Answer::Refused(Refusal::NotPositive))?,
            clash: ShiftSheet::new(alloc, Answer::Refused(Refusal::Clash))?,
            unknown_shift: ShiftSheet::new(alloc, Answer::Refused(Refusal::UnknownShift))?,
            changed: ShiftSheet::new(alloc, Answer::Refused(Refusal::Changed))?,
            failed: ShiftSheet::new(alloc, Answer::Refused(Refusal::Failed))?,
        })
    }

    /// The sheet of a refusal.
    fn sheet_of(&self, refusal: Refusal) -> &Arc<ShiftSheet>
        ensures { arc_value result.now ≡ answer.Refused refusal }
    {
        match refusal {
            Refusal::NotPositive => &self.not_positive,
            Refusal::Clash => &self.clash,
            Refusal::UnknownShift => &self.unknown_shift,
            Refusal::Changed => &self.changed,
            Refusal::Failed => &self.failed,
        }
    }
}

/// The sheet of shifts that are shown.
fn shown(alloc: Global, shifts: PgList<Shift>) -> Result<Arc<ShiftSheet>, AllocError>
    ensures { IfOk result (λ sheet. said (arc_value sheet) ≡ Ok (outcome.Shown shifts)) }
{
    let shifts = Arc::new(alloc, shifts.into_vec())?;
    ShiftSheet::new(alloc, Answer::Shown(shifts))
}
