//! Steps, which change a table of shifts.

ghost use Rattle.std.specs.Prelude.{◌≡◌, ◌∷◌, ◌++◌, ◌==◌, [], IfOk, OnOk, OnErr, length};
ghost use Rattle.std.specs.Result.{result_ok};
ghost use Rattle.shift_transactions.specs.Steps.{tried, done_in_turn};
ghost use Rattle.shift_transactions.specs.Trying.{after};
ghost use Rattle.shift_transactions.specs.Doing.{told_of};
ghost use Rattle.shift_transactions.specs.declared.step.Step.{Step};
ghost use Rattle.std.specs.Prelude.{List};

use crate::outcome::{Outcome, Refusal};
use shift_table::{BookError, Shift, ShiftTable, UnknownShift};
use std::alloc::{AllocError, Global};
use std::marker::Model;

/// One change of a table of shifts.
#[derive(Debug, Drop)]
pub enum Step {
    /// A shift is booked.
    Book(Shift),
    /// This shift is canceled.
    Cancel(Shift),
}

impl Clone for Step {
    ghost is_clone = { λ step copy. copy ≡ step };

    fn clone(&self) -> Result<Step, AllocError> {
        match self {
            Step::Book(shift) => Ok(Step::Book(copy_of(shift)?)),
            Step::Cancel(shift) => Ok(Step::Cancel(copy_of(shift)?)),
        }
    }
}

/// A copy of a shift.
fn copy_of(shift: &Shift) -> Result<Shift, AllocError>
    ensures { IfOk result (λ copy. copy ≡ shift.now) }
{
    Ok(Shift {
        name: shift.name.clone()?,
        start: shift.start,
        length: shift.length,
    })
}

/// Steps, in their order. One alone takes no memory.
#[derive(Debug, Drop)]
pub struct Steps {
    first: Option<Step>,
    others: Vec<Step>,
}

impl Model for Steps {
    ghost use Rattle.std.specs.Prelude.{◌≡◌, ◌++◌, [], List, None, option_to_list};
    ghost use Rattle.shift_transactions.specs.declared.step.Step.{Step};

    ghost Value = { List Step };

    ghost view = { λ s. option_to_list s.first ++ s.others.items };

    ghost invariant = { λ s. s.first ≡ None → s.others.items ≡ [] };
}

impl Steps {
    /// No step.
    pub fn new(alloc: Global) -> Steps
        ensures { result ≡ [] }
    {
        Steps {
            first: None,
            others: Vec::new(alloc),
        }
    }

    /// One step alone.
    pub fn of_one(alloc: Global, step: Step) -> Steps
        ensures { result ≡ step ∷ [] }
    {
        Steps {
            first: Some(step),
            others: Vec::new(alloc),
        }
    }

    /// Whether there is none.
    pub fn is_empty(&self) -> bool
        ensures { result ≡ (length self.now == 0) }
    {
        self.first.is_none()
    }

    /// Puts a step behind the others. After an error they are as they were.
    pub fn push(&mut self, step: Step) -> Result<(), AllocError>
        ensures ok { OnOk result (self.new ≡ self.old ++ step ∷ []) }
        ensures err { OnErr result (self.new ≡ self.old) }
    {
        if self.first.is_none() {
            self.first = Some(step);
        } else {
            self.others.push(step)?;
        }
        Ok(())
    }

    /// Takes the last step back, if there is one.
    pub(crate) fn take_back(&mut self)
        ensures { (steps : List Step) (step : Step) → self.old ≡ steps ++ step ∷ []
            → self.new ≡ steps }
    {
        if self.others.pop().is_none() {
            self.first = None;
        }
    }

    /// The table behind the steps, one after the other; or None, where one of them can't be done.
    pub(crate) fn do_on(&self, table: ShiftTable) -> Result<Option<ShiftTable>, AllocError>
        ensures { IfOk result (λ behind. behind ≡ result_ok (done_in_turn table self.now)) }
    {
        let mut behind = table;
        let Some(first) = &self.first else {
            return Ok(Some(behind));
        };
        match try_step(&mut behind, first.clone()?)? {
            Some(_) => Ok(None),
            None => do_in_turn(behind, self.others.as_slice()),
        }
    }
}

/// The table behind steps, one after the other; or None, where one of them can't be done.
fn do_in_turn(table: ShiftTable, steps: &[Step]) -> Result<Option<ShiftTable>, AllocError>
    ensures { IfOk result (λ behind. behind ≡ result_ok (done_in_turn table steps.now)) }
{
    let mut behind = table;
    for step in steps {
        if try_step(&mut behind, step.clone()?)?.is_some() {
            return Ok(None);
        }
    }
    Ok(Some(behind))
}

/// What a client is told of a step that is done.
pub(crate) fn told_of(step: &Step) -> Outcome
    ensures { result ≡ told_of step.now }
{
    match step {
        Step::Book(_) => Outcome::Booked,
        Step::Cancel(_) => Outcome::Canceled,
    }
}

/// Does a step, if it can be done. Why not is the answer, if it can't. The only error is running out of
/// memory, and then the table is as it was.
pub(crate) fn try_step(table: &mut ShiftTable, step: Step) -> Result<Option<Refusal>, AllocError>
    ensures tried { IfOk result (λ refusal.
        (table.new, refusal) ≡ after table.old (tried table.old step)) }
    ensures err { OnErr result (table.new ≡ table.old) }
{
    match step {
        Step::Book(shift) => match table.book(shift) {
            Ok(()) => Ok(None),
            Err(BookError::NotPositive) => Ok(Some(Refusal::NotPositive)),
            Err(BookError::Clash) => Ok(Some(Refusal::Clash)),
            Err(BookError::NoMemory) => Err(AllocError),
        },
        Step::Cancel(shift) => match table.cancel(shift) {
            Ok(()) => Ok(None),
            Err(UnknownShift) => Ok(Some(Refusal::UnknownShift)),
        },
    }
}
