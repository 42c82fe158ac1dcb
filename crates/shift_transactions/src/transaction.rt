//! An open transaction.

ghost use Rattle.std.specs.Prelude.{◌≡◌, ◌==◌, Some, None, IfOk, OnOk, OnErr, is_ok, length};
ghost use Rattle.shift_transactions.specs.Steps.{tried, done_in_turn, changed};
ghost use Rattle.shift_transactions.specs.Doing.{leaves, opened, stepped_within};

use crate::outcome::Outcome;
use crate::step::{Step, Steps, told_of, try_step};
use shift_table::ShiftTable;
use std::alloc::{AllocError, Global};
use std::marker::Model;

/// An open transaction: the table as it stood when it began, with its own steps, and these steps.
#[derive(Drop)]
pub struct Transaction {
    table: ShiftTable,
    steps: Steps,
}

impl Model for Transaction {
    ghost use Rattle.shift_transactions.specs.Doing.{Open};

    ghost Value = { Open };

    ghost view = { λ x. record { table = x.table; steps = x.steps } };
}

impl Transaction {
    /// Begins where the table of all clients stands, of which it takes a copy.
    pub(crate) fn begin(alloc: Global, table: &ShiftTable) -> Result<Transaction, AllocError>
        ensures { IfOk result (λ transaction. transaction ≡ opened table.now None) }
    {
        Ok(Transaction {
            table: table.clone()?,
            steps: Steps::new(alloc),
        })
    }

    /// The table that it sees.
    pub(crate) fn table(&self) -> &ShiftTable
        ensures { result.now ≡ self.now.table }
    {
        &self.table
    }

    /// Whether it has no step.
    pub(crate) fn is_empty(&self) -> bool
        ensures { result ≡ (length self.now.steps == 0) }
    {
        self.steps.is_empty()
    }

    /// Does a step within it, if it can be done. The only error is running out of memory, and then it
    /// is as it was.
    pub(crate) fn step(&mut self, step: Step) -> Result<Outcome, AllocError>
        ensures done { IfOk result (λ outcome. leaves (Some self.new) outcome
            ≡ stepped_within self.old step (tried self.old.table step)) }
        ensures err { OnErr result (self.new ≡ self.old) }
    {
        let told = told_of(&step);
        self.steps.push(step.clone()?)?;
        match try_step(&mut self.table, step) {
            Ok(None) => Ok(told),
            Ok(Some(refusal)) => {
                self.steps.take_back();
                Ok(Outcome::Refused(refusal))
            }
            Err(error) => {
                self.steps.take_back();
                Err(error)
            }
        }
    }

    /// Makes its changes on the table of all clients, and tells whether they could be made. Where they
    /// can't be, and after an error, the table is as it was.
    pub(crate) fn make_on(&self, table: &mut ShiftTable) -> Result<bool, AllocError>
        ensures made { IfOk result (λ made. made
            ≡ is_ok (done_in_turn table.old self.now.steps)) }
        ensures table { OnOk result (table.new ≡ changed table.old self.now.steps) }
        ensures err { OnErr result (table.new ≡ table.old) }
    {
        match self.steps.do_on(table.clone()?)? {
            Some(behind) => {
                *table = behind;
                Ok(true)
            }
            None => Ok(false),
        }
    }

    /// Its steps.
    pub(crate) fn into_steps(self) -> Steps
        ensures { result ≡ self.steps }
    {
        let Transaction { table: _, steps } = self;
        steps
    }
}
