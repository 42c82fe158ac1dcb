//! A desk that answers from a list, and fails the calls that it is told to fail.

ghost use Rattle.std.specs.Prelude.{◌≡◌, [], ◌∷◌, drop, take, IfOk, OnOk, OnErr};
ghost use Rattle.pg_client.specs.declared.desk.DeskCall.{DeskCall};
ghost use Rattle.pg_client.specs.Desk.{after_calls};
ghost use Rattle.pg_client.specs.Script.{first_or_no, script_told, IsScripted};
ghost use Rattle.pg_serve.specs.Flaky.{is_next_refused, IsFlakyCall, IsNextCall};

use pg_messages::{PgList, SecretKey};
use pg_session::{CancelDesk, DeskCall, ScriptDesk};
use std::alloc::{AllocError, Global};
use std::marker::Model;

/// A desk that answers from a list, as a `ScriptDesk` does, but fails the calls that it is told to
/// fail.
#[derive(Drop)]
pub struct FlakyDesk {
    desk: ScriptDesk,
    fails: PgList<u64>,
    made: u64,
}

impl Model for FlakyDesk {
    ghost use Rattle.pg_serve.specs.Flaky.{Flaky};

    ghost Value = { Flaky };

    ghost view = { λ d. record { script = d.desk; fails = d.fails; made = d.made } };
}

impl FlakyDesk {
    /// A desk of this registration, with these answers to come. Its calls of `start`, `ask`,
    /// `cancel` and `narrow` are numbered from 0, those that fail too. The calls whose numbers are
    /// in `fails` return `AllocError`, and change neither the calls that were answered nor the
    /// answers to come. It takes no memory.
    pub fn new(
        alloc: Global,
        pid: i32,
        key: SecretKey,
        answers: PgList<bool>,
        fails: PgList<u64>,
    ) -> FlakyDesk
        ensures pid { result.script.pid ≡ pid }
        ensures key { result.script.key ≡ key }
        ensures script { result.script.script ≡ answers }
        ensures answers { result.script.answers ≡ answers }
        ensures calls { result.script.calls ≡ [] }
        ensures fails { result.fails ≡ fails }
        ensures made { result.made ≡ 0 }
    {
        FlakyDesk {
            desk: ScriptDesk::new(alloc, pid, key, answers),
            fails,
            made: 0,
        }
    }

    /// The calls so far that were answered, with their answers, which are those of the list.
    pub fn calls(&self) -> &[DeskCall]
        ensures calls { result.now ≡ self.now.script.calls }
        ensures scripted { IsScripted self.now.script.script self.now.script.answers
            self.now.script.calls }
    {
        self.desk.calls()
    }

    /// Counts a call, and returns whether it fails.
    fn is_refused(&mut self) -> bool
        ensures told { result ≡ is_next_refused self.old }
        ensures script { self.new.script ≡ self.old.script }
        ensures next { IsNextCall self.old self.new }
    {
        let call = self.made;
        self.made = call.saturating_add(1);
        self.fails.as_slice().contains(&call)
    }
}

impl CancelDesk for FlakyDesk {
    ghost told = { λ d. script_told d.script };

    fn identity(&self) -> (i32, &SecretKey) {
        self.desk.identity()
    }

    fn start(&mut self) -> Result<(), AllocError>
        ensures flaky { IsFlakyCall self.old self.new result }
        ensures answers { self.new.script.answers ≡ self.old.script.answers }
        ensures ok { OnOk result
            (script_told self.new.script ≡ after_calls (script_told self.old.script)
            (DeskCall.Start ∷ [])) }
        ensures err { OnErr result (script_told self.new.script ≡ script_told self.old.script) }
    {
        if self.is_refused() {
            return Err(AllocError);
        }
        self.desk.start()
    }

    fn ask(&mut self) -> Result<bool, AllocError>
        ensures flaky { IsFlakyCall self.old self.new result }
        ensures answer { IfOk result (λ yes. yes ≡ first_or_no self.old.script.answers) }
        ensures used_up { OnOk result (self.new.script.answers ≡ drop 1 self.old.script.answers) }
        ensures kept { OnErr result (self.new.script.answers ≡ self.old.script.answers) }
        ensures ok { IfOk result (λ yes. script_told self.new.script
            ≡ after_calls (script_told self.old.script) (DeskCall.Ask yes ∷ [])) }
        ensures err { OnErr result (script_told self.new.script ≡ script_told self.old.script) }
    {
        if self.is_refused() {
            return Err(AllocError);
        }
        self.desk.ask()
    }

    fn cancel(&mut self, pid: i32, key: &SecretKey) -> Result<bool, AllocError>
        ensures flaky { IsFlakyCall self.old self.new result }
        ensures answer { IfOk result (λ yes. yes ≡ first_or_no self.old.script.answers) }
        ensures used_up { OnOk result (self.new.script.answers ≡ drop 1 self.old.script.answers) }
        ensures kept { OnErr result (self.new.script.answers ≡ self.old.script.answers) }
        ensures ok { IfOk result (λ yes. script_told self.new.script
            ≡ after_calls (script_told self.old.script) (DeskCall.Cancel pid key.now yes ∷ [])) }
        ensures err { OnErr result (script_told self.new.script ≡ script_told self.old.script) }
    {
        if self.is_refused() {
            return Err(AllocError);
        }
        self.desk.cancel(pid, key)
    }

    fn narrow(&mut self) -> Result<(), AllocError>
        ensures flaky { IsFlakyCall self.old self.new result }
        ensures key { OnOk result (self.new.script.key ≡ take 4 self.old.script.key) }
        ensures answers { self.new.script.answers ≡ self.old.script.answers }
        ensures ok { OnOk result
            (script_told self.new.script ≡ after_calls (script_told self.old.script)
            (DeskCall.Narrow ∷ [])) }
        ensures err { OnErr result (script_told self.new.script ≡ script_told self.old.script) }
    {
        if self.is_refused() {
            return Err(AllocError);
        }
        self.desk.narrow()
    }
}
