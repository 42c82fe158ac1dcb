//! The cancel registry as a session sees it, and a desk that answers from a list.

ghost use Rattle.std.specs.Prelude.{◌≡◌, [], ◌∷◌, drop, take, IfOk, OnOk, OnErr};
ghost use Rattle.pg_client.specs.Desk.{DeskTold, after_calls};
ghost use Rattle.pg_client.specs.declared.desk.DeskCall.{DeskCall};
ghost use Rattle.pg_client.specs.Script.{first_or_no, script_told, IsScripted};

use pg_messages::{PgList, SecretKey};
use std::alloc::{AllocError, Global};
use std::marker::Model;

/// A call of the cancel registry, with its answer.
#[derive(Debug, Drop, PartialEq, Eq)]
pub enum DeskCall {
    /// A query was started.
    Start,
    /// Whether the running query was canceled.
    Ask(bool),
    /// The pid and key whose query was to be canceled, and whether there is such a registration.
    Cancel(i32, SecretKey, bool),
    /// The registration's key was narrowed to its first four bytes.
    Narrow,
}

/// What a session sees of the cancel registry: its own registration.
pub trait CancelDesk {
    // its registration, the calls so far with their answers, and its origin
    ghost told: { Self → DeskTold };

    /// The pid and the key that the client is told.
    fn identity(&self) -> (i32, &SecretKey)
        ensures { (result.0, result.1.now) ≡ (told self.now).registration };

    /// Notes that a query starts. After an error nothing has changed.
    fn start(&mut self) -> Result<(), AllocError>
        ensures ok { OnOk result
            (told self.new ≡ after_calls (told self.old) (DeskCall.Start ∷ [])) }
        ensures err { OnErr result (told self.new ≡ told self.old) };

    /// Whether the running query was canceled. After an error nothing has changed.
    fn ask(&mut self) -> Result<bool, AllocError>
        ensures ok { IfOk result
            (λ yes. told self.new ≡ after_calls (told self.old) (DeskCall.Ask yes ∷ [])) }
        ensures err { OnErr result (told self.new ≡ told self.old) };

    /// Cancels the query of the registration with this pid and key, and returns whether there is
    /// one. After an error nothing has changed.
    fn cancel(&mut self, pid: i32, key: &SecretKey) -> Result<bool, AllocError>
        ensures ok { IfOk result (λ yes.
            told self.new ≡ after_calls (told self.old) (DeskCall.Cancel pid key.now yes ∷ [])) }
        ensures err { OnErr result (told self.new ≡ told self.old) };

    /// Narrows the registration's key to its first four bytes, so that a longer key doesn't cancel
    /// its query. After an error nothing has changed.
    fn narrow(&mut self) -> Result<(), AllocError>
        ensures ok { OnOk result
            (told self.new ≡ after_calls (told self.old) (DeskCall.Narrow ∷ [])) }
        ensures err { OnErr result (told self.new ≡ told self.old) };
}

/// A desk that answers from a list, in its order. Past the end of the list it answers no.
#[derive(Drop)]
pub struct ScriptDesk {
    pid: i32,
    key: SecretKey,
    answers: PgList<bool>,
    taken: usize,
    calls: Vec<DeskCall>,
}

impl Model for ScriptDesk {
    ghost use Rattle.std.specs.Prelude.{drop};
    ghost use Rattle.pg_client.specs.Script.{Script, IsScripted};

    ghost Value = { Script };

    ghost view = { λ d. record {
      pid = d.pid;
      key = d.key;
      script = d.answers;
      answers = drop d.taken d.answers;
      calls = d.calls.items;
    } };

    ghost invariant = { λ d. IsScripted d.answers (drop d.taken d.answers) d.calls.items };
}

impl ScriptDesk {
    /// A desk of this registration, with these answers to come. It takes no memory.
    pub fn new(alloc: Global, pid: i32, key: SecretKey, answers: PgList<bool>) -> ScriptDesk
        ensures pid { result.pid ≡ pid }
        ensures key { result.key ≡ key }
        ensures script { result.script ≡ answers }
        ensures answers { result.answers ≡ answers }
        ensures calls { result.calls ≡ [] }
    {
        ScriptDesk {
            pid,
            key,
            answers,
            taken: 0,
            calls: Vec::new(alloc),
        }
    }

    /// The calls so far, with their answers, which are those of the list.
    pub fn calls(&self) -> &[DeskCall]
        ensures calls { result.now ≡ self.now.calls }
        ensures scripted { IsScripted self.now.script self.now.answers self.now.calls }
    {
        self.calls.as_slice()
    }

    /// The next answer, or no past the end of the list.
    fn next_answer(&self) -> bool
        ensures { result ≡ first_or_no self.now.answers }
    {
        self.answers
            .as_slice()
            .get(self.taken)
            .copied()
            .unwrap_or(false)
    }
}

/// The index after the next answer, or the same index where no answer is left.
fn behind_next(answers: &[bool], taken: usize) -> usize
    ensures { drop result answers.now ≡ drop 1 (drop taken answers.now) }
{
    if taken < answers.len() {
        taken + 1
    } else {
        taken
    }
}

impl CancelDesk for ScriptDesk {
    ghost told = { script_told };

    fn identity(&self) -> (i32, &SecretKey) {
        (self.pid, &self.key)
    }

    fn start(&mut self) -> Result<(), AllocError>
        ensures answers { self.new.answers ≡ self.old.answers }
        ensures ok { OnOk result
            (script_told self.new ≡ after_calls (script_told self.old) (DeskCall.Start ∷ [])) }
        ensures err { OnErr result (script_told self.new ≡ script_told self.old) }
    {
        self.calls.push(DeskCall::Start)?;
        Ok(())
    }

    fn ask(&mut self) -> Result<bool, AllocError>
        ensures answer { IfOk result (λ yes. yes ≡ first_or_no self.old.answers) }
        ensures used_up { OnOk result (self.new.answers ≡ drop 1 self.old.answers) }
        ensures kept { OnErr result (self.new.answers ≡ self.old.answers) }
        ensures ok { IfOk result (λ yes.
            script_told self.new ≡ after_calls (script_told self.old) (DeskCall.Ask yes ∷ [])) }
        ensures err { OnErr result (script_told self.new ≡ script_told self.old) }
    {
        let yes = self.next_answer();
        self.calls.push(DeskCall::Ask(yes))?;
        self.taken = behind_next(self.answers.as_slice(), self.taken);
        Ok(yes)
    }

    fn cancel(&mut self, pid: i32, key: &SecretKey) -> Result<bool, AllocError>
        ensures answer { IfOk result (λ yes. yes ≡ first_or_no self.old.answers) }
        ensures used_up { OnOk result (self.new.answers ≡ drop 1 self.old.answers) }
        ensures kept { OnErr result (self.new.answers ≡ self.old.answers) }
        ensures ok { IfOk result (λ yes. script_told self.new
            ≡ after_calls (script_told self.old) (DeskCall.Cancel pid key.now yes ∷ [])) }
        ensures err { OnErr result (script_told self.new ≡ script_told self.old) }
    {
        let named = key.copy_of()?;
        let yes = self.next_answer();
        self.calls.push(DeskCall::Cancel(pid, named, yes))?;
        self.taken = behind_next(self.answers.as_slice(), self.taken);
        Ok(yes)
    }

    fn narrow(&mut self) -> Result<(), AllocError>
        ensures key { OnOk result (self.new.key ≡ take 4 self.old.key) }
        ensures answers { self.new.answers ≡ self.old.answers }
        ensures ok { OnOk result
            (script_told self.new ≡ after_calls (script_told self.old) (DeskCall.Narrow ∷ [])) }
        ensures err { OnErr result (script_told self.new ≡ script_told self.old) }
    {
        self.calls.push(DeskCall::Narrow)?;
        self.key.narrow();
        Ok(())
    }
}
