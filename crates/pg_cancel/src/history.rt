ghost use Rattle.std.specs.Prelude.{◌≡◌, ◌↔◌, ◌⊎◌, ℕ, ℤ, List, [], ◌∷◌, ◌++◌, length, IfOk, OnErr, IsTrue};
ghost use Rattle.pg_cancel.specs.LegalHistory.{IsLegal, IsLive, HasPid, IsTaken, IsConnected, IsCanceled, IsAnswer, MayCall, entry_number, entry_of};
ghost use Rattle.pg_cancel.specs.Index.{IsCaller};
ghost use Rattle.pg_cancel.specs.declared.entries.Entry.{Entry};

use crate::entries::{Entry, RegistryAnswer, RegistryCall};
use crate::holders::Holders;
use std::alloc::{AllocError, Global};
use std::marker::Model;

/// The history of a cancel registry, and an index of it. Contracts see it as the list of its
/// entries.
#[derive(Drop)]
pub struct Registry {
    history: Vec<Entry>,
    holders: Holders,
}

impl Model for Registry {
    ghost use Rattle.std.specs.Prelude.{List};
    ghost use Rattle.pg_cancel.specs.declared.entries.Entry.{Entry};
    ghost use Rattle.pg_cancel.specs.LegalHistory.{IsLegal};
    ghost use Rattle.pg_cancel.specs.Index.{IsIndexOf};

    ghost Value = { List Entry };

    ghost view = { λ r. r.history.items };

    ghost invariant = { λ r. IsLegal r.history.items × IsIndexOf r.history.items r.holders };
}

impl Registry {
    /// A registry whose history is empty.
    pub fn new(alloc: Global) -> Registry
        ensures { result ≡ [] }
    {
        Registry {
            history: Vec::new(alloc),
            holders: Holders::new(alloc),
        }
    }

    /// All entries, oldest first. They form a legal history, in which a process id has at most one
    /// live registration.
    pub fn history(&self) -> &[Entry]
        ensures entries { result.now ≡ self.now }
        ensures legal { IsLegal self.now }
        ensures one_holder { (m n : ℕ) (pid : ℤ) → HasPid self.now m pid → HasPid self.now n pid
            → m ≡ n }
    {
        &self.history
    }

    /// Whether the registration at this place is live, as `apply` requires of the number of each
    /// call but `Register`.
    pub fn is_live(&self, number: u64) -> bool
        ensures { IsTrue result ↔ IsLive self.now number }
    {
        self.holders.is_live(&self.history, number)
    }

    /// Answers the call and enters it in the history. A `Register` is entered under its own place,
    /// whatever the number. It costs a look-up in the index, however long the history is. After an
    /// error the registry is as before.
    pub fn apply(&mut self, number: u64, call: RegistryCall) -> Result<RegistryAnswer, AllocError>
        requires { MayCall self.old number call }

        // The history has one more entry and is legal, or nothing was done.
        ensures entry { IfOk result (λ answer. self.new
            ≡ self.old ++ entry_of self.old number call answer ∷ []) }
        ensures legal { IsLegal self.new }
        ensures err { OnErr result (self.new ≡ self.old) }

        // The answer is the one that the history so far gives, and no other.
        ensures answer { IfOk result (IsAnswer self.old number call) }
        ensures determined { IfOk result (λ answer. (other : RegistryAnswer)
            → IsAnswer self.old number call other → other ≡ answer) }

        // To a Register: who has the pid.
        ensures registered { (pid : ℤ) (key : List ℕ) → call ≡ RegistryCall.Register pid key →
            IfOk result (λ answer. (answer ≡ RegistryAnswer.Registered)
            ↔ (¬ IsTaken self.old pid)) }
        ensures taken { (pid : ℤ) (key : List ℕ) (m : ℕ) → call ≡ RegistryCall.Register pid key →
            IfOk result (λ answer. (answer ≡ RegistryAnswer.Taken m) ↔ HasPid self.old m pid) }

        // To an Ask: whether a cancel came since the last start.
        ensures ask_yes { call ≡ RegistryCall.Ask
            → IfOk result (λ answer. (answer ≡ RegistryAnswer.Yes) ↔ IsCanceled self.old number) }
        ensures ask_no { call ≡ RegistryCall.Ask
            → IfOk result (λ answer. (answer ≡ RegistryAnswer.No)
            ↔ (¬ IsCanceled self.old number)) }

        // To a Cancel: whether somebody has both the pid and, by now, the key.
        ensures cancel_yes { (pid : ℤ) (key : List ℕ) → call ≡ RegistryCall.Cancel pid key →
            IfOk result (λ answer. (answer ≡ RegistryAnswer.Yes) ↔ IsConnected self.old pid key) }
        ensures cancel_no { (pid : ℤ) (key : List ℕ) → call ≡ RegistryCall.Cancel pid key →
            IfOk result (λ answer. (answer ≡ RegistryAnswer.No)
            ↔ (¬ IsConnected self.old pid key)) }
        ensures done { (call ≡ RegistryCall.Start) ⊎ (call ≡ RegistryCall.Narrow)
            ⊎ (call ≡ RegistryCall.Unregister)
            → IfOk result (λ answer. answer ≡ RegistryAnswer.Done) }

        // A new registration is live, and stays so until it is ended.
        ensures lives { result ≡ Ok RegistryAnswer.Registered → IsLive self.new (length self.old) }
        ensures stays { (n : ℕ) → IsLive self.old n
            → ¬ ((call ≡ RegistryCall.Unregister) × (number ≡ n)) → IsLive self.new n }
    {
        self.history.reserve(1)?;
        let place = self.history.len() as u64;
        let pid = caller_pid(&self.history, number, &call);
        let answer = self.holders.answer(place, pid, &call)?;
        let number = entry_number(place, number, &call);
        self.history.push_reserved(Entry {
            number,
            call,
            answer,
        });
        Ok(answer)
    }
}

/// The process id of the registration that makes the call. A Register has its own.
fn caller_pid(history: &[Entry], number: u64, call: &RegistryCall) -> i32
    requires { MayCall history.now number call.now }
    ensures { IsCaller history.now number result call.now }
{
    match call {
        RegistryCall::Register(pid, _) => *pid,
        _ => pid_of(history, number),
    }
}

/// The process id of a live registration.
fn pid_of(history: &[Entry], number: u64) -> i32
    requires { IsLive history.now number }
    ensures { HasPid history.now number result }
{
    match &history[number as usize].call {
        RegistryCall::Register(pid, _) => *pid,
        _ => unreachable!(),
    }
}

/// The number that a call is entered under, at this place.
pub fn entry_number(place: u64, number: u64, call: &RegistryCall) -> u64
    ensures { (history : List Entry) → place ≡ length history
        → result ≡ entry_number history number call.now }
{
    match call {
        RegistryCall::Register(..) => place,
        _ => number,
    }
}
