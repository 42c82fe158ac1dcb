ghost use Rattle.std.specs.Prelude.{◌≡◌, ℕ, ℤ, [], ◌↔◌, IfOk, OnErr, IsTrue};
ghost use Rattle.std.specs.BTreeMap.{IsUnchanged};
ghost use Rattle.pg_cancel.specs.LegalHistory.{IsLegal, IsLive};
ghost use Rattle.pg_cancel.specs.Index.{IsIndexOf, IsHeld, IsHeldBy, MayAsk, NotesAny, answer_of, canceled};

use crate::entries::{Entry, RegistryAnswer, RegistryCall};
use pg_messages::SecretKey;
use std::alloc::{AllocError, Global};
use std::collections::BTreeMap;

/// How far a live registration's query has come.
#[derive(Clone, Copy)]
pub enum Query {
    /// No query was started.
    Unstarted,
    /// The last query was started, and not canceled since.
    Running,
    /// The last query was canceled.
    Canceled,
}

/// The live registration of a process id: its number, the secret key that it has now, and how far
/// its query has come.
#[derive(Drop)]
pub struct Holder {
    pub number: u64,
    pub key: SecretKey,
    pub query: Query,
}

/// The index of a history: its live registrations by their process ids. The history itself is not
/// needed for an answer.
#[derive(Drop)]
pub struct Holders {
    pub by_pid: BTreeMap<i32, Holder>,
}

impl Holders {
    pub fn new(alloc: Global) -> Holders
        ensures { IsIndexOf [] result }
    {
        Holders {
            by_pid: BTreeMap::new(alloc),
        }
    }

    /// Answers a call of the registration that has the pid, after `place` entries, and notes it. A
    /// Register needs no registration. After an error nothing is noted.
    pub fn answer(
        &mut self,
        place: u64,
        pid: i32,
        call: &RegistryCall,
    ) -> Result<RegistryAnswer, AllocError>
        requires { MayAsk self.old pid call.now }
        ensures ok { IfOk result (NotesAny self.old place pid call.now self.new) }
        ensures err { OnErr result (IsUnchanged self.old.by_pid self.new.by_pid) }
    {
        match call {
            RegistryCall::Register(pid, key) => self.register(place, *pid, key),
            RegistryCall::Start => Ok(self.start(pid)),
            RegistryCall::Ask => Ok(self.ask(pid)),
            RegistryCall::Cancel(pid, key) => Ok(self.cancel(*pid, key)),
            RegistryCall::Narrow => Ok(self.narrow(pid)),
            RegistryCall::Unregister => Ok(self.unregister(pid)),
        }
    }

    /// Registers the pid under the number `place`, unless the pid is taken. The key is copied.
    fn register(
        &mut self,
        place: u64,
        pid: i32,
        key: &SecretKey,
    ) -> Result<RegistryAnswer, AllocError>
        ensures ok { IfOk result (NotesAny self.old place pid (RegistryCall.Register pid key.now)
            self.new) }
        ensures err { OnErr result (IsUnchanged self.old.by_pid self.new.by_pid) }
    {
        if let Some(holder) = self.by_pid.get(&pid) {
            return Ok(RegistryAnswer::Taken(holder.number));
        }
        let key = key.copy_of()?;
        self.by_pid.insert(
            pid,
            Holder {
                number: place,
                key,
                query: Query::Unstarted,
            },
        )?;
        Ok(RegistryAnswer::Registered)
    }

    fn start(&mut self, pid: i32) -> RegistryAnswer
        requires { IsHeld self.old pid }
        ensures { (place : ℕ) → NotesAny self.old place pid RegistryCall.Start self.new result }
    {
        let Some(holder) = self.by_pid.get_mut(&pid) else {
            unreachable!()
        };
        holder.query = Query::Running;
        RegistryAnswer::Done
    }

    fn ask(&self, pid: i32) -> RegistryAnswer
        requires { IsHeld self.now pid }
        ensures { (place : ℕ) → NotesAny self.now place pid RegistryCall.Ask self.now result }
    {
        let Some(holder) = self.by_pid.get(&pid) else {
            unreachable!()
        };
        holder.query.answer()
    }

    /// A wrong pid and a wrong key get the same answer, and change nothing.
    fn cancel(&mut self, pid: i32, key: &SecretKey) -> RegistryAnswer
        ensures { (place : ℕ) (caller : ℤ)
            → NotesAny self.old place caller (RegistryCall.Cancel pid key.now) self.new result }
    {
        if !self.is_connected(pid, key) {
            return RegistryAnswer::No;
        }
        let Some(holder) = self.by_pid.get_mut(&pid) else {
            unreachable!()
        };
        holder.query = holder.query.canceled();
        RegistryAnswer::Yes
    }

    /// Whether the pid has a live registration whose key is this one now.
    fn is_connected(&self, pid: i32, key: &SecretKey) -> bool
        ensures { IsTrue result ↔ IsHeldBy self.now pid key.now }
    {
        match self.by_pid.get(&pid) {
            Some(holder) => holder.key.is_same(key),
            None => false,
        }
    }

    /// A query that was canceled by the longer key stays canceled.
    fn narrow(&mut self, pid: i32) -> RegistryAnswer
        requires { IsHeld self.old pid }
        ensures { (place : ℕ) → NotesAny self.old place pid RegistryCall.Narrow self.new result }
    {
        let Some(holder) = self.by_pid.get_mut(&pid) else {
            unreachable!()
        };
        holder.key.narrow();
        RegistryAnswer::Done
    }

    fn unregister(&mut self, pid: i32) -> RegistryAnswer
        requires { IsHeld self.old pid }
        ensures { (place : ℕ) → NotesAny self.old place pid RegistryCall.Unregister self.new
            result }
    {
        let _ = self.by_pid.remove(&pid);
        RegistryAnswer::Done
    }

    /// Whether the registration at this place is live.
    pub fn is_live(&self, history: &[Entry], number: u64) -> bool
        requires legal { IsLegal history.now }
        requires index { IsIndexOf history.now self.now }
        ensures { IsTrue result ↔ IsLive history.now number }
    {
        if number >= history.len() as u64 {
            return false;
        }
        let RegistryCall::Register(held, _) = &history[number as usize].call else {
            return false;
        };
        let pid = *held;
        match self.by_pid.get(&pid) {
            Some(holder) => holder.number == number,
            None => false,
        }
    }
}

impl Query {
    /// The answer to an `Ask`.
    fn answer(self) -> RegistryAnswer
        ensures { result ≡ answer_of self }
    {
        match self {
            Query::Unstarted | Query::Running => RegistryAnswer::No,
            Query::Canceled => RegistryAnswer::Yes,
        }
    }

    /// The query after a cancel. A cancel before any start does nothing.
    fn canceled(self) -> Query
        ensures { result ≡ canceled self }
    {
        match self {
            Query::Unstarted => Query::Unstarted,
            Query::Running | Query::Canceled => Query::Canceled,
        }
    }
}
