//! A connection that makes calls in a thread of its own.
ghost use Rattle.std.specs.Prelude.{◌≡◌, ◌<◌, IfOk};

use crate::notes::{Counts, Kind, Mix, Notes, answer_of};
use pg_cancel::{
    ConnectionHandle, ConnectionManager, Door, RegisterError, Registry, RegistryAnswer,
    RegistryCall,
};
use pg_messages::SecretKey;
use std::alloc::{AllocError, Global};
use std::sync::Wait;

/// The connection that another one cancels: its pid and its key, and a key that nobody has.
#[derive(Drop)]
struct Target {
    pid: i32,
    key: SecretKey,
    wrong: SecretKey,
}

impl Target {
    /// The connection with this pid. None where there was no memory.
    fn new(alloc: Global, pid: i32) -> Option<Target> {
        let key = key_of(alloc, pid)?;
        let wrong = SecretKey::try_new(alloc, &[0xff; 4]).ok()?;
        Some(Target { pid, key, wrong })
    }

    /// The key by which a call of this kind cancels it.
    fn key_at(&self, kind: Kind) -> &SecretKey {
        match kind {
            Kind::Miss => &self.wrong,
            _ => &self.key,
        }
    }

    /// A call of this kind, as a registry takes it.
    fn call_of(&self, kind: Kind) -> Result<RegistryCall, AllocError> {
        match kind {
            Kind::Start => Ok(RegistryCall::Start),
            Kind::Ask => Ok(RegistryCall::Ask),
            _ => Ok(RegistryCall::Cancel(self.pid, self.key_at(kind).copy_of()?)),
        }
    }
}

/// A connection with the manager that issued its handle.
#[derive(Drop)]
pub struct Worker<'a> {
    manager: &'a ConnectionManager,
    handle: ConnectionHandle,
    target: Target,
    pub notes: Notes,
    ghost issued: { handle.issuer ≡ manager.now },
}

/// The key of the connection with this pid. None where there was no memory.
fn key_of(alloc: Global, pid: i32) -> Option<SecretKey> {
    SecretKey::try_new(alloc, &pid.to_be_bytes()).ok()
}

impl<'a> Worker<'a> {
    /// The connection after `calls` calls.
    pub fn after<R: Wait>(mut self, rt: &R, mix: Mix, calls: u64) -> Worker<'a> {
        self.run(rt, mix, calls);
        self
    }

    /// Makes `calls` calls, up to the first that finds no memory.
    pub fn run<R: Wait>(&mut self, rt: &R, mix: Mix, calls: u64) {
        for call in 0..calls {
            let kind = mix.kind_of(call);
            match self.answer(rt, kind) {
                Ok(yes) => self.notes.note(kind, yes),
                Err(AllocError) => {
                    self.notes.failed = true;
                    return;
                }
            }
        }
    }

    /// Makes a call, and answers whether it was answered yes; a start counts as yes.
    fn answer<R: Wait>(&mut self, rt: &R, kind: Kind) -> Result<bool, AllocError> {
        match kind {
            Kind::Start => started(self.manager.start_query(rt, &mut self.handle)),
            Kind::Ask => self.manager.ask(rt, &mut self.handle),
            _ => self.manager.cancel(
                rt,
                &mut self.handle,
                self.target.pid,
                self.target.key_at(kind),
            ),
        }
    }

    /// Registers the connection at `beside` too, and answers whether it has the same number there.
    pub fn registers(&self, beside: &mut Registry) -> Result<bool, AllocError> {
        let number = beside.history().len() as u64;
        let call = RegistryCall::Register(self.handle.pid(), self.handle.key().copy_of()?);
        let answer = beside.apply(number, call)?;
        Ok(answer == RegistryAnswer::Registered && number == self.handle.number())
    }

    /// Makes a call, at `beside` too, and answers whether both answers are the same.
    pub fn agrees<R: Wait>(
        &mut self,
        rt: &R,
        beside: &mut Registry,
        call: u64,
    ) -> Result<bool, AllocError> {
        let kind = Mix::All.kind_of(call);
        let yes = self.answer(rt, kind)?;
        self.agrees_beside(beside, kind, answer_of(kind, yes))
    }

    /// Makes a call at `beside`, and answers whether it gets this answer there.
    #[tactic(auto, using(crate::proofs::Calls::live_may))]
    fn agrees_beside(
        &self,
        beside: &mut Registry,
        kind: Kind,
        answer: RegistryAnswer,
    ) -> Result<bool, AllocError> {
        let number = self.handle.number();
        if !beside.is_live(number) {
            return Ok(false);
        }
        let call = self.target.call_of(kind)?;
        Ok(beside.apply(number, call)? == answer)
    }

    /// Ends the registration. False where there was no memory.
    fn end<R: Wait>(self, rt: &R) -> bool {
        let Worker {
            manager,
            handle,
            target: _target,
            notes: _,
        } = self;
        manager.unregister(rt, handle).is_ok()
    }
}

/// The answer to a start.
fn started(made: Result<(), AllocError>) -> Result<bool, AllocError> {
    match made {
        Ok(()) => Ok(true),
        Err(AllocError) => Err(AllocError),
    }
}

/// `count` connections, with pids from 1 on, each of which cancels the next. None where there was no
/// memory.
pub fn workers<'a, R: Wait>(
    rt: &R,
    alloc: Global,
    manager: &'a ConnectionManager,
    door: &mut Door,
    count: u32,
) -> Option<Vec<Worker<'a>>>
    requires issued { door.old.issuer ≡ manager.now }
    ensures issued { door.new.issuer ≡ door.old.issuer }
{
    let mut all = Vec::new(alloc);
    for place in 0..count {
        let worker = worker_at(rt, alloc, manager, door, place, count)?;
        all.push(worker).ok()?;
    }
    Some(all)
}

/// The connection at a place among `count`. None where there was no memory.
fn worker_at<'a, R: Wait>(
    rt: &R,
    alloc: Global,
    manager: &'a ConnectionManager,
    door: &mut Door,
    place: u32,
    count: u32,
) -> Option<Worker<'a>>
    requires issued { door.old.issuer ≡ manager.now }
    requires within { place < count }
    ensures issued { door.new.issuer ≡ door.old.issuer }
{
    let pid = (place % 1000) as i32 + 1;
    let other = if place + 1 < count { pid + 1 } else { 1 };
    let target = Target::new(alloc, other)?;
    let Ok(handle) = registered(rt, alloc, manager, door, pid) else {
        return None;
    };
    Some(Worker {
        manager,
        handle,
        target,
        notes: Notes::none(),
    })
}

/// Registers the connection with this pid under its key.
pub fn registered<R: Wait>(
    rt: &R,
    alloc: Global,
    manager: &ConnectionManager,
    door: &mut Door,
    pid: i32,
) -> Result<ConnectionHandle, RegisterError>
    requires issued { door.old.issuer ≡ manager.now }
    ensures handle { IfOk result (λ h. h.issuer ≡ manager.now) }
    ensures issued { door.new.issuer ≡ door.old.issuer }
{
    match key_of(alloc, pid) {
        Some(own) => manager.register(rt, door, pid, own),
        None => Err(RegisterError::NoMemory),
    }
}

/// The sum of the counts. None where some call found no memory.
pub fn counts_of(all: &[Worker<'_>]) -> Option<Counts> {
    let mut sum = Counts::none();
    for worker in all {
        if worker.notes.failed {
            return None;
        }
        sum = sum.with(worker.notes.counts);
    }
    Some(sum)
}

/// Whether each thread was answered in order: once a question is answered yes, all are until the
/// next start.
pub fn are_in_order(all: &[Worker<'_>]) -> bool {
    all.iter().all(|worker| !worker.notes.wavers)
}

/// Whether no connection heard of more canceled queries than there were cancels of it that were
/// answered yes. Each connection cancels the next.
pub fn are_within_cancels(all: &[Worker<'_>]) -> bool {
    let mut hits = all.last().map_or(0, |worker| worker.notes.counts.hits);
    let mut within = true;
    for worker in all {
        within = within && worker.notes.canceled <= hits;
        hits = worker.notes.counts.hits;
    }
    within
}

/// Ends all registrations. False where some end found no memory.
pub fn end_all<R: Wait>(rt: &R, all: Vec<Worker<'_>>) -> bool {
    let mut whole = true;
    for worker in all {
        whole = worker.end(rt) && whole;
    }
    whole
}
