//! A call of the registry and its answer, as a line.

ghost use Rattle.std.specs.Prelude.{◌≡◌, IfOk};

use pg_cancel::{ConnectionHandle, ConnectionManager, Door, RegisterError};
use pg_messages::{KeyError, SecretKey};
use std::alloc::{AllocError, AllocFailed, Global};
use std::io;
use std::sync::Wait;

/// A key of the story.
#[derive(Clone, Copy)]
pub enum Key {
    /// The first connection's.
    First,
    /// Another key, for the first connection's pid.
    Other,
    /// The second connection's.
    Second,
    /// One that nobody has.
    Zero,
    /// One that begins as the first.
    Long,
}

impl Key {
    /// Its bytes.
    fn bytes(self) -> &'static [u8] {
        match self {
            Key::First => &[1, 2, 3, 4],
            Key::Other => &[5, 6, 7, 8],
            Key::Second => &[10, 11, 12, 13],
            Key::Zero => &[0, 0, 0, 0],
            Key::Long => &[1, 2, 3, 4, 5, 6, 7, 8],
        }
    }

    /// Their hexadecimal digits.
    fn digits(self) -> &'static str {
        match self {
            Key::First => "01020304",
            Key::Other => "05060708",
            Key::Second => "0a0b0c0d",
            Key::Zero => "00000000",
            Key::Long => "0102030405060708",
        }
    }

    /// The key, in memory of its own.
    fn secret(self, alloc: Global) -> Result<SecretKey, AllocError> {
        match SecretKey::try_new(alloc, self.bytes()) {
            Ok(key) => Ok(key),
            Err(_) => Err(AllocError),
        }
    }
}

/// A call of a connection.
#[derive(Clone, Copy)]
pub enum Call {
    /// The start of a query.
    Start,
    /// A question.
    Ask,
    /// A cancel of the connection with this pid and key.
    Cancel(i32, Key),
    /// A narrow.
    Narrow,
}

/// Why the story is broken off.
#[derive(Clone, Copy)]
pub enum Stop {
    /// A call found no memory twice.
    NoMemory,
    /// A line wasn't printed.
    Output,
    /// A registration was refused that has to succeed, or the other way round.
    OtherAnswer,
}

impl From<AllocError> for Stop {
    fn from(_error: AllocError) -> Stop {
        Stop::NoMemory
    }
}

impl<T: Drop> From<AllocFailed<T>> for Stop {
    fn from(_error: AllocFailed<T>) -> Stop {
        Stop::NoMemory
    }
}

impl From<io::Error> for Stop {
    fn from(_error: io::Error) -> Stop {
        Stop::Output
    }
}

/// Tells that a call found no memory.
fn no_memory<R: Print>(rt: &R) {
    let _told = println!(rt; "no memory");
}

/// The answer to a call that is no question.
fn done(made: Result<(), AllocError>) -> Result<bool, AllocError> {
    match made {
        Ok(()) => Ok(true),
        Err(AllocError) => Err(AllocError),
    }
}

/// The word for an answer.
fn word(yes: bool) -> &'static str {
    if yes { "yes" } else { "no" }
}

/// Registers once.
fn register_once<R: Wait>(
    rt: &R,
    alloc: Global,
    manager: &ConnectionManager,
    door: &mut Door,
    pid: i32,
    key: Key,
) -> Result<ConnectionHandle, RegisterError>
    requires issued { door.old.issuer ≡ manager.now }
    ensures issued { door.new.issuer ≡ manager.now }
    ensures handle { IfOk result (λ h. h.issuer ≡ manager.now) }
{
    let Ok(secret) = key.secret(alloc) else {
        return Err(RegisterError::NoMemory);
    };
    manager.register(rt, door, pid, secret)
}

/// Registers, and once more where there was no memory.
fn register<R: Wait + Print>(
    rt: &R,
    alloc: Global,
    manager: &ConnectionManager,
    door: &mut Door,
    pid: i32,
    key: Key,
) -> Result<ConnectionHandle, RegisterError>
    requires issued { door.old.issuer ≡ manager.now }
    ensures issued { door.new.issuer ≡ manager.now }
    ensures handle { IfOk result (λ h. h.issuer ≡ manager.now) }
{
    match register_once(rt, alloc, manager, door, pid, key) {
        Err(RegisterError::NoMemory) => {
            no_memory(rt);
            register_once(rt, alloc, manager, door, pid, key)
        }
        answer => answer,
    }
}

/// A registration that succeeds.
pub fn registered<'a, R: Wait + Print>(
    rt: &R,
    alloc: Global,
    manager: &'a ConnectionManager,
    door: &mut Door,
    pid: i32,
    key: Key,
) -> Result<Connection<'a>, Stop>
    requires issued { door.old.issuer ≡ manager.now }
    ensures issued { door.new.issuer ≡ manager.now }
{
    match register(rt, alloc, manager, door, pid, key) {
        Ok(handle) => {
            tell_number(rt, pid, key, handle.number())?;
            Ok(Connection { manager, handle })
        }
        Err(RegisterError::NoMemory) => Err(Stop::NoMemory),
        Err(RegisterError::PidTaken(_)) => Err(Stop::OtherAnswer),
    }
}

/// Prints the number of a registration.
fn tell_number<R: Print>(rt: &R, pid: i32, key: Key, number: u64) -> io::Result<()> {
    println!(rt; "register {pid} {}: {number}", key.digits())
}

/// A registration whose pid is taken.
pub fn refused<R: Wait + Print>(
    rt: &R,
    alloc: Global,
    manager: &ConnectionManager,
    door: &mut Door,
    pid: i32,
    key: Key,
) -> Result<(), Stop>
    requires issued { door.old.issuer ≡ manager.now }
    ensures issued { door.new.issuer ≡ manager.now }
{
    let place = holder_of(register(rt, alloc, manager, door, pid, key))?;
    Ok(println!(rt; "register {pid} {}: taken by {place}", key.digits())?)
}

/// The number of the registration that has the pid.
fn holder_of(answer: Result<ConnectionHandle, RegisterError>) -> Result<u64, Stop> {
    match answer {
        Err(RegisterError::PidTaken(place)) => Ok(place),
        Err(RegisterError::NoMemory) => Err(Stop::NoMemory),
        Ok(_) => Err(Stop::OtherAnswer),
    }
}

/// A connection, with the manager that issued its handle.
#[derive(Drop)]
pub struct Connection<'a> {
    manager: &'a ConnectionManager,
    handle: ConnectionHandle,
    ghost issued: { handle.issuer ≡ manager.now },
}

impl<'a> Connection<'a> {
    /// The pid that it is registered under.
    pub fn pid(&self) -> i32 {
        self.handle.pid()
    }

    /// Makes a call, and tells its answer.
    pub fn tell<R: Wait + Print>(&mut self, rt: &R, alloc: Global, call: Call) -> Result<(), Stop> {
        let yes = self.make(rt, alloc, call)?;
        Ok(tell_call(rt, self.handle.number(), call, word(yes))?)
    }

    /// Makes a call, and once more where there was no memory.
    fn make<R: Wait + Print>(
        &mut self,
        rt: &R,
        alloc: Global,
        call: Call,
    ) -> Result<bool, AllocError> {
        match self.make_once(rt, alloc, call) {
            Ok(yes) => Ok(yes),
            Err(AllocError) => {
                no_memory(rt);
                self.make_once(rt, alloc, call)
            }
        }
    }

    /// Makes a call once.
    fn make_once<R: Wait>(
        &mut self,
        rt: &R,
        alloc: Global,
        call: Call,
    ) -> Result<bool, AllocError> {
        match call {
            Call::Start => done(self.manager.start_query(rt, &mut self.handle)),
            Call::Ask => self.manager.ask(rt, &mut self.handle),
            Call::Cancel(pid, key) => self.cancel_once(rt, alloc, pid, key),
            Call::Narrow => done(self.manager.narrow(rt, &mut self.handle)),
        }
    }

    /// Cancels once.
    fn cancel_once<R: Wait>(
        &mut self,
        rt: &R,
        alloc: Global,
        pid: i32,
        key: Key,
    ) -> Result<bool, AllocError> {
        let secret = key.secret(alloc)?;
        self.manager.cancel(rt, &mut self.handle, pid, &secret)
    }

    /// The end of a registration.
    pub fn end<R: Wait + Print>(self, rt: &R) -> Result<(), Stop> {
        let number = self.handle.number();
        if self.is_ended(rt) {
            Ok(println!(rt; "unregister {number}")?)
        } else {
            Err(Stop::NoMemory)
        }
    }

    /// Ends a registration, and tries once more where there was no memory. False where there was
    /// none again.
    fn is_ended<R: Wait + Print>(self, rt: &R) -> bool {
        let Connection { manager, handle } = self;
        match manager.unregister(rt, handle) {
            Ok(_) => true,
            Err((handle, _)) => {
                no_memory(rt);
                manager.unregister(rt, handle).is_ok()
            }
        }
    }
}

/// Prints the call of the connection with this number, and its answer.
fn tell_call<R: Print>(rt: &R, number: u64, call: Call, answer: &str) -> io::Result<()> {
    match call {
        Call::Start => println!(rt; "start {number}"),
        Call::Ask => println!(rt; "ask {number}: {answer}"),
        Call::Cancel(pid, key) => println!(rt;
            "cancel {number} of {pid} {}: {answer}",
            key.digits()
        ),
        Call::Narrow => println!(rt; "narrow {number}"),
    }
}

/// What is told of a key of these bytes.
pub fn key_of_bytes<R: Print>(rt: &R, alloc: Global, bytes: &[u8]) -> Result<(), Stop> {
    let length = bytes.len();
    let told = match SecretKey::try_new(alloc, bytes) {
        Ok(_) => println!(rt; "a key of {length} bytes"),
        Err(KeyError::BadLength(bad)) => println!(rt; "no key of {length} bytes: bad length {bad}"),
        Err(KeyError::NoMemory) => return Err(Stop::NoMemory),
    };
    Ok(told?)
}
