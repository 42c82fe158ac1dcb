//! The registry of a row, at which its commands run.

ghost use Rattle.std.specs.Prelude.{◌≡◌, IfOk};

use crate::given::Sources;
use crate::sessions::{Client, Ends};
use crate::sink::Sinks;
use pg_cancel::{ConnectionHandle, ConnectionManager, Door, RegisterError};
use pg_messages::{PgStr, SecretKey};
use relation_server::{RelationTable, run};
use row_files::{Fault, parsed};
use std::alloc::{AllocError, Global};
use std::sync::Wait;

/// A registry and its door.
#[derive(Drop)]
pub struct Place {
    alloc: Global,
    manager: ConnectionManager,
    door: Door,
    ghost issued: { door.issuer ≡ manager },
}

impl Place {
    /// A registry at which nobody is registered.
    pub fn new(alloc: Global) -> Result<Place, AllocError> {
        let (manager, door) = ConnectionManager::new(alloc)?;
        Ok(Place {
            alloc,
            manager,
            door,
        })
    }

    /// Registers a pid under a key of these bytes.
    fn register<R: Wait>(
        &mut self,
        rt: &R,
        pid: i32,
        bytes: &[u8; 4],
    ) -> Result<ConnectionHandle, RegisterError>
        ensures manager { self.new.manager ≡ self.old.manager }
        ensures issued { IfOk result (λ handle. handle.issuer ≡ self.old.manager) }
    {
        let Ok(key) = SecretKey::try_new(self.alloc, bytes) else {
            return Err(RegisterError::NoMemory);
        };
        self.manager.register(rt, &mut self.door, pid, key)
    }

    /// Registers a pid, which stays.
    pub fn occupy<'t, R: Wait>(&mut self, rt: &R, digits: &'t str) -> Result<(), Fault<'t>> {
        let pid = parsed::<i32>(digits)?;
        match self.register(rt, pid, &[0; 4]) {
            Ok(_) => Ok(()),
            Err(error) => Err(fault_of(error)),
        }
    }

    /// Serves two clients in turn through one connection of the pid 7 and the key 01020304.
    pub fn serve_both<R: Wait>(
        &mut self,
        rt: &R,
        alloc: Global,
        table: &RelationTable,
        first: &mut Client,
        second: &mut Client,
    ) -> Result<Ends, RegisterError> {
        let mut handle = self.register(rt, 7, &[1, 2, 3, 4])?;
        let one = first.serve(rt, alloc, &self.manager, &mut handle, table);
        let other = second.serve(rt, alloc, &self.manager, &mut handle, table);
        Ok((one, other))
    }

    /// Runs the words, and answers the status, and whether there is a note.
    pub fn run<R: Wait>(
        &mut self,
        rt: &R,
        alloc: Global,
        words: &[PgStr],
        sources: &mut Sources,
        sinks: &mut Sinks,
    ) -> (u8, bool) {
        let (status, note) = run(
            rt,
            alloc,
            words,
            &self.manager,
            &mut self.door,
            &mut sources.file,
            &mut sources.client,
            &mut sinks.out,
            &mut sinks.err,
        );
        (status, note.is_some())
    }

    /// How many calls the registry got so far, which is the number of one more registration, under
    /// the pid 0.
    pub fn calls<'t, R: Wait>(&mut self, rt: &R) -> Result<u64, Fault<'t>> {
        match self.register(rt, 0, &[0; 4]) {
            Ok(handle) => Ok(handle.number()),
            Err(error) => Err(fault_of(error)),
        }
    }

    /// Whether somebody is registered under a pid. Afterwards it is taken in any case.
    pub fn is_taken<'t, R: Wait>(&mut self, rt: &R, digits: &'t str) -> Result<bool, Fault<'t>> {
        let pid = parsed::<i32>(digits)?;
        match self.register(rt, pid, &[0; 4]) {
            Ok(_) => Ok(false),
            Err(RegisterError::PidTaken(_)) => Ok(true),
            Err(RegisterError::NoMemory) => Err(Fault::NoMemory),
        }
    }
}

/// Why a registration has no verdict.
pub fn fault_of<'t>(error: RegisterError) -> Fault<'t> {
    match error {
        RegisterError::NoMemory => Fault::NoMemory,
        RegisterError::PidTaken(_) => Fault::Line("a pid that is live already"),
    }
}
