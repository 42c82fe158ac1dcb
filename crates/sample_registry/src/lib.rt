//! A registry that tests share with the jobs of their connections, and its door.
#![tactic(auto)]

ghost use Rattle.std.specs.Prelude.{◌≡◌, [], ◌∷◌, IfSome};
ghost use Rattle.std.specs.Arc.{arc_value};
ghost use Rattle.pg_cancel.specs.Connections.{entry};
ghost use Rattle.pg_cancel.specs.declared.entries.RegistryAnswer.{RegistryAnswer};
ghost use Rattle.pg_cancel.specs.declared.entries.RegistryCall.{RegistryCall};

use pg_cancel::{ConnectionHandle, ConnectionManager, Door};
use pg_messages::SecretKey;
use std::alloc::Global;
use std::sync::{Arc, Wait};

/// The key of each registration.
const KEY: [u8; 4] = [1, 2, 3, 4];

/// A registry that is shared, and its door.
#[derive(Drop)]
pub struct Registry {
    /// Where its keys take their memory.
    pub alloc: Global,
    /// The registry.
    pub manager: Arc<ConnectionManager>,
    /// Its door.
    pub door: Door,
    pub ghost issued: { door.issuer ≡ arc_value manager },
}

impl Registry {
    /// A registry at which nobody is registered. None comes where memory ran out.
    pub fn new(alloc: Global) -> Option<Registry> {
        let (manager, door) = ConnectionManager::new(alloc).ok()?;
        let manager = Arc::new(alloc, manager).ok()?;
        Some(Registry {
            alloc,
            manager,
            door,
        })
    }

    /// A key with the bytes 1, 2, 3 and 4, which each of its connections has. None comes where
    /// memory ran out.
    pub fn key(&self) -> Option<SecretKey> {
        SecretKey::try_new(self.alloc, &KEY).ok()
    }

    /// The connection of a pid, which has made no call but its Register. None comes where the pid is
    /// taken or memory ran out.
    pub fn register<R: Wait>(&mut self, rt: &R, pid: i32) -> Option<ConnectionHandle>
        ensures manager { self.new.manager ≡ self.old.manager }
        ensures issued { IfSome result (λ handle. handle.issuer ≡ arc_value self.old.manager) }
        ensures mine { IfSome result (λ handle. handle.mine ≡ entry handle.number
            (RegistryCall.Register handle.pid handle.key) RegistryAnswer.Registered ∷ []) }
    {
        let key = self.key()?;
        self.manager.register(rt, &mut self.door, pid, key).ok()
    }

    /// Whether nobody has a pid. Afterwards a connection is registered under it.
    pub fn is_free<R: Wait>(&mut self, rt: &R, pid: i32) -> bool {
        self.register(rt, pid).is_some()
    }
}
