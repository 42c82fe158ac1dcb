ghost use Rattle.std.specs.Prelude.{◌≡◌, ◌≢◌, ◌↔◌, ℕ, List, [], ◌∷◌, length, IfOk, Err, Some, true};
ghost use Rattle.pg_cancel.specs.LegalHistory.{HasPid};
ghost use Rattle.pg_cancel.specs.declared.entries.Entry.{Entry};
ghost use Rattle.pg_cancel.specs.declared.entries.RegistryCall.{RegistryCall};
ghost use Rattle.pg_cancel.specs.declared.entries.RegistryAnswer.{RegistryAnswer};
ghost use Rattle.pg_cancel.specs.declared.manager.RegisterError.{RegisterError};
ghost use Rattle.pg_cancel.specs.Connections.{Registers, before_last, calls_of, entry, is_register};
ghost use Rattle.pg_cancel.specs.RosterTable.{Fits, IsHolding, IsDoor, IsOpening, idle};

use crate::entries::{RegistryAnswer, RegistryCall};
use crate::handle::ConnectionHandle;
use crate::roster::Roster;
use crate::seat::{Board, PassOn, Place};
use atomic_table::{Refused, Table};
use pg_messages::SecretKey;
use std::alloc::{AllocError, Global};
use std::marker::Model;
use std::sync::Wait;

/// A cancel registry that threads share by reference. Contracts see which one it is.
#[derive(Drop)]
pub struct ConnectionManager {
    pub(crate) table: Board,
}

impl Model for ConnectionManager {
    ghost use Rattle.std.specs.Prelude.{◌≡◌};
    ghost use Rattle.pg_cancel.specs.Connections.{Issuer};

    ghost Value = { Issuer };

    ghost view = { λ m. m.table.shared.table_id };

    ghost invariant = { λ m.
        (m.table.shared.table_id.words ≡ 1) × (m.table.shared.table_id.slots ≡ 1) };
}

/// The right to register. Each manager has one, which has seen every Register of the history.
#[derive(Drop)]
pub struct Door {
    seat: Place,
}

impl Model for Door {
    ghost use Rattle.pg_cancel.specs.Connections.{Witness};
    ghost use Rattle.pg_cancel.specs.RosterTable.{IsDoor};

    ghost Value = { Witness };

    ghost view = { λ d. record { issuer = d.seat.table_id; seen = d.seat.me.0.seen } };

    ghost invariant = { λ d. IsDoor d.seat.me };
}

/// Why there is no handle.
#[derive(Clone, Copy, Debug, PartialEq, Eq)]
pub enum RegisterError {
    /// The live registration at this place has the process id.
    PidTaken(u64),
    /// There was no memory, and nothing was done.
    NoMemory,
}

impl ConnectionManager {
    /// A registry with an empty history, and its door.
    pub fn new(alloc: Global) -> Result<(ConnectionManager, Door), AllocError>
        ensures issued { IfOk result (λ r. r.1.issuer ≡ r.0) }
        ensures empty { IfOk result (λ r. r.1.seen ≡ []) }
    {
        let mut slots = Vec::with_capacity(alloc, 1)?;
        slots.push_reserved(Roster::new(alloc));
        match Table::new(alloc, &[0], slots, &()) {
            Ok((table, seat)) => Ok((ConnectionManager { table }, Door { seat })),
            Err(Refused { slots: _ }) => Err(AllocError),
        }
    }

    /// Registers a connection under a process id that no live registration has. The history has a
    /// copy of the key. Waits for the turn. The call stands in the history whether the pid is taken
    /// or not.
    pub fn register<R: Wait>(
        &self,
        rt: &R,
        door: &mut Door,
        pid: i32,
        key: SecretKey,
    ) -> Result<ConnectionHandle, RegisterError>
        requires issued { door.old.issuer ≡ self.now }
        ensures issued { door.new.issuer ≡ door.old.issuer }

        // The registration, which the door and the handle have seen.
        ensures registered { IfOk result (λ h.
            Registers h.number (RegistryCall.Register pid key)
            door.old.seen door.new.seen RegistryAnswer.Registered) }
        ensures handle { IfOk result
            (λ h. (h.issuer ≡ self.now) × (h.pid ≡ pid) × (h.key ≡ key)) }
        ensures seen { IfOk result (λ h. h.seen ≡ door.new.seen) }
        ensures mine { IfOk result (λ h. h.mine
            ≡ entry h.number (RegistryCall.Register pid key) RegistryAnswer.Registered ∷ []) }
        ensures own { IfOk result (λ h. calls_of h.number h.seen ≡ h.mine) }

        // Or who has the pid: exactly the live registration that the history so far has of it.
        ensures taken { (m : ℕ) → result ≡ Err (RegisterError.PidTaken m) → (n : ℕ)
            × Registers n (RegistryCall.Register pid key)
            door.old.seen door.new.seen (RegistryAnswer.Taken m) }
        ensures exactly { result ≢ Err RegisterError.NoMemory → (m : ℕ) →
            (result ≡ Err (RegisterError.PidTaken m)) ↔ HasPid (before_last door.new.seen) m pid }
        ensures no_memory { result ≡ Err RegisterError.NoMemory → door.new ≡ door.old }
    {
        let own = match key.copy_of() {
            Ok(own) => own,
            Err(AllocError) => return Err(RegisterError::NoMemory),
        };
        match self.enter(rt, &mut door.seat, pid, RegistryCall::Register(pid, key)) {
            Ok(number) => {
                let seat = self.table.shared.split_seat::<PassOn>(&mut door.seat);
                Ok(ConnectionHandle {
                    seat,
                    number,
                    pid,
                    key: own,
                    noes: 0,
                })
            }
            Err(refusal) => Err(refusal),
        }
    }

    /// Waits for the turn and makes a Register. The seat of the door has the number then.
    fn enter<R: Wait>(
        &self,
        rt: &R,
        seat: &mut Place,
        pid: i32,
        call: RegistryCall,
    ) -> Result<u64, RegisterError>
        requires issued { seat.old.table_id ≡ self.now }
        requires door { IsDoor seat.old.me }
        requires call { is_register call ≡ true }
        ensures same { (seat.new.table_id ≡ seat.old.table_id) × (seat.new.id ≡ seat.old.id) }
        ensures ok { IfOk result (λ number. IsOpening seat.new.me number call
            × Registers number call
            seat.old.me.0.seen seat.new.me.0.seen RegistryAnswer.Registered) }
        ensures taken { (m : ℕ) → result ≡ Err (RegisterError.PidTaken m) → IsDoor seat.new.me
            × ((n : ℕ) × Registers n call
            seat.old.me.0.seen seat.new.me.0.seen (RegistryAnswer.Taken m)) }
        ensures no_memory { result ≡ Err RegisterError.NoMemory → seat.new.me ≡ seat.old.me }
    {
        let place = self.take_turn(rt, seat);
        self.admit(seat, place, pid, call)
    }

    /// Makes a Register at the place of the next entry, and returns that place, or the number of
    /// the registration that has the pid.
    fn admit(
        &self,
        seat: &mut Place,
        place: u64,
        pid: i32,
        call: RegistryCall,
    ) -> Result<u64, RegisterError>
        requires issued { seat.old.table_id ≡ self.now }
        requires turn { IsHolding seat.old.me }
        requires place { (log : List Entry) → seat.old.me.0.turn ≡ Some log → place ≡ length log }
        requires door { seat.old.me.0.is_door ≡ true }
        requires call { is_register call ≡ true }
        requires fits { (log : List Entry) → seat.old.me.0.turn ≡ Some log
            → Fits log seat.old.me.0 }
        ensures same { (seat.new.table_id ≡ seat.old.table_id) × (seat.new.id ≡ seat.old.id) }
        ensures ok { IfOk result (λ number. IsOpening seat.new.me number call
            × Registers number call
            seat.old.me.0.seen seat.new.me.0.seen RegistryAnswer.Registered) }
        ensures taken { (m : ℕ) → result ≡ Err (RegisterError.PidTaken m) → IsDoor seat.new.me
            × ((n : ℕ) × Registers n call
            seat.old.me.0.seen seat.new.me.0.seen (RegistryAnswer.Taken m)) }
        ensures no_memory { result ≡ Err RegisterError.NoMemory →
            seat.new.me ≡ (idle seat.old.me.0, []) }
    {
        match self.make_event(seat, place, pid, call) {
            Ok(answer) => match answer {
                RegistryAnswer::Registered => Ok(place),
                RegistryAnswer::Taken(holder) => Err(RegisterError::PidTaken(holder)),
                _ => unreachable!(),
            },
            Err(AllocError) => Err(RegisterError::NoMemory),
        }
    }
}
