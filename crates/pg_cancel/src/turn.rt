//! The turn: the seat that has it has the roster. The store that gives the turn back makes one
//! event, or none.
ghost use Rattle.std.specs.Prelude.{◌≡◌, [], IfOk, OnErr};
ghost use Rattle.pg_cancel.specs.RosterTable.{HasOut, HasHappened, IsCalled, IsFree, IsHolding, MayMake, idle};

use crate::entries::{RegistryAnswer, RegistryCall};
use crate::manager::ConnectionManager;
use crate::seat::{Look, Place, Publish, Release, Take};
use std::alloc::AllocError;
use std::sync::Wait;
use std::thread;

impl ConnectionManager {
    /// Waits for the turn, and returns the place that the next entry will have. The roster of the
    /// history is the seat's then, in its slot.
    pub(crate) fn take_turn<R: Wait>(&self, rt: &R, seat: &mut Place) -> u64
        requires issued { seat.old.table_id ≡ self.now }
        requires free { IsFree seat.old.me }
        ensures same { (seat.new.table_id ≡ seat.old.table_id) × (seat.new.id ≡ seat.old.id) }
        ensures out { HasOut seat.new.me seat.old.me.0 result }
    {
        let shared = &self.table.shared;
        for _ in rt.forever() {
            let word = shared.load::<Look>(seat, 0);
            if word % 2 == 0 {
                let found = shared.compare_exchange::<Take>(seat, 0, word, word + 1);
                if found == word {
                    return word / 2;
                }
            }
            thread::yield_now();
        }
        unreachable!()
    }

    /// Makes one event, a call of the registration with this number and pid or a Register, and
    /// gives the turn back. The roster is changed in place. Where memory runs out, or the roster
    /// takes no more entries, the turn is given back with nothing done.
    pub(crate) fn make_event(
        &self,
        seat: &mut Place,
        number: u64,
        pid: i32,
        call: RegistryCall,
    ) -> Result<RegistryAnswer, AllocError>
        requires issued { seat.old.table_id ≡ self.now }
        requires turn { IsHolding seat.old.me }
        requires called { IsCalled seat.old.me number pid call }
        requires own { MayMake seat.old.me.0 number call }
        ensures same { (seat.new.table_id ≡ seat.old.table_id) × (seat.new.id ≡ seat.old.id) }
        ensures ok { IfOk result (HasHappened seat.old.me number call seat.new.me) }
        ensures err { OnErr result (seat.new.me ≡ (idle seat.old.me.0, [])) }
    {
        let roster = seat.slot_mut(&self.table.shared, 0);
        let answer = roster.apply(number, pid, call);
        let count = roster.count;
        match answer {
            Ok(answer) => {
                self.table.shared.store::<Publish>(seat, 0, count * 2);
                Ok(answer)
            }
            Err(AllocError) => {
                self.table.shared.store::<Release>(seat, 0, count * 2);
                Err(AllocError)
            }
        }
    }
}
