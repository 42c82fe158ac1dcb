//! The registry as it stands now, without the history that led there.
ghost use Rattle.std.specs.Prelude.{◌≤◌, ◌^◌, [], IfOk, OnErr};
ghost use Rattle.pg_cancel.specs.Index.{IsRosterOf, IsSameRoster, EntersAny, MayAsk};

use crate::entries::{Entry, RegistryAnswer, RegistryCall};
use crate::history::entry_number;
use crate::holders::Holders;
use std::alloc::{AllocError, Global};

/// The most entries of a history. Its roster takes no more.
const MOST_ENTRIES: u64 = 288_230_376_151_711_744;

/// The live registrations, how many entries the history has, and the last one. The other entries
/// aren't stored.
#[derive(Drop)]
pub struct Roster {
    pub holders: Holders,
    pub count: u64,
    pub last: Option<Entry>,
}

impl Roster {
    /// The roster of the empty history.
    pub fn new(alloc: Global) -> Roster
        ensures { IsRosterOf [] result }
    {
        Roster {
            holders: Holders::new(alloc),
            count: 0,
            last: None,
        }
    }

    /// Answers a call of the registration with this number and pid, and keeps its entry as the last
    /// one. A Register needs no registration, and is entered under its own place. After an error
    /// the roster is as before. An error comes where memory runs out, and where the history has
    /// 2^58 entries.
    pub fn apply(
        &mut self,
        number: u64,
        pid: i32,
        call: RegistryCall,
    ) -> Result<RegistryAnswer, AllocError>
        requires { MayAsk self.old.holders pid call }
        ensures ok { IfOk result (EntersAny self.old number pid call self.new) }
        ensures few { self.old.count ≤ 2 ^ 58 → self.new.count ≤ 2 ^ 58 }
        ensures err { OnErr result (IsSameRoster self.old self.new) }
    {
        if self.count >= MOST_ENTRIES {
            return Err(AllocError);
        }
        let place = self.count;
        let answer = self.holders.answer(place, pid, &call)?;
        let number = entry_number(place, number, &call);
        self.count = place + 1;
        self.last = Some(Entry {
            number,
            call,
            answer,
        });
        Ok(answer)
    }
}
