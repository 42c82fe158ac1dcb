//! Whether a list of entries is a legal history, by a walk over the list that knows nothing of the
//! registry's index.
use pg_cancel::{Entry, RegistryAnswer, RegistryCall};
use pg_messages::SecretKey;
use std::alloc::{AllocError, Global};

/// A registration that was not ended.
#[derive(Drop)]
struct Live {
    number: u64,
    pid: i32,
    /// The key that it has by now.
    key: SecretKey,
    started: bool,
    canceled: bool,
}

impl Live {
    /// What a start, a question or a narrow of the registration must be answered.
    fn answer(&mut self, call: &RegistryCall) -> RegistryAnswer {
        match call {
            RegistryCall::Narrow => {
                self.key.narrow();
                RegistryAnswer::Done
            }
            RegistryCall::Start => {
                self.started = true;
                self.canceled = false;
                RegistryAnswer::Done
            }
            _ if self.canceled => RegistryAnswer::Yes,
            _ => RegistryAnswer::No,
        }
    }
}

/// The registrations that were not ended so far, a few.
#[derive(Drop)]
struct Walk {
    live: Vec<Live>,
}

/// Whether each entry has the number and the answer that it must have after those before it.
pub fn is_legal(alloc: Global, history: &[Entry]) -> Result<bool, AllocError> {
    let mut walk = Walk {
        live: Vec::new(alloc),
    };
    for (place, entry) in history.iter().enumerate() {
        if !walk.may_follow(place as u64, entry)? {
            return Ok(false);
        }
    }
    Ok(true)
}

impl Walk {
    /// Whether the entry may stand at this place; it is noted.
    fn may_follow(&mut self, place: u64, entry: &Entry) -> Result<bool, AllocError> {
        if let RegistryCall::Register(pid, key) = &entry.call {
            return Ok(entry.number == place && self.register(place, *pid, key)? == entry.answer);
        }
        let Some(own) = self.live.iter().position(|one| one.number == entry.number) else {
            return Ok(false);
        };
        Ok(self.answer(own, &entry.call) == entry.answer)
    }

    fn register(
        &mut self,
        number: u64,
        pid: i32,
        key: &SecretKey,
    ) -> Result<RegistryAnswer, AllocError> {
        if let Some(holder) = self.live.iter().find(|one| one.pid == pid) {
            return Ok(RegistryAnswer::Taken(holder.number));
        }
        let key = key.copy_of()?;
        self.live.push(Live {
            number,
            pid,
            key,
            started: false,
            canceled: false,
        })?;
        Ok(RegistryAnswer::Registered)
    }

    /// What the call of the registration at the place `own` must be answered.
    fn answer(&mut self, own: usize, call: &RegistryCall) -> RegistryAnswer {
        match call {
            RegistryCall::Cancel(pid, key) => self.cancel(*pid, key),
            RegistryCall::Unregister => self.end(own),
            _ => match self.live.get_mut(own) {
                Some(one) => one.answer(call),
                None => RegistryAnswer::No,
            },
        }
    }

    /// Ends the registration at the place `own`.
    fn end(&mut self, own: usize) -> RegistryAnswer {
        if own < self.live.len() {
            let _ = self.live.swap_remove(own);
        }
        RegistryAnswer::Done
    }

    fn cancel(&mut self, pid: i32, key: &SecretKey) -> RegistryAnswer {
        for one in self.live.iter_mut() {
            if one.pid == pid && one.key.is_same(key) {
                one.canceled = one.started;
                return RegistryAnswer::Yes;
            }
        }
        RegistryAnswer::No
    }
}
