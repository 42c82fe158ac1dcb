//! A desk that is recorded.

ghost use Rattle.std.specs.Prelude.{◌≡◌, ◌-◌, [], ◌∷◌, length};
ghost use Rattle.std.proofs.Props.{props};
ghost use Rattle.session_recording.specs.Kept.{IsEndOf};

use crate::keeping::keep_call;
use pg_client::{CancelDesk, DeskCall};
use pg_messages::SecretKey;
use std::alloc::{AllocError, Global};

/// A desk whose calls are kept, with their answers. It reserves room for a call before it makes the
/// call. Contracts see it as the desk that it was made over.
pub struct RecordingDesk<'a, D: CancelDesk> {
    /// The desk that is asked.
    pub desk: &'a mut D,
    /// Its calls since the recording began, with their answers.
    pub kept: Vec<DeskCall>,
    pub ghost recorded: { IsEndOf (D.told desk.now).calls kept.items } by { Prim.hlevel props },
}

impl<'a, D: CancelDesk> RecordingDesk<'a, D> {
    /// Records the calls of a desk from here on. It takes no memory.
    pub fn new(alloc: Global, desk: &'a mut D) -> RecordingDesk<'a, D>
        ensures same_reference { result.desk.ghost_name ≡ desk.entry.ghost_name }
        ensures desk { result.desk.now ≡ desk.old }
        ensures kept { result.kept.items ≡ [] }
    {
        RecordingDesk {
            desk,
            kept: Vec::new(alloc),
        }
    }
}

impl<'a, D: CancelDesk> CancelDesk for RecordingDesk<'a, D> {
    // what the desk tells, made over the desk itself and as many calls as it had before
    ghost told = { λ r. record {
      registration = (D.told r.desk.now).registration;
      calls = (D.told r.desk.now).calls;
      origin = r.desk.ghost_name ∷ (length (D.told r.desk.now).calls - length r.kept.items)
          ∷ (D.told r.desk.now).origin;
    } };

    fn identity(&self) -> (i32, &SecretKey) {
        self.desk.identity()
    }

    fn start(&mut self) -> Result<(), AllocError> {
        self.kept.reserve(1)?;
        self.desk.start()?;
        keep_call(&mut self.kept, DeskCall::Start);
        Ok(())
    }

    fn ask(&mut self) -> Result<bool, AllocError> {
        self.kept.reserve(1)?;
        let yes = self.desk.ask()?;
        keep_call(&mut self.kept, DeskCall::Ask(yes));
        Ok(yes)
    }

    fn cancel(&mut self, pid: i32, key: &SecretKey) -> Result<bool, AllocError> {
        self.kept.reserve(1)?;
        let named = key.copy_of()?;
        let yes = self.desk.cancel(pid, key)?;
        keep_call(&mut self.kept, DeskCall::Cancel(pid, named, yes));
        Ok(yes)
    }

    fn narrow(&mut self) -> Result<(), AllocError> {
        self.kept.reserve(1)?;
        self.desk.narrow()?;
        keep_call(&mut self.kept, DeskCall::Narrow);
        Ok(())
    }
}
