//! A registry that notes its calls.

use crate::calls::Calls;
use pg_handlers::{CancelDesk, ScriptDesk};
use pg_messages::SecretKey;
use std::alloc::AllocError;

/// A registry that answers from a list. Each call is noted.
#[derive(Drop)]
pub struct NotedDesk<'c> {
    /// The registry.
    pub desk: ScriptDesk,
    /// Where calls are noted.
    pub calls: &'c Calls,
}

impl<'c> CancelDesk for NotedDesk<'c> {
    ghost use Rattle.pg_client.specs.Script.{script_told};

    ghost told = { λ d. script_told d.desk };

    fn identity(&self) -> (i32, &SecretKey) {
        self.desk.identity()
    }

    fn start(&mut self) -> Result<(), AllocError> {
        self.calls.note("start")?;
        self.desk.start()
    }

    fn ask(&mut self) -> Result<bool, AllocError> {
        self.calls.note("ask")?;
        self.desk.ask()
    }

    fn cancel(&mut self, pid: i32, key: &SecretKey) -> Result<bool, AllocError> {
        self.calls.note("cancel")?;
        self.desk.cancel(pid, key)
    }

    fn narrow(&mut self) -> Result<(), AllocError> {
        self.calls.note("narrow")?;
        self.desk.narrow()
    }
}
