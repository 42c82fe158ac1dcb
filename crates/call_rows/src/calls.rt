//! The calls of a client's handlers and of its registry.

use std::alloc::{AllocError, Global};
use std::cell::Cell;

/// The names of the calls so far, in their order.
#[derive(Drop)]
pub struct Calls {
    alloc: Global,
    names: Cell<Option<String>>,
}

impl Calls {
    /// No call.
    pub fn new(alloc: Global) -> Calls {
        Calls {
            alloc,
            names: Cell::new(None),
        }
    }

    /// Notes a call. Where memory runs out, the calls before it are lost.
    pub fn note(&self, name: &str) -> Result<(), AllocError> {
        let mut names = match self.names.replace(None) {
            Some(mut names) => {
                names.push(' ')?;
                names
            }
            None => String::new(self.alloc),
        };
        names.push_str(name)?;
        self.names.set(Some(names));
        Ok(())
    }

    /// The names, with spaces between them; none are left.
    pub fn taken(&self) -> String {
        match self.names.replace(None) {
            Some(names) => names,
            None => String::new(self.alloc),
        }
    }
}
