//! What differs from what a row expects.

use row_files::Fault;
use std::alloc::{AllocError, Global};

/// What differs.
#[derive(Clone, Copy)]
pub enum Difference {
    /// The conversation ended with this.
    End(&'static str),
    /// The replies differ from this byte on.
    Replies(usize),
    /// The registry calls differ.
    Calls,
    /// The writes have other lengths.
    Writes,
    /// A cell isn't read as the interval that it was made of.
    Cell,
}

/// What differs in the case of this number.
#[derive(Clone, Copy)]
pub struct Finding {
    pub case: usize,
    pub difference: Difference,
}

impl Finding {
    /// The finding of a case, if there is a difference.
    pub fn of(case: usize, found: Option<Difference>) -> Option<Finding> {
        match found {
            None => None,
            Some(difference) => Some(Finding { case, difference }),
        }
    }

    /// The case and what differs, as a text.
    fn told(self, alloc: Global) -> Result<String, AllocError> {
        let case = self.case;
        match self.difference {
            Difference::End(end) => format!(in alloc; "{case}: ends with {end}"),
            Difference::Replies(place) => {
                format!(in alloc; "{case}: other replies from byte {place} on")
            }
            Difference::Calls => told_of(alloc, case, "other registry calls"),
            Difference::Writes => told_of(alloc, case, "other lengths of writes"),
            Difference::Cell => told_of(alloc, case, "a cell that is read as another interval"),
        }
    }
}

fn told_of(alloc: Global, case: usize, what: &str) -> Result<String, AllocError> {
    format!(in alloc; "{case}: {what}")
}

/// A finding in words.
pub fn told_finding<'t>(alloc: Global, finding: Finding) -> Result<Option<String>, Fault<'t>> {
    Ok(Some(finding.told(alloc)?))
}
