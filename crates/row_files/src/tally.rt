//! What is told of rows: a line for each, and their number.

ghost use Rattle.std.specs.Prelude.{◌≡◌};
ghost use Rattle.row_files.specs.Tallies.{as_expected, counted};

use crate::fault::Fault;
use std::io;

/// How many rows there were, and how many of them came out as they expect.
#[derive(Drop)]
pub struct Tally {
    rows: u64,
    good: u64,
}

impl Tally {
    /// No row so far.
    pub fn new() -> Tally
        ensures no_row { result.rows ≡ 0 }
        ensures none_good { result.good ≡ 0 }
    {
        Tally { rows: 0, good: 0 }
    }

    /// Counts a row, and prints its line: its name, and `ok` or what differs from what it expects.
    pub fn tell<'t, R: Print>(
        &mut self,
        rt: &R,
        name: &str,
        found: Result<Option<String>, Fault<'t>>,
    ) -> io::Result<()>
        ensures rows { self.new.rows ≡ counted self.old.rows 1 }
        ensures good { self.new.good ≡ counted self.old.good (as_expected found.entry) }
    {
        self.count(&found);
        match found {
            Ok(None) => println!(rt; "{name}: ok"),
            Ok(Some(difference)) => println!(rt; "{name}: {difference}"),
            Err(Fault::Line(line)) => println!(rt; "{name}: what is {line}"),
            Err(Fault::NoMemory) => println!(rt; "{name}: out of memory"),
        }
    }

    /// Counts a row.
    fn count<'t>(&mut self, found: &Result<Option<String>, Fault<'t>>)
        ensures rows { self.new.rows ≡ counted self.old.rows 1 }
        ensures good { self.new.good ≡ counted self.old.good (as_expected found.now) }
    {
        let more = match found {
            Ok(None) => 1,
            _ => 0,
        };
        self.rows = self.rows.saturating_add(1);
        self.good = self.good.saturating_add(more);
    }

    /// Prints how many rows there were.
    pub fn tell_count<R: Print>(&self, rt: &R) -> io::Result<()> {
        let Tally { rows, good } = *self;
        println!(rt; "{good} of {rows} rows are as expected")
    }
}
