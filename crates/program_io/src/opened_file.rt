//! A file, which could be opened or not.

ghost use Rattle.std.specs.Prelude.{◌≡◌, None, length};
ghost use Rattle.std.specs.Option.{option_copied};
ghost use Rattle.pg_streams.specs.Counts.{IsCountedRead};
ghost use Rattle.program_io.specs.Files.{reads_of_file, faults_of_file, IsUnopened, ReadsOn};

use conversation_runs::{Source, SourceFailed};
use pg_streams::ReaderSource;
use std::fs;
use std::fs::Files;
use std::io::Read;

/// A file that was opened, or one that could not be, whose reads all fail.
#[derive(Drop)]
pub enum OpenedFile<R: Read> {
    /// The file.
    Opened(ReaderSource<R>),
    /// How many reads failed. The count stands still at the greatest `u64`.
    Unopened(u64),
}

impl<R: Read> Source for OpenedFile<R> {
    ghost use Rattle.std.specs.Prelude.{None};
    ghost use Rattle.program_io.specs.Files.{reads_of_file, faults_of_file};

    ghost left = { λ _. None };

    ghost reads = { reads_of_file };

    ghost faults = { faults_of_file };

    fn receive(&mut self, into: &mut [u8]) -> Result<usize, SourceFailed>
        // the bytes come in the file's order, where they are known, and each read of a file that
        // could not be opened fails
        ensures read { ReadsOn R.remaining self.old self.new result into.new }
        ensures counted { IsCountedRead result (length into.old)
            (reads_of_file self.old) (reads_of_file self.new)
            (faults_of_file self.old) (faults_of_file self.new) }
    {
        match self {
            OpenedFile::Opened(file) => file.receive(into),
            OpenedFile::Unopened(faults) => {
                *faults = faults.saturating_add(1);
                Err(SourceFailed {})
            }
        }
    }
}

/// Opens the file at a path. Where there is no path, or the file can't be opened, all reads fail.
pub fn open_file<R: Files>(rt: &R, path: Option<&str>) -> OpenedFile<R::File>
    ensures reads { reads_of_file result ≡ 0 }
    ensures faults { faults_of_file result ≡ 0 }
    ensures unopened { option_copied path.entry ≡ None → IsUnopened result }
{
    let Some(path) = path else {
        return OpenedFile::Unopened(0);
    };
    match fs::open(rt, path) {
        Err(_) => OpenedFile::Unopened(0),
        Ok(reader) => OpenedFile::Opened(ReaderSource {
            reader,
            reads: 0,
            faults: 0,
        }),
    }
}
