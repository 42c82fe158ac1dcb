//! A folder that keeps the recordings of clients, a file each.

ghost use Rattle.std.specs.Prelude.{◌≡◌, IfOk, IfErr, string_bytes};
ghost use Rattle.std.specs.Arc.{arc_value};
ghost use Rattle.recorded_clients.specs.Names.{file_of, part_of};
ghost use Rattle.recorded_clients.specs.Unkept.{unkept_of};
ghost use Rattle.recording_text.specs.Text.{recording_text};

use crate::keeper::Keeper;
use crate::unkept::Unkept;
use pg_messages::PgBytes;
use recording_text::{Recording, write_recording};
use session_recording::RecordError;
use std::alloc::{AllocError, Global};
use std::fs::{self, File, Files};
use std::io::{self, Eprint, Write};
use std::sync::Arc;
use std::sync::atomic::{AtomicU8, Ordering};

/// A keeper that writes the recording of the client PID to the file PID.rec of a folder. The file is
/// made under another name first, PID.rec.part, so that a file of the first name is whole. One that
/// stood there before is replaced.
///
/// Each recording that isn't kept is told by a line on standard error, as `recording 7: too long`.
/// The exit status of the first of them that has one ([`Unkept::status`]) is noted.
#[derive(Drop)]
pub struct FolderKeeper<R> {
    /// What reaches files and standard error.
    pub rt: R,
    /// The path of the folder.
    pub folder: Arc<String>,
    noted: Arc<AtomicU8>,
}

impl<R: Drop> FolderKeeper<R> {
    /// A keeper that has kept nothing yet. The only error is want of memory.
    pub fn new(alloc: Global, rt: R, folder: &str) -> Result<FolderKeeper<R>, AllocError>
        ensures { IfOk result (λ keeper. string_bytes (arc_value keeper.folder) ≡ folder.now) }
    {
        let mut path = String::new(alloc);
        path.push_str(folder)?;
        Ok(FolderKeeper {
            rt,
            folder: Arc::new(alloc, path)?,
            noted: Arc::new(alloc, AtomicU8::new(0))?,
        })
    }

    /// The exit status of the first recording that wasn't kept and that has one, or 0.
    pub fn status(&self) -> u8 {
        self.noted.load(Ordering::SeqCst)
    }

    /// Notes an exit status, unless another is noted.
    fn note(&self, status: u8) {
        let _noted = self
            .noted
            .compare_exchange(0, status, Ordering::SeqCst, Ordering::SeqCst);
    }
}

impl<R: Files + Eprint + AllocGlobal + Copy + Drop> Keeper for FolderKeeper<R> {
    fn keep(&self, pid: i32, made: Result<Recording, RecordError>) {
        if let Err(unkept) = self.write(pid, made) {
            let reason = unkept.text();
            let _told = eprintln!(self.rt; "recording {pid}: {reason}");
            self.note(unkept.status());
        }
    }

    fn share(&self) -> Result<FolderKeeper<R>, AllocError> {
        Ok(FolderKeeper {
            rt: self.rt,
            folder: Arc::try_clone(&self.folder)?,
            noted: Arc::try_clone(&self.noted)?,
        })
    }
}

impl<R: Files + AllocGlobal> FolderKeeper<R> {
    /// Writes the recording to its file, where there is one.
    fn write(&self, pid: i32, made: Result<Recording, RecordError>) -> Result<(), Unkept> {
        let alloc = self.rt.alloc();
        let text = text_of(alloc, made?)?;
        let file = file_of(alloc, self.folder.as_str(), pid)?;
        let part = part_of(alloc, file.as_str())?;
        match write_file(&self.rt, part.as_str(), file.as_str(), text.as_slice()) {
            Ok(()) => Ok(()),
            Err(_) => {
                let _removed = fs::remove_file(&self.rt, part.as_str());
                Err(Unkept::WriteFault)
            }
        }
    }
}

/// The text of a recording, whose own memory is given back. A recording of 2^32 calls or more has no
/// text, and counts as want of memory.
fn text_of(alloc: Global, recording: Recording) -> Result<PgBytes, AllocError>
    ensures { IfOk result (λ text. text ≡ recording_text recording) }
{
    if recording.calls.len() > u32::MAX as usize {
        return Err(AllocError);
    }
    write_recording(alloc, &recording)
}

/// FOLDER/PID.rec, the file of a client's recording.
fn file_of(alloc: Global, folder: &str, pid: i32) -> Result<String, AllocError>
    ensures { IfOk result (λ file. string_bytes file ≡ file_of folder.now pid) }
{
    let file = format!(in alloc; "{folder}/{pid}.rec")?;
    Ok(file)
}

/// The name under which a file is made.
fn part_of(alloc: Global, file: &str) -> Result<String, AllocError>
    ensures { IfOk result (λ part. string_bytes part ≡ part_of file.now) }
{
    let part = format!(in alloc; "{file}.part")?;
    Ok(part)
}

/// Writes a text to a file under one name, and then gives the file another.
fn write_file<R: Files>(rt: &R, part: &str, file: &str, text: &[u8]) -> io::Result<()> {
    let mut made = File::create(rt, part)?;
    made.write_all(text)?;
    drop(made);
    fs::rename(rt, part, file)
}

fn may_be_sent<T: Send>() {}

/// A keeper may be sent to another thread where what it reaches files by may be.
pub fn keepers_cross_threads<R: Send>() {
    may_be_sent::<FolderKeeper<R>>();
}
