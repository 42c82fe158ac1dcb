//! The bytes of a file, read to its end.

ghost use Rattle.std.specs.Prelude.{◌≡◌, ◌≤◌, ◌<◌, length, take, IfOk, IfErr};
ghost use Rattle.relation_files.specs.Files.{GaveAll};
ghost use Rattle.relation_files.specs.Reader.{IsReadCause};

use crate::errors::FileError;
use conversation_runs::Source;
use std::alloc::Global;

/// The most bytes that a relation file may have.
pub(crate) const FILE_LIMIT: usize = 67_108_864;

/// How many bytes a read asks for.
const READ_LEN: usize = 65_536;

/// All bytes of a file, up to its end. TooLong comes once it gave more than `FILE_LIMIT` bytes.
pub(crate) fn read_whole<F: Source>(alloc: Global, file: &mut F) -> Result<Vec<u8>, FileError>
    ensures whole { IfOk result (λ text. GaveAll (F.left file.old) (F.left file.new) text.items) }
    ensures within { IfOk result (λ text. length text.items ≤ FILE_LIMIT) }
    ensures cause { IfErr result (λ error. IsReadCause error (F.left file.old) (F.left file.new)
        (F.faults file.old) (F.faults file.new)) }
    ensures never_falls { F.faults file.old ≤ F.faults file.new }
{
    let mut buffer = [0u8; READ_LEN];
    read_by(alloc, file, &mut buffer)
}

/// All bytes of a file, which are read into a buffer and gathered.
fn read_by<F: Source>(alloc: Global, file: &mut F, buffer: &mut [u8]) -> Result<Vec<u8>, FileError>
    requires { 0 < length buffer.old }
    ensures whole { IfOk result (λ text. GaveAll (F.left file.old) (F.left file.new) text.items) }
    ensures within { IfOk result (λ text. length text.items ≤ FILE_LIMIT) }
    ensures cause { IfErr result (λ error. IsReadCause error (F.left file.old) (F.left file.new)
        (F.faults file.old) (F.faults file.new)) }
    ensures never_falls { F.faults file.old ≤ F.faults file.new }
{
    let mut text = Vec::new(alloc);
    'reads: while text.len() <= FILE_LIMIT {
        let Ok(n) = file.receive(buffer) else {
            return Err(FileError::FileFault);
        };
        if n == 0 {
            return Ok(text);
        }
        text.extend_from_slice(front_of(buffer, n))?;
    }
    Err(FileError::TooLong)
}

/// The first bytes of a buffer.
fn front_of(buffer: &[u8], n: usize) -> &[u8]
    requires { n ≤ length buffer.now }
    ensures { result.now ≡ take n buffer.now }
{
    &buffer[..n]
}
