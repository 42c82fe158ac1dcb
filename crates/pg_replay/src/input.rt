//! The recording on the input.

ghost use Rattle.std.specs.Prelude.{◌≡◌, ◌≤◌, ◌<◌, length, take, IfOk, IfErr};
ghost use Rattle.relation_files.specs.Files.{GaveAll};
ghost use Rattle.pg_replay.specs.Program.{IsInputCause};

use crate::outcome::Outcome;
use conversation_runs::Source;
use std::alloc::Global;

/// The most bytes that a recording may have on the input.
pub(crate) const INPUT_LIMIT: usize = 536_871_936;

/// How many bytes a read asks for.
const READ_LEN: usize = 65_536;

/// All bytes of the input, up to its end. BadRecording comes once it gave more than `INPUT_LIMIT`
/// bytes, ReadFault where a read failed, NoMemory where memory ran out.
pub(crate) fn read_input<S: Source>(alloc: Global, input: &mut S) -> Result<Vec<u8>, Outcome>
    ensures whole { IfOk result (λ text. GaveAll (S.left input.old) (S.left input.new) text.items) }
    ensures within { IfOk result (λ text. length text.items ≤ INPUT_LIMIT) }
    ensures cause { IfErr result (λ outcome. IsInputCause outcome (S.left input.old)
        (S.left input.new) (S.faults input.old) (S.faults input.new)) }
    ensures never_falls { S.faults input.old ≤ S.faults input.new }
{
    let mut buffer = [0u8; READ_LEN];
    read_by(alloc, input, &mut buffer)
}

/// All bytes of the input, which are read into a buffer and gathered.
fn read_by<S: Source>(alloc: Global, input: &mut S, buffer: &mut [u8]) -> Result<Vec<u8>, Outcome>
    requires { 0 < length buffer.old }
    ensures whole { IfOk result (λ text. GaveAll (S.left input.old) (S.left input.new) text.items) }
    ensures within { IfOk result (λ text. length text.items ≤ INPUT_LIMIT) }
    ensures cause { IfErr result (λ outcome. IsInputCause outcome (S.left input.old)
        (S.left input.new) (S.faults input.old) (S.faults input.new)) }
    ensures never_falls { S.faults input.old ≤ S.faults input.new }
{
    let mut text = Vec::new(alloc);
    'reads: while text.len() <= INPUT_LIMIT {
        let Ok(n) = input.receive(buffer) else {
            return Err(Outcome::ReadFault);
        };
        if n == 0 {
            return Ok(text);
        }
        if text.extend_from_slice(front_of(buffer, n)).is_err() {
            return Err(Outcome::NoMemory);
        }
    }
    Err(Outcome::BadRecording)
}

/// The first bytes of a buffer.
fn front_of(buffer: &[u8], n: usize) -> &[u8]
    requires { n ≤ length buffer.now }
    ensures { result.now ≡ take n buffer.now }
{
    &buffer[..n]
}
