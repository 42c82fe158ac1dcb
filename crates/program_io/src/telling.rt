//! How a program writes a text or reports an end, and its exit status.

ghost use Rattle.std.specs.Prelude.{◌≡◌, [], ◌∷◌, None, IfOk, IfErr, OnOk};
ghost use Rattle.conversation_runs.specs.declared.ends.ServeError.TheVariants.{NoMemory};
ghost use Rattle.status_lines.specs.Counts.{CountsNeverFall};
ghost use Rattle.program_io.specs.Telling.{EndsBy, HasToldOfItself, IsTold, written_to};
ghost use Rattle.program_io.specs.Words.{told_text};

use crate::words::{read_words, told_word};
use conversation_runs::{ServeError, Sink};
use pg_messages::{PgList, PgStr};
use status_lines::report_conversation;
use std::env::Env;

/// Writes a text to `out`, and answers the exit status of that: 0 where all of it was written. After
/// a write that failed it is 5, and the line `write fault` goes to `err`; where `out` finds no memory
/// it is 7, and the line is `out of memory`. A line that can't be written changes no status, but
/// where `err` finds no memory it is 7.
pub fn tell<K: Sink, E: Sink>(text: &str, out: &mut K, err: &mut E) -> u8
    ensures told { IsTold text.now result (written_to K.written K.faults K.refused out.old)
        (written_to K.written K.faults K.refused out.new)
        (written_to E.written E.faults E.refused err.old)
        (written_to E.written E.faults E.refused err.new) }
    ensures never_falls { CountsNeverFall (K.faults out.old ∷ E.faults err.old ∷ [])
        (K.faults out.new ∷ E.faults err.new ∷ []) }
{
    match out.send(text.as_bytes()) {
        Ok(()) => 0,
        Err(error) => report_conversation(Err(ServeError::from(error)), err),
    }
}

/// Writes the line `out of memory` to `err`, and answers the exit status of that end, 7.
pub fn out_of_memory<E: Sink>(err: &mut E) -> u8
    ensures ended { EndsBy NoMemory result (written_to E.written E.faults E.refused err.old)
        (written_to E.written E.faults E.refused err.new) }
    ensures never_falls { CountsNeverFall (E.faults err.old ∷ []) (E.faults err.new ∷ []) }
{
    report_conversation(Err(ServeError::NoMemory), err)
}

/// The words of the command line, where they don't ask for the help or the version; then nothing was
/// written. The error is the exit status with which the program is to end. Where the only word is
/// `--help` or `--version`, that text goes to `out`, and the status is the one of [`tell`]. Where
/// there was no memory for the words, the line `out of memory` goes to `err`, and the status is 7.
pub fn words_to_obey<R: Env + AllocGlobal, K: Sink, E: Sink>(
    rt: &R,
    help: &str,
    version: &str,
    out: &mut K,
    err: &mut E,
) -> Result<PgList<PgStr>, u8>
    ensures obeyed { IfOk result (λ words. told_text words help.now version.now ≡ None) }
    ensures silent { OnOk result ((out.new ≡ out.old) × (err.new ≡ err.old)) }
    ensures ended { IfErr result (λ status. HasToldOfItself help.now version.now status
        (written_to K.written K.faults K.refused out.old)
        (written_to K.written K.faults K.refused out.new)
        (written_to E.written E.faults E.refused err.old)
        (written_to E.written E.faults E.refused err.new)) }
    ensures never_falls { CountsNeverFall (K.faults out.old ∷ E.faults err.old ∷ [])
        (K.faults out.new ∷ E.faults err.new ∷ []) }
{
    let Ok(words) = read_words(rt) else {
        return Err(out_of_memory(err));
    };
    match told_word(words.as_slice(), help, version) {
        Some(text) => Err(tell(text, out, err)),
        None => Ok(words),
    }
}
