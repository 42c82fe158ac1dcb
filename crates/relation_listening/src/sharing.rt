//! The relations of a file, for clients to share.

ghost use Rattle.std.specs.Prelude.{◌≡◌, [], ◌∷◌, IfOk, IfErr, OnOk};
ghost use Rattle.std.specs.Arc.{arc_value};
ghost use Rattle.relation_files.specs.Files.{IsFileCause, IsToldBy};
ghost use Rattle.relation_listening.specs.Reports.{IsFileRefused};
ghost use Rattle.status_lines.specs.Counts.{CountsNeverFall};

use conversation_runs::{Sink, Source};
use relation_files::{FileError, read_relations};
use relation_handlers::RelationTable;
use status_lines::report_file;
use std::alloc::Global;
use std::sync::Arc;

/// Reads the relations of a file, for clients to share. Where they can't be read, a line goes to
/// `err`, and the error is the exit status: 3 where the file is refused, 9 where a read of it
/// failed, 7 where memory ran out, also for the line or in `err`.
pub fn shared_relations<F: Source, E: Sink>(
    alloc: Global,
    file: &mut F,
    err: &mut E,
) -> Result<Arc<RelationTable>, u8>
    ensures ok { IfOk result (λ relations. IsToldBy (F.left file.old) (F.left file.new)
        (arc_value relations)) }
    ensures silent { OnOk result (err.new ≡ err.old) }
    ensures refused { IfErr result (λ status. IsFileRefused status
        (F.left file.old) (F.left file.new) (F.faults file.old) (F.faults file.new)
        (E.written err.old) (E.written err.new) (E.faults err.old) (E.faults err.new)
        (E.refused err.old) (E.refused err.new)) }
    ensures never_falls { CountsNeverFall (F.faults file.old ∷ E.faults err.old ∷ [])
        (F.faults file.new ∷ E.faults err.new ∷ []) }
{
    match read_to_share(alloc, file) {
        Ok(relations) => Ok(relations),
        Err(error) => Err(report_file(alloc, &error, err)),
    }
}

/// Reads the relations of a file, for clients to share.
fn read_to_share<F: Source>(alloc: Global, file: &mut F) -> Result<Arc<RelationTable>, FileError>
    ensures ok { IfOk result (λ relations. IsToldBy (F.left file.old) (F.left file.new)
        (arc_value relations)) }
    ensures refused { IfErr result (λ error. IsFileCause error (F.left file.old)
        (F.left file.new) (F.faults file.old) (F.faults file.new)) }
    ensures never_falls { CountsNeverFall (F.faults file.old ∷ []) (F.faults file.new ∷ []) }
{
    let relations = read_relations(alloc, file)?;
    let Ok(shared) = Arc::new(alloc, relations) else {
        return Err(FileError::NoMemory);
    };
    Ok(shared)
}
