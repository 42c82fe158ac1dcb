//! The table of a relation file.

ghost use Rattle.std.specs.Prelude.{◌≡◌, ◌≤◌, ◌<◌, ◌^◌, ℕ, List, None, IfOk, IfErr, length};
ghost use Rattle.relation_handlers.specs.Tables.{IsValid};
ghost use Rattle.relation_files.specs.Lines.{lines_of};
ghost use Rattle.relation_files.specs.Told.{relations_of};
ghost use Rattle.relation_files.specs.Refusal.{first_bad_line};
ghost use Rattle.relation_files.specs.Files.{IsFileCause, IsToldBy};
ghost use Rattle.relation_files.specs.Reader.{IsRefusedFor};

use crate::errors::FileError;
use crate::lines::without_return;
use crate::reader::Reader;
use crate::reading::{FILE_LIMIT, read_whole};
use conversation_runs::Source;
use pg_messages::PgList;
use relation_handlers::{RelationTable, TableError};
use relation_tables::Relation;
use std::alloc::Global;

/// Reads a relation file into its table. The file is read to its end before a line is judged.
///
/// The bytes are lines that end with `\n`, which the last may lack; one `\r` at the end of a line
/// is dropped. An empty line ends a relation. The first line after it, or of the file, that isn't
/// empty is a header: fields split by tabs, which are a name, the number of unready polls in
/// decimal, and the names of the columns. The lines behind a header are rows, with an interval in
/// the style `postgres` for each column.
///
/// BadLine tells the first line that breaks a rule, and which; TooLong comes where the file gave
/// more than 67,108,864 bytes, FileFault where a read failed, NoMemory where memory ran out.
pub fn read_relations<F: Source>(alloc: Global, file: &mut F) -> Result<RelationTable, FileError>
    // The table is told by the whole text of the file, in which no line breaks a rule.
    ensures ok { IfOk result (λ table. IsToldBy (F.left file.old) (F.left file.new) table) }
    // BadLine has the first bad line of the whole text; TooLong comes only where too many bytes were
    // taken, and FileFault only where the count of faults rose.
    ensures refused { IfErr result (λ error. IsFileCause error (F.left file.old) (F.left file.new)
        (F.faults file.old) (F.faults file.new)) }
    ensures never_falls { F.faults file.old ≤ F.faults file.new }
{
    let text = read_whole(alloc, file)?;
    let relations = relations_in(alloc, text.as_slice())?;
    table_of(alloc, relations)
}

/// The relations that a text tells.
fn relations_in(alloc: Global, text: &[u8]) -> Result<PgList<Relation>, FileError>
    requires { length text.now ≤ FILE_LIMIT }
    ensures told { IfOk result (λ relations. relations ≡ relations_of (lines_of text.now)) }
    ensures good { IfOk result (λ _. first_bad_line (lines_of text.now) ≡ None) }
    ensures refused { IfErr result (λ error. IsRefusedFor error
        (first_bad_line (lines_of text.now))) }
{
    let mut reader = Reader::new(alloc);
    let mut number: u64 = 0;
    for line in text.split(|byte| *byte == b'\n') {
        number += 1;
        if let Err(error) = reader.take(alloc, without_return(line)) {
            return Err(error.at(number));
        }
    }
    Ok(reader.finish()?)
}

/// The table of relations that keep the rules.
fn table_of(alloc: Global, relations: PgList<Relation>) -> Result<RelationTable, FileError>
    requires few { length relations < 2 ^ 32 }
    requires valid { IsValid relations }
    ensures ok { IfOk result (λ table. table ≡ relations) }
    ensures memory { IfErr result (λ error. error ≡ FileError.NoMemory) }
{
    match RelationTable::try_new(alloc, relations) {
        Ok(table) => Ok(table),
        Err(TableError::NoMemory) => Err(FileError::NoMemory),
        Err(_) => unreachable!(),
    }
}
