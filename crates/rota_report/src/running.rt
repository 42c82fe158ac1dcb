//! The program over a relation file.

ghost use Rattle.std.specs.Prelude.{[], ◌∷◌, Result};
ghost use Rattle.rota_words.specs.Orders.{lines, clashes, told_words};
ghost use Rattle.rota_report.specs.declared.failure.Failure.{Failure};
ghost use Rattle.rota_report.specs.Program.{HasRun, HasCarriedOut, surroundings};
ghost use Rattle.rota_report.specs.Statuses.{status_of, line_of};
ghost use Rattle.status_lines.specs.Counts.{CountsNeverFall};
ghost use Rattle.status_lines.specs.StatusLines.{IsReported};

use crate::comparing::write_comparison;
use crate::failure::Failure;
use crate::listing::write_report;
use crate::reading::{read_column, read_columns};
use crate::telling::tell;
use conversation_runs::{Sink, Source};
use pg_messages::PgStr;
use pg_text::IntervalStyle;
use rota_words::{Order, RotaWords, read_order};
use std::alloc::Global;

/// The program over a relation file. The words are an order:
///
/// - `lines FILE RELATION COLUMN START STYLE` writes the report of a rota, as
///   [`report`](crate::report) does: its steps are the intervals of the relation's column.
/// - `clashes FILE RELATION COLUMN START RELATION COLUMN START` writes the clashes of two such
///   rotas, as [`clashes`](crate::clashes) gives them: a line `i j` for each pair.
///
/// The relation file comes from `file`; this call doesn't open FILE. COLUMN is the first column of
/// that name, START a text that [`Moment::read`](crate::Moment::read) takes, STYLE one that
/// `IntervalStyle::try_from_text` takes. The text goes to `out`.
///
/// The status is 0 where the text was written; 2 where the words are no order; 3 where the file is
/// refused; 5 where a write failed; 7 where memory ran out; 9 where a read of the file failed; 20
/// where there is no such relation or column; 21 where a step leads out of the years 1 to 9999; 22
/// where the total is no interval. They are judged in this order: words, file, columns, rotas,
/// total. Each status but 0 comes with a line on `err`. A write to `err` that fails leaves the
/// status as it is; one that finds no memory makes it 7.
///
/// Nothing was written to `out` after 2, 3, 9, 20, 21 and 22; after 5 a front of the text, and
/// after 7 a front or nothing.
pub fn run_rota<F: Source, K: Sink, E: Sink>(
    alloc: Global,
    words: &[PgStr],
    file: &mut F,
    out: &mut K,
    err: &mut E,
) -> u8
    ensures ran { (answer : Result (Unit {0}) Failure) × HasRun words.now answer
        (surroundings F.left F.faults K.written K.faults file.old out.old)
        (surroundings F.left F.faults K.written K.faults file.new out.new)
        × IsReported (status_of answer) (line_of answer) result
        (E.written err.old) (E.written err.new) (E.faults err.old) (E.faults err.new)
        (E.refused err.old) (E.refused err.new) }
    ensures never_falls { CountsNeverFall
        (F.faults file.old ∷ K.faults out.old ∷ E.faults err.old ∷ [])
        (F.faults file.new ∷ K.faults out.new ∷ E.faults err.new ∷ []) }
{
    let answer = carry_out(alloc, words, file, out);
    tell(alloc, &answer, err)
}

/// Does what the words order.
fn carry_out<F: Source, K: Sink>(
    alloc: Global,
    words: &[PgStr],
    file: &mut F,
    out: &mut K,
) -> Result<(), Failure>
    ensures ran { HasRun words.now result
        (surroundings F.left F.faults K.written K.faults file.old out.old)
        (surroundings F.left F.faults K.written K.faults file.new out.new) }
    ensures never_falls { CountsNeverFall (F.faults file.old ∷ K.faults out.old ∷ [])
        (F.faults file.new ∷ K.faults out.new ∷ []) }
{
    match read_order(alloc, words) {
        None => Err(Failure::Usage),
        Some(Order::Lines(rota, style)) => list(alloc, rota, style, file, out),
        Some(Order::Clashes(first, second)) => compare(alloc, first, second, file, out),
    }
}

/// Writes the report of a rota over the file.
fn list<F: Source, K: Sink>(
    alloc: Global,
    rota: RotaWords<'_>,
    style: IntervalStyle,
    file: &mut F,
    out: &mut K,
) -> Result<(), Failure>
    ensures done { HasCarriedOut (lines (told_words rota.entry) style) result
        (surroundings F.left F.faults K.written K.faults file.old out.old)
        (surroundings F.left F.faults K.written K.faults file.new out.new) }
    ensures never_falls { CountsNeverFall (F.faults file.old ∷ K.faults out.old ∷ [])
        (F.faults file.new ∷ K.faults out.new ∷ []) }
{
    match read_column(alloc, file, rota) {
        Ok(steps) => write_report(alloc, rota, steps.as_slice(), style, out),
        Err(failure) => Err(failure),
    }
}

/// Writes the clashes of two rotas over the file.
fn compare<F: Source, K: Sink>(
    alloc: Global,
    first: RotaWords<'_>,
    second: RotaWords<'_>,
    file: &mut F,
    out: &mut K,
) -> Result<(), Failure>
    ensures done { HasCarriedOut (clashes (told_words first.entry) (told_words second.entry)) result
        (surroundings F.left F.faults K.written K.faults file.old out.old)
        (surroundings F.left F.faults K.written K.faults file.new out.new) }
    ensures never_falls { CountsNeverFall (F.faults file.old ∷ K.faults out.old ∷ [])
        (F.faults file.new ∷ K.faults out.new ∷ []) }
{
    match read_columns(alloc, file, first, second) {
        Ok((steps, others)) => write_comparison(
            alloc,
            first.start,
            steps.as_slice(),
            second.start,
            others.as_slice(),
            out,
        ),
        Err(failure) => Err(failure),
    }
}
