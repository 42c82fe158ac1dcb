//! What the parameters of queries stand for, or why they stand for no interval.

ghost use Rattle.std.specs.Prelude.{IfErr};
ghost use Rattle.std.specs.Option.{option_copied};
ghost use Rattle.pg_results.specs.Rows.{IsAnswerableItem};
ghost use Rattle.pg_results.specs.Told.{IsOutcome};
ghost use Rattle.styles.specs.Reading.{interval_given};

use interval_texts::read_in_format;
use pg_interval::Interval;
use pg_messages::PgBytes;
use pg_portal::PgWireError;
use pg_text::FieldFormat;
use row_handlers::user_error;
use std::alloc::Global;

/// The interval that a parameter stands for: by its text, or by its sixteen bytes where its format
/// is binary. A null stands for none.
#[tactic(auto, using(crate::proofs::Sendable::no_interval_answerable))]
pub(crate) fn read_parameter(
    alloc: Global,
    format: Option<FieldFormat>,
    value: Option<&Option<PgBytes>>,
) -> Result<Interval, PgWireError>
    ensures outcome { IsOutcome (interval_given format (option_copied value.entry)) result }
    ensures answerable { IfErr result IsAnswerableItem }
{
    match value {
        Some(Some(bytes)) => read_in_format(alloc, format, bytes.as_slice()),
        Some(None) | None => Err(user_error(alloc, "22004", "there is no interval for $1")?),
    }
}
