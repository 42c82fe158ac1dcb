// Reading an interval's text in the four styles in which PostgreSQL prints one.
ghost use Rattle.std.specs.Prelude.{◌≡◌, Ok};
ghost use Rattle.pg_interval.specs.Cell.{IsInterval};
ghost use Rattle.pg_interval.specs.Printed.{printed};
ghost use Rattle.pg_interval.specs.Reading.{Iso8601, Postgres, PostgresVerbose, SqlStandard, reading};
ghost use Rattle.pg_interval.specs.declared.pg_interval.Interval.{Interval};

mod front;
mod iso_8601;
mod iso_front;
mod number;
mod parts;
mod postgres;
mod sql;
mod sql_front;
mod texts;
mod totals;

/// A law: what a style prints, its reader reads back as the same interval, whatever the interval.
/// The function does nothing: its contract is the law.
pub fn printed_texts_are_read_back()
    ensures postgres { (i : Interval) → IsInterval i
        → reading Postgres (printed Postgres i) ≡ Ok i }
    ensures verbose { (i : Interval) → IsInterval i
        → reading PostgresVerbose (printed PostgresVerbose i) ≡ Ok i }
    ensures iso { (i : Interval) → IsInterval i → reading Iso8601 (printed Iso8601 i) ≡ Ok i }
    ensures sql { (i : Interval) → IsInterval i
        → reading SqlStandard (printed SqlStandard i) ≡ Ok i }
{}
