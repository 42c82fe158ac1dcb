// An interval of PostgreSQL: a number of months, of days and of microseconds.
#![tactic(auto)]

mod integrations;
mod interval_fmt;
mod interval_norm;
mod interval_parse;
mod pg_interval;
mod pg_interval_add;
mod pg_interval_sub;

pub use interval_errors::{DecimalError, IntError, ParseError, Reason};
pub use interval_fmt::text::IntervalText;
pub use interval_norm::IntervalNorm;
pub use interval_parse::printed_texts_are_read_back;
pub use pg_interval::Interval;
