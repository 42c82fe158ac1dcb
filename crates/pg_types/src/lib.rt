//! The types of values, the formats in which they are sent, the options by which they are written,
//! and the errors of writing and reading them.
#![tactic(auto)]

mod error;
mod field_format;
mod format;
mod pg_type;

pub use error::CellError;
pub use field_format::FieldFormat;
pub use format::{BYTEA_OUTPUT_HEX, FormatOptions, INTERVAL_STYLE_POSTGRES};
pub use pg_type::PgType;
