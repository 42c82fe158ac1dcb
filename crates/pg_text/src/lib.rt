//! Cells: what a value of PostgreSQL writes into a row, as text or in binary, and how it is read
//! back.
#![tactic(auto)]

mod format;
mod from_sql;
mod from_sql_text;
mod to_sql;
mod to_sql_text;

pub use format::bytea_output::{BYTEA_OUTPUT_ESCAPE, ByteaOutput};
pub use format::date_style::{
    DATE_STYLE_DISPLAY_GERMAN, DATE_STYLE_DISPLAY_ISO, DATE_STYLE_DISPLAY_POSTGRES,
    DATE_STYLE_DISPLAY_SQL, DATE_STYLE_ORDER_DMY, DATE_STYLE_ORDER_MDY, DATE_STYLE_ORDER_YMD,
    DateStyle, DateStyleDisplayStyle, DateStyleOrder,
};
pub use format::interval_style::{
    INTERVAL_STYLE_ISO_8601, INTERVAL_STYLE_POSTGRES_VERBOSE, INTERVAL_STYLE_SQL_STANDARD,
    IntervalStyle,
};
pub use from_sql::FromSql;
pub use from_sql_text::FromSqlText;
pub use pg_types::{
    BYTEA_OUTPUT_HEX, CellError, FieldFormat, FormatOptions, INTERVAL_STYLE_POSTGRES, PgType,
};
pub use to_sql::{IsNull, ToSql};
pub use to_sql_text::ToSqlText;
