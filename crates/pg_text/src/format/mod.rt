// The values of the options for text output: PostgreSQL's "Locale and Formatting" settings.
pub mod bytea_output;
pub mod date_style;
pub mod interval_style;
mod words;
