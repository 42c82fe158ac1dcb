/// One of the four styles of interval texts.
#[derive(Clone, Copy)]
pub enum Style {
    Postgres,
    PostgresVerbose,
    Iso8601,
    SqlStandard,
}

/// All four.
pub const STYLES: [Style; 4] = [
    Style::Postgres,
    Style::PostgresVerbose,
    Style::Iso8601,
    Style::SqlStandard,
];

/// The style's name in PostgreSQL.
pub fn name_of(style: Style) -> &'static str {
    match style {
        Style::Postgres => "postgres",
        Style::PostgresVerbose => "postgres_verbose",
        Style::Iso8601 => "iso_8601",
        Style::SqlStandard => "sql_standard",
    }
}

/// The style of this name in PostgreSQL, and `postgres` for any other word.
pub fn style_named(name: &str) -> Style {
    if name == "postgres_verbose" {
        Style::PostgresVerbose
    } else if name == "iso_8601" {
        Style::Iso8601
    } else if name == "sql_standard" {
        Style::SqlStandard
    } else {
        Style::Postgres
    }
}
