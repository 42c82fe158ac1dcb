//! What queries mean, and what they are answered.

use crate::reading::read_parameter;
use crate::rows::row_of;
use interval_texts::read_interval;
use pg_interval::Interval;
use pg_messages::{PgBytes, PgList};
use pg_portal::{FieldInfo, Format, ListRows, PgWireError};
use pg_text::PgType;
use query_texts::trimmed;
use row_handlers::{RowAnswers, one_row, put_column};
use std::alloc::{AllocError, Global};

/// What a query means.
#[derive(Clone, Copy, Debug, PartialEq, Eq)]
pub enum StylesStatement {
    /// The interval that its text stands for.
    Interval(Interval),
    /// `$1`: the interval that the parameter stands for.
    Parameter,
}

/// A query is the text of an interval, or `$1` where it may have a parameter, without the whitespace
/// and semicolons at its ends. Any other is the error 22007, which tells the reader that refused it
/// and why.
#[derive(Drop)]
pub struct Styles;

impl RowAnswers for Styles {
    ghost use Rattle.styles.specs.Told.{told_styles};

    type Statement = StylesStatement;

    type Rows = ListRows;

    ghost told = { λ _. told_styles };

    fn parse(
        &self,
        alloc: Global,
        query: &str,
        types: Option<&[Option<PgType>]>,
    ) -> Result<StylesStatement, PgWireError> {
        let text = trimmed(query);
        if types.is_some() && text == "$1" {
            return Ok(StylesStatement::Parameter);
        }
        match read_interval(alloc, text.as_bytes()) {
            Ok(interval) => Ok(StylesStatement::Interval(interval)),
            Err(error) => Err(error),
        }
    }

    /// `$1` is an interval, whatever type a client gives it.
    fn parameter_types(
        &self,
        alloc: Global,
        statement: &StylesStatement,
    ) -> Result<PgList<PgType>, AllocError> {
        let mut types = PgList::new(alloc);
        if let StylesStatement::Parameter = statement {
            types.push(PgType::Interval)?;
        }
        Ok(types)
    }

    /// One of type text for each style, under its name.
    #[tactic(auto, using(crate::proofs::Sendable::columns_sendable))]
    fn columns(
        &self,
        alloc: Global,
        _statement: &StylesStatement,
        formats: &Format,
    ) -> Result<PgList<FieldInfo>, AllocError> {
        let mut fields = PgList::new(alloc);
        put_column(alloc, &mut fields, formats, "postgres", PgType::Text, -1)?;
        put_column(
            alloc,
            &mut fields,
            formats,
            "postgres_verbose",
            PgType::Text,
            -1,
        )?;
        put_column(alloc, &mut fields, formats, "iso_8601", PgType::Text, -1)?;
        put_column(
            alloc,
            &mut fields,
            formats,
            "sql_standard",
            PgType::Text,
            -1,
        )?;
        Ok(fields)
    }

    fn rows(
        &self,
        alloc: Global,
        statement: &StylesStatement,
        parameters: &[Option<PgBytes>],
        parameter_format: &Format,
        _formats: &Format,
    ) -> Result<ListRows, PgWireError> {
        let interval = match statement {
            StylesStatement::Interval(interval) => *interval,
            StylesStatement::Parameter => {
                read_parameter(alloc, parameter_format.format_for(0), parameters.first())?
            }
        };
        Ok(one_row(alloc, row_of(alloc, &interval)?)?)
    }
}
