//! The parser of queries that are answered with rows.

use crate::answers::RowAnswers;
use pg_messages::PgList;
use pg_portal::{ClientInfo, FieldInfo, Format, PgWireError, QueryParser};
use pg_text::PgType;
use std::alloc::Global;

/// A parser that gives a query the statement that the answers give it.
#[derive(Drop)]
pub struct RowParser<A> {
    /// What queries are answered with.
    pub answers: A,
}

impl<A: RowAnswers> QueryParser for RowParser<A> {
    ghost use Rattle.row_handlers.specs.Told.{told_parser};

    type Statement = A::Statement;

    ghost told = { λ parser. told_parser (A.told parser.answers) };

    fn parse_sql(
        &self,
        alloc: Global,
        _client: &ClientInfo,
        sql: &str,
        types: &[Option<PgType>],
    ) -> Result<Option<A::Statement>, PgWireError> {
        Ok(Some(self.answers.parse(alloc, sql, Some(types))?))
    }

    fn get_parameter_types(
        &self,
        alloc: Global,
        stmt: &A::Statement,
    ) -> Result<PgList<PgType>, PgWireError> {
        Ok(self.answers.parameter_types(alloc, stmt)?)
    }

    /// Without formats the columns are text.
    fn get_result_schema(
        &self,
        alloc: Global,
        stmt: &A::Statement,
        column_format: Option<&Format>,
    ) -> Result<PgList<FieldInfo>, PgWireError> {
        match column_format {
            Some(formats) => Ok(self.answers.columns(alloc, stmt, formats)?),
            None => Ok(self.answers.columns(alloc, stmt, &Format::UnifiedText)?),
        }
    }
}
