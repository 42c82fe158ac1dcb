//! The parser of sample queries.

ghost use Rattle.std.specs.Prelude.{◌≡◌, IfOk};

use crate::columns::columns_of;
use crate::errors::not_known;
use crate::meaning::{SampleStatement, meaning};
use pg_messages::PgList;
use pg_portal::{ClientInfo, FieldInfo, Format, PgWireError, QueryParser};
use pg_text::PgType;
use std::alloc::Global;

/// What queries mean; any that isn't known is the error 42601.
#[derive(Drop)]
pub struct SampleParser;

impl QueryParser for SampleParser {
    ghost use Rattle.sample_handlers.specs.Told.{told_parser};

    type Statement = SampleStatement;

    ghost told = { λ _. told_parser };

    fn parse_sql(
        &self,
        alloc: Global,
        _client: &ClientInfo,
        sql: &str,
        _types: &[Option<PgType>],
    ) -> Result<Option<SampleStatement>, PgWireError> {
        match meaning(sql) {
            Some(statement) => Ok(Some(statement)),
            None => Err(not_known(alloc)?),
        }
    }

    /// There are none.
    fn get_parameter_types(
        &self,
        alloc: Global,
        _stmt: &SampleStatement,
    ) -> Result<PgList<PgType>, PgWireError> {
        Ok(PgList::new(alloc))
    }

    /// Without formats the columns are text.
    fn get_result_schema(
        &self,
        alloc: Global,
        stmt: &SampleStatement,
        column_format: Option<&Format>,
    ) -> Result<PgList<FieldInfo>, PgWireError> {
        match column_format {
            Some(formats) => Ok(columns_of(alloc, *stmt, formats)?),
            None => Ok(columns_of(alloc, *stmt, &Format::UnifiedText)?),
        }
    }
}
