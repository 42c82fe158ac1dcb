//! The parser.

ghost use Rattle.std.specs.Prelude.{◌≡◌, IfOk};
ghost use Rattle.pg_messages.specs.Replies.{IsEncodable};
ghost use Rattle.pg_replies.specs.Replies.{row_description};
ghost use Rattle.shift_sheets.specs.Sheets.{columns_of};

use pg_messages::PgList;
use pg_portal::{ClientInfo, FieldInfo, Format, PgWireError, QueryParser};
use pg_text::PgType;
use shift_orders::{ShiftStatement, parameter_types, parse_statement};
use shift_rows::columns;
use std::alloc::{AllocError, Global};

/// The parser of queries about shifts.
#[derive(Drop)]
pub struct ShiftParser;

impl QueryParser for ShiftParser {
    ghost use Rattle.shift_sheets.specs.Sheets.{shift_parser};

    type Statement = ShiftStatement;

    ghost told = { λ _. shift_parser };

    fn parse_sql(
        &self,
        alloc: Global,
        _client: &ClientInfo,
        sql: &str,
        _types: &[Option<PgType>],
    ) -> Result<Option<ShiftStatement>, PgWireError> {
        Ok(Some(parse_statement(alloc, sql)?))
    }

    fn get_parameter_types(
        &self,
        alloc: Global,
        stmt: &ShiftStatement,
    ) -> Result<PgList<PgType>, PgWireError> {
        Ok(parameter_types(alloc, stmt)?)
    }

    /// Without formats the columns are text.
    fn get_result_schema(
        &self,
        alloc: Global,
        stmt: &ShiftStatement,
        column_format: Option<&Format>,
    ) -> Result<PgList<FieldInfo>, PgWireError> {
        match column_format {
            Some(formats) => Ok(columns_of(alloc, stmt, formats)?),
            None => Ok(columns_of(alloc, stmt, &Format::UnifiedText)?),
        }
    }
}

/// The columns of a statement's rows in these formats. They can be sent as a reply.
pub(crate) fn columns_of(
    alloc: Global,
    statement: &ShiftStatement,
    formats: &Format,
) -> Result<PgList<FieldInfo>, AllocError>
    ensures columns { IfOk result (λ fields.
        fields ≡ columns_of statement.now formats.now) }
    ensures sendable { IfOk result (λ fields. IsEncodable (row_description fields)) }
{
    match statement {
        ShiftStatement::Shifts => columns(alloc, formats),
        ShiftStatement::ShiftsOf { name: _ } => columns(alloc, formats),
        _ => Ok(PgList::new(alloc)),
    }
}
