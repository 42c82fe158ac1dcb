//! What the counter's sheet answers: its number.

use crate::rows::row_of;
use pg_messages::{PgBytes, PgList};
use pg_portal::{FieldInfo, Format, ListRows, PgWireError};
use pg_text::PgType;
use row_handlers::{RowAnswers, one_row, put_column, user_error};
use std::alloc::{AllocError, Global};

/// What a query means.
#[derive(Clone, Copy, Debug, PartialEq, Eq)]
pub enum CounterStatement {
    /// `NEXT`: the number.
    Next,
}

/// The simple query NEXT is answered by one row, which is the number. Any other query is the error
/// 42601.
#[derive(Drop)]
pub struct CounterAnswers {
    /// The number.
    pub number: u64,
}

impl RowAnswers for CounterAnswers {
    ghost use Rattle.counter.specs.Counter.{told_counter};

    type Statement = CounterStatement;

    type Rows = ListRows;

    ghost told = { λ answers. told_counter answers.number };

    #[tactic(auto, using(crate::proofs::Sendable::refusal_answerable))]
    fn parse(
        &self,
        alloc: Global,
        query: &str,
        types: Option<&[Option<PgType>]>,
    ) -> Result<CounterStatement, PgWireError> {
        if types.is_none() && query == "NEXT" {
            return Ok(CounterStatement::Next);
        }
        Err(user_error(alloc, "42601", "the only query is NEXT, as a simple query")?)
    }

    fn parameter_types(
        &self,
        alloc: Global,
        _statement: &CounterStatement,
    ) -> Result<PgList<PgType>, AllocError> {
        Ok(PgList::new(alloc))
    }

    #[tactic(auto, using(crate::proofs::Sendable::columns_sendable))]
    fn columns(
        &self,
        alloc: Global,
        _statement: &CounterStatement,
        formats: &Format,
    ) -> Result<PgList<FieldInfo>, AllocError> {
        let mut fields = PgList::new(alloc);
        put_column(alloc, &mut fields, formats, "number", PgType::Numeric, -1)?;
        Ok(fields)
    }

    fn rows(
        &self,
        alloc: Global,
        _statement: &CounterStatement,
        _parameters: &[Option<PgBytes>],
        _parameter_format: &Format,
        _formats: &Format,
    ) -> Result<ListRows, PgWireError> {
        Ok(one_row(alloc, row_of(alloc, self.number)?)?)
    }
}
