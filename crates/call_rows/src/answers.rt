//! Answers that note what they are asked.

use crate::calls::Calls;
use pg_messages::{PgBytes, PgList};
use pg_portal::{FieldInfo, Format, ListRows, PgWireError};
use pg_text::PgType;
use row_handlers::RowAnswers;
use std::alloc::{AllocError, Global};

/// Each query is answered by no row of no column. Each call is noted.
#[derive(Drop)]
pub struct NotedAnswers<'c> {
    /// Where calls are noted.
    pub calls: &'c Calls,
}

impl<'c> RowAnswers for NotedAnswers<'c> {
    ghost use Rattle.call_rows.specs.Noted.{noted_answers};

    /// Whether the query is an extended one.
    type Statement = bool;

    type Rows = ListRows;

    ghost told = { λ _. noted_answers };

    fn parse(
        &self,
        _alloc: Global,
        _query: &str,
        types: Option<&[Option<PgType>]>,
    ) -> Result<bool, PgWireError> {
        self.calls.note("parse")?;
        Ok(types.is_some())
    }

    fn parameter_types(
        &self,
        alloc: Global,
        _statement: &bool,
    ) -> Result<PgList<PgType>, AllocError> {
        self.calls.note("types")?;
        Ok(PgList::new(alloc))
    }

    fn columns(
        &self,
        alloc: Global,
        _statement: &bool,
        _formats: &Format,
    ) -> Result<PgList<FieldInfo>, AllocError> {
        self.calls.note("columns")?;
        Ok(PgList::new(alloc))
    }

    fn rows(
        &self,
        alloc: Global,
        _statement: &bool,
        _parameters: &[Option<PgBytes>],
        _parameter_format: &Format,
        _formats: &Format,
    ) -> Result<ListRows, PgWireError> {
        self.calls.note("rows")?;
        Ok(ListRows::new(PgList::new(alloc)))
    }
}
