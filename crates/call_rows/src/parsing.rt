//! Calls of the parser that no message makes.

use crate::answers::NotedAnswers;
use crate::calls::Calls;
use pg_portal::{Format, PgWireError, QueryParser};
use row_handlers::RowParser;
use std::alloc::{AllocError, Global};

/// The calls where a parser is asked for a statement's parameters, and for its columns in a format
/// and without one. `no answer` where it gives none.
pub fn calls_of_parser(alloc: Global) -> Result<String, AllocError> {
    let calls = &Calls::new(alloc);
    let parser = RowParser {
        answers: NotedAnswers { calls },
    };
    match ask(alloc, &parser) {
        Ok(()) => Ok(calls.taken()),
        Err(_) => String::from_str(alloc, "no answer"),
    }
}

/// Asks a parser of an extended query.
fn ask(alloc: Global, parser: &RowParser<NotedAnswers<'_>>) -> Result<(), PgWireError> {
    let statement = true;
    let _types = parser.get_parameter_types(alloc, &statement)?;
    let _columns = parser.get_result_schema(alloc, &statement, Some(&Format::UnifiedBinary))?;
    let _plain = parser.get_result_schema(alloc, &statement, None)?;
    Ok(())
}
