//! What queries mean, and what they ask with their parameters.

use Given::*;
use pg_interval::Interval;
use pg_messages::PgBytes;
use pg_portal::{Format, PgWireError};
use pg_text::PgType;
use shift_orders::{
    Argument, ShiftOrder, ShiftStatement, order_of, parameter_types, parse_statement,
};
use std::alloc::{AllocError, Global};
use std::test::Fail;

/// Queries, and what they mean: the arguments of a statement, or the code of an error.
const TEXTS: [(&str, &str); 37] = [
    ("BOOK ann P1D '8 hours'", "book <ann> <P1D> <8 hours>"),
    (" book\t'ann'  $1\n$2;; ", "book <ann> $1 $2"),
    ("Book'O''Neil'1:00 '2:00'", "book <O'Neil> <1:00> <2:00>"),
    ("CANCEL '''' ''", "cancel <'> <>"),
    ("cancel $1 $2", "cancel $1 $2"),
    ("SHIFTS", "shifts"),
    ("shifts of '$1'", "shifts of <$1>"),
    ("SHIFTS OF 'ann;COMMIT'", "shifts of <ann;COMMIT>"),
    ("Begin;", "begin"),
    ("COMMIT", "commit"),
    ("ROLLBACK", "rollback"),
    ("BOOK $2 $1 $3", "42P02"),
    ("CANCEL $2 'x'", "42P02"),
    ("SHIFTS OF $4", "42P02"),
    ("SHIFTS OF $0", "42P02"),
    ("SHIFTS OF $x", "42P02"),
    ("SHIFTS OF $", "42P02"),
    ("CANCEL ann $9;", "42P02"),
    ("CANCEL $a;b 1:00", "42P02"),
    ("BOOK ann $10 1;00", "42P02"),
    ("SHIFTS OF ann;COMMIT", "42601"),
    ("BOOK ann 1;00 $10", "42601"),
    ("BOOK a b c d $9", "42601"),
    ("BOOK $9 b;c", "42601"),
    ("SHIFTS 'OF' ann", "42601"),
    ("'SHIFTS'", "42601"),
    ("BOOK ann 1:00", "42601"),
    ("COMMIT it", "42601"),
    ("SHIFTS OF 'ann''", "42601"),
    ("BOOK", "42601"),
    ("BOOK ann", "42601"),
    ("BOOKS ann 1:00 2:00", "42601"),
    ("CANCEL", "42601"),
    ("CANCEL ann", "42601"),
    ("CANCEL ann 1:00 2:00", "42601"),
    ("SHIFTS OF", "42601"),
    ("SHIFTS OF ann bob", "42601"),
];

/// An argument: its text in brackets, or its number.
fn shown(alloc: Global, argument: &Argument) -> Result<String, AllocError> {
    match argument {
        Argument::Text(text) => format!(in alloc; "<{}>", text.as_str()),
        Argument::Parameter(index) => format!(in alloc; "${}", *index as u128 + 1),
    }
}

/// The code of an error.
fn code_of(alloc: Global, error: PgWireError) -> Result<String, AllocError> {
    match error {
        PgWireError::UserError(info) => String::from_str(alloc, info.code.as_str()),
        _ => String::from_str(alloc, "no memory"),
    }
}

/// A statement and its arguments.
fn told(alloc: Global, statement: &ShiftStatement) -> Result<String, AllocError> {
    match statement {
        ShiftStatement::Book {
            name,
            start,
            length,
        } => {
            let name = shown(alloc, name)?;
            let start = shown(alloc, start)?;
            let length = shown(alloc, length)?;
            format!(in alloc; "book {name} {start} {length}")
        }
        ShiftStatement::Cancel { name, start } => {
            let name = shown(alloc, name)?;
            let start = shown(alloc, start)?;
            format!(in alloc; "cancel {name} {start}")
        }
        ShiftStatement::Shifts => String::from_str(alloc, "shifts"),
        ShiftStatement::ShiftsOf { name } => {
            let name = shown(alloc, name)?;
            format!(in alloc; "shifts of {name}")
        }
        ShiftStatement::Begin => String::from_str(alloc, "begin"),
        ShiftStatement::Commit => String::from_str(alloc, "commit"),
        ShiftStatement::Rollback => String::from_str(alloc, "rollback"),
    }
}

/// What a query means, or the code of its error.
fn meaning(alloc: Global, query: &str) -> Result<String, AllocError> {
    match parse_statement(alloc, query) {
        Ok(statement) => told(alloc, &statement),
        Err(error) => code_of(alloc, error),
    }
}

#[test]
fn queries_mean_statements(rt: HostRuntime) -> Result<(), Fail> {
    for (query, wanted) in &TEXTS {
        assert_eq!(rt; meaning(rt.alloc(), query)?.as_str(), *wanted, "{query}");
    }
    Ok(())
}

/// The parameter of a query, in the format that its bytes have.
#[derive(Clone, Copy)]
enum Given {
    Text(&'static [u8]),
    Binary(&'static [u8]),
    Null,
}

/// Queries, their parameter, and what they ask with it; or the code of the error. A start and a
/// length are told in hours.
const ORDERS: [(&str, Given, &str); 16] = [
    ("BOOK ann '1 day' $1", Text(b"8 hours"), "book ann for 8"),
    (
        "BOOK ann '1 day' $1",
        Binary(b"\0\0\0\0\xd6\x93\xa4\0\0\0\0\0\0\0\0\0"),
        "book ann for 1",
    ),
    ("BOOK ann '1 day' $1", Null, "22004"),
    ("CANCEL ann $1", Text(b"9 hours"), "cancel ann at 9"),
    ("CANCEL $1 1:00", Text(b"bob"), "cancel bob at 1"),
    ("SHIFTS", Text(b""), "shifts"),
    ("SHIFTS OF $1", Text(b"bob"), "shifts of bob"),
    ("SHIFTS OF ann", Text(b""), "shifts of ann"),
    ("BEGIN", Text(b""), "begin"),
    ("COMMIT", Text(b""), "commit"),
    ("ROLLBACK", Text(b""), "rollback"),
    ("SHIFTS OF $1", Text(b""), "22023"),
    ("SHIFTS OF $1", Text(b"a\0"), "22021"),
    ("SHIFTS OF $1", Text(b"\xff"), "22021"),
    ("CANCEL $1 $2", Text(b"ann"), "42P02"),
    ("CANCEL ann $1", Text(b"soon"), "22007"),
];

/// The hours of an interval without days.
fn hours(interval: Interval) -> i64 {
    interval.microseconds / 3_600_000_000
}

/// An order, with the name that it has, and the length or the start.
fn order_told(alloc: Global, order: &ShiftOrder) -> Result<String, AllocError> {
    match order {
        ShiftOrder::Book(shift) => {
            format!(in alloc; "book {} for {}", shift.name.as_str(), hours(shift.length))
        }
        ShiftOrder::Cancel(name, start) => {
            format!(in alloc; "cancel {} at {}", name.as_str(), hours(*start))
        }
        ShiftOrder::Shifts => String::from_str(alloc, "shifts"),
        ShiftOrder::ShiftsOf(name) => format!(in alloc; "shifts of {}", name.as_str()),
        ShiftOrder::Begin => String::from_str(alloc, "begin"),
        ShiftOrder::Commit => String::from_str(alloc, "commit"),
        ShiftOrder::Rollback => String::from_str(alloc, "rollback"),
    }
}

/// The parameter, and its format.
fn parameter(alloc: Global, given: Given) -> Result<(Option<PgBytes>, Format), AllocError> {
    match given {
        Text(bytes) => Ok((Some(PgBytes::copy_of(alloc, bytes)?), Format::UnifiedText)),
        Binary(bytes) => Ok((Some(PgBytes::copy_of(alloc, bytes)?), Format::UnifiedBinary)),
        Null => Ok((None, Format::UnifiedText)),
    }
}

/// What a query asks with its parameter, or the code of its error.
fn asked(alloc: Global, query: &str, given: Given) -> Result<String, AllocError> {
    let Ok(statement) = parse_statement(alloc, query) else {
        return String::from_str(alloc, "no statement");
    };
    let (parameter, formats) = parameter(alloc, given)?;
    match order_of(alloc, &statement, &[parameter], &formats) {
        Ok(order) => order_told(alloc, &order),
        Err(error) => code_of(alloc, error),
    }
}

#[test]
fn statements_ask_with_their_parameters(rt: HostRuntime) -> Result<(), Fail> {
    for (query, given, wanted) in &ORDERS {
        assert_eq!(rt;
            asked(rt.alloc(), query, *given)?.as_str(),
            *wanted,
            "{query}"
        );
    }
    Ok(())
}

/// Queries, and the types of their parameters.
const TYPES: [(&str, &str); 4] = [
    ("BOOK $1 $2 $3", "text;interval;interval;"),
    ("CANCEL ann $1", "interval;"),
    ("SHIFTS OF $1", "text;"),
    ("SHIFTS", ""),
];

/// The types of a query's parameters.
fn types_told(alloc: Global, query: &str) -> Result<String, AllocError> {
    let Ok(statement) = parse_statement(alloc, query) else {
        return String::from_str(alloc, "no statement");
    };
    let types = parameter_types(alloc, &statement)?;
    let mut told = String::new(alloc);
    for datatype in types.as_slice() {
        told.push_str(match datatype {
            PgType::Text => "text;",
            PgType::Interval => "interval;",
            _ => "another type;",
        })?;
    }
    Ok(told)
}

#[test]
fn parameters_have_types(rt: HostRuntime) -> Result<(), Fail> {
    for (query, wanted) in &TYPES {
        assert_eq!(rt; types_told(rt.alloc(), query)?.as_str(), *wanted, "{query}");
    }
    Ok(())
}
