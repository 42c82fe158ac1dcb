//! Parameters, read as intervals.

use crate::fixtures::statement;
use pg_interval::Interval;
use pg_messages::{Bind, PgBytes, PgList, PgStr};
use pg_portal::{ListRows, PgWireError, Portal};
use pg_text::{CellError, PgType};
use std::alloc::{AllocError, Global};

/// Appends a null, a parameter of these bytes, and a null.
fn push_parameters(
    alloc: Global,
    parameters: &mut PgList<Option<PgBytes>>,
    bytes: &[u8],
) -> Result<(), AllocError> {
    parameters.push(None)?;
    parameters.push(Some(PgBytes::copy_of(alloc, bytes)?))?;
    parameters.push(None)
}

/// A null, a parameter of these bytes, and a null.
fn three(alloc: Global, bytes: &[u8]) -> Result<PgList<Option<PgBytes>>, AllocError> {
    let mut parameters = PgList::new(alloc);
    push_parameters(alloc, &mut parameters, bytes)?;
    Ok(parameters)
}

/// A Bind with these format codes, and with a null, a parameter of these bytes, and a null.
fn bind(alloc: Global, codes: &[i16], bytes: &[u8]) -> Result<Bind, AllocError> {
    Ok(Bind {
        portal_name: PgStr::copy_of(alloc, "")?,
        statement_name: PgStr::copy_of(alloc, "s1")?,
        parameter_format_codes: PgList::from_vec(Vec::from_slice(alloc, codes)?),
        parameters: three(alloc, bytes)?,
        result_column_format_codes: PgList::new(alloc),
    })
}

/// The portal of such a Bind.
fn portal(
    alloc: Global,
    codes: &[i16],
    bytes: &[u8],
) -> Result<Portal<PgStr, ListRows>, AllocError> {
    let bind = bind(alloc, codes, bytes)?;
    Portal::try_new(alloc, &bind, statement(alloc)?).or(Err(AllocError))
}

/// What the parameter at an index tells, in a word.
fn told(answer: &Result<Option<Interval>, PgWireError>, idx: usize) -> &'static str {
    match answer {
        Ok(Some(interval)) if *interval == Interval::new(0, 1, 0) => "a day",
        Ok(None) => "null",
        Err(PgWireError::InvalidRustTypeForParameter(name)) if name.as_str() == "int4" =>
            "not int4",
        Err(PgWireError::ParameterIndexOutOfBound(index)) if *index == idx => "past the end",
        Err(PgWireError::FailedToParseParameter(CellError::ShortCell)) => "short",
        Err(PgWireError::FailedToParseParameter(CellError::Parse(_))) => "shape",
        _ => "other",
    }
}

/// What the parameter at an index tells, in a word: of a null, these bytes and a null under these
/// format codes.
fn parameter(
    alloc: Global,
    codes: &[i16],
    bytes: &[u8],
    idx: usize,
    pg_type: PgType,
) -> Result<&'static str, AllocError> {
    let portal = portal(alloc, codes, bytes)?;
    Ok(told_by(&portal, alloc, idx, pg_type))
}

/// What the portal's parameter at an index tells, in a word.
fn told_by(
    portal: &Portal<PgStr, ListRows>,
    alloc: Global,
    idx: usize,
    pg_type: PgType,
) -> &'static str {
    told(&portal.parameter(alloc, idx, pg_type), idx)
}

#[test]
fn binary_parameters(rt: HostRuntime) {
    for (idx, pg_type, expected) in [
        (0, PgType::Interval, "null"),
        (1, PgType::Interval, "short"),
        (3, PgType::Interval, "past the end"),
        (0, PgType::Int4, "not int4"),
        (3, PgType::Int4, "not int4"),
    ] {
        assert!(rt; parameter(rt.alloc(), &[1], &[0, 0, 0, 1], idx, pg_type) == Ok(expected));
    }
}

/// Two codes are too few for the third parameter.
#[test]
fn text_parameters(rt: HostRuntime) {
    for (codes, bytes, idx, expected) in [
        ([].as_slice(), b"1 day".as_slice(), 1, "a day"),
        ([0].as_slice(), b"1 day".as_slice(), 1, "a day"),
        ([1, 0].as_slice(), b"1 day".as_slice(), 1, "a day"),
        ([1, 0].as_slice(), b"day".as_slice(), 1, "shape"),
        ([1].as_slice(), b"1 day".as_slice(), 1, "short"),
        ([0, 0].as_slice(), b"1 day".as_slice(), 2, "past the end"),
    ] {
        assert!(rt; parameter(rt.alloc(), codes, bytes, idx, PgType::Interval) == Ok(expected));
    }
}
