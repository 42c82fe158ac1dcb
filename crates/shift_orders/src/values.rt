//! What arguments stand for.

ghost use Rattle.std.specs.Prelude.{◌≡◌, IfOk, IfErr};
ghost use Rattle.pg_results.specs.Rows.{IsAnswerableItem};
ghost use Rattle.pg_results.specs.Told.{IsOutcome};
ghost use Rattle.shift_orders.specs.Orders.{bytes_told, value_at, no_parameter, no_value, name_of, name_in, name_asked, interval_asked, unreadable_name};

use crate::statement::Argument;
use interval_texts::{read_in_format, read_interval};
use pg_interval::Interval;
use pg_messages::PgBytes;
use pg_portal::{Format, PgWireError};
use row_handlers::user_error;
use shift_table::{NameError, ShiftName};
use std::alloc::{AllocError, Global};

/// The name that an argument stands for.
pub(crate) fn name_asked(
    alloc: Global,
    argument: &Argument,
    parameters: &[Option<PgBytes>],
) -> Result<ShiftName, PgWireError>
    ensures outcome { IsOutcome (name_asked argument.now parameters.now) result }
    ensures answerable { IfErr result IsAnswerableItem }
{
    match argument {
        Argument::Text(text) => name_of(alloc, text.as_str()),
        Argument::Parameter(index) => name_in(alloc, value_at(alloc, parameters, *index)?),
    }
}

/// The interval that an argument stands for.
pub(crate) fn interval_asked(
    alloc: Global,
    argument: &Argument,
    parameters: &[Option<PgBytes>],
    formats: &Format,
) -> Result<Interval, PgWireError>
    ensures outcome { IsOutcome (interval_asked argument.now parameters.now formats.now) result }
    ensures answerable { IfErr result IsAnswerableItem }
{
    match argument {
        Argument::Text(text) => read_interval(alloc, text.as_str().as_bytes()),
        Argument::Parameter(index) => {
            let bytes = value_at(alloc, parameters, *index)?;
            read_in_format(alloc, formats.format_for(*index), bytes)
        }
    }
}

/// The bytes of the parameter at an index, which is there and no null.
#[tactic(auto, using(std::proofs::lemmas::Option::slice_get_past))]
fn value_at(
    alloc: Global,
    parameters: &[Option<PgBytes>],
    index: usize,
) -> Result<&[u8], PgWireError>
    ensures outcome { IsOutcome (value_at parameters.now index) (bytes_told result) }
    ensures answerable { IfErr result IsAnswerableItem }
{
    match parameters.get(index) {
        Some(Some(bytes)) => Ok(bytes.as_slice()),
        Some(None) => Err(no_value(alloc, index)?),
        None => Err(no_parameter(alloc, index)?),
    }
}

/// The error of a parameter that isn't there. `$1` is the one at 0.
fn no_parameter(alloc: Global, index: usize) -> Result<PgWireError, AllocError>
    ensures { IfOk result (λ e. e ≡ no_parameter index) }
{
    let message = format!(in alloc; "there is no parameter ${}", index as u128 + 1)?;
    user_error(alloc, "42P02", message.as_str())
}

/// The error of a parameter that is null.
fn no_value(alloc: Global, index: usize) -> Result<PgWireError, AllocError>
    ensures { IfOk result (λ e. e ≡ no_value index) }
{
    let message = format!(in alloc; "there is no value for ${}", index as u128 + 1)?;
    user_error(alloc, "22004", message.as_str())
}

/// The name that bytes are, the same in text and in binary.
#[tactic(auto, using(pg_messages::proofs::Utf8::utf8_tests))]
fn name_in(alloc: Global, bytes: &[u8]) -> Result<ShiftName, PgWireError>
    ensures outcome { IsOutcome (name_in bytes.now) result }
    ensures answerable { IfErr result IsAnswerableItem }
{
    match str::from_utf8(bytes) {
        Ok(text) => name_of(alloc, text),
        Err(_) => unreadable_name(alloc),
    }
}

/// The name that a text is.
fn name_of(alloc: Global, text: &str) -> Result<ShiftName, PgWireError>
    ensures outcome { IsOutcome (name_of text.now) result }
    ensures answerable { IfErr result IsAnswerableItem }
{
    match ShiftName::new(alloc, text) {
        Ok(name) => Ok(name),
        Err(NameError::Length) => Err(user_error(alloc, "22023", "a name has 1 to 63 bytes")?),
        Err(NameError::ZeroByte) => unreadable_name(alloc),
        Err(NameError::NoMemory) => Err(PgWireError::NoMemory),
    }
}

/// The error of a name that isn't UTF-8, or has a zero byte.
fn unreadable_name(alloc: Global) -> Result<ShiftName, PgWireError>
    ensures outcome { IsOutcome (Err unreadable_name) result }
    ensures answerable { IfErr result IsAnswerableItem }
{
    let message = "a name is UTF-8 without zero bytes";
    Err(user_error(alloc, "22021", message)?)
}
