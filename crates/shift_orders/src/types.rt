//! The types of parameters.

ghost use Rattle.std.specs.Prelude.{◌≡◌, ◌≤◌, ◌++◌, length, IfOk, OnOk};
ghost use Rattle.shift_orders.specs.Statements.{asked, parameter_types};

use crate::statement::{Argument, ShiftStatement};
use pg_messages::PgList;
use pg_text::PgType;
use std::alloc::{AllocError, Global};

/// The types of a statement's parameters, in their order: text for a name, and interval for a start
/// and a length.
pub fn parameter_types(
    alloc: Global,
    statement: &ShiftStatement,
) -> Result<PgList<PgType>, AllocError>
    ensures types { IfOk result (λ types. types ≡ parameter_types statement.now) }
    ensures few { IfOk result (λ types. length types ≤ 32767) }
{
    let mut types = PgList::new(alloc);
    match statement {
        ShiftStatement::Book {
            name,
            start,
            length,
        } => {
            push_asked(&mut types, PgType::Text, name)?;
            push_asked(&mut types, PgType::Interval, start)?;
            push_asked(&mut types, PgType::Interval, length)?;
        }
        ShiftStatement::Cancel { name, start } => {
            push_asked(&mut types, PgType::Text, name)?;
            push_asked(&mut types, PgType::Interval, start)?;
        }
        ShiftStatement::ShiftsOf { name } => push_asked(&mut types, PgType::Text, name)?,
        _ => {}
    }
    Ok(types)
}

/// Puts the type of an argument at the end, where the argument is a parameter.
fn push_asked(
    types: &mut PgList<PgType>,
    datatype: PgType,
    argument: &Argument,
) -> Result<(), AllocError>
    ensures { OnOk result (types.new ≡ types.old ++ asked datatype argument.now) }
{
    match argument {
        Argument::Text(_) => Ok(()),
        Argument::Parameter(_) => types.push(datatype),
    }
}
