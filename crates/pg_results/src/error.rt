//! Why a call of the session is refused, and what a client is told of it.

ghost use Rattle.std.specs.Prelude.{◌≡◌, ◌++◌, IfOk, IsErr};
ghost use Rattle.pg_results.specs.Errors.{info_of, error as error_info};
ghost use Rattle.pg_results.specs.declared.error.PgWireError.{PgWireError};

use itoa::Buffer;
use pg_messages::{ErrorInfo, PgStr};
use pg_types::CellError;
use std::alloc::{AllocError, Global};

/// Why a message isn't carried out.
#[derive(Drop)]
pub enum PgWireError {
    /// No statement stands under this name.
    StatementNotFound(PgStr),
    /// No portal stands under this name.
    PortalNotFound(PgStr),
    /// The target of a Describe is neither a statement nor a portal but this byte.
    InvalidTargetType(u8),
    /// The query was canceled.
    QueryCanceled,
    /// The error of a handler or a parser.
    UserError(ErrorInfo),
    /// A query came while the session wasn't ready for one.
    NotReadyForQuery,
    /// This text of an option is none of the option's values.
    InvalidOptionValue(PgStr),
    /// A portal was fetched before it was started.
    PortalNotStarted,
    /// A parameter's type, which has this name, can't be read as the value that was asked for.
    InvalidRustTypeForParameter(PgStr),
    /// There is no parameter, or no format of one, at this index.
    ParameterIndexOutOfBound(usize),
    /// A parameter's bytes stand for no value.
    FailedToParseParameter(CellError),
    /// Memory ran out.
    NoMemory,
}

impl From<AllocError> for PgWireError {
    ghost use Rattle.std.specs.Prelude.{◌≡◌};
    ghost use Rattle.pg_results.specs.declared.error.PgWireError.TheVariants.{NoMemory};

    ghost from_gives = { λ _ error. error ≡ NoMemory };

    fn from(_error: AllocError) -> PgWireError {
        PgWireError::NoMemory
    }
}

impl PgWireError {
    /// What a client is told of the error: its severity, its code and its message. `NoMemory` has
    /// no text, so it is always an error here.
    pub fn into_info(self, alloc: Global) -> Result<ErrorInfo, AllocError>
        ensures info { IfOk result (λ info. info ≡ info_of self) }
        ensures untold { self ≡ PgWireError.NoMemory → IsErr result }
    {
        match self {
            PgWireError::StatementNotFound(name) => statement_not_found(alloc, name.as_str()),
            PgWireError::PortalNotFound(name) => portal_not_found(alloc, name.as_str()),
            PgWireError::InvalidTargetType(byte) => invalid_target_type(alloc, byte),
            PgWireError::QueryCanceled => query_canceled(alloc),
            PgWireError::UserError(info) => Ok(info),
            PgWireError::NotReadyForQuery => error_of_parts(
                alloc,
                "08P01",
                "not ready for query",
                "",
                "",
            ),
            PgWireError::InvalidOptionValue(value) => invalid_option_value(alloc, value.as_str()),
            PgWireError::PortalNotStarted => error_of_parts(
                alloc,
                "XX000",
                "portal is not started",
                "",
                "",
            ),
            PgWireError::InvalidRustTypeForParameter(name) => invalid_rust_type(
                alloc,
                name.as_str(),
            ),
            PgWireError::ParameterIndexOutOfBound(index) => index_out_of_bound(alloc, index),
            PgWireError::FailedToParseParameter(_cause) => {
                error_of_parts(alloc, "XX000", "failed to parse parameter", "", "")
            }
            PgWireError::NoMemory => Err(AllocError),
        }
    }
}

/// What a client is told where no statement has the name.
fn statement_not_found(alloc: Global, name: &str) -> Result<ErrorInfo, AllocError>
    ensures { IfOk result (λ info. info ≡ info_of (PgWireError.StatementNotFound name.now)) }
{
    error_of_parts(
        alloc,
        "26000",
        "prepared statement \"",
        name,
        "\" does not exist",
    )
}

/// What a client is told where no portal has the name.
fn portal_not_found(alloc: Global, name: &str) -> Result<ErrorInfo, AllocError>
    ensures { IfOk result (λ info. info ≡ info_of (PgWireError.PortalNotFound name.now)) }
{
    error_of_parts(alloc, "34000", "portal \"", name, "\" does not exist")
}

/// What a client is told about a byte that is no target of a Describe.
fn invalid_target_type(alloc: Global, byte: u8) -> Result<ErrorInfo, AllocError>
    ensures { IfOk result (λ info. info ≡ info_of (PgWireError.InvalidTargetType byte)) }
{
    let mut digits = Buffer::new();
    error_of_parts(
        alloc,
        "08P01",
        "invalid target type: ",
        digits.format(byte),
        "",
    )
}

/// What a client is told about a canceled query.
fn query_canceled(alloc: Global) -> Result<ErrorInfo, AllocError>
    ensures { IfOk result (λ info. info ≡ info_of PgWireError.QueryCanceled) }
{
    error_of_parts(
        alloc,
        "57014",
        "canceling statement due to user request",
        "",
        "",
    )
}

/// What a client is told about an option's text that is none of its values.
fn invalid_option_value(alloc: Global, value: &str) -> Result<ErrorInfo, AllocError>
    ensures { IfOk result (λ info. info ≡ info_of (PgWireError.InvalidOptionValue value.now)) }
{
    error_of_parts(alloc, "22023", "invalid option value \"", value, "\"")
}

/// What a client is told about a type, by its name, that can't be read as the value that was asked
/// for.
fn invalid_rust_type(alloc: Global, name: &str) -> Result<ErrorInfo, AllocError>
    ensures { IfOk result (λ info. info
        ≡ info_of (PgWireError.InvalidRustTypeForParameter name.now)) }
{
    error_of_parts(
        alloc,
        "XX000",
        "type ",
        name,
        " is not accepted for the parameter",
    )
}

/// What a client is told about an index that has no parameter.
fn index_out_of_bound(alloc: Global, index: usize) -> Result<ErrorInfo, AllocError>
    ensures { IfOk result (λ info. info ≡ info_of (PgWireError.ParameterIndexOutOfBound index)) }
{
    let mut digits = Buffer::new();
    error_of_parts(
        alloc,
        "XX000",
        "parameter index ",
        digits.format(index),
        " is out of bounds",
    )
}

/// An error of severity ERROR with a code. Its message is `before`, `text` and `after`, one after
/// another.
pub fn error_of_parts(
    alloc: Global,
    code: &str,
    before: &str,
    text: &str,
    after: &str,
) -> Result<ErrorInfo, AllocError>
    ensures { IfOk result (λ info. info
        ≡ error_info code.now (before.now ++ text.now ++ after.now)) }
{
    let mut message = String::from_str(alloc, before)?;
    message.push_str(text)?;
    message.push_str(after)?;
    Ok(ErrorInfo::new(
        PgStr::copy_of(alloc, "ERROR")?,
        PgStr::copy_of(alloc, code)?,
        PgStr::copy_of(alloc, message.as_str())?,
    ))
}
