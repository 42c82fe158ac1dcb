//! The messages that a command asks of the session.

ghost use Rattle.std.specs.Prelude.{◌≡◌, IfOk};
ghost use Rattle.cursor_commands.specs.Asking.{parsing, binding, closing, describing, executing};
ghost use Rattle.cursor_commands.specs.Cursors.{messages_of};

use crate::command::CursorCommand;
use pg_messages::{
    Bind, Close, Describe, Execute, Parse, PgList, PgStr, PgSync, PgWireFrontendMessage,
    TARGET_TYPE_BYTE_PORTAL, TARGET_TYPE_BYTE_STATEMENT,
};
use std::alloc::{AllocError, Global};
use std::collections::VecDeque;

/// The messages that a command asks of the session, in turn.
pub fn command_messages(
    alloc: Global,
    command: &CursorCommand,
) -> Result<VecDeque<PgWireFrontendMessage>, AllocError>
    ensures { IfOk result (λ messages. messages.items ≡ messages_of command.now) }
{
    let mut messages = VecDeque::with_capacity(alloc, 4)?;
    match command {
        CursorCommand::Declare(name, relation) => {
            messages.push_back(parsing(alloc, relation)?)?;
            messages.push_back(binding(alloc, name)?)?;
            messages.push_back(closing(TARGET_TYPE_BYTE_STATEMENT, PgStr::copy_of(alloc, "")?))?;
        }
        CursorCommand::Fetch(limit, name) => {
            messages.push_back(describing(copy_of(alloc, name)?))?;
            messages.push_back(executing(copy_of(alloc, name)?, *limit))?;
        }
        CursorCommand::Close(name) => {
            messages.push_back(closing(TARGET_TYPE_BYTE_PORTAL, copy_of(alloc, name)?))?;
        }
    }
    messages.push_back(PgWireFrontendMessage::PgSync(PgSync {}))?;
    Ok(messages)
}

/// A copy of a name.
fn copy_of(alloc: Global, name: &PgStr) -> Result<PgStr, AllocError>
    ensures { IfOk result (λ copy. copy ≡ name.now) }
{
    PgStr::copy_of(alloc, name.as_str())
}

/// Parse of the unnamed statement, without oids.
fn parsing(alloc: Global, query: &PgStr) -> Result<PgWireFrontendMessage, AllocError>
    ensures { IfOk result (λ message. message ≡ parsing query.now) }
{
    Ok(PgWireFrontendMessage::Parse(Parse {
        name: PgStr::copy_of(alloc, "")?,
        query: copy_of(alloc, query)?,
        type_oids: PgList::new(alloc),
    }))
}

/// Bind of a portal to the unnamed statement, without codes and values.
fn binding(alloc: Global, portal: &PgStr) -> Result<PgWireFrontendMessage, AllocError>
    ensures { IfOk result (λ message. message ≡ binding portal.now) }
{
    Ok(PgWireFrontendMessage::Bind(Bind {
        portal_name: copy_of(alloc, portal)?,
        statement_name: PgStr::copy_of(alloc, "")?,
        parameter_format_codes: PgList::new(alloc),
        parameters: PgList::new(alloc),
        result_column_format_codes: PgList::new(alloc),
    }))
}

/// Close of a statement or a portal.
fn closing(target_type: u8, name: PgStr) -> PgWireFrontendMessage
    ensures { result ≡ closing target_type name }
{
    PgWireFrontendMessage::Close(Close { target_type, name })
}

/// Describe of a portal.
fn describing(name: PgStr) -> PgWireFrontendMessage
    ensures { result ≡ describing 80 name }
{
    PgWireFrontendMessage::Describe(Describe {
        target_type: TARGET_TYPE_BYTE_PORTAL,
        name,
    })
}

/// Execute of a portal, with a limit of rows.
fn executing(name: PgStr, max_rows: i32) -> PgWireFrontendMessage
    ensures { result ≡ executing name max_rows }
{
    PgWireFrontendMessage::Execute(Execute { name, max_rows })
}
