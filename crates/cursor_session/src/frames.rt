//! Which frame comes, and how many of its bytes.

ghost use Rattle.std.specs.Prelude.{◌≡◌, ◌≢◌, ◌≤◌, ◌<◌, ◌++◌, ◌-◌, ◌⊎◌, ℕ, List, [], true, false, None, Some, length, take, slice_index, IfOk, IfErr, IfSome, IfNone};
ghost use Rattle.pg_messages.specs.Frames.{IsFrame, IsUnfinished, IsGoodHeader, header_len, told_len};
ghost use Rattle.pg_messages.specs.declared.frontend.PgWireFrontendMessage.{PgWireFrontendMessage};
ghost use Rattle.conversation_table.specs.Table.{is_startup_phase};
ghost use Rattle.cursor_table.specs.CursorTable.{asked_command, is_ready_phase};
ghost use Rattle.cursor_session.specs.Fronts.{BeginsNoCommand, FitsFrame};

use cursor_commands::{CursorCommand, read_cursor};
use pg_messages::{header_len, query_text, told_len, typed_len};
use pg_portal::PgWireConnectionState;
use pg_session::ServeError;
use std::alloc::Global;

/// Whether the startup packet is still awaited.
pub(crate) fn awaits_startup(state: PgWireConnectionState) -> bool
    ensures { result ≡ is_startup_phase state }
{
    matches!(state, PgWireConnectionState::AwaitingStartup)
}

/// Whether the server is ready for a query.
pub(crate) fn is_ready(state: PgWireConnectionState) -> bool
    ensures { result ≡ is_ready_phase state }
{
    matches!(state, PgWireConnectionState::ReadyForQuery)
}

/// How many of the bytes belong to the frame that they begin with: all of them where its header
/// isn't whole.
pub(crate) fn front_len(awaiting: bool, bytes: &[u8]) -> usize
    requires { 0 < length bytes.now }
    ensures some { 0 < result }
    ensures within { result ≤ length bytes.now }
    ensures fits { FitsFrame awaiting (take result bytes.now) }
{
    let header = header_len(awaiting);
    if bytes.len() <= header {
        return bytes.len();
    }
    bytes.len().min(told_len(awaiting, bytes).max(header))
}

/// How many of the next `len` bytes belong to the frame of which `held` is held.
pub(crate) fn behind_len(awaiting: bool, held: &[u8], len: usize) -> usize
    requires some { 0 < len }
    requires short { IsUnfinished awaiting held.now }
    ensures some { 0 < result }
    ensures within { result ≤ len }
    ensures fits { (bytes : List ℕ) → length bytes ≡ result
        → FitsFrame awaiting (held.now ++ bytes) }
{
    let header = header_len(awaiting);
    if held.len() < header {
        return len.min(header - held.len());
    }
    len.min(told_len(awaiting, held) - held.len())
}

/// How many bytes are to come of the frame that these bytes begin; 0 where its header is bad.
pub(crate) fn owed_by(awaiting: bool, bytes: &[u8]) -> usize
    requires { header_len awaiting ≤ length bytes.now }
    ensures { result ≡ told_len awaiting bytes.now - length bytes.now }
{
    told_len(awaiting, bytes).saturating_sub(bytes.len())
}

/// Whether the bytes, which begin no more than one frame, are held: its header isn't whole, or it
/// is a Query frame that may be a command and isn't whole.
pub(crate) fn is_short(state: PgWireConnectionState, bytes: &[u8]) -> bool
    ensures short { result ≡ true → IsUnfinished (is_startup_phase state) bytes.now }
    ensures header { result ≡ false → header_len (is_startup_phase state) ≤ length bytes.now }
    ensures query { result ≡ false → is_ready_phase state ≡ true → slice_index bytes.now 0 ≡ 81
        → IsGoodHeader false bytes.now → told_len false bytes.now ≤ length bytes.now }
{
    if bytes.len() < header_len(awaits_startup(state)) {
        return true;
    }
    is_ready(state) && is_query_begun(bytes)
}

/// Whether the bytes begin a Query frame that isn't whole, with a good header.
fn is_query_begun(bytes: &[u8]) -> bool
    requires { 5 ≤ length bytes.now }
    ensures begun { result ≡ true → IsUnfinished false bytes.now }
    ensures query { result ≡ false → slice_index bytes.now 0 ≡ 81 → IsGoodHeader false bytes.now
        → told_len false bytes.now ≤ length bytes.now }
{
    bytes[0] == b'Q' && matches!(typed_len(bytes), Ok(None))
}

/// The command that these bytes are, which begin no more than one frame and aren't short. None where
/// no command begins with them.
pub(crate) fn command_asked(
    alloc: Global,
    state: PgWireConnectionState,
    bytes: &[u8],
) -> Result<Option<CursorCommand>, ServeError>
    requires header { header_len (is_startup_phase state) ≤ length bytes.now }
    requires query { is_ready_phase state ≡ true → slice_index bytes.now 0 ≡ 81
        → IsGoodHeader false bytes.now → told_len false bytes.now ≤ length bytes.now }
    ensures some { IfOk result (λ found. IfSome found (λ command. (is_ready_phase state ≡ true)
        × ((m : PgWireFrontendMessage) × IsFrame false bytes.now m
        × (asked_command m ≡ Some command)))) }
    ensures none { IfOk result (λ found. IfNone found (BeginsNoCommand state bytes.now)) }
    ensures error { IfErr result (λ e. e ≡ ServeError.NoMemory) }
{
    if !is_ready(state) || bytes[0] != b'Q' {
        return Ok(None);
    }
    command_in(alloc, bytes)
}

/// The command that a frame is. Its text is read where it stands.
#[tactic(auto, using(crate::proofs::Heads::text_asked, crate::proofs::Heads::text_no_command))]
fn command_in(alloc: Global, frame: &[u8]) -> Result<Option<CursorCommand>, ServeError>
    ensures some { IfOk result (λ found. IfSome found (λ command. (m : PgWireFrontendMessage)
        × IsFrame false frame.now m × (asked_command m ≡ Some command))) }
    ensures none { IfOk result (λ found. IfNone found ((m : PgWireFrontendMessage)
        → IsFrame false frame.now m → asked_command m ≡ None)) }
    ensures error { IfErr result (λ e. e ≡ ServeError.NoMemory) }
{
    match query_text(frame) {
        None => Ok(None),
        Some(text) => Ok(read_cursor(alloc, text)?),
    }
}
