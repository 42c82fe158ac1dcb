//! The codec: takes a client's frames off a buffer, and appends replies to one.

ghost use Rattle.std.specs.Prelude.{◌≡◌, ◌≤◌, ◌+◌, ◌++◌, ◌∷◌, ℕ, List, true, length, IfOk, OnOk, OnErr, IfSome, IfNone, MatchOption, IsErrOf};
ghost use Rattle.pg_messages.specs.Frames.{IsFrame, IsUnfinished, IsBad, context_after};
ghost use Rattle.pg_messages.specs.Fields.{count32, int16};
ghost use Rattle.pg_messages.specs.Replies.{IsEncodable, reply_bytes};
ghost use Rattle.pg_messages.specs.declared.backend.PgWireBackendMessage.TheVariants as server;
ghost use Rattle.pg_messages.specs.declared.codec.ProtocolVersion.TheVariants.{PROTOCOL3_0};

use crate::backend::{PgWireBackendMessage, is_one_byte, put_body, type_byte};
use crate::copy::CopyData;
use crate::data::DataRow;
use crate::frames::first_frame;
use crate::frontend::PgWireFrontendMessage;
use crate::startup::{PROTOCOL_3_0, PROTOCOL_3_2};
use bytes::BytesMut;
use std::alloc::{AllocError, Global};

/// A version of the protocol that the server supports.
#[derive(Clone, Copy, Debug, PartialEq, Eq)]
pub enum ProtocolVersion {
    /// Code 196608.
    PROTOCOL3_0,
    /// Code 196610.
    PROTOCOL3_2,
}

/// What the reading of a frame depends on.
#[derive(Clone, Copy, Debug)]
pub struct DecodeContext {
    /// Whether the startup packet is still to come, so that frames have no type byte.
    pub awaiting_startup: bool,
    /// The version that the startup packet asked for.
    pub protocol: ProtocolVersion,
}

/// Why no frame was taken.
#[derive(Clone, Copy, Debug, PartialEq, Eq)]
pub enum FrameError {
    /// The bytes begin with a header or a frame that no message has.
    Bad,
    /// Memory ran out.
    NoMemory,
}

impl From<AllocError> for FrameError {
    ghost use Rattle.std.specs.Prelude.{◌≡◌};
    ghost use Rattle.pg_messages.specs.declared.codec.FrameError.TheVariants.{NoMemory};

    ghost from_gives = { λ _ e. e ≡ NoMemory };

    fn from(_e: AllocError) -> FrameError {
        FrameError::NoMemory
    }
}

/// Reads the frames of a client and writes the replies to it.
#[derive(Drop)]
pub struct PgWireMessageServerCodec {
    /// What the reading of the next frame depends on.
    pub context: DecodeContext,
}

impl PgWireMessageServerCodec {
    /// A codec that awaits a startup packet of version 3.0.
    pub fn new() -> PgWireMessageServerCodec
        ensures awaiting { result.context.awaiting_startup ≡ true }
        ensures protocol { result.context.protocol ≡ PROTOCOL3_0 }
    {
        PgWireMessageServerCodec {
            context: DecodeContext {
                awaiting_startup: true,
                protocol: ProtocolVersion::PROTOCOL3_0,
            },
        }
    }

    /// Takes the first frame off the bytes, and returns its message. While the startup packet is
    /// awaited a frame is Int32 length, which counts itself, 8 to 10,000, and a body; afterwards
    /// Byte1 type, Int32 length, which counts itself and not the type byte, 4 to 1,048,576, and a
    /// body (protocol, "Message Formats").
    ///
    /// None: the bytes hold neither a whole frame nor a bad header. `Bad`: a whole header has
    /// another length or an unknown type byte, or a whole frame has a body that no message has.
    /// After None and after an error nothing has changed. A startup packet ends the startup phase
    /// and sets the version.
    pub fn decode(
        &mut self,
        alloc: Global,
        src: &mut BytesMut,
    ) -> Result<Option<PgWireFrontendMessage>, FrameError>
        // What is taken is a good frame of the message.
        ensures found { IfOk result (λ answer. IfSome answer (λ m. (frame : List ℕ)
            × (src.old.items ≡ frame ++ src.new.items)
            × IsFrame self.old.context.awaiting_startup frame m)) }
        ensures none { IfOk result (λ answer. IfNone answer
            (IsUnfinished self.old.context.awaiting_startup src.old.items)) }
        ensures bad { IsErrOf result FrameError.Bad
            → IsBad self.old.context.awaiting_startup src.old.items }

        // Only a startup packet changes the context.
        ensures context { IfOk result (λ answer. MatchOption answer (self.new ≡ self.old)
            (λ m. self.new.context ≡ context_after m self.old.context)) }
        ensures kept { IfOk result (λ answer. IfNone answer (src.new.items ≡ src.old.items)) }
        ensures err { OnErr result (src.new.items ≡ src.old.items) }
        ensures err_context { OnErr result (self.new ≡ self.old) }
    {
        let found = first_frame(alloc, self.context.awaiting_startup, src.as_slice())?;
        let Some((message, len)) = found else {
            return Ok(None);
        };
        src.advance(len);
        self.context = after(&message, self.context);
        Ok(Some(message))
    }

    /// Appends the bytes of a reply: Byte1 type, Int32 length, which counts itself and not the type
    /// byte, and the body (protocol, "Message Formats"). All room is reserved first. The only error
    /// is running out of memory, and the bytes are as they were then. The buffer's capacity, its
    /// bytes and its spare room together, never shrinks.
    // It is inlined into each push. Where the reply's kind is known there, the compiler picks the
    // branches.
    #[inline(always)]
    pub fn encode(
        &mut self,
        item: &PgWireBackendMessage,
        dst: &mut BytesMut,
    ) -> Result<(), AllocError>
        requires { IsEncodable item.now }
        ensures ok { OnOk result (dst.new.items ≡ dst.old.items ++ reply_bytes item.now) }
        ensures err { OnErr result (dst.new.items ≡ dst.old.items) }
        ensures room { length dst.old.items + dst.old.spare
            ≤ length dst.new.items + dst.new.spare }
        ensures context { self.new ≡ self.old }
    {
        match item {
            PgWireBackendMessage::DataRow(row) => return put_row(row, dst),
            PgWireBackendMessage::CopyData(copied) => return put_copied(copied, dst),
            _ => {}
        }
        if is_one_byte(item) {
            dst.reserve(1)?;
            dst.extend_reserved(&[type_byte(item)]);
            return Ok(());
        }
        let len = item.body_len() as usize;
        dst.reserve(len + 5)?;
        dst.extend_reserved(&[type_byte(item)]);
        dst.extend_reserved(&(len as u32 + 4).to_be_bytes());
        put_body(item, dst);
        Ok(())
    }
}

/// Appends the bytes of a DataRow, as `encode` does for the reply: Byte1 `D`, Int32 length, Int16
/// count of cells, and the cells as they are. Most replies are rows, so this call reserves all room
/// at once and looks for no other kind of reply. The only error is running out of memory, and the
/// bytes are as they were then. The buffer's capacity, its bytes and its spare room together, never
/// shrinks.
#[inline(always)]
pub fn put_row(row: &DataRow, dst: &mut BytesMut) -> Result<(), AllocError>
    requires { IsEncodable (server.DataRow row.now) }
    ensures ok { OnOk result
        (dst.new.items ≡ dst.old.items ++ reply_bytes (server.DataRow row.now)) }
    ensures err { OnErr result (dst.new.items ≡ dst.old.items) }
    ensures room { length dst.old.items + dst.old.spare
        ≤ length dst.new.items + dst.new.spare }
{
    let cells = row.payload.as_slice();
    let head = row_head(row);
    dst.reserve(cells.len() + 7)?;
    dst.extend_reserved(&head);
    dst.extend_reserved(cells);
    Ok(())
}

// Type byte, length and count.
#[inline(always)]
fn row_head(row: &DataRow) -> [u8; 7]
    requires { length row.now.payload ≤ 1073741823 }
    ensures { result
        ≡ 68 ∷ count32 (length row.now.payload + 6) ++ int16 row.now.field_count }
{
    let [a, b, c, d] = (row.payload.len() as u32 + 6).to_be_bytes();
    let [e, f] = row.field_count.to_be_bytes();
    [b'D', a, b, c, d, e, f]
}

/// Appends the bytes of a CopyData, as `encode` does for the reply: Byte1 `d`, Int32 length, and
/// the data as they are. A COPY sends as many of them as a query sends rows, so this call reserves
/// all room at once and looks for no other kind of reply. The only error is running out of memory,
/// and the bytes are as they were then. The buffer's capacity, its bytes and its spare room
/// together, never shrinks.
#[inline(always)]
pub fn put_copied(copied: &CopyData, dst: &mut BytesMut) -> Result<(), AllocError>
    requires { IsEncodable (server.CopyData copied.now) }
    ensures ok { OnOk result
        (dst.new.items ≡ dst.old.items ++ reply_bytes (server.CopyData copied.now)) }
    ensures err { OnErr result (dst.new.items ≡ dst.old.items) }
    ensures room { length dst.old.items + dst.old.spare
        ≤ length dst.new.items + dst.new.spare }
{
    let bytes = copied.payload.as_slice();
    let [a, b, c, d] = (bytes.len() as u32 + 4).to_be_bytes();
    dst.reserve(bytes.len() + 5)?;
    dst.extend_reserved(&[b'd', a, b, c, d]);
    dst.extend_reserved(bytes);
    Ok(())
}

fn after(message: &PgWireFrontendMessage, context: DecodeContext) -> DecodeContext
    ensures { result ≡ context_after message.now context }
{
    let PgWireFrontendMessage::Startup(startup) = message else {
        return context;
    };
    let protocol = match startup.code {
        PROTOCOL_3_0 => ProtocolVersion::PROTOCOL3_0,
        PROTOCOL_3_2 => ProtocolVersion::PROTOCOL3_2,
        _ => context.protocol,
    };
    DecodeContext {
        awaiting_startup: false,
        protocol,
    }
}
