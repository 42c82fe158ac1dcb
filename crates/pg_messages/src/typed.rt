//! Messages that are read as their own type, by the type byte in front of them.

ghost use Rattle.std.specs.Prelude.{◌≡◌, ◌≤◌, ◌++◌, ◌∷◌, [], ℕ, List, false, length, take, IfOk, IfSome, IfNone, OnErr, IsErrOf};
ghost use Rattle.pg_messages.specs.Frames.{IsFrame, IsUnfinished, IsBad, IsGoodHeader, told_len};
ghost use Rattle.pg_messages.specs.Reading.{message_at, told_as, whole};
ghost use Rattle.pg_messages.specs.declared.frontend.PgWireFrontendMessage.{PgWireFrontendMessage};

use crate::codec::FrameError;
use crate::extendedquery::{Bind, Close, Describe, Execute, Parse, PgSync};
use crate::fields::{Field, whole};
use crate::headers::typed_len;
use crate::simplequery::Query;
use bytes::BytesMut;
use std::alloc::Global;

/// A message that is read as its own type, and not as a `PgWireFrontendMessage`, where its type
/// byte stands in front. These are the most frequent ones: Query, Parse, Bind, Describe, Execute,
/// Close and Sync.
pub trait TypedMessage: Field + Drop {
    // the type byte
    ghost kind: { ℕ };

    // the message, as a `PgWireFrontendMessage`
    ghost message: { Self → PgWireFrontendMessage };

    // a body after the type byte is read as this message, or as none
    ghost is_read: { (body : List ℕ)
        → message_at false kind body ≡ told_as message (whole (Self.Field.field_at body)) };
}

impl TypedMessage for Query {
    ghost use Rattle.pg_messages.specs.declared.frontend.PgWireFrontendMessage.TheVariants as client;
    ghost use Rattle.pg_messages.specs.TypedReading.{query_read};

    ghost kind = { 81 };

    ghost message = { λ m. client.Query m };

    ghost is_read = { query_read };
}

impl TypedMessage for Parse {
    ghost use Rattle.pg_messages.specs.declared.frontend.PgWireFrontendMessage.TheVariants as client;
    ghost use Rattle.pg_messages.specs.TypedReading.{parse_read};

    ghost kind = { 80 };

    ghost message = { λ m. client.Parse m };

    ghost is_read = { parse_read };
}

impl TypedMessage for Bind {
    ghost use Rattle.pg_messages.specs.declared.frontend.PgWireFrontendMessage.TheVariants as client;
    ghost use Rattle.pg_messages.specs.TypedReading.{bind_read};

    ghost kind = { 66 };

    ghost message = { λ m. client.Bind m };

    ghost is_read = { bind_read };
}

impl TypedMessage for Execute {
    ghost use Rattle.pg_messages.specs.declared.frontend.PgWireFrontendMessage.TheVariants as client;
    ghost use Rattle.pg_messages.specs.TypedReading.{execute_read};

    ghost kind = { 69 };

    ghost message = { λ m. client.Execute m };

    ghost is_read = { execute_read };
}

impl TypedMessage for Describe {
    ghost use Rattle.pg_messages.specs.declared.frontend.PgWireFrontendMessage.TheVariants as client;
    ghost use Rattle.pg_messages.specs.TypedReading.{describe_read};

    ghost kind = { 68 };

    ghost message = { λ m. client.Describe m };

    ghost is_read = { describe_read };
}

impl TypedMessage for Close {
    ghost use Rattle.pg_messages.specs.declared.frontend.PgWireFrontendMessage.TheVariants as client;
    ghost use Rattle.pg_messages.specs.TypedReading.{close_read};

    ghost kind = { 67 };

    ghost message = { λ m. client.Close m };

    ghost is_read = { close_read };
}

impl TypedMessage for PgSync {
    ghost use Rattle.pg_messages.specs.declared.frontend.PgWireFrontendMessage.TheVariants as client;
    ghost use Rattle.pg_messages.specs.TypedReading.{sync_read};

    ghost kind = { 83 };

    ghost message = { λ m. client.PgSync m };

    ghost is_read = { sync_read };
}

/// Takes the first frame off the bytes, whose type byte is this message's, as
/// `PgWireMessageServerCodec::decode` does once the startup packet has come: Byte1 type, Int32
/// length, which counts itself and not the type byte, 4 to 1,048,576, and a body (protocol, "Message
/// Formats").
///
/// None: the bytes hold neither a whole frame nor a bad header. `Bad`: a whole header has another
/// length, or a whole frame has a body that isn't this message's. After None and after an error
/// nothing has changed.
#[inline(always)]
pub fn decode_typed<M: TypedMessage>(
    alloc: Global,
    src: &mut BytesMut,
) -> Result<Option<M>, FrameError>
    requires kind { take 1 src.old.items ≡ M.kind ∷ [] }

    // What is taken is a good frame of the message.
    ensures found { IfOk result (λ answer. IfSome answer (λ m. (frame : List ℕ)
        × (src.old.items ≡ frame ++ src.new.items) × IsFrame false frame (M.message m))) }
    ensures none { IfOk result (λ answer. IfNone answer (IsUnfinished false src.old.items)) }
    ensures bad { IsErrOf result FrameError.Bad → IsBad false src.old.items }
    ensures kept { IfOk result (λ answer. IfNone answer (src.new.items ≡ src.old.items)) }
    ensures err { OnErr result (src.new.items ≡ src.old.items) }
{
    let Some(len) = typed_len(src.as_slice())? else {
        return Ok(None);
    };
    let message = message_in(alloc, src.as_slice(), len)?;
    src.advance(len);
    Ok(Some(message))
}

/// The message of the frame of this length that stands in front.
#[inline(always)]
fn message_in<M: TypedMessage>(alloc: Global, bytes: &[u8], len: usize) -> Result<M, FrameError>
    requires kind { take 1 bytes.now ≡ M.kind ∷ [] }
    requires told { len ≡ told_len false bytes.now }
    requires there { len ≤ length bytes.now }
    requires good { IsGoodHeader false bytes.now }
    ensures found { IfOk result (λ m. IsFrame false (take len bytes.now) (M.message m)) }
    ensures bad { IsErrOf result FrameError.Bad → IsBad false bytes.now }
{
    let (frame, _) = bytes.split_at(len);
    let (_, body) = frame.split_at(5);
    whole(alloc, body)
}
