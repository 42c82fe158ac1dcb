//! Chunks, and how long a reply is.

ghost use Rattle.std.specs.Prelude.{◌≡◌, ◌≤◌, [], length, IfOk};
ghost use Rattle.pg_messages.specs.Replies.{IsEncodable, reply_bytes};

use bytes::BytesMut;
use pg_messages::PgWireBackendMessage;
use std::alloc::{AllocError, Global};
use std::collections::VecDeque;

/// How many bytes a chunk has. After a message a session sends what waits, if it is a chunk or
/// more.
pub const CHUNK: usize = 65536;

// How many bytes the first chunk has room for at first: enough for the replies to a startup packet,
// and for short answers. It grows as it is written.
const FIRST_ROOM: usize = 512;

// The most chunks. No machine has memory for more, and the number of their bytes fits in a usize.
pub const MOST_CHUNKS: usize = 4294967296;

// The first chunk, which is empty.
pub fn first_chunk(alloc: Global) -> Result<BytesMut, AllocError>
    ensures { IfOk result (λ chunk. chunk.items ≡ []) }
{
    BytesMut::with_capacity(alloc, FIRST_ROOM)
}

// A chunk that begins with these bytes. Its room is reserved, and is touched only where it is
// written.
pub fn chunk_of(alloc: Global, bytes: &[u8]) -> Result<BytesMut, AllocError>
    ensures { IfOk result (λ chunk. chunk.items ≡ bytes.now) }
{
    let mut room = Vec::with_capacity(alloc, CHUNK)?;
    room.extend_from_slice(bytes)?;
    Ok(BytesMut::from_vec(room))
}

// A chunk that begins with these bytes: the spare one where there is one, or else a new one.
pub fn next_chunk(
    alloc: Global,
    spare: &mut Option<BytesMut>,
    bytes: &[u8],
) -> Result<BytesMut, AllocError>
    ensures { IfOk result (λ chunk. chunk.items ≡ bytes.now) }
{
    let Some(sent) = spare.take() else {
        return chunk_of(alloc, bytes);
    };
    let mut chunk = sent;
    chunk.clear();
    chunk.extend_from_slice(bytes)?;
    Ok(chunk)
}

// Frees the memory of a list of chunks, if it is empty.
pub fn settle(alloc: Global, chunks: &mut VecDeque<BytesMut>)
    ensures { chunks.new.items ≡ chunks.old.items }
{
    if chunks.is_empty() {
        *chunks = VecDeque::new(alloc);
    }
}

// At least as many bytes as the reply has. The most frequent replies are measured without a call.
#[inline(always)]
pub fn reply_len(message: &PgWireBackendMessage) -> u64
    requires { IsEncodable message.now }
    ensures { length (reply_bytes message.now) ≤ result }
{
    match message {
        PgWireBackendMessage::DataRow(row) => row.payload.len() as u64 + 7,
        PgWireBackendMessage::CopyData(copied) => copied.payload.len() as u64 + 5,
        _ => message.body_len() + 5,
    }
}
