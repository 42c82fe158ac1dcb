//! The outbox, which contracts see as its bytes.

ghost use Rattle.std.specs.Prelude.{◌≡◌, ◌≤◌, ◌<◌, ◌++◌, ℕ, List, [], length, take, drop, IfOk, OnOk, OnErr, IfSome, IfNone, OnSome};
ghost use Rattle.pg_messages.specs.Replies.{IsEncodable, reply_bytes};
ghost use Rattle.pg_messages.specs.declared.backend.PgWireBackendMessage.TheVariants as server;

use crate::chunk::{CHUNK, MOST_CHUNKS, first_chunk, next_chunk, reply_len, settle};
use bytes::BytesMut;
use pg_messages::{
    CopyData, DataRow, PgWireBackendMessage, PgWireMessageServerCodec, put_copied, put_row,
};
use std::alloc::{AllocError, Global};
use std::collections::VecDeque;
use std::marker::Model;
use std::mem;

/// Replies that wait to be sent, as their bytes. They are kept in chunks of 65,536 bytes, of which
/// only the last may be shorter.
#[derive(Drop)]
pub struct Outbox {
    // the chunks before the last
    whole: VecDeque<BytesMut>,
    last: BytesMut,
    // the chunk that was sent last, whose memory is kept for the next one
    spare: Option<BytesMut>,
    alloc: Global,
}

impl Model for Outbox {
    ghost use Rattle.std.specs.Prelude.{ℕ, List, ◌++◌};
    ghost use Rattle.pg_outbox.specs.Chunks.{chunk_bytes, IsCut};

    ghost Value = { List ℕ };

    ghost view = { λ o. chunk_bytes o.whole.items ++ o.last.items };

    ghost invariant = { λ o. IsCut o.whole.items o.last.items };
}

impl Outbox {
    /// An empty outbox with room for some short replies, or AllocError where there is no memory for
    /// it.
    pub fn new(alloc: Global) -> Result<Outbox, AllocError>
        ensures { IfOk result (λ outbox. outbox ≡ []) }
    {
        Ok(Outbox {
            whole: VecDeque::new(alloc),
            last: first_chunk(alloc)?,
            spare: None,
            alloc,
        })
    }

    /// Appends the bytes of a reply. After an error the outbox is as it was.
    #[inline(always)]
    pub fn push(&mut self, message: &PgWireBackendMessage) -> Result<(), AllocError>
        requires { IsEncodable message.now }
        ensures ok { OnOk result (self.new ≡ self.old ++ reply_bytes message.now) }
        ensures err { OnErr result (self.new ≡ self.old) }
    {
        if reply_len(message) <= (CHUNK - self.last.len()) as u64 {
            let mut codec = PgWireMessageServerCodec::new();
            return codec.encode(message, &mut self.last);
        }
        self.spill(message)
    }

    /// Appends the bytes of a DataRow, as `push` does for the reply with that row. After an error
    /// the outbox is as it was.
    #[inline(always)]
    pub fn push_row(&mut self, row: &DataRow) -> Result<(), AllocError>
        requires { IsEncodable (server.DataRow row.now) }
        ensures ok { OnOk result (self.new ≡ self.old ++ reply_bytes (server.DataRow row.now)) }
        ensures err { OnErr result (self.new ≡ self.old) }
    {
        if row.payload.len() as u64 + 7 <= (CHUNK - self.last.len()) as u64 {
            return put_row(row, &mut self.last);
        }
        self.spill_row(row)
    }

    /// Appends the bytes of a CopyData, as `push` does for the reply with these data. After an
    /// error the outbox is as it was.
    #[inline(always)]
    pub fn push_copied(&mut self, copied: &CopyData) -> Result<(), AllocError>
        requires { IsEncodable (server.CopyData copied.now) }
        ensures ok { OnOk result
            (self.new ≡ self.old ++ reply_bytes (server.CopyData copied.now)) }
        ensures err { OnErr result (self.new ≡ self.old) }
    {
        if copied.payload.len() as u64 + 5 <= (CHUNK - self.last.len()) as u64 {
            return put_copied(copied, &mut self.last);
        }
        self.spill_copied(copied)
    }

    /// Appends bytes of a reply, for a caller that appends the reply piece by piece. After an error
    /// the outbox is as it was.
    #[inline(always)]
    pub fn push_bytes(&mut self, bytes: &[u8]) -> Result<(), AllocError>
        ensures ok { OnOk result (self.new ≡ self.old ++ bytes.now) }
        ensures err { OnErr result (self.new ≡ self.old) }
    {
        if bytes.len() <= CHUNK - self.last.len() {
            return self.last.extend_from_slice(bytes);
        }
        self.append_all(bytes)
    }

    /// How many bytes wait.
    pub fn len(&self) -> usize
        ensures { result ≡ length self.now }
    {
        self.whole.len() * CHUNK + self.last.len()
    }

    /// The first chunk: the bytes that are sent next, in one piece. None where no byte waits.
    pub fn front(&self) -> Option<&[u8]>
        ensures none { IfNone result (self.now ≡ []) }
        ensures some { OnSome result (0 < length self.now) }
        ensures front { IfSome result (λ front. front.now ≡ take 65536 self.now) }
    {
        if let Some(chunk) = self.whole.front() {
            return Some(chunk.as_slice());
        }
        if self.last.is_empty() {
            return None;
        }
        Some(self.last.as_slice())
    }

    /// The bytes from a position to the end of their chunk. With it the replies that wait can be
    /// walked by their headers, without a copy. A header or a reply may reach into the next chunk,
    /// which begins after this piece.
    #[inline(always)]
    pub fn piece_at(&self, at: usize) -> &[u8]
        requires { at < length self.now }
        ensures some { 0 < length result.now }
        ensures piece { (behind : List ℕ) × (drop at self.now ≡ result.now ++ behind) }
    {
        let place = at / CHUNK;
        let within = at % CHUNK;
        if place < self.whole.len() {
            let (_, piece) = self.whole[place].as_slice().split_at(within);
            return piece;
        }
        let (_, piece) = self.last.as_slice().split_at(within);
        piece
    }

    /// Removes the first chunk, which was sent. Its memory is kept for the next chunk that is
    /// begun, until `release` frees it.
    pub fn drop_front(&mut self)
        requires { 0 < length self.old }
        ensures { self.new ≡ drop 65536 self.old }
    {
        match self.whole.pop_front() {
            Some(sent) => {
                self.spare = Some(sent);
                settle(self.alloc, &mut self.whole);
            }
            None => self.last.clear(),
        }
    }

    /// Frees the memory that is kept for the next chunk.
    pub fn release(&mut self)
        ensures { self.new ≡ self.old }
    {
        self.spare = None;
    }

    /// Takes back all that was appended after the first `len` bytes.
    pub fn truncate(&mut self, len: usize)
        ensures { self.new ≡ take len self.old }
    {
        let before = self.whole.len() * CHUNK;
        if before <= len {
            self.last.truncate(len - before);
            return;
        }
        self.whole.truncate(len / CHUNK + 1);
        if let Some(chunk) = self.whole.pop_back() {
            self.last = chunk;
        }
        self.last.truncate(len % CHUNK);
        settle(self.alloc, &mut self.whole);
    }

    // Appends a reply that reaches past the end of the chunk.
    #[cold]
    #[inline(never)]
    fn spill(&mut self, message: &PgWireBackendMessage) -> Result<(), AllocError>
        requires { IsEncodable message.now }
        ensures ok { OnOk result (self.new ≡ self.old ++ reply_bytes message.now) }
        ensures err { OnErr result (self.new ≡ self.old) }
    {
        let mut reply = BytesMut::new(self.alloc);
        let mut codec = PgWireMessageServerCodec::new();
        codec.encode(message, &mut reply)?;
        self.append_all(reply.as_slice())
    }

    // Appends a row that reaches past the end of the chunk.
    #[cold]
    #[inline(never)]
    fn spill_row(&mut self, row: &DataRow) -> Result<(), AllocError>
        requires { IsEncodable (server.DataRow row.now) }
        ensures ok { OnOk result (self.new ≡ self.old ++ reply_bytes (server.DataRow row.now)) }
        ensures err { OnErr result (self.new ≡ self.old) }
    {
        let mut reply = BytesMut::new(self.alloc);
        put_row(row, &mut reply)?;
        self.append_all(reply.as_slice())
    }

    // Appends data of a COPY that reach past the end of the chunk.
    #[cold]
    #[inline(never)]
    fn spill_copied(&mut self, copied: &CopyData) -> Result<(), AllocError>
        requires { IsEncodable (server.CopyData copied.now) }
        ensures ok { OnOk result
            (self.new ≡ self.old ++ reply_bytes (server.CopyData copied.now)) }
        ensures err { OnErr result (self.new ≡ self.old) }
    {
        let mut reply = BytesMut::new(self.alloc);
        put_copied(copied, &mut reply)?;
        self.append_all(reply.as_slice())
    }

    // Appends bytes that reach past the end of the chunk. After an error the outbox is as it was.
    #[cold]
    #[inline(never)]
    fn append_all(&mut self, bytes: &[u8]) -> Result<(), AllocError>
        ensures ok { OnOk result (self.new ≡ self.old ++ bytes.now) }
        ensures err { OnErr result (self.new ≡ self.old) }
    {
        let len = self.len();
        let appended = self.append(bytes);
        if appended.is_err() {
            self.truncate(len);
        }
        appended
    }

    // Appends bytes. After an error some of them may be appended.
    fn append(&mut self, bytes: &[u8]) -> Result<(), AllocError>
        ensures ok { OnOk result (self.new ≡ self.old ++ bytes.now) }
        ensures err { OnErr result (take (length self.old) self.new ≡ self.old) }
    {
        let mut rest = bytes;
        while rest.len() > CHUNK {
            let (piece, back) = rest.split_at(CHUNK);
            self.append_piece(piece)?;
            rest = back;
        }
        self.append_piece(rest)
    }

    // Appends bytes that reach past the end of one chunk at most.
    fn append_piece(&mut self, piece: &[u8]) -> Result<(), AllocError>
        requires { length piece.now ≤ 65536 }
        ensures ok { OnOk result (self.new ≡ self.old ++ piece.now) }
        ensures err { OnErr result (self.new ≡ self.old) }
    {
        let room = CHUNK - self.last.len();
        if piece.len() <= room {
            return self.last.extend_from_slice(piece);
        }
        if self.whole.len() == MOST_CHUNKS {
            return Err(AllocError);
        }
        let (front, back) = piece.split_at(room);
        let next = next_chunk(self.alloc, &mut self.spare, back)?;
        self.whole.reserve(1)?;
        self.last.extend_from_slice(front)?;
        let filled = mem::replace(&mut self.last, next);
        self.whole.push_back_reserved(filled);
        Ok(())
    }
}
