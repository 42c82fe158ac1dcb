//! How long the codec takes: each frame of the rows decoded, each reply encoded, and a stream of
//! frames.

ghost use Rattle.std.specs.Prelude.{◌<◌};
ghost use Rattle.pg_messages.specs.Replies.{IsEncodable};

use crate::{codec_at, is_frame};
use bytes::BytesMut;
use pg_messages::{PgWireBackendMessage, PgWireMessageServerCodec};
use std::alloc::{AllocError, Global};
use std::io;
use std::time::{Clock, Instant};

/// Prints how many there were, and the nanoseconds of each since the start.
fn show_time(rt: &HostRuntime, start: Instant, count: u32) -> io::Result<()> {
    let nanoseconds = start.elapsed(rt)?.as_nanos() / u128::from(count.max(1));
    println!(rt; "{count}, {nanoseconds} ns each")
}

/// Prints the nanoseconds of a good frame, over `count` of them.
pub fn time_frame(rt: &HostRuntime, count: u32, awaiting: bool, bytes: &[u8]) -> io::Result<()> {
    let mut src = repeated(rt.alloc(), count, bytes)?;
    let start = Instant::now(rt)?;
    show_time(rt, start, decoded(rt.alloc(), awaiting, count, &mut src))
}

/// The bytes `count` times.
fn repeated(alloc: Global, count: u32, bytes: &[u8]) -> Result<BytesMut, AllocError> {
    let mut src = BytesMut::new(alloc);
    for _ in 0..count {
        src.extend_from_slice(bytes)?;
    }
    Ok(src)
}

/// Takes frames off the bytes, at most `most`, and tells how many there were.
fn decoded(alloc: Global, awaiting: bool, most: u32, src: &mut BytesMut) -> u32 {
    let mut codec = codec_at(awaiting);
    let mut found: u32 = 0;
    for _ in 0..most {
        if !is_frame(codec.decode(alloc, src)) {
            break;
        }
        codec.context.awaiting_startup = awaiting;
        found = found.saturating_add(1);
    }
    found
}

/// Prints the nanoseconds of a reply, over `count` of them.
pub fn time_reply(rt: &HostRuntime, count: u32, reply: &PgWireBackendMessage) -> io::Result<()>
    requires { IsEncodable reply.now }
{
    let start = Instant::now(rt)?;
    encode(rt.alloc(), count, reply)?;
    show_time(rt, start, count)
}

/// Encodes a reply `count` times.
fn encode(alloc: Global, count: u32, reply: &PgWireBackendMessage) -> Result<(), AllocError>
    requires { IsEncodable reply.now }
{
    let mut codec = PgWireMessageServerCodec::new();
    let mut dst = BytesMut::new(alloc);
    for _ in 0..count {
        dst.clear();
        codec.encode(reply, &mut dst)?;
    }
    Ok(())
}

/// Prints the nanoseconds of a frame of each stream.
pub fn time_streams(rt: &HostRuntime) -> io::Result<()> {
    for (piece, megabytes) in [(8192, 1), (8192, 10), (1, 1), (1, 10)] {
        print!(rt; "{megabytes} MB at reads of {piece}: ")?;
        time_stream(rt, piece, megabytes)?;
    }
    Ok(())
}

// Bind, Execute and Sync over and over, in pieces as reads give them.
fn time_stream(rt: &HostRuntime, piece: usize, megabytes: u32) -> io::Result<()>
    requires { 0 < piece }
{
    let group = b"B\0\0\0\x0e\0\0\0\0\0\0\0\x01\0\x01E\0\0\0\x09\0\0\0\0\0S\0\0\0\x04";
    let stream = repeated(rt.alloc(), megabytes.min(100) * 33_334, group)?;
    let start = Instant::now(rt)?;
    show_time(rt, start, fed(rt.alloc(), piece, stream.as_slice())?)
}

fn fed(alloc: Global, piece: usize, stream: &[u8]) -> Result<u32, AllocError>
    requires { 0 < piece }
{
    let mut src = BytesMut::new(alloc);
    let mut found: u32 = 0;
    for bytes in stream.chunks(piece) {
        src.extend_from_slice(bytes)?;
        found = found.saturating_add(decoded(alloc, false, u32::MAX, &mut src));
    }
    Ok(found)
}
