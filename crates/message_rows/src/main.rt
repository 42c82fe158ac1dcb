// Reads rows, each a frame or a reply under a name, and prints what the codec makes of it. The rows
// and what they must give are in the files stdin and stdout; tools/message_rows.py makes stdout
// without this program.
//
// A row is `NAME: PHASE PARTS`, where PHASE is `startup`, `typed` or the name of a reply, and the
// parts are words (parts.rt). Any other line is printed as it is. The word COUNT, if there is one,
// asks instead for the times of COUNT decodes or encodes of each row (times.rt).
#![tactic(auto)]

ghost use Rattle.pg_messages.specs.Replies.{IsEncodable};

mod parts;
mod replies;
mod sendable;
mod show;
mod times;

use bytes::{BufMut, BytesMut};
use parts::{bytes_of, first_of};
use pg_messages::{
    FrameError, PgWireBackendMessage, PgWireFrontendMessage, PgWireMessageServerCodec,
};
use replies::reply_of;
use sendable::is_encodable;
use show::{show_bytes, show_message};
use std::alloc::{AllocError, Global};
use std::{env, io};
use times::{time_frame, time_reply, time_streams};

fn main(rt: HostRuntime) -> io::Result<()> {
    let times = times_asked(&rt)?;
    let text = io::read_to_string(rt.alloc(), rt.reader())?;
    answer_rows(&rt, times, text.as_str())
}

/// The number that the first argument is.
fn times_asked(rt: &HostRuntime) -> io::Result<Option<u32>> {
    let mut words = env::args(rt)?;
    let _program = words.next();
    Ok(count_of(words.next()))
}

fn count_of(word: Option<String>) -> Option<u32> {
    match word {
        Some(word) => Some(word.as_str().parse::<u32>().unwrap_or(1)),
        None => None,
    }
}

/// Prints what the codec makes of each row, or how long it takes.
fn answer_rows(rt: &HostRuntime, times: Option<u32>, rows: &str) -> io::Result<()> {
    for line in rows.lines() {
        answer_line(rt, times, line)?;
    }
    match times {
        Some(_) => time_streams(rt),
        None => Ok(()),
    }
}

fn answer_line(rt: &HostRuntime, times: Option<u32>, line: &str) -> io::Result<()> {
    match line.split_once(": ") {
        Some((name, row)) => answer_row(rt, times, name, row),
        None => println!(rt; "{line}"),
    }
}

/// Prints what the codec makes of a row, or how long it takes.
fn answer_row(rt: &HostRuntime, times: Option<u32>, name: &str, row: &str) -> io::Result<()> {
    print!(rt; "{name}: ")?;
    let (kind, parts) = first_of(row);
    match kind {
        "startup" => answer_frame(rt, times, true, parts),
        "typed" => answer_frame(rt, times, false, parts),
        _ => answer_reply(rt, times, kind, parts),
    }
}

/// Prints what the codec makes of the bytes of these words, or how long it takes.
fn answer_frame(
    rt: &HostRuntime,
    times: Option<u32>,
    awaiting: bool,
    parts: &str,
) -> io::Result<()> {
    let bytes = bytes_of(rt.alloc(), parts)?;
    match times {
        Some(count) => time_frame(rt, count, awaiting, bytes.as_slice()),
        None => show_frame(rt, awaiting, bytes.as_slice()),
    }
}

/// Prints the first answer that isn't None while the bytes come one by one, and how many had come;
/// and whether they give a frame where they all come at once, and how many are left.
fn show_frame(rt: &HostRuntime, awaiting: bool, bytes: &[u8]) -> io::Result<()> {
    let count = answered_at(rt.alloc(), awaiting, bytes)?;
    let (front, _) = bytes.split_at(count.min(bytes.len()));
    show_front(rt, awaiting, front)?;
    let (is_frame, left) = taken_at_once(rt.alloc(), awaiting, bytes)?;
    println!(rt; " at {count}, at once {is_frame} with {left} left")
}

/// Prints the answer to these bytes.
fn show_front(rt: &HostRuntime, awaiting: bool, front: &[u8]) -> io::Result<()> {
    let mut src = BytesMut::copy_from_slice(rt.alloc(), front)?;
    show_answer(rt, codec_at(awaiting).decode(rt.alloc(), &mut src))
}

/// Whether all the bytes give a frame, and how many are left.
fn taken_at_once(alloc: Global, awaiting: bool, bytes: &[u8]) -> Result<(bool, usize), AllocError> {
    let mut src = BytesMut::copy_from_slice(alloc, bytes)?;
    let is_frame = is_frame(codec_at(awaiting).decode(alloc, &mut src));
    Ok((is_frame, src.len()))
}

fn codec_at(awaiting_startup: bool) -> PgWireMessageServerCodec {
    let mut codec = PgWireMessageServerCodec::new();
    codec.context.awaiting_startup = awaiting_startup;
    codec
}

/// How many bytes, one by one, have come at the first answer that isn't None.
fn answered_at(alloc: Global, awaiting: bool, bytes: &[u8]) -> Result<usize, AllocError> {
    let mut src = BytesMut::new(alloc);
    let mut codec = codec_at(awaiting);
    for byte in bytes {
        src.put_u8(*byte)?;
        let before = src.len();
        if !is_none(codec.decode(alloc, &mut src)) {
            return Ok(before);
        }
    }
    Ok(bytes.len())
}

fn is_none(answer: Result<Option<PgWireFrontendMessage>, FrameError>) -> bool {
    let is = matches!(answer, Ok(None));
    let_go(answer);
    is
}

fn is_frame(answer: Result<Option<PgWireFrontendMessage>, FrameError>) -> bool {
    let is = matches!(answer, Ok(Some(_)));
    let_go(answer);
    is
}

/// Drops the answer.
fn let_go(_answer: Result<Option<PgWireFrontendMessage>, FrameError>) {}

fn show_answer(
    rt: &HostRuntime,
    answer: Result<Option<PgWireFrontendMessage>, FrameError>,
) -> io::Result<()> {
    let shown = match &answer {
        Ok(Some(message)) => show_message(rt, message),
        Ok(None) => rt.print("unfinished"),
        Err(FrameError::Bad) => rt.print("bad"),
        Err(FrameError::NoMemory) => rt.print("no memory"),
    };
    let_go(answer);
    shown
}

/// Prints what the codec makes of the reply of these words, or how long it takes.
fn answer_reply(rt: &HostRuntime, times: Option<u32>, kind: &str, parts: &str) -> io::Result<()> {
    match reply_of(rt.alloc(), kind, parts)? {
        Some(reply) => {
            let shown = show_reply(rt, times, &reply);
            replies::let_go(reply);
            shown
        }
        None => rt.println("no such reply"),
    }
}

/// Prints the bytes of a reply behind one that is there already, or how long they take.
fn show_reply(
    rt: &HostRuntime,
    times: Option<u32>,
    reply: &PgWireBackendMessage,
) -> io::Result<()> {
    if !is_encodable(reply) {
        return println!(rt; "body {}, cannot be sent", reply.body_len());
    }
    match times {
        Some(count) => time_reply(rt, count, reply),
        None => {
            print!(rt; "body {},", reply.body_len())?;
            show_line(rt, encoded_behind(rt.alloc(), reply)?)
        }
    }
}

/// A byte, and the bytes of a reply.
fn encoded_behind(alloc: Global, reply: &PgWireBackendMessage) -> Result<BytesMut, AllocError>
    requires { IsEncodable reply.now }
{
    let mut dst = BytesMut::copy_from_slice(alloc, b"<")?;
    PgWireMessageServerCodec::new().encode(reply, &mut dst)?;
    Ok(dst)
}

fn show_line(rt: &HostRuntime, bytes: BytesMut) -> io::Result<()> {
    show_bytes(rt, bytes.as_slice())?;
    rt.println("")
}
