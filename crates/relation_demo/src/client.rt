//! The client of the load (protocol: Message Formats).

ghost use Rattle.std.specs.Prelude.{◌≡◌, ◌++◌, ◌+◌, ◌^◌, ◌≤◌, ◌<◌, ◌∷◌, length, false, codes, decimal, IfOk, OnOk};
ghost use Rattle.pg_messages.specs.Fields.{count32};
ghost use Rattle.pg_messages.specs.Frames.{frame_bytes, parse_body};
ghost use Rattle.relation_demo.specs.Client as client;

use itoa::Buffer;
use pg_messages::PgBytes;
use std::alloc::{AllocError, Global};

/// A startup packet of version 3.0: Int32 19, Int32 196608, `user`, `demo`, and a zero byte.
const STARTUP: &[u8] = b"\0\0\0\x13\0\x03\0\0user\0demo\0\0";

/// Bind of the unnamed portal to the unnamed statement, without values, and with one result code,
/// 1.
const BIND: &[u8] = b"B\0\0\0\x0e\0\0\0\0\0\0\0\x01\0\x01";

/// Execute of the unnamed portal, without a limit.
const EXECUTE: &[u8] = b"E\0\0\0\x09\0\0\0\0\0";

/// Sync.
const SYNC: &[u8] = b"S\0\0\0\x04";

/// Terminate.
const TERMINATE: &[u8] = b"X\0\0\0\x04";

/// The bytes of the client that asks for all rows of `count` relations, one after another: a
/// startup packet, for each relation Parse, Bind, Execute and Sync, and Terminate.
#[tactic(auto, using(crate::proofs::ClientLemmas::is_short))]
pub fn demo_client(alloc: Global, count: u32) -> Result<PgBytes, AllocError>
    requires { count ≤ 10000 }
    ensures client { IfOk result (λ bytes. bytes ≡ client.demo_client count) }
    ensures short { length (client.demo_client count) ≤ 1000000 }
{
    let mut bytes = Vec::from_slice(alloc, STARTUP)?;
    for number in 0..count {
        push_asking(&mut bytes, number)?;
    }
    bytes.extend_from_slice(TERMINATE)?;
    Ok(PgBytes::from_vec(bytes))
}

/// Appends the messages that ask for the relation of this number.
fn push_asking(bytes: &mut Vec<u8>, number: u32) -> Result<(), AllocError>
    ensures { OnOk result (bytes.new.items ≡ bytes.old.items ++ client.asking number) }
{
    push_parse(bytes, number)?;
    bytes.extend_from_slice(BIND)?;
    bytes.extend_from_slice(EXECUTE)?;
    bytes.extend_from_slice(SYNC)?;
    Ok(())
}

/// Appends the Parse of the relation of this number: Int32 length, the empty name, `r` and the
/// number, no types.
fn push_parse(bytes: &mut Vec<u8>, number: u32) -> Result<(), AllocError>
    ensures { OnOk result (bytes.new.items
        ≡ bytes.old.items ++ frame_bytes false 80 (parse_body (client.parse number))) }
{
    let mut buffer = Buffer::new();
    let digits = buffer.format(number).as_bytes();
    let len = digits.len() as u32 + 9;
    bytes.push(b'P')?;
    bytes.extend_from_slice(&len.to_be_bytes())?;
    bytes.extend_from_slice(b"\0r")?;
    bytes.extend_from_slice(digits)?;
    bytes.extend_from_slice(b"\0\0\0")
}
