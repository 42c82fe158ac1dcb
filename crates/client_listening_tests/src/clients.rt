//! What a client sends at its end of a stream, and what it is told.

use std::io::{Read, Write};

/// What a client sends: a startup packet of version 3.0 with `user` `demo`, the blank simple query
/// `;`, and Terminate.
const SENT: &[u8] = b"\0\0\0\x13\0\x03\0\0user\0demo\0\0Q\0\0\0\x06;\0X\0\0\0\x04";

/// What it is told up to its pid: AuthenticationOk, four ParameterStatus, and the front of
/// BackendKeyData.
const BEFORE_PID: &[u8] = b"R\0\0\0\x08\0\0\0\0\
S\0\0\0\x18server_version\016.0\0\
S\0\0\0\x19server_encoding\0UTF8\0\
S\0\0\0\x19client_encoding\0UTF8\0\
S\0\0\0\x19integer_datetimes\0on\0\
K\0\0\0\x0c";

/// What it is told behind its pid: the key, ReadyForQuery, and EmptyQueryResponse and ReadyForQuery of
/// its query.
const BEHIND_PID: &[u8] = b"\x01\x02\x03\x04Z\0\0\0\x05II\0\0\0\x04Z\0\0\0\x05I";

/// Whether a stream tells these bytes next.
fn tells<S: Read>(stream: &mut S, bytes: &[u8]) -> bool {
    let mut told = [0u8; 128];
    let n = bytes.len().min(told.len());
    stream.read_exact(&mut told[..n]).is_ok() && &told[..n] == bytes
}

/// Whether a client at this end of a stream, under this pid, is served whole: each of its replies
/// comes, and then the end.
pub(crate) fn is_served<S: Read + Write>(stream: &mut S, pid: i32) -> bool {
    stream.write_all(SENT).is_ok()
        && tells(stream, BEFORE_PID)
        && tells(stream, &pid.to_be_bytes())
        && tells(stream, BEHIND_PID)
        && matches!(stream.read(&mut [0u8; 1]), Ok(0))
}
