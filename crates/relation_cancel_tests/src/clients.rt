//! What clients send, and what they are answered; and what their jobs share.

ghost use Rattle.std.specs.Prelude.{◌≡◌, IfSome};
ghost use Rattle.std.specs.Arc.{arc_value};

use pg_cancel::ConnectionManager;
use relation_server::RelationTable;
use sample_registry::Registry;
use std::io::{Read, Write};
use std::sync::Arc;

/// A startup packet of version 3.0 with `user` `demo`.
pub(crate) const STARTUP: &[u8] = b"\0\0\0\x13\0\x03\0\0user\0demo\0\0";

/// The same of version 3.2.
pub(crate) const STARTUP_3_2: &[u8] = b"\0\0\0\x13\0\x03\0\x02user\0demo\0\0";

/// What a client of 3.0 is told after its startup packet under the pid 7 and the key 01020304:
/// AuthenticationOk, four ParameterStatus, BackendKeyData, ReadyForQuery.
pub(crate) const BEGUN: &[u8] = b"R\0\0\0\x08\0\0\0\0\
S\0\0\0\x18server_version\016.0\0\
S\0\0\0\x19server_encoding\0UTF8\0\
S\0\0\0\x19client_encoding\0UTF8\0\
S\0\0\0\x19integer_datetimes\0on\0\
K\0\0\0\x0c\0\0\0\x07\x01\x02\x03\x04\
Z\0\0\0\x05I";

/// What a client is told whose query was canceled: ErrorResponse, ReadyForQuery.
pub(crate) const CANCELED: &[u8] =
    b"E\0\0\0\x43SERROR\0VERROR\0C57014\0Mcanceling statement due to user request\0\0\
Z\0\0\0\x05I";

/// Whether bytes are sent.
pub(crate) fn sends<S: Write>(stream: &mut S, bytes: &[u8]) -> bool {
    stream.write_all(bytes).is_ok()
}

/// Whether as many bytes as there is room for are read.
pub(crate) fn reads<S: Read>(stream: &mut S, into: &mut [u8]) -> bool {
    stream.read_exact(into).is_ok()
}

/// Whether a read tells the end.
pub(crate) fn is_at_its_end<S: Read>(stream: &mut S) -> bool {
    matches!(stream.read(&mut [0u8; 1]), Ok(0))
}

/// What jobs share: the registry, and these relations.
pub(crate) fn shared_over(
    registry: &Registry,
    table: RelationTable,
) -> Option<(Arc<ConnectionManager>, Arc<RelationTable>)>
    ensures { IfSome result (λ both. arc_value both.0 ≡ arc_value registry.now.manager) }
{
    let relations = Arc::new(registry.alloc, table).ok()?;
    let manager = Arc::try_clone(&registry.manager).ok()?;
    Some((manager, relations))
}
