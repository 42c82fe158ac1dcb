//! What clients send, and what they are answered; and what their jobs share.

ghost use Rattle.std.specs.Prelude.{◌≡◌, IfSome};
ghost use Rattle.std.specs.Arc.{arc_value};

use pg_cancel::ConnectionManager;
use relation_server::RelationTable;
use sample_registry::Registry;
use std::io::{Read, Write};
use std::sync::Arc;

/// A startup packet of 3.0; a statement, a portal and all rows of `shifts`, as binary; Sync; Terminate.
pub(crate) const FIRST_PATH: &[u8] = b"\0\0\0\x13\0\x03\0\0user\0demo\0\0\
P\0\0\0\x0e\0shifts\0\0\0\
B\0\0\0\x0e\0\0\0\0\0\0\0\x01\0\x01\
E\0\0\0\x09\0\0\0\0\0\
S\0\0\0\x04\
X\0\0\0\x04";

/// The replies to it under the pid 7 and the key 01020304: AuthenticationOk, four ParameterStatus,
/// BackendKeyData, ReadyForQuery; ParseComplete, BindComplete, three DataRows, CommandComplete,
/// ReadyForQuery.
pub(crate) const FIRST_REPLIES: &[u8] = b"R\0\0\0\x08\0\0\0\0\
S\0\0\0\x18server_version\016.0\0\
S\0\0\0\x19server_encoding\0UTF8\0\
S\0\0\0\x19client_encoding\0UTF8\0\
S\0\0\0\x19integer_datetimes\0on\0\
K\0\0\0\x0c\0\0\0\x07\x01\x02\x03\x04\
Z\0\0\0\x05I\
1\0\0\0\x04\
2\0\0\0\x04\
D\0\0\0\x1a\0\x01\0\0\0\x10\0\0\0\0\xfb\x3b\xcb\xc0\0\0\0\x01\0\0\0\x0d\
D\0\0\0\x1a\0\x01\0\0\0\x10\xff\xff\xff\xff\xff\xf8\x5e\xe0\0\0\0\0\0\0\0\0\
D\0\0\0\x1a\0\x01\0\0\0\x10\0\0\0\0\0\x2d\xc6\xc0\0\0\0\x02\xff\xff\xff\xff\
C\0\0\0\x0dSELECT 3\0\
Z\0\0\0\x05I";

/// Whether bytes are sent.
pub(crate) fn sends<S: Write>(stream: &mut S, bytes: &[u8]) -> bool {
    stream.write_all(bytes).is_ok()
}

/// Whether as many bytes as there is room for are read.
pub(crate) fn reads<S: Read>(stream: &mut S, into: &mut [u8]) -> bool {
    stream.read_exact(into).is_ok()
}

/// Whether a read tells the end.
pub(crate) fn is_at_its_end<S: Read>(stream: &mut S) -> bool {
    matches!(stream.read(&mut [0u8; 1]), Ok(0))
}

/// What jobs share: the registry, and these relations.
pub(crate) fn shared_over(
    registry: &Registry,
    table: RelationTable,
) -> Option<(Arc<ConnectionManager>, Arc<RelationTable>)>
    ensures { IfSome result (λ both. arc_value both.0 ≡ arc_value registry.now.manager) }
{
    let relations = Arc::new(registry.alloc, table).ok()?;
    let manager = Arc::try_clone(&registry.manager).ok()?;
    Some((manager, relations))
}
