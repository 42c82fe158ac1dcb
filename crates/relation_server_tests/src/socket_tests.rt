//! One client over TCP, and one over a Unix socket.

ghost use Rattle.std.specs.Prelude.{◌≡◌};

use crate::clients::{FIRST_PATH, FIRST_REPLIES, is_at_its_end, reads, sends};
use pg_cancel::{ConnectionHandle, ConnectionManager};
use pg_portal::MemPortalStore;
use pg_serve::{
    Acceptor, Listening, MaybeTls, SocketAcceptor, process_socket, process_socket_unix,
};
use pg_session::{EndKind, NoopHandler, PgWireServerHandlers, ServeError};
use relation_server::{RelationHandler, built_in_table};
use sample_registry::Registry;
use std::alloc::Global;
use std::io::{Read, Write};
use std::net::{TcpListener, TcpStream};
use std::os::unix::net::{UnixListener, UnixStream};
use std::path::{Path, PathBuf};
use std::sync::{Arc, Wait};
use std::test::Fail;
use std::thread::Threads;
use std::time::Clock;
use std::{env, fs, process, thread};

/// How many turns the client has: fewer than its bytes, which come at once, so that they aren't read
/// one by one.
const TURNS: u64 = 10;

/// Whether a client that sends the first path reads its replies, byte for byte, and then the end.
fn is_answered<S: Read + Write>(stream: &mut S) -> bool {
    let mut replies = [0u8; FIRST_REPLIES.len()];
    sends(stream, FIRST_PATH)
        && reads(stream, &mut replies)
        && replies.as_slice() == FIRST_REPLIES
        && is_at_its_end(stream)
}

/// Serves a client at a socket, by any handlers.
fn serve<R: Wait, H: PgWireServerHandlers + Drop>(
    rt: &R,
    alloc: Global,
    handlers: Arc<H>,
    manager: &ConnectionManager,
    handle: &mut ConnectionHandle,
    reader: &mut MaybeTls,
    writer: &mut MaybeTls,
) -> Result<EndKind, ServeError>
    requires issued { handle.old.issuer ≡ manager.now }
{
    let store = MemPortalStore::new(alloc);
    match reader {
        MaybeTls::Plain(_) => process_socket(
            rt, alloc, reader, writer, handlers, store, manager, handle, TURNS,
        ),
        MaybeTls::Unix(_) => process_socket_unix(
            rt, alloc, reader, writer, handlers, store, manager, handle, TURNS,
        ),
    }
}

/// Whether a client is served over the sample relations, up to its Terminate.
fn is_served_by<R: Wait>(
    rt: &R,
    alloc: Global,
    manager: &ConnectionManager,
    handle: &mut ConnectionHandle,
    reader: &mut MaybeTls,
    writer: &mut MaybeTls,
) -> Option<bool>
    requires issued { handle.old.issuer ≡ manager.now }
{
    let table = built_in_table(alloc).ok()?;
    let handler = RelationHandler {
        relations: &table,
        copying: NoopHandler,
    };
    let handlers = Arc::new(alloc, handler).ok()?;
    let end = serve(rt, alloc, handlers, manager, handle, reader, writer);
    Some(end == Ok(EndKind::Terminate))
}

/// The same under the pid 7 of a new registry.
fn is_served<R: Wait>(
    rt: &R,
    alloc: Global,
    reader: &mut MaybeTls,
    writer: &mut MaybeTls,
) -> Option<bool> {
    let mut registry = Registry::new(alloc)?;
    let mut handle = registry.register(rt, 7)?;
    is_served_by(rt, alloc, &registry.manager, &mut handle, reader, writer)
}

/// The same for the first connection to come. The connection is ended then.
fn is_next_served<R: Wait + Clock + Copy + Drop>(
    rt: R,
    alloc: Global,
    listening: Listening,
) -> Option<bool> {
    let (mut reader, mut writer) = SocketAcceptor::new(listening, rt).accept().ok()?;
    is_served(&rt, alloc, &mut reader, &mut writer)
}

/// Whether a client at this stream, whose connection is the first to come, is answered the first
/// path.
fn is_answered_at<R: Threads + Wait + Clock + Copy + Drop, S: Read + Write + Drop + Send + 'static>(
    rt: R,
    alloc: Global,
    listening: Listening,
    stream: S,
) -> Option<bool> {
    let mut stream = stream;
    let client = thread::spawn(&rt, move || is_answered(&mut stream)).ok()?;
    let served = is_next_served(rt, alloc, listening);
    Some(client.join(&rt) && served == Some(true))
}

/// A TCP socket that is listened at and a client of it.
fn at_tcp(rt: &HostRuntime) -> Result<(TcpListener, TcpStream), Fail> {
    let listener = TcpListener::bind(rt, "127.0.0.1:0")?;
    let stream = TcpStream::connect(rt, listener.local_addr()?)?;
    Ok((listener, stream))
}

#[test]
fn first_path_over_tcp(rt: HostRuntime) -> Result<(), Fail> {
    let (listener, stream) = at_tcp(&rt)?;
    assert!(rt; is_answered_at(rt, rt.alloc(), Listening::Tcp(listener), stream) == Some(true));
    Ok(())
}

/// Where a Unix socket is bound.
fn socket_path(rt: &HostRuntime) -> Result<PathBuf, Fail> {
    let folder = env::temp_dir(rt)?;
    let name = format!(in rt.alloc(); "relations-{}.socket", process::id(rt.process()))?;
    Ok(folder.join(rt.alloc(), name.as_str())?)
}

/// A Unix socket that is listened at and a client of it. Its file is removed.
fn at_unix_socket(rt: &HostRuntime, path: Path<'_>) -> Option<(UnixListener, UnixStream)> {
    let listener = UnixListener::bind(rt, path).ok()?;
    let stream = UnixStream::connect(rt, path).ok();
    let _removed = fs::remove_file(rt, path);
    Some((listener, stream?))
}

#[test]
fn first_path_over_a_unix_socket(rt: HostRuntime) -> Result<(), Fail> {
    let path = socket_path(&rt)?;
    let told = match at_unix_socket(&rt, path.as_path()) {
        Some((listener, stream)) => {
            is_answered_at(rt, rt.alloc(), Listening::Unix(listener), stream)
        }
        None => None,
    };
    assert!(rt; told == Some(true));
    Ok(())
}
