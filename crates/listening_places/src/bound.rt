//! Places that were bound, and the connections that come to them.

ghost use Rattle.std.specs.Prelude.{◌≡◌, ◌≢◌, IfOk, IfSome};
ghost use Rattle.listening_places.specs.Bound.{accepted_at, faults_at, told_at, IsToldAs};

use crate::place::ListenPlace;
use pg_streams::{AcceptFailed, Acceptor, Listening, MaybeTls, SocketAcceptor};
use std::fs::Files;
use std::io::ErrorKind;
use std::net::{Net, TcpListener, TcpStream};
use std::os::unix::fs::FileTypeExt;
use std::os::unix::net::{UnixListener, UnixStream};
use std::time::Clock;
use std::{fs, io};

/// A place that was bound, or one that could not be, from which no connection comes.
#[derive(Drop)]
pub enum BoundPlace<'w, R> {
    /// The place.
    Bound(ToldPlace<'w, R>),
    /// How many connections could not be accepted. The count stands still at the greatest `u64`.
    Unbound(u64),
}

/// A place that was bound, and that is told before the first connection is taken.
#[derive(Drop)]
pub struct ToldPlace<'w, R> {
    acceptor: SocketAcceptor<Listening, R>,
    place: ListenPlace<'w>,
    is_told: bool,
}

impl<'w, R> BoundPlace<'w, R> {
    /// The place as it was bound: with the port that was got, where any free one was asked for.
    /// None is a place that could not be bound.
    pub fn place(&self) -> Option<ListenPlace<'w>>
        ensures { result ≡ told_at self.now }
    {
        match self {
            BoundPlace::Bound(place) => Some(place.place),
            BoundPlace::Unbound(_) => None,
        }
    }
}

impl<'w, R: Clock + Print> Acceptor for BoundPlace<'w, R> {
    ghost use Rattle.listening_places.specs.Bound.{accepted_at, faults_at};

    type In = MaybeTls;

    type Out = MaybeTls;

    ghost faults = { faults_at };

    ghost accepted = { accepted_at };

    /// Waits for the next connection. Before the first one it prints where the program listens, as
    /// `listening on 127.0.0.1:5433` or `listening on PATH`; that nobody can read it is no fault.
    fn accept(&mut self) -> Result<(MaybeTls, MaybeTls), AcceptFailed> {
        match self {
            BoundPlace::Bound(place) => {
                if !place.is_told {
                    place.is_told = true;
                    let _told = tell_place(&place.acceptor.clock, place.place);
                }
                place.acceptor.accept()
            }
            BoundPlace::Unbound(faults) => {
                *faults = faults.saturating_add(1);
                Err(AcceptFailed {})
            }
        }
    }
}

/// Tells where the program listens.
fn tell_place<R: Print>(rt: &R, place: ListenPlace<'_>) -> io::Result<()> {
    match place {
        ListenPlace::Tcp(port) => println!(rt; "listening on 127.0.0.1:{port}"),
        ListenPlace::Unix(path) => println!(rt; "listening on {path}"),
    }
}

/// Binds a place: 127.0.0.1 with a port, or a path. What a server that is gone left at a path is
/// taken over: a socket at which nobody listens. The place is told when its first connection is
/// waited for. Why one can't be bound is not told: each call to accept fails.
pub fn bind_place<'w, R: Net<Stream = TcpStream, Listener = TcpListener> + Files + Clock + Copy>(
    rt: R,
    place: ListenPlace<'w>,
) -> BoundPlace<'w, R>
    ensures accepted { accepted_at result ≡ 0 }
    ensures told { IfSome (told_at result) (IsToldAs place.entry) }
{
    match bind(&rt, place) {
        Err(_) => BoundPlace::Unbound(0),
        Ok((listening, place)) => BoundPlace::Bound(ToldPlace {
            acceptor: SocketAcceptor::new(listening, rt),
            place,
            is_told: false,
        }),
    }
}

/// Gives a place back, so that nobody comes to it any more: the file of a Unix socket goes, if it
/// was bound. One that can't be removed stays, and is taken over by who binds it next.
pub fn leave_place<R: Files>(rt: &R, place: ListenPlace<'_>, bound: BoundPlace<'_, R>)
where
    R: Drop,
{
    let BoundPlace::Bound(_place) = bound else {
        return;
    };
    if let ListenPlace::Unix(path) = place {
        let _removed = fs::remove_file(rt, path);
    }
}

/// Binds a place, and answers it as it was bound.
fn bind<'w, R: Net<Stream = TcpStream, Listener = TcpListener> + Files>(
    rt: &R,
    place: ListenPlace<'w>,
) -> io::Result<(Listening, ListenPlace<'w>)>
    ensures { IfOk result (λ bound. IsToldAs place.entry bound.1) }
{
    match place {
        ListenPlace::Tcp(port) => {
            let (listener, port) = bind_port(rt, port)?;
            Ok((Listening::Tcp(listener), ListenPlace::Tcp(port)))
        }
        ListenPlace::Unix(path) => Ok((Listening::Unix(bind_path(rt, path)?), place)),
    }
}

/// Binds a port of 127.0.0.1, and answers it. Port 0 is any that is free.
fn bind_port<R: Net<Stream = TcpStream, Listener = TcpListener>>(
    rt: &R,
    port: u16,
) -> io::Result<(TcpListener, u16)>
    ensures { IfOk result (λ bound. port ≢ 0 → bound.1 ≡ port) }
{
    let listener = TcpListener::bind(rt, ("127.0.0.1", port))?;
    if port != 0 {
        return Ok((listener, port));
    }
    let got = listener.local_addr()?.port();
    Ok((listener, got))
}

/// Binds a path. What a server that is gone left there is taken over.
fn bind_path<R: Net + Files>(rt: &R, path: &str) -> io::Result<UnixListener> {
    match UnixListener::bind(rt, path) {
        Err(error) if error.kind() == ErrorKind::AddrInUse && is_left_over(rt, path) => {
            fs::remove_file(rt, path)?;
            UnixListener::bind(rt, path)
        }
        bound => bound,
    }
}

/// Whether a socket stands at a path at which nobody listens any more, so that a connection is
/// refused. No other file is one: a connection to it is refused too.
fn is_left_over<R: Net + Files>(rt: &R, path: &str) -> bool {
    let Ok(found) = fs::symlink_metadata(rt, path) else {
        return false;
    };
    found.file_type().is_socket()
        && matches!(UnixStream::connect(rt, path), Err(error) if error.kind() == ErrorKind::ConnectionRefused)
}
