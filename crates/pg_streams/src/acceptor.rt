//! Accepts connections over sockets.

ghost use Rattle.std.specs.Prelude.{◌≡◌, ◌≤◌, ◌<◌, ◌+◌, IfOk, OnErr};
ghost use Rattle.conversation_runs.specs.Streams.{HasRisen, greatest_count};
ghost use Rattle.pg_streams.specs.Sockets.{reads_of};

use crate::accept::{AcceptFailed, Acceptor};
use crate::socket::{Counted, MaybeTls};
use std::io;
use std::io::ErrorKind;
use std::net::TcpListener;
use std::os::unix::net::UnixListener;
use std::time::{Clock, Duration};

/// Takes connections, without a count of them.
pub trait Listener {
    /// Waits for the next connection, and takes it. No byte of it was read yet.
    fn next_connection(&self) -> io::Result<MaybeTls>
        ensures { IfOk result (λ connection. reads_of connection ≡ 0) };

    /// Another handle of a connection's stream.
    fn second_handle(&self, connection: &MaybeTls) -> io::Result<MaybeTls>;
}

/// A listener at a bound address.
#[derive(Drop)]
pub enum Listening {
    /// Over TCP.
    Tcp(TcpListener),
    /// Over a Unix socket.
    Unix(UnixListener),
}

impl Listener for Listening {
    /// Takes the next connection. Over TCP its replies leave at once, and don't wait until earlier
    /// ones are acknowledged (TCP_NODELAY); where that can't be set, the connection is served all
    /// the same.
    fn next_connection(&self) -> io::Result<MaybeTls> {
        match self {
            Listening::Tcp(listener) => {
                let (stream, _) = listener.accept()?;
                let _set = stream.set_nodelay(true);
                Ok(MaybeTls::Plain(Counted::new(stream)))
            }
            Listening::Unix(listener) => {
                let (stream, _) = listener.accept()?;
                Ok(MaybeTls::Unix(Counted::new(stream)))
            }
        }
    }

    fn second_handle(&self, connection: &MaybeTls) -> io::Result<MaybeTls> {
        match connection {
            MaybeTls::Plain(first) => {
                Ok(MaybeTls::Plain(Counted::new(first.stream.try_clone()?)))
            }
            MaybeTls::Unix(first) => Ok(MaybeTls::Unix(Counted::new(first.stream.try_clone()?))),
        }
    }
}

/// How many milliseconds to wait after a failure that may pass, before the call is made again.
const PAUSE: u64 = 10;

/// Linux's error numbers for failures that may pass and have no `ErrorKind` of their own: no
/// descriptor in the system (ENFILE) or in the process (EMFILE), no buffers (ENOBUFS, ENOSR), and
/// errors of a connection before it was taken (ENONET, EPROTO, ENOPROTOOPT, EHOSTDOWN).
const PASSING_NUMBERS: [i32; 8] = [23, 24, 105, 63, 64, 71, 92, 112];

/// Whether a failed call may succeed when it is made again: it was interrupted, the connection was
/// given up before it was taken, the network or a packet filter refused it, or memory, descriptors
/// or buffers ran out.
fn passes(error: &io::Error) -> bool {
    match error.kind() {
        ErrorKind::Interrupted
        | ErrorKind::WouldBlock
        | ErrorKind::TimedOut
        | ErrorKind::OutOfMemory
        | ErrorKind::ConnectionAborted
        | ErrorKind::ConnectionReset
        | ErrorKind::PermissionDenied
        | ErrorKind::NetworkDown
        | ErrorKind::NetworkUnreachable
        | ErrorKind::HostUnreachable => true,
        ErrorKind::Uncategorized => error
            .raw_os_error()
            .is_some_and(|number| PASSING_NUMBERS.contains(&number)),
        _ => false,
    }
}

/// An acceptor of connections over sockets. Each is given as two handles of one stream, one to read
/// and one to write.
///
/// Each call of the listener that fails is counted. Where a call may succeed later, for example
/// because no descriptor is left, the acceptor sleeps and makes it again, as often as it takes. Any
/// other failure is returned as AcceptFailed at once. A connection that was taken isn't given up
/// because its second handle can't be made yet.
#[derive(Drop)]
pub struct SocketAcceptor<L, C> {
    /// Where connections come from.
    pub listener: L,
    /// The clock for pauses.
    pub clock: C,
    /// How many connections were given.
    pub accepted: u64,
    /// How many calls failed. The count saturates at the greatest `u64`.
    pub faults: u64,
}

impl<L, C> SocketAcceptor<L, C> {
    /// An acceptor that has given no connection yet.
    pub fn new(listener: L, clock: C) -> SocketAcceptor<L, C>
        ensures accepted { result.accepted ≡ 0 }
        ensures faults { result.faults ≡ 0 }
    {
        SocketAcceptor {
            listener,
            clock,
            accepted: 0,
            faults: 0,
        }
    }
}

impl<L: Listener, C: Clock> SocketAcceptor<L, C> {
    /// Counts a failure, and sleeps where the failure may pass. AcceptFailed says that it doesn't.
    fn wait_out(&mut self, error: &io::Error) -> Result<(), AcceptFailed>
        ensures accepted { self.new.accepted ≡ self.old.accepted }
        ensures risen { HasRisen self.old.faults self.new.faults }
        ensures never_falls { self.old.faults ≤ self.new.faults }
    {
        self.faults = self.faults.saturating_add(1);
        if !passes(error) {
            return Err(AcceptFailed {});
        }
        self.clock.sleep(Duration::from_millis(PAUSE));
        Ok(())
    }

    /// Takes the next connection, however often that has to be tried.
    fn take(&mut self) -> Result<MaybeTls, AcceptFailed>
        ensures unread { IfOk result (λ connection. reads_of connection ≡ 0) }
        ensures accepted { self.new.accepted ≡ self.old.accepted }
        ensures failed { OnErr result (HasRisen self.old.faults self.new.faults) }
        ensures never_falls { self.old.faults ≤ self.new.faults }
    {
        for _ in 0..u64::MAX {
            match self.listener.next_connection() {
                Ok(connection) => return Ok(connection),
                Err(error) => self.wait_out(&error)?,
            }
        }
        self.faults = self.faults.saturating_add(1);
        Err(AcceptFailed {})
    }

    /// Makes the second handle of a connection, however often that has to be tried.
    fn double(&mut self, connection: &MaybeTls) -> Result<MaybeTls, AcceptFailed>
        ensures accepted { self.new.accepted ≡ self.old.accepted }
        ensures failed { OnErr result (HasRisen self.old.faults self.new.faults) }
        ensures never_falls { self.old.faults ≤ self.new.faults }
    {
        for _ in 0..u64::MAX {
            match self.listener.second_handle(connection) {
                Ok(second) => return Ok(second),
                Err(error) => self.wait_out(&error)?,
            }
        }
        self.faults = self.faults.saturating_add(1);
        Err(AcceptFailed {})
    }
}

impl<L: Listener, C: Clock> Acceptor for SocketAcceptor<L, C> {
    type In = MaybeTls;

    type Out = MaybeTls;

    ghost faults = { λ a. a.faults };

    ghost accepted = { λ a. a.accepted };

    fn accept(&mut self) -> Result<(MaybeTls, MaybeTls), AcceptFailed> {
        let connection = self.take()?;
        let second = self.double(&connection)?;
        self.accepted += 1;
        Ok((connection, second))
    }
}
