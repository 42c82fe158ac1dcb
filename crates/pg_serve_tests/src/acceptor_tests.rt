//! An acceptor whose calls fail.

ghost use Rattle.std.specs.Prelude.{◌<◌};

use pg_serve::{Acceptor, Listener, Listening, MaybeTls, SocketAcceptor};
use std::cell::Cell;
use std::io;
use std::net::{TcpListener, TcpStream};
use std::time::{Clock, Duration};

/// A clock that sums up the milliseconds of the pauses that it is asked for, and takes none.
#[derive(Drop)]
struct Pauses<'p> {
    milliseconds: &'p Cell<u64>,
}

impl<'p> Clock for Pauses<'p> {
    fn monotonic(&self) -> io::Result<Duration> {
        Ok(Duration::ZERO)
    }

    fn since_1970(&self) -> io::Result<Duration> {
        Ok(Duration::ZERO)
    }

    fn sleep(&self, duration: Duration) {
        let pause = duration.as_secs().saturating_mul(1000);
        let pause = pause.saturating_add(u64::from(duration.subsec_millis()));
        self.milliseconds
            .set(self.milliseconds.get().saturating_add(pause));
    }
}

/// The number that stands for a call that doesn't fail.
const MADE: i32 = 0;

/// A listener whose calls, in their order, fail with these error numbers of the system. The calls
/// after those don't fail.
#[derive(Drop)]
struct Failing<'f> {
    numbers: &'f [i32],
    calls: Cell<usize>,
    listening: Listening,
}

impl<'f> Failing<'f> {
    /// How the next call fails, if it does.
    fn next_failure(&self) -> Option<io::Error> {
        let call = self.calls.get();
        self.calls.set(call.saturating_add(1));
        match self.numbers.get(call) {
            None | Some(&MADE) => None,
            Some(number) => Some(io::Error::from_raw_os_error(*number)),
        }
    }
}

impl<'f> Listener for Failing<'f> {
    fn next_connection(&self) -> io::Result<MaybeTls> {
        match self.next_failure() {
            None => self.listening.next_connection(),
            Some(error) => Err(error),
        }
    }

    fn second_handle(&self, connection: &MaybeTls) -> io::Result<MaybeTls> {
        match self.next_failure() {
            None => self.listening.second_handle(connection),
            Some(error) => Err(error),
        }
    }
}

/// Whether a connection is a TCP socket that sends without delay.
fn is_prompt(connection: &MaybeTls) -> bool {
    match connection {
        MaybeTls::Plain(socket) => socket.stream.nodelay().is_ok_and(|is_set| is_set),
        _ => false,
    }
}

/// Whether an acceptor gives such a connection.
fn is_given(acceptor: &mut SocketAcceptor<Failing<'_>, Pauses<'_>>) -> bool
    requires room { acceptor.old.accepted < 1000 }
{
    match acceptor.accept() {
        Ok((reader, _writer)) => is_prompt(&reader),
        Err(_) => false,
    }
}

/// What an acceptor does: whether it gives a connection that sends without delay, how many calls
/// failed, and how many milliseconds it asked to pause.
type Told = (bool, u64, u64);

/// What an acceptor at this listener does where its calls fail with these numbers.
fn told(listener: TcpListener, numbers: &[i32]) -> Told {
    let milliseconds = Cell::new(0);
    let pauses = Pauses {
        milliseconds: &milliseconds,
    };
    let failing = Failing {
        numbers,
        calls: Cell::new(0),
        listening: Listening::Tcp(listener),
    };
    let mut acceptor = SocketAcceptor::new(failing, pauses);
    let is_given = is_given(&mut acceptor);
    (is_given, acceptor.faults, milliseconds.get())
}

/// The same where a client waits.
fn accepted(rt: &HostRuntime, numbers: &[i32]) -> io::Result<Told> {
    let listener = TcpListener::bind(rt, "127.0.0.1:0")?;
    let _client = TcpStream::connect(rt, listener.local_addr()?)?;
    Ok(told(listener, numbers))
}

/// The calls that fail, by the system's numbers of their failures, and what comes of them. Each
/// failure that passes is followed by a pause of 10 milliseconds.
const FAILURES: [(&[i32], Told); 6] = [
    (&[], (true, 0, 0)),
    (&[24, 23, 105, 12, MADE], (true, 4, 40)),
    (&[4, 103, 71, 113, MADE, 24, 12], (true, 6, 60)),
    (&[24, 88], (false, 2, 10)),
    (&[MADE, 24, 9], (false, 2, 10)),
    (&[MADE, 104, 4, 110], (true, 3, 30)),
];

/// What accept(2) lists of failures that may pass: a packet filter refused the connection (EPERM,
/// EACCES), the call was interrupted (EINTR) or would block (EAGAIN), no memory (ENOMEM), no
/// descriptor in the system or the process (ENFILE, EMFILE), no streams (ENOSR), and what a
/// connection met before it was taken: ENONET, EPROTO, ENOPROTOOPT, ENETDOWN, ENETUNREACH,
/// ECONNABORTED, ECONNRESET, ENOBUFS, ETIMEDOUT, EHOSTDOWN, EHOSTUNREACH.
const PASSING: [i32; 19] = [
    1, 13, 4, 11, 12, 23, 24, 63, 64, 71, 92, 100, 101, 103, 104, 105, 110, 112, 113,
];

/// What it lists of failures that stay: EBADF, EFAULT, EINVAL, ENOTSOCK, EPROTONOSUPPORT,
/// ESOCKTNOSUPPORT, EOPNOTSUPP.
const STAYING: [i32; 7] = [9, 14, 22, 88, 93, 94, 95];

/// Whether each gives what it has to.
fn are_waited_out(rt: &HostRuntime) -> bool {
    let mut are_so = true;
    for (numbers, told) in FAILURES {
        are_so = are_so && accepted(rt, numbers).is_ok_and(|answer| answer == told);
    }
    are_so
}

/// Whether one failure of each of these numbers comes to this.
fn each_comes_to(rt: &HostRuntime, numbers: &[i32], told: Told) -> bool {
    let mut are_so = true;
    for number in numbers {
        are_so = are_so && accepted(rt, &[*number]).is_ok_and(|answer| answer == told);
    }
    are_so
}

/// A call that fails for want of descriptors, buffers or memory, since it was interrupted, or since
/// the connection was given up, is made again after a pause. One on a bad descriptor, or where
/// nobody listens, is told at once.
#[test]
fn failures_that_pass_are_waited_out(rt: HostRuntime) {
    assert!(rt; are_waited_out(&rt));
}

/// Each failure that may pass is waited out, and no other is.
#[test]
fn each_failure_passes_or_stays(rt: HostRuntime) {
    assert!(rt; each_comes_to(&rt, &PASSING, (true, 1, 10)));
    assert!(rt; each_comes_to(&rt, &STAYING, (false, 1, 0)));
}
