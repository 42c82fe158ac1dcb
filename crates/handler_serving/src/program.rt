//! The program: it reads its words, and does what they order.

ghost use Rattle.std.specs.Prelude.{◌≡◌};

use crate::listening::listen_over;
use crate::one_client::{OverHandlers, OverService, ServesOne};
use crate::orders::{Order, order_of};
use crate::telling::{
    tell_help, tell_listened, tell_served, tell_usage, tell_version, tell_written,
};
use client_listening::{
    ClientThreads, ListenError, ServiceThreads, SharedService, TURNS, listen_at,
};
use client_services::Service;
use pg_messages::{PgList, PgStr};
use pg_serve::{ReaderSource, WriterSink};
use pg_session::PgWireServerHandlers;
use relation_words::KeyBytes;
use std::alloc::AllocError;
use std::env::Env;
use std::fs::Files;
use std::io::{Eprint, Input, Write};
use std::net::{Net, TcpListener, TcpStream};
use std::process::ExitCode;
use std::random::RandomSource;
use std::sync::{Arc, Wait};
use std::thread::Threads;
use std::time::Clock;
use std::{env, io};

/// Does what the words of the command line order (`order_of`) with these handlers, which all clients
/// share. `threads` starts the service of a client that was taken in, on a thread of its own. `main`
/// makes it, since it alone has the leave to start threads (crates/styles_server shows how).
///
/// `listen` serves each connection on a thread of its own, tells `listening on ..` once it waits for
/// the first one, and waits in the end for the clients that are served. The replies of `serve` go to
/// `writer`. The status is 0 at a good end, and 2 where the words order nothing, also where they can't
/// be read. Any other status has its cause, and comes with a line on standard error, as `--help` tells.
/// There is no error: that the answer could be one is for a `main` that has others.
pub fn run_program<
    R: Wait
        + Net<Stream = TcpStream, Listener = TcpListener>
        + Files
        + Clock
        + RandomSource
        + Env
        + AllocGlobal
        + Input
        + Print
        + Eprint
        + Copy
        + Drop,
    H: PgWireServerHandlers,
    T: ClientThreads + Drop,
    W: Write + Drop,
>(rt: R, name: &str, handlers: Arc<H>, threads: T, writer: W) -> io::Result<ExitCode>
    requires started { T.started threads ≡ 0 }
{
    run_words(rt, name, OverHandlers { handlers }, threads, writer)
}

/// The same as [`run_program`], with a service of any kind, as of handlers that change. `threads` has
/// to serve the same service.
pub fn run_service<
    R: Wait
        + Net<Stream = TcpStream, Listener = TcpListener>
        + Files
        + Clock
        + RandomSource
        + Env
        + AllocGlobal
        + Input
        + Print
        + Eprint
        + Copy
        + Drop,
    V: Service,
    T: ClientThreads + Drop,
    W: Write + Drop,
>(rt: R, name: &str, service: V, threads: T, writer: W) -> io::Result<ExitCode>
    requires started { T.started threads ≡ 0 }
{
    run_words(rt, name, OverService { service }, threads, writer)
}

/// The same as [`run_service`], where this function starts the threads itself. A program whose `main`
/// can't name the service uses it, as one over a world that clients share.
pub fn run_threads<
    R: Threads
        + Wait
        + Net<Stream = TcpStream, Listener = TcpListener>
        + Files
        + Clock
        + RandomSource
        + Env
        + AllocGlobal
        + Input
        + Print
        + Eprint
        + Copy
        + Send
        + Drop
        + 'static,
    V: SharedService + Send + 'static,
    W: Write + Drop,
>(rt: R, name: &str, service: V, writer: W) -> io::Result<ExitCode> {
    let (Ok(words), Ok(server)) = (read_words(&rt), ServiceThreads::new(rt.alloc(), service)) else {
        return Ok(tell_listened(&rt, &Err(ListenError::NoMemory)));
    };
    Ok(match order_of(words.as_slice()) {
        None => tell_usage(&rt, name),
        Some(Order::Help) => tell_written(&rt, tell_help(&rt, name)),
        Some(Order::Version) => tell_written(&rt, tell_version(&rt, name)),
        Some(Order::Serve(pid, key)) => {
            let one = OverService {
                service: server.service,
            };
            serve_standard(&rt, one, pid, &key, writer)
        }
        Some(Order::Listen(place, count)) => {
            let answer = listen_over(rt, place, count, &server);
            tell_listened(&rt, &answer)
        }
    })
}

/// Does what the words of the command line order.
fn run_words<
    R: Wait
        + Net<Stream = TcpStream, Listener = TcpListener>
        + Files
        + Clock
        + RandomSource
        + Env
        + AllocGlobal
        + Input
        + Print
        + Eprint
        + Copy
        + Drop,
    O: ServesOne,
    T: ClientThreads + Drop,
    W: Write + Drop,
>(rt: R, name: &str, one: O, threads: T, writer: W) -> io::Result<ExitCode>
    requires started { T.started threads ≡ 0 }
{
    let Ok(words) = read_words(&rt) else {
        return Ok(tell_listened(&rt, &Err(ListenError::NoMemory)));
    };
    Ok(match order_of(words.as_slice()) {
        None => tell_usage(&rt, name),
        Some(Order::Help) => tell_written(&rt, tell_help(&rt, name)),
        Some(Order::Version) => tell_written(&rt, tell_version(&rt, name)),
        Some(Order::Serve(pid, key)) => serve_standard(&rt, one, pid, &key, writer),
        Some(Order::Listen(place, count)) => {
            let answer = listen_at(rt, place, count, TURNS, threads);
            tell_listened(&rt, &answer)
        }
    })
}

/// The words of the command line. There are none where they can't be read, for example since one
/// isn't UTF-8. The only error is want of memory.
fn read_words<R: Env + AllocGlobal>(rt: &R) -> Result<PgList<PgStr>, AllocError> {
    let mut words = PgList::new(rt.alloc());
    match env::args(rt) {
        Ok(args) => {
            for word in args.collect::<Vec<String>>(rt.alloc())? {
                words.push(PgStr::from_string(word))?;
            }
            Ok(words)
        }
        Err(error) => match error.kind() {
            io::ErrorKind::OutOfMemory => Err(AllocError),
            _ => Ok(words),
        },
    }
}

/// Serves the client on standard input, whose replies go to the writer.
fn serve_standard<R: Input + AllocGlobal + Eprint, O: ServesOne, W: Write + Drop>(
    rt: &R,
    one: O,
    pid: i32,
    key: &KeyBytes,
    writer: W,
) -> ExitCode {
    let Ok(key) = key.secret_key(rt.alloc()) else {
        return tell_listened(rt, &Err(ListenError::NoMemory));
    };
    let mut source = ReaderSource {
        reader: rt.reader(),
        reads: 0,
        faults: 0,
    };
    let mut sink = WriterSink {
        writer,
        faults: 0,
        sent: 0,
    };
    let answer = one.serve_one(rt.alloc(), pid, key, &mut source, &mut sink);
    tell_served(rt, &answer)
}
