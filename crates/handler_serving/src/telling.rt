//! What the program tells of itself, and of how it ended.

use many_clients::ListenError;
use pg_session::{EndKind, ServeError};
use std::io::{self, Eprint};
use std::process::ExitCode;

/// Tells standard output how the program is used.
pub(crate) fn tell_help(rt: &impl Print, name: &str) -> io::Result<()> {
    println!(rt;
        "{name} serves its handlers' queries to clients that speak PostgreSQL's protocol, versions 3.0 and 3.2.\n"
    )?;
    println!(rt; "usage: {name} listen [tcp] PORT [COUNT]")?;
    println!(rt; "       {name} listen unix PATH [COUNT]")?;
    println!(rt; "       {name} serve PID KEY")?;
    println!(rt; "       {name} --help | --version\n")?;
    println!(rt; "{LISTEN_HELP}")?;
    println!(rt; "{SERVE_HELP}")?;
    print!(rt; "{STATUS_HELP}")
}

/// What `--help` tells of `listen`.
const LISTEN_HELP: &str = "\
listen  takes in connections at 127.0.0.1:PORT (0 to 65535, where 0 takes a free port), or at a Unix socket made at
        PATH, and serves each on a thread of its own. After COUNT connections (0 to 10000), or when it can't go on, it
        takes in no more, and ends when each client has been served. PATH must be free, or a socket at which no server
        listens, which is taken over; at the end the socket is removed. SIGINT and SIGTERM end the server and its
        clients at once.";

/// What `--help` tells of `serve`.
const SERVE_HELP: &str = "\
serve   serves one client: its bytes come on standard input, the replies go to standard output. The client is told
        PID (1 to 2147483647) and KEY (an even number of hexadecimal digits, 8 to 512; in 3.0 the first eight).
";

/// What `--help` tells of the exit status.
const STATUS_HELP: &str = "\
Exit status: 0 done; 2 wrong words; 4 a read failed; 5 a write failed; 6 1000000000 reads and polls were spent; 7 out of
memory, or no random bytes for a key; 8 the pid is taken; 10 a bad frame; 11 a fatal error; 12 the place can't be bound, or
a connection can't be accepted; 13 a thread can't be started. Each status but 0 comes with a line on standard error.
";

/// Tells standard output the program's version, which is that of this library.
pub(crate) fn tell_version(rt: &impl Print, name: &str) -> io::Result<()> {
    println!(rt; "{name} 0.1.0")
}

/// Tells standard error that a text could not be written to standard output, where it couldn't, and
/// gives the status.
pub(crate) fn tell_written(rt: &impl Eprint, written: io::Result<()>) -> ExitCode {
    match written {
        Ok(()) => ExitCode::SUCCESS,
        Err(error) => match error.kind() {
            io::ErrorKind::OutOfMemory => tell(rt, Some((7, "out of memory"))),
            _ => tell(rt, Some((5, "write fault"))),
        },
    }
}

/// Tells standard error how the words are used, and gives the status. It is the same where the line
/// can't be written.
pub(crate) fn tell_usage(rt: &impl Eprint, name: &str) -> ExitCode {
    let _written = eprintln!(rt;
        "usage: {name} serve PID KEY, listen [tcp] PORT [COUNT], listen unix PATH [COUNT]"
    );
    ExitCode::from(2)
}

/// The status of how a client was served, and the line that comes with it.
fn served_so(answer: &Result<EndKind, ServeError>) -> Option<(u8, &'static str)> {
    match answer {
        Ok(EndKind::Terminate) | Ok(EndKind::InputEnd) | Ok(EndKind::CancelServed) => None,
        Ok(EndKind::BadFrame) => Some((10, "bad frame")),
        Ok(EndKind::Fatal) => Some((11, "fatal")),
        Err(ServeError::ReadFault) => Some((4, "read fault")),
        Err(ServeError::WriteFault) => Some((5, "write fault")),
        Err(ServeError::TurnLimit) => Some((6, "turn limit")),
        Err(ServeError::NoMemory) => Some((7, "out of memory")),
    }
}

/// The status of why a server stopped listening, and the line that comes with it.
fn listened_so(answer: &Result<u64, ListenError>) -> Option<(u8, &'static str)> {
    match answer {
        Ok(_) => None,
        Err(ListenError::AcceptFault) => Some((12, "accept fault")),
        Err(ListenError::SpawnFault) => Some((13, "spawn fault")),
        Err(ListenError::PidTaken(_)) => Some((8, "pid is taken")),
        Err(ListenError::NoMemory) => Some((7, "out of memory")),
    }
}

/// Tells standard error how a client was served, where that was no good end, and gives the status.
pub(crate) fn tell_served(rt: &impl Eprint, answer: &Result<EndKind, ServeError>) -> ExitCode {
    tell(rt, served_so(answer))
}

/// Tells standard error why a server stopped listening, where that was no good end, and gives the
/// status.
pub(crate) fn tell_listened(rt: &impl Eprint, answer: &Result<u64, ListenError>) -> ExitCode {
    tell(rt, listened_so(answer))
}

/// Writes a line to standard error, where there is one, and gives its status. The status is the same
/// where the line can't be written.
fn tell(rt: &impl Eprint, told: Option<(u8, &'static str)>) -> ExitCode {
    let Some((status, line)) = told else {
        return ExitCode::SUCCESS;
    };
    let _written = eprintln!(rt; "{line}");
    ExitCode::from(status)
}
