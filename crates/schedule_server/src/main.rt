//! The program schedule_server, a service whose handlers change: clients book shifts, cancel them and
//! see them, and all of them share one schedule, which is empty at the start and is held in memory.
#![tactic(auto)]

ghost use Rattle.std.specs.Prelude.{◌≡◌};

use handler_serving::run_threads;
use schedule::Schedule;
use schedule_serving::ScheduleClients;
use shared_history::{Naming, Opened};
use shared_worlds::Course;
use std::env::Env;
use std::fs::Files;
use std::io::{self, Eprint, Input, Write};
use std::marker::Brand;
use std::net::{Net, TcpListener, TcpStream};
use std::process::ExitCode;
use std::random::RandomSource;
use std::sync::Wait;
use std::thread::Threads;
use std::time::Clock;

fn main(rt: HostRuntime) -> io::Result<ExitCode> {
    run_opened::<_, Brand, _>(rt, Opened::new(rt.alloc())?, rt.stdout())
}

/// Serves the schedule whose history was opened. Its name `J` is that of what was opened.
fn run_opened<
    R: Threads
        + Wait
        + Net<Stream = TcpStream, Listener = TcpListener>
        + Files
        + Clock
        + RandomSource
        + Env
        + AllocGlobal
        + Input
        + Print
        + Eprint
        + Copy
        + Send
        + Sync
        + Drop
        + 'static,
    J: Naming + Send + Sync + 'static,
    O: Write + Drop,
>(rt: R, opened: Opened<Course<Schedule>>, writer: O) -> io::Result<ExitCode>
    requires { opened ≡ J.table }
{
    let clients = ScheduleClients::<R, J>::new(rt, rt.alloc(), opened)?;
    run_threads(rt, "schedule_server", clients, writer)
}
