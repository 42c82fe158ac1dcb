//! The program styles_server, an example of how handlers of one's own are served: a client's query
//! is the text of an interval, and the reply is that interval in each of PostgreSQL's four styles.
#![tactic(auto)]

use handler_serving::{ClientSpawner, HandlerServer, run_program};
use row_handlers::RowHandlers;
use std::io;
use std::process::ExitCode;
use styles::Styles;

fn main(rt: HostRuntime) -> io::Result<ExitCode> {
    let server = HandlerServer::new(rt.alloc(), RowHandlers::new(rt.alloc(), Styles)?)?;
    let jobs = server.share()?;
    let start = Box::new(
        rt.alloc(),
        move |client| jobs.threads.start_made(rt, jobs.job_of(client)),
    )?;
    let threads = ClientSpawner::new(server.threads, start);
    run_program(rt, "styles_server", server.handlers, threads, rt.stdout())
}
