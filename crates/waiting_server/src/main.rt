//! The program waiting_server, over which clients and cancels are tried while a query isn't ready: its
//! queries wait by the clock.
#![tactic(auto)]

use client_services::HandlerService;
use handler_serving::run_threads;
use std::io;
use std::process::ExitCode;
use std::sync::Arc;
use waiting_handlers::{WaitingHandlers, WaitingService};

fn main(rt: HostRuntime) -> io::Result<ExitCode> {
    let handlers = HandlerService {
        handlers: Arc::new(rt.alloc(), WaitingHandlers::new(rt))?,
    };
    run_threads(
        rt,
        "waiting_server",
        WaitingService { handlers },
        rt.stdout(),
    )
}
