//! Handlers that many clients share, and the threads on which the clients are served.

ghost use Rattle.std.specs.Prelude.{◌≡◌, IfOk};
ghost use Rattle.std.specs.Arc.{arc_value};

use many_clients::{AdmittedClient, HandlerService, JobThreads, ServiceJob};
use pg_serve::MaybeTls;
use pg_session::PgWireServerHandlers;
use std::alloc::{AllocError, Global};
use std::sync::Arc;

/// A client at a socket, which is served by handlers.
pub type HandlerJob<H> = ServiceJob<HandlerService<H>, MaybeTls, MaybeTls>;

/// Handlers that all clients share, and the threads on which the clients are served.
#[derive(Drop)]
pub struct HandlerServer<H> {
    /// The handlers.
    pub handlers: Arc<H>,
    /// The threads.
    pub threads: JobThreads<HandlerJob<H>>,
}

impl<H: PgWireServerHandlers> HandlerServer<H> {
    /// A server over these handlers, which serves nobody yet. The only error is want of memory.
    pub fn new(alloc: Global, handlers: H) -> Result<HandlerServer<H>, AllocError>
        ensures { IfOk result (λ server. arc_value server.handlers ≡ handlers) }
    {
        Ok(HandlerServer {
            handlers: Arc::new(alloc, handlers)?,
            threads: JobThreads::new(alloc)?,
        })
    }

    /// The same server, for another owner. The only error is want of memory.
    pub fn share(&self) -> Result<HandlerServer<H>, AllocError>
        ensures { IfOk result (λ server. arc_value server.handlers ≡ arc_value self.now.handlers) }
    {
        Ok(HandlerServer {
            handlers: Arc::try_clone(&self.handlers)?,
            threads: self.threads.share()?,
        })
    }

    /// The job of a client that was taken in: it is served by the handlers. The only error is want of
    /// memory, after which the client is gone.
    pub fn job_of(
        &self,
        client: AdmittedClient<MaybeTls, MaybeTls>,
    ) -> Result<HandlerJob<H>, AllocError>
        ensures client { IfOk result (λ job. job.client ≡ client) }
        ensures handlers { IfOk result (λ job.
            arc_value job.service.handlers ≡ arc_value self.now.handlers) }
    {
        let handlers = Arc::try_clone(&self.handlers)?;
        Ok(ServiceJob {
            service: HandlerService { handlers },
            client,
        })
    }
}
