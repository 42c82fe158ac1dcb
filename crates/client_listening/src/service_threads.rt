//! A service that many clients share, and the threads on which they are served.

ghost use Rattle.std.specs.Prelude.{◌≡◌, IfOk};

use crate::shared_service::SharedService;
use many_clients::{AdmittedClient, JobThreads, ServiceJob};
use pg_streams::MaybeTls;
use std::alloc::{AllocError, Global};

/// A service that all clients share, and the threads on which they are served. The program's `main`
/// starts the threads, since it alone has the leave to.
#[derive(Drop)]
pub struct ServiceThreads<V> {
    /// The service.
    pub service: V,
    /// The threads.
    pub threads: JobThreads<ServiceJob<V, MaybeTls, MaybeTls>>,
}

impl<V: SharedService> ServiceThreads<V> {
    /// A server of this service, which serves nobody yet. The only error is want of memory.
    pub fn new(alloc: Global, service: V) -> Result<ServiceThreads<V>, AllocError>
        ensures { IfOk result (λ server. server.service ≡ service) }
    {
        Ok(ServiceThreads {
            service,
            threads: JobThreads::new(alloc)?,
        })
    }

    /// A server of this service, which serves nobody yet, for two owners: who starts its threads, and
    /// who waits for them. The only error is want of memory.
    pub fn for_two(
        alloc: Global,
        service: V,
    ) -> Result<(ServiceThreads<V>, ServiceThreads<V>), AllocError>
        ensures first { IfOk result (λ servers. servers.0.service ≡ service) }
        ensures second { IfOk result (λ servers. V.shared servers.1.service ≡ V.shared service) }
    {
        let server = ServiceThreads::new(alloc, service)?;
        let other = server.share()?;
        Ok((server, other))
    }

    /// The same server, for another owner. The only error is want of memory.
    pub fn share(&self) -> Result<ServiceThreads<V>, AllocError>
        ensures { IfOk result (λ server. V.shared server.service ≡ V.shared self.now.service) }
    {
        Ok(ServiceThreads {
            service: self.service.share()?,
            threads: self.threads.share()?,
        })
    }

    /// The job of a client that was taken in: it is served by the service. The only error is want of
    /// memory, after which the client is gone.
    pub fn job_of(
        &self,
        client: AdmittedClient<MaybeTls, MaybeTls>,
    ) -> Result<ServiceJob<V, MaybeTls, MaybeTls>, AllocError>
        ensures client { IfOk result (λ job. job.client ≡ client) }
        ensures service { IfOk result (λ job. V.shared job.service ≡ V.shared self.now.service) }
    {
        let service = self.service.share()?;
        Ok(ServiceJob { service, client })
    }
}
