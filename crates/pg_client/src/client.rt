//! A client, as handlers see it.

use pg_outbox::Outbox;
use pg_portal::ClientInfo;

/// A client, the store of its session, and the replies that wait for it.
#[derive(Drop)]
pub struct Client<St> {
    /// What is known of the client.
    pub info: ClientInfo,
    /// Its statements and portals.
    pub store: St,
    /// The replies that wait.
    pub outbox: Outbox,
}
