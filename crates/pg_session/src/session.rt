//! The session: a conversation with one client, fed with the client's bytes piece by piece.

ghost use Rattle.std.specs.Prelude.{◌≡◌, ◌++◌, [], take, true, length, IfOk, OnOk, OnErr};
ghost use Rattle.std.specs.Arc.{arc_value};
ghost use Rattle.pg_portal.specs.Maps.{no_maps};
ghost use Rattle.pg_client.specs.State.{first_info, first_state, state_of};
ghost use Rattle.conversation_table.specs.Good.{IsGoodState};
ghost use Rattle.conversation_runs.specs.Session.{ChangesUnsent};
ghost use Rattle.pg_session.specs.Stored.{StoresAlike};

use bytes::BytesMut;
use pg_handlers::{Client, ExtendedQueryHandler, Outbox, PgWireServerHandlers};
use pg_messages::{PgWireMessageServerCodec, ProtocolVersion, SecretKey, TransactionStatus};
use pg_portal::{ClientInfo, Metadata, PgWireConnectionState, PortalStore};
use std::alloc::{AllocError, Global};
use std::marker::Model;
use std::sync::Arc;

/// The conversation with one client, fed with the client's bytes piece by piece.
#[derive(Drop)]
pub struct Session<
    H: PgWireServerHandlers,
    St: PortalStore<Statement = <H::Extended as ExtendedQueryHandler>::Statement>,
> {
    handlers: Arc<H>,
    client: Client<St>,
    codec: PgWireMessageServerCodec,
    rest: BytesMut,
    opened: bool,
}

impl<
    H: PgWireServerHandlers,
    St: PortalStore<Statement = <H::Extended as ExtendedQueryHandler>::Statement>,
> Model for Session<H, St> {
    ghost use Rattle.std.specs.Prelude.{◌≡◌, true};
    ghost use Rattle.std.specs.Coded.{codes};
    ghost use Rattle.std.specs.FinMap as fin;
    ghost use Rattle.std.specs.Arc.{arc_value};
    ghost use Rattle.conversation_table.specs.Good.{IsGoodState};
    ghost use Rattle.pg_client.specs.State.{state_of};
    ghost use Rattle.conversation_runs.specs.Session.{SessionValue};

    ghost Value = { SessionValue H H.Extended.Statement };

    ghost coded = { Prim.hlevel (codes, fin.code) };

    ghost view = { λ s. record {
      handlers = arc_value s.handlers;
      state = state_of St.maps s.client;
      rest = s.rest.items;
      unsent = s.client.outbox;
      is_open = s.opened;
    } };

    ghost invariant = { λ s. s.opened ≡ true
        → IsGoodState (H.told (arc_value s.handlers)).extended.parser
        (state_of St.maps s.client) };
}

/// What is known of a client before its startup packet.
fn first_info(alloc: Global, pid: i32, key: SecretKey) -> ClientInfo
    ensures { result ≡ first_info pid key }
{
    ClientInfo {
        pid,
        secret_key: key,
        protocol: ProtocolVersion::PROTOCOL3_0,
        metadata: Metadata::new(alloc),
        status: TransactionStatus::Idle,
        state: PgWireConnectionState::AwaitingStartup,
    }
}

impl<
    H: PgWireServerHandlers,
    St: PortalStore<
        Statement = <H::Extended as ExtendedQueryHandler>::Statement,
        Rows = <H::Extended as ExtendedQueryHandler>::Rows,
    >,
> Session<H, St> {
    /// A session that awaits a client's startup packet. The client will receive this pid and this
    /// key, or in version 3.0 the key's first four bytes. The store has to be empty. The only error
    /// is running out of memory.
    pub fn new(
        alloc: Global,
        handlers: Arc<H>,
        store: St,
        pid: i32,
        key: SecretKey,
    ) -> Result<Session<H, St>, AllocError>
        requires empty { St.maps store ≡ no_maps }
        ensures { IfOk result (λ session. session ≡ record {
          handlers = arc_value handlers;
          state = first_state pid key;
          rest = [];
          unsent = [];
          is_open = true;
        }) }
    {
        match Outbox::new(alloc) {
            Ok(outbox) => Ok(Session::with_outbox(alloc, handlers, store, pid, key, outbox)),
            Err(error) => Err(error),
        }
    }

    /// A session whose replies wait in this outbox, which is empty.
    fn with_outbox(
        alloc: Global,
        handlers: Arc<H>,
        store: St,
        pid: i32,
        key: SecretKey,
        outbox: Outbox,
    ) -> Session<H, St>
        requires empty { St.maps store ≡ no_maps }
        requires unsent { outbox ≡ [] }
        ensures { result ≡ record {
          handlers = arc_value handlers;
          state = first_state pid key;
          rest = [];
          unsent = [];
          is_open = true;
        } }
    {
        let info = first_info(alloc, pid, key);
        let client = Client {
            info,
            store,
            outbox,
        };
        Session {
            handlers,
            client,
            codec: PgWireMessageServerCodec::new(),
            rest: BytesMut::new(alloc),
            opened: true,
        }
    }

    /// How many bytes the session holds of a frame that isn't whole.
    pub fn held(&self) -> usize
        ensures { result ≡ length self.now.rest }
    {
        self.rest.len()
    }

    /// The phase of the conversation: whether the startup packet, the next query, a Sync or data of
    /// a COPY is awaited.
    pub fn state(&self) -> PgWireConnectionState
        ensures { result ≡ self.now.state.info.state }
    {
        self.client.info.state
    }

    /// Whether the session takes more bytes. It does until it ends or fails.
    pub fn is_open(&self) -> bool
        ensures { result ≡ self.now.is_open }
    {
        self.opened
    }

    /// The client: what is known of it, its statements and portals, and the replies that wait. While
    /// the session is open, the statements and portals are good under its handlers.
    pub fn client(&self) -> &Client<St>
        ensures state { state_of St.maps result.now ≡ self.now.state }
        ensures unsent { result.now.outbox ≡ self.now.unsent }
        ensures good { self.now.is_open ≡ true
            → IsGoodState (H.told self.now.handlers).extended.parser self.now.state }
    {
        &self.client
    }

    /// Answers what comes by these handlers from here on. The statements and portals stay, and have
    /// to be as good under them: their parser gives the same statements, with the same columns.
    pub fn tell_by(&mut self, handlers: Arc<H>)
        requires alike { StoresAlike (H.told self.old.handlers).extended.parser
            (H.told (arc_value handlers)).extended.parser }
        ensures { self.new ≡ record {
          handlers = arc_value handlers;
          state = self.old.state;
          rest = self.old.rest;
          unsent = self.old.unsent;
          is_open = self.old.is_open;
        } }
    {
        self.handlers = handlers;
    }

    /// The replies that wait to be sent.
    pub fn unsent(&self) -> &Outbox
        ensures { result.now ≡ self.now.unsent }
    {
        &self.client.outbox
    }

    /// Keeps the first `len` bytes of the replies that wait, and appends `bytes`. The only error is
    /// running out of memory, after which only the kept bytes wait.
    pub fn replace_unsent(&mut self, len: usize, bytes: &[u8]) -> Result<(), AllocError>
        ensures ok { OnOk result (self.new.unsent ≡ take len self.old.unsent ++ bytes.now) }
        ensures err { OnErr result (self.new.unsent ≡ take len self.old.unsent) }
        ensures same { ChangesUnsent self.old self.new }
    {
        replace_behind(&mut self.client.outbox, len, bytes)
    }
}

/// Keeps the first `len` bytes of an outbox, and appends `bytes`.
fn replace_behind(outbox: &mut Outbox, len: usize, bytes: &[u8]) -> Result<(), AllocError>
    ensures ok { OnOk result (outbox.new ≡ take len outbox.old ++ bytes.now) }
    ensures err { OnErr result (outbox.new ≡ take len outbox.old) }
{
    outbox.truncate(len);
    outbox.push_bytes(bytes)
}

mod answer;
mod feed;
mod query;
mod step;

pub use answer::{process_error, process_message};
