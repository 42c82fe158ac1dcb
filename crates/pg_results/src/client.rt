//! What the server knows of a client.

ghost use Rattle.std.specs.Prelude.{◌≡◌, OnOk, OnErr};
ghost use Rattle.std.specs.Option.{option_copied};
ghost use Rattle.std.specs.FinMap as fin;

use pg_messages::{PgStr, ProtocolVersion, SecretKey, TransactionStatus};
use std::alloc::{AllocError, Global};
use std::collections::BTreeMap;
use std::marker::Model;

/// The phase of a conversation.
#[derive(Clone, Copy, Debug, PartialEq, Eq)]
pub enum PgWireConnectionState {
    /// The startup packet is awaited.
    AwaitingStartup,
    /// The session is ready for a query.
    ReadyForQuery,
    /// After an error messages are dropped up to the next Sync.
    AwaitingSync,
    /// Data of a COPY is awaited. True exactly where an Execute began the COPY.
    CopyInProgress(bool),
}

/// The startup parameters of a client: texts under names, which are compared by their bytes.
#[derive(Drop)]
pub struct Metadata {
    parameters: BTreeMap<PgStr, PgStr>,
}

impl Model for Metadata {
    ghost use Rattle.std.specs.Prelude.{ℕ, List};
    ghost use Rattle.std.specs.FinMap as fin;
    ghost use Rattle.std.specs.Coded.{coded_list, coded_ℕ};
    ghost use Rattle.named_entries.specs.Names.{NameMap};

    ghost Value = { NameMap (List ℕ) };

    ghost coded = { fin.code (coded_list coded_ℕ) (coded_list coded_ℕ) };

    ghost view = { λ m. fin.from_entries m.parameters.entries };
}

impl Metadata {
    /// No parameter, which takes no memory.
    pub fn new(alloc: Global) -> Metadata
        ensures { result ≡ fin.empty }
    {
        Metadata {
            parameters: BTreeMap::new(alloc),
        }
    }

    /// The parameters of a map, which isn't copied.
    pub fn from_map(parameters: BTreeMap<PgStr, PgStr>) -> Metadata
        ensures { result ≡ fin.from_entries parameters.entries }
    {
        Metadata { parameters }
    }

    /// The parameters as a map, which isn't copied.
    pub fn into_map(self) -> BTreeMap<PgStr, PgStr>
        ensures { fin.from_entries result.entries ≡ self }
    {
        let Metadata { parameters } = self;
        parameters
    }

    /// The parameters as a map.
    pub fn as_map(&self) -> &BTreeMap<PgStr, PgStr>
        ensures { fin.from_entries result.now.entries ≡ self.now }
    {
        &self.parameters
    }

    /// The value of a parameter, or None exactly where it wasn't given.
    pub fn get(&self, name: &PgStr) -> Option<&PgStr>
        ensures { option_copied result ≡ fin.get self.now name.now }
    {
        self.parameters.get(name)
    }

    /// Puts a value under a name, in the place of one that is there. After an error nothing has
    /// changed.
    pub fn insert(&mut self, name: PgStr, value: PgStr) -> Result<(), AllocError>
        ensures ok { OnOk result (self.new ≡ fin.insert self.old name value) }
        ensures err { OnErr result (self.new ≡ self.old) }
    {
        self.parameters.insert(name, value)?;
        Ok(())
    }
}

/// What handlers see of a client.
#[derive(Drop)]
pub struct ClientInfo {
    /// The session's process number.
    pub pid: i32,
    /// The session's secret, which cancels its query. It is as long as the client received it.
    pub secret_key: SecretKey,
    /// The version of the protocol that the client asked for.
    pub protocol: ProtocolVersion,
    /// The startup parameters, with their names in lower case.
    pub metadata: Metadata,
    /// The session's transaction status.
    pub status: TransactionStatus,
    /// The phase of the conversation.
    pub state: PgWireConnectionState,
}
