//! The handlers.

ghost use Rattle.std.specs.Prelude.{◌≡◌, [], IfOk};
ghost use Rattle.std.specs.List.{AllByRecursion};
ghost use Rattle.conversation_table.specs.Good.{IsSendableResponse};
ghost use Rattle.pg_results.specs.Responses.{told_responses};
ghost use Rattle.waiting_handlers.specs.Told.{polls_of, waited};

use crate::waiting::Waiting;
use pg_handlers::{NoRows, NoopHandler, PgWireServerHandlers, PolledQuery, SimpleQueryHandler};
use pg_messages::PgList;
use pg_portal::{ClientInfo, Response, Tag};
use query_texts::trimmed;
use std::alloc::{AllocError, Global};
use std::time::Clock;

/// Handlers whose simple queries wait by a clock, and are answered `WAITED` then. The query `soon`
/// is unready for 20 polls, the query `late` for 20,000, and any other for none. A poll that finds a
/// query unready takes a millisecond. Extended queries and COPY are refused.
#[derive(Drop)]
pub struct WaitingHandlers<C> {
    clock: C,
    refusing: NoopHandler,
}

impl<C: Clock + Copy + Drop> WaitingHandlers<C> {
    /// Handlers that wait by this clock.
    pub fn new(clock: C) -> WaitingHandlers<C> {
        WaitingHandlers {
            clock,
            refusing: NoopHandler,
        }
    }
}

/// How many polls find the query of a trimmed text unready.
fn polls_of(text: &str) -> u32
    ensures { result ≡ polls_of text.now }
{
    match text {
        "soon" => 20,
        "late" => 20_000,
        _ => 0,
    }
}

/// What each query is answered.
#[tactic(auto, using(crate::proofs::Sendable::waited_sendable))]
fn waited(alloc: Global) -> Result<PgList<Response<NoRows, NoRows>>, AllocError>
    ensures told { IfOk result (λ all. told_responses (λ rows. []) (λ none. []) all ≡ waited) }
    ensures sendable { AllByRecursion IsSendableResponse waited }
{
    let mut all = PgList::new(alloc);
    all.push(Response::Execution(Tag::new(alloc, "WAITED")?))?;
    Ok(all)
}

impl<C: Clock + Copy + Drop> SimpleQueryHandler for WaitingHandlers<C> {
    ghost use Rattle.waiting_handlers.specs.Told.{told_simple};

    type Rows = NoRows;

    type CopyRows = NoRows;

    type Query = Waiting<PgList<Response<NoRows, NoRows>>, C>;

    ghost told = { λ _. told_simple };

    fn do_query(
        &self,
        alloc: Global,
        _client: &ClientInfo,
        query: &str,
    ) -> Result<Waiting<PgList<Response<NoRows, NoRows>>, C>, AllocError> {
        let polls = polls_of(trimmed(query));
        let query = PolledQuery::new(polls, Ok(waited(alloc)?));
        Ok(Waiting::new(self.clock, query))
    }
}

impl<C: Clock + Copy + Drop> PgWireServerHandlers for WaitingHandlers<C> {
    ghost use Rattle.waiting_handlers.specs.Told.{waiting_handlers};

    type Simple = WaitingHandlers<C>;

    type Extended = NoopHandler;

    type Copying = NoopHandler;

    ghost told = { λ _. waiting_handlers };

    fn simple_query_handler(&self) -> &WaitingHandlers<C> {
        self
    }

    fn extended_query_handler(&self) -> &NoopHandler {
        &self.refusing
    }

    fn copy_handler(&self) -> &NoopHandler {
        &self.refusing
    }
}
