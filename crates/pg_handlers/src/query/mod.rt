//! Queries: how they are polled, and how their responses are sent.

ghost use Rattle.std.specs.Prelude.{◌≡◌, ◌≤◌, false, suc, IfErr, OnErr, List};
ghost use Rattle.pg_client.specs.Desk.{KeepsDesk};
ghost use Rattle.conversation_table.specs.Handlers.{QueryTold};
ghost use Rattle.pg_handlers.specs.Polling.{IsPolled};
ghost use Rattle.conversation_table.specs.Questions.{Verdict, IsAsked, IsVerdict, IsCausedSo, HasSpent, questions_since};
ghost use Rattle.conversation_table.specs.Waiting.{HasWaited};

use pg_client::{CancelDesk, SessionError, Turns};
use pg_portal::PgWireError;
use std::alloc::AllocError;

mod describing;
pub mod extended;
mod respond;
mod run;
pub mod simple;
mod started;
mod statements;

/// The result of a poll.
#[derive(Drop)]
pub enum Turn<T> {
    /// The query isn't ready yet.
    Unready,
    /// The outcome of the query.
    Ready(T),
}

/// A query that was begun, and is polled until it is ready.
pub trait QueryState: Drop {
    /// What it gives.
    type Out: Drop;

    // whether its outcome was given; until then how many polls it owes, and its outcome
    ghost told: { Self → QueryTold Self.Out };

    /// Polls the query. The result is Unready exactly where a poll is owed, and one fewer is owed
    /// then. Else it is the outcome, and the query is spent then and isn't polled again. The only
    /// error is running out of memory, after which nothing has changed.
    fn poll(&mut self) -> Result<Turn<Self::Out>, AllocError>
        requires { (told self.old).is_spent ≡ false }
        ensures { IsPolled (told self.old) result (told self.new) };
}

/// What the beginning of a query came to.
#[derive(Drop)]
pub enum Begun<M, Q> {
    /// The message was answered, or refused with this error.
    Answered(Result<(), SessionError>),
    /// The first poll found the query unready, and nothing has changed. The query waits for its next
    /// poll, and this is what its answer needs of the message.
    Unready(M, Q),
}

/// Waits for a query that was found unready by its last poll. For each such poll a turn is spent,
/// and the desk is then asked whether the query was canceled. Where it was, the error is
/// QueryCanceled. TurnLimit comes where no turn is left.
fn wait<Q: QueryState, D: CancelDesk>(
    query: &mut Q,
    desk: &mut D,
    turns: &mut Turns,
) -> Result<Q::Out, SessionError>
    requires { (Q.told query.old).is_spent ≡ false }
    ensures asked { (verdict : Verdict)
        × IsAsked (suc (Q.told query.old).owes) (D.told desk.old).calls (D.told desk.new).calls
        verdict × IsVerdict (Q.told query.old).outcome verdict result }
    ensures waited { HasWaited (D.told desk.old) (D.told desk.new) turns.old turns.new result }
{
    loop {
        if !turns.spend() {
            return Err(SessionError::TurnLimit);
        }
        if desk.ask()? {
            return Err(SessionError::Wire(PgWireError::QueryCanceled));
        }
        match query.poll() {
            Ok(Turn::Ready(out)) => return Ok(out),
            Ok(Turn::Unready) => {}
            Err(_) => return Err(SessionError::Wire(PgWireError::NoMemory)),
        }
    }
}

/// Waits for a query as `wait` does, and drops it.
#[inline(always)]
pub(crate) fn wait_for<Q: QueryState, D: CancelDesk>(
    mut query: Q,
    desk: &mut D,
    turns: &mut Turns,
) -> Result<Q::Out, SessionError>
    requires { (Q.told query).is_spent ≡ false }
    ensures asked { (verdict : Verdict)
        × IsAsked (suc (Q.told query).owes) (D.told desk.old).calls (D.told desk.new).calls verdict
        × IsVerdict (Q.told query).outcome verdict result }
    ensures waited { HasWaited (D.told desk.old) (D.told desk.new) turns.old turns.new result }
{
    wait(&mut query, desk, turns)
}
