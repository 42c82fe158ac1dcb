//! A law of the counter. The function takes nothing and does nothing: its contract is the law.

ghost use Rattle.std.specs.Prelude.{◌≡◌, ◌+◌, ◌<◌, ℕ, Bool, false, List, [], ◌∷◌};
ghost use Rattle.pg_messages.specs.declared.frontend.PgWireFrontendMessage.{PgWireFrontendMessage};
ghost use Rattle.pg_results.specs.declared.client.PgWireConnectionState.TheVariants as phase;
ghost use Rattle.pg_client.specs.declared.desk.DeskCall.TheVariants.{Start};
ghost use Rattle.pg_client.specs.Answer.{Goes};
ghost use Rattle.pg_client.specs.State.{State};
ghost use Rattle.conversation_table.specs.Handlers.{Handlers};
ghost use Rattle.conversation_table.specs.Table.{whole_table};
ghost use Rattle.conversation_runs.specs.Streams.{greatest_count};
ghost use Rattle.counter.specs.Counter.{CounterMeets, asks_next, next_query, number_replies};
ghost use Rattle.counter.specs.declared.answers.CounterStatement.{CounterStatement};

/// Where a query is awaited, NEXT counts by one, and is answered by one row with the number. Any
/// other message counts nothing.
pub fn next_is_the_next_number()
    ensures counts { (w v : ℕ) (s : State CounterStatement) (h : Handlers CounterStatement)
        → s.info.state ≡ phase.ReadyForQuery → CounterMeets w s next_query h v
        → w < greatest_count → v ≡ w + 1 }
    ensures tells { (w v : ℕ) (s : State CounterStatement) (h : Handlers CounterStatement)
        (answers : List Bool) → s.info.state ≡ phase.ReadyForQuery
        → CounterMeets w s next_query h v → whole_table h answers s next_query ≡ record {
          replies = number_replies v s.info.status;
          calls = Start ∷ [];
          next = Goes s;
        } }
    ensures stays { (w v : ℕ) (s : State CounterStatement) (m : PgWireFrontendMessage)
        (h : Handlers CounterStatement) → asks_next s.info.state m ≡ false
        → CounterMeets w s m h v → v ≡ w }
{}
