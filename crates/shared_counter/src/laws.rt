//! A law of the counter. The function takes nothing and does nothing: its contract is the law.

ghost use Rattle.std.specs.Prelude.{◌≡◌, ◌+◌, ◌<◌, ◌++◌, ℕ, Bool, List, [], ◌∷◌, Some, length, slice_get};
ghost use mathlib.Core.List.{IsPrefix};
ghost use Rattle.pg_results.specs.declared.client.PgWireConnectionState.TheVariants as phase;
ghost use Rattle.pg_client.specs.declared.desk.DeskCall.TheVariants.{Start};
ghost use Rattle.pg_client.specs.Answer.{Goes};
ghost use Rattle.pg_client.specs.State.{State};
ghost use Rattle.conversation_table.specs.Handlers.{Handlers};
ghost use Rattle.conversation_table.specs.Table.{whole_table};
ghost use Rattle.conversation_runs.specs.Streams.{greatest_count};
ghost use Rattle.counter.specs.Counter.{next_query, number_replies};
ghost use Rattle.counter.specs.declared.answers.CounterStatement.{CounterStatement};
ghost use Rattle.shared_worlds.specs.Worlds.{IsLegal};
ghost use Rattle.shared_worlds.specs.Sharing.{Known, MeetsShared};
ghost use Rattle.shared_counter.specs.declared.world.Counted.{Counted};
ghost use Rattle.shared_counter.specs.Counting.{shared_counter};

/// In a legal history the changes have the numbers 1, 2, 3, and so on: no number is told twice, and
/// none is left out. And a NEXT, where a query is awaited, is answered by one more than the changes
/// before it, those of all other clients among them; its own change comes last.
pub fn numbers_are_told_in_order()
    ensures numbers { (history : List Counted) → IsLegal shared_counter history
        → (k : ℕ) (c : Counted) → slice_get history k ≡ Some c → c.number ≡ k + 1 }
    ensures tells { (w v : Known Counted (Unit {0})) (s : State CounterStatement)
        (h : Handlers CounterStatement) (answers : List Bool) → s.info.state ≡ phase.ReadyForQuery
        → MeetsShared shared_counter w s next_query h v
        → (before : List Counted) × IsPrefix w.seen before × (length before < greatest_count
        → (v.seen ≡ before ++ record { number = length before + 1 } ∷ [])
        × (whole_table h answers s next_query ≡ record {
          replies = number_replies (length before + 1) s.info.status;
          calls = Start ∷ [];
          next = Goes s;
        })) }
{}
