//! Laws of the schedule. The functions take nothing and do nothing: their contracts are the laws.

ghost use Rattle.std.specs.Prelude.{◌≡◌, ◌≢◌, ◌++◌, ℕ, Bool, true, false, List, [], ◌∷◌, Some, None, Ok};
ghost use mathlib.Core.List.{IsPrefix};
ghost use Rattle.pg_interval.specs.declared.pg_interval.Interval.{Interval};
ghost use Rattle.pg_messages.specs.declared.frontend.PgWireFrontendMessage.{PgWireFrontendMessage};
ghost use Rattle.pg_messages.specs.declared.frontend.PgWireFrontendMessage.TheVariants as client;
ghost use Rattle.pg_results.specs.Texts.{is_blank};
ghost use Rattle.pg_results.specs.declared.client.PgWireConnectionState.TheVariants as phase;
ghost use Rattle.pg_replies.specs.Replies.{ready};
ghost use Rattle.pg_client.specs.Answer.{Goes};
ghost use Rattle.pg_client.specs.State.{State, with_status};
ghost use Rattle.pg_client.specs.declared.desk.DeskCall.TheVariants.{Start};
ghost use Rattle.conversation_table.specs.Handlers.{Handlers};
ghost use Rattle.conversation_table.specs.Table.{whole_table};
ghost use Rattle.shift_table.specs.Shifts.{IsTimetable, found, shifts_of};
ghost use Rattle.shift_table.specs.declared.shift.Shift.{Shift};
ghost use Rattle.shift_orders.specs.declared.order.ShiftOrder.{ShiftOrder};
ghost use Rattle.shift_orders.specs.declared.order.ShiftOrder.TheVariants as order;
ghost use Rattle.shift_orders.specs.declared.statement.ShiftStatement.{ShiftStatement};
ghost use Rattle.shift_transactions.specs.Doing.{Open};
ghost use Rattle.shift_transactions.specs.Steps.{done_in_turn, tried};
ghost use Rattle.shift_transactions.specs.declared.outcome.Outcome.{Outcome};
ghost use Rattle.shift_transactions.specs.declared.outcome.Outcome.TheVariants.{Began, RolledBack, Shown};
ghost use Rattle.shift_transactions.specs.declared.step.Step.{Step};
ghost use Rattle.shift_transactions.specs.declared.step.Step.TheVariants.{Book};
ghost use Rattle.shift_sheets.specs.Sheets.{shift_sheet};
ghost use Rattle.shared_worlds.specs.Sharing.{MeetsShared};
ghost use Rattle.shared_worlds.specs.Worlds.{IsLegal, place_of};
ghost use Rattle.schedule.specs.Laws.{
  BooksLast,
  BooksWithin,
  CancelsLast,
  CancelsWithin,
  CommitsLast,
  HasOrdered,
  KeepsTransaction,
  KnownShifts,
  may_change,
};
ghost use Rattle.schedule.specs.Replied.{replies_for, status_after};
ghost use Rattle.schedule.specs.World.{has_failed, schedule};

/// At every moment no two shifts of the schedule clash, and each lasts, whatever clients send.
pub fn no_two_shifts_clash()
    ensures { (history : List (List Step)) → IsLegal schedule history
        → IsTimetable (place_of schedule history) }
{}

/// The changes of all clients have one order, and outside of a transaction each order of a client is
/// met behind those before it. BOOK is tried on the shifts that these left. Where the shift is told as
/// booked, it was added by the last change of all; where it is refused, nothing was changed. CANCEL
/// looks for its shift among those that were left. Where one is found, the last change cancels it, and
/// that is told; where none is, nothing was changed, and CANCEL is refused. SHIFTS shows the shifts as
/// all changes left them, and SHIFTS OF those of its name. No order but BEGIN opens a transaction.
pub fn bookings_are_told_in_order()
    ensures books { (w v : KnownShifts) (s : State ShiftStatement) (m : PgWireFrontendMessage)
        (h : Handlers ShiftStatement) (shift : Shift)
        → HasOrdered w v s m h (order.Book shift) → w.own ≡ None
        → (before : List (List Step)) × IsPrefix w.seen before
        × BooksLast shift (tried (place_of schedule before) (Book shift)) before v.seen h }
    ensures cancels { (w v : KnownShifts) (s : State ShiftStatement) (m : PgWireFrontendMessage)
        (h : Handlers ShiftStatement) (name : List ℕ) (start : Interval)
        → HasOrdered w v s m h (order.Cancel name start) → w.own ≡ None
        → (before : List (List Step)) × IsPrefix w.seen before
        × CancelsLast (found (place_of schedule before) name start) before v.seen h }
    ensures shows { (w v : KnownShifts) (s : State ShiftStatement) (m : PgWireFrontendMessage)
        (h : Handlers ShiftStatement) → HasOrdered w v s m h order.Shifts → w.own ≡ None
        → IsPrefix w.seen v.seen
        × (h ≡ shift_sheet (Ok (Shown (place_of schedule v.seen)))) }
    ensures shows_of { (w v : KnownShifts) (s : State ShiftStatement) (m : PgWireFrontendMessage)
        (h : Handlers ShiftStatement) (name : List ℕ)
        → HasOrdered w v s m h (order.ShiftsOf name) → w.own ≡ None
        → IsPrefix w.seen v.seen
        × (h ≡ shift_sheet (Ok (Shown (shifts_of (place_of schedule v.seen) name)))) }
    ensures opens_none { (w v : KnownShifts) (s : State ShiftStatement) (m : PgWireFrontendMessage)
        (h : Handlers ShiftStatement) (o : ShiftOrder)
        → HasOrdered w v s m h o → o ≢ order.Begin → w.own ≡ None → v.own ≡ None }
{}

/// A transaction is one change, or none. Only BOOK and CANCEL outside of a transaction, and a
/// transaction's COMMIT, may change what clients share. Behind any other order a client has seen what it
/// had seen, and what others did, and no more. So within a transaction BOOK, CANCEL, SHIFTS, SHIFTS OF,
/// BEGIN and ROLLBACK change nothing. Once it has failed, its client changes nothing. COMMIT tries its
/// steps in turn on the shifts as all changes before it left them. Where all of them can be done, they
/// are one change, the last of all, and COMMIT is told; where one can't, nothing is changed, and COMMIT
/// is refused. A transaction without a step changes nothing, and COMMIT is told. Behind COMMIT and
/// ROLLBACK none is open.
pub fn transactions_are_told_in_order()
    ensures keeps { (w v : KnownShifts) (s : State ShiftStatement) (m : PgWireFrontendMessage)
        (h : Handlers ShiftStatement) (o : ShiftOrder) (given : HasOrdered w v s m h o)
        → may_change w.own o ≡ false → v.seen ≡ w.seen ++ given.met.others }
    ensures failed { (w v : KnownShifts) (s : State ShiftStatement) (m : PgWireFrontendMessage)
        (h : Handlers ShiftStatement) (met : MeetsShared schedule w s m h v)
        → has_failed s.info.status ≡ true → v.seen ≡ w.seen ++ met.others }
    ensures commits { (w v : KnownShifts) (s : State ShiftStatement) (m : PgWireFrontendMessage)
        (h : Handlers ShiftStatement) (x : Open)
        → HasOrdered w v s m h order.Commit → w.own ≡ Some x
        → (before : List (List Step)) × IsPrefix w.seen before × (v.own ≡ None)
        × CommitsLast x.steps (done_in_turn (place_of schedule before) x.steps) before v.seen h }
    ensures rolls_back { (w v : KnownShifts) (s : State ShiftStatement) (m : PgWireFrontendMessage)
        (h : Handlers ShiftStatement) (x : Open)
        → HasOrdered w v s m h order.Rollback → w.own ≡ Some x
        → (v.own ≡ None) × (h ≡ shift_sheet (Ok RolledBack)) }
{}

/// A transaction has shifts of its own. BEGIN opens one that has the shifts as all changes before it
/// left them, and no step yet. Within it BOOK is tried on its own shifts, and CANCEL looks for its shift
/// among them. What is told as booked or canceled is its last step from then on, and its shifts have
/// changed so; where the order is refused, the transaction is as it was. SHIFTS shows its own shifts,
/// and SHIFTS OF those of a name. A further BEGIN leaves it as it is.
pub fn transactions_see_their_own()
    ensures begins { (w v : KnownShifts) (s : State ShiftStatement) (m : PgWireFrontendMessage)
        (h : Handlers ShiftStatement) → HasOrdered w v s m h order.Begin → w.own ≡ None
        → IsPrefix w.seen v.seen
        × (v.own ≡ Some (record { table = place_of schedule v.seen; steps = [] }))
        × (h ≡ shift_sheet (Ok Began)) }
    ensures begins_again { (w v : KnownShifts) (s : State ShiftStatement) (m : PgWireFrontendMessage)
        (h : Handlers ShiftStatement) (x : Open) → HasOrdered w v s m h order.Begin
        → w.own ≡ Some x → KeepsTransaction x v.own h Began }
    ensures books { (w v : KnownShifts) (s : State ShiftStatement) (m : PgWireFrontendMessage)
        (h : Handlers ShiftStatement) (x : Open) (shift : Shift)
        → HasOrdered w v s m h (order.Book shift) → w.own ≡ Some x
        → BooksWithin x shift (tried x.table (Book shift)) v.own h }
    ensures cancels { (w v : KnownShifts) (s : State ShiftStatement) (m : PgWireFrontendMessage)
        (h : Handlers ShiftStatement) (x : Open) (name : List ℕ) (start : Interval)
        → HasOrdered w v s m h (order.Cancel name start) → w.own ≡ Some x
        → CancelsWithin x (found x.table name start) v.own h }
    ensures shows { (w v : KnownShifts) (s : State ShiftStatement) (m : PgWireFrontendMessage)
        (h : Handlers ShiftStatement) (x : Open) → HasOrdered w v s m h order.Shifts
        → w.own ≡ Some x → KeepsTransaction x v.own h (Shown x.table) }
    ensures shows_of { (w v : KnownShifts) (s : State ShiftStatement) (m : PgWireFrontendMessage)
        (h : Handlers ShiftStatement) (x : Open) (name : List ℕ)
        → HasOrdered w v s m h (order.ShiftsOf name) → w.own ≡ Some x
        → KeepsTransaction x v.own h (Shown (shifts_of x.table name)) }
{}

/// A client that asks by a simple query, while a query is awaited, is sent what its order came to, and
/// then ReadyForQuery, which tells the status of the transaction from then on. The registry is told
/// that a query starts, and is asked nothing.
pub fn outcomes_are_replied()
    ensures { (told : Outcome) (answers : List Bool) (s : State ShiftStatement) (text : List ℕ)
        → s.info.state ≡ phase.ReadyForQuery → is_blank text ≡ false
        → whole_table (shift_sheet (Ok told)) answers s (client.Query (record { query = text }))
        ≡ record {
          replies = replies_for told ++ ready (status_after s.info.status told) ∷ [];
          calls = Start ∷ [];
          next = Goes (with_status s (status_after s.info.status told));
        } }
{}
