//! Stories of two clients who share a table of shifts, a query at a time.

use Client::*;
use pg_portal::Format;
use shift_orders::{ShiftOrder, order_of, parse_statement};
use shift_table::{Shift, ShiftTable};
use shift_transactions::{Outcome, Refusal, Steps, Transaction, do_order};
use std::alloc::{AllocError, Global};
use std::test::Fail;

/// Who asks.
#[derive(Clone, Copy)]
enum Client {
    /// The one.
    One,
    /// The same, whose transaction has failed.
    Failed,
    /// The other.
    Other,
}

/// Who asks, what, and what comes of it in three words: what the client is told; `steps` where steps
/// changed the table, `open` where the client is in a transaction then, or else `idle`; and how many
/// shifts the table has then. A shift is told by its name, and by the hours of its start and length.
type Row = (Client, &'static str, &'static str);

/// Nobody else sees a transaction's changes before its COMMIT, and it doesn't see those of others.
const BESIDE_A_BOOKING: [Row; 7] = [
    (One, "BEGIN", "began; open; 0"),
    (One, "BOOK ann 8:00 '8 hours'", "booked; open; 0"),
    (Other, "BOOK bob 9:00 '8 hours'", "booked; steps; 1"),
    (One, "SHIFTS", "shown ann 8+8; open; 1"),
    (One, "CANCEL bob 9:00", "unknown shift; open; 1"),
    (One, "COMMIT", "committed; steps; 2"),
    (Other, "SHIFTS", "shown ann 8+8, bob 9+8; idle; 2"),
];

/// Another client's shift overlaps the one that was booked in the transaction.
const CHANGED: [Row; 5] = [
    (One, "BEGIN", "began; open; 0"),
    (One, "BOOK ann 8:00 '8 hours'", "booked; open; 0"),
    (Other, "BOOK ann 9:00 '8 hours'", "booked; steps; 1"),
    (One, "COMMIT", "changed; idle; 1"),
    (One, "SHIFTS", "shown ann 9+8; idle; 1"),
];

/// In a transaction that failed only its end is done.
const FAILED: [Row; 8] = [
    (Other, "BOOK ann 9:00 '8 hours'", "booked; steps; 1"),
    (One, "BEGIN", "began; open; 1"),
    (One, "BOOK bob 8:00 '8 hours'", "booked; open; 1"),
    (Failed, "BOOK cat 8:00 '8 hours'", "failed; open; 1"),
    (Failed, "SHIFTS", "failed; open; 1"),
    (Failed, "BEGIN", "failed; open; 1"),
    (Failed, "COMMIT", "rolled back; idle; 1"),
    (One, "SHIFTS", "shown ann 9+8; idle; 1"),
];

/// A shift that was booked anew with another length is another shift.
const BOOKED_ANEW: [Row; 7] = [
    (Other, "BOOK ann 8:00 '8 hours'", "booked; steps; 1"),
    (One, "BEGIN", "began; open; 1"),
    (One, "CANCEL ann 8:00", "canceled; open; 1"),
    (Other, "CANCEL ann 8:00", "canceled; steps; 0"),
    (Other, "BOOK ann 8:00 '1 hour'", "booked; steps; 1"),
    (One, "COMMIT", "changed; idle; 1"),
    (One, "SHIFTS OF ann", "shown ann 8+1; idle; 1"),
];

/// What is refused in a transaction isn't among its changes.
const TWO_BOOKINGS: [Row; 7] = [
    (One, "BOOK cat 8:00 '8 hours'", "booked; steps; 1"),
    (One, "BEGIN", "began; open; 1"),
    (One, "BOOK cat 9:00 '8 hours'", "clash; open; 1"),
    (One, "BOOK ann 8:00 '8 hours'", "booked; open; 1"),
    (One, "BOOK ann 9:00 '8 hours'", "clash; open; 1"),
    (One, "BOOK bob 9:00 '8 hours'", "booked; open; 1"),
    (One, "COMMIT", "committed; steps; 3"),
];

/// The second of two changes can't be made any more, so the first isn't made either.
const WHOLE_OR_NOT: [Row; 6] = [
    (One, "BEGIN", "began; open; 0"),
    (One, "BOOK ann 8:00 '8 hours'", "booked; open; 0"),
    (One, "BOOK bob 8:00 '8 hours'", "booked; open; 0"),
    (Other, "BOOK bob 9:00 '8 hours'", "booked; steps; 1"),
    (One, "COMMIT", "changed; idle; 1"),
    (Other, "SHIFTS", "shown bob 9+8; idle; 1"),
];

/// Each order by itself; without a transaction its ends do nothing.
const OUTSIDE: [Row; 6] = [
    (One, "BOOK ann 8:00 '8 hours'", "booked; steps; 1"),
    (One, "BOOK ann 9:00 '8 hours'", "clash; idle; 1"),
    (One, "BOOK bob 1:00 '0 hours'", "not positive; idle; 1"),
    (One, "SHIFTS OF ann", "shown ann 8+8; idle; 1"),
    (One, "COMMIT", "committed; idle; 1"),
    (One, "ROLLBACK", "rolled back; idle; 1"),
];

/// BEGIN within a transaction changes nothing. A COMMIT without a change and a ROLLBACK end it.
const NO_CHANGES: [Row; 9] = [
    (One, "BEGIN", "began; open; 0"),
    (One, "BEGIN", "began; open; 0"),
    (One, "COMMIT", "committed; idle; 0"),
    (One, "BEGIN", "began; open; 0"),
    (One, "BOOK ann 8:00 '8 hours'", "booked; open; 0"),
    (One, "BEGIN", "began; open; 0"),
    (One, "SHIFTS", "shown ann 8+8; open; 0"),
    (One, "ROLLBACK", "rolled back; idle; 0"),
    (One, "SHIFTS", "shown; idle; 0"),
];

const STORIES: [(&str, &[Row]); 8] = [
    ("a transaction commits beside a booking", &BESIDE_A_BOOKING),
    ("a transaction that others overtook is not kept", &CHANGED),
    ("a transaction that failed is not kept", &FAILED),
    ("a shift that was booked anew is kept", &BOOKED_ANEW),
    ("a transaction of two bookings commits", &TWO_BOOKINGS),
    ("a transaction is kept whole or not", &WHOLE_OR_NOT),
    ("orders outside a transaction", &OUTSIDE),
    ("a transaction without changes ends", &NO_CHANGES),
];

/// The table, and the transaction of each client, if it has one.
#[derive(Drop)]
struct Shared {
    table: ShiftTable,
    transactions: Transactions,
}

/// The transaction of each client, if it has one.
#[derive(Drop)]
struct Transactions {
    one: Option<Transaction>,
    other: Option<Transaction>,
}

impl Transactions {
    /// That of a client.
    fn of(&mut self, client: Client) -> &mut Option<Transaction> {
        match client {
            One | Failed => &mut self.one,
            Other => &mut self.other,
        }
    }
}

/// What a query orders, if it is one.
fn ordered(alloc: Global, query: &str) -> Option<ShiftOrder> {
    let statement = parse_statement(alloc, query).ok()?;
    order_of(alloc, &statement, &[], &Format::UnifiedText).ok()
}

/// Does a client's order.
fn done(
    alloc: Global,
    shared: &mut Shared,
    client: Client,
    order: ShiftOrder,
) -> Result<(Option<Steps>, Outcome), AllocError> {
    let transaction = shared.transactions.of(client);
    let has_failed = matches!(client, Failed);
    do_order(alloc, &mut shared.table, transaction, has_failed, order)
}

/// Whether steps changed the table, or the client is in a transaction.
fn state_of(change: &Option<Steps>, transaction: &Option<Transaction>) -> &'static str {
    match (change.is_some(), transaction.is_some()) {
        (false, false) => "idle",
        (false, true) => "open",
        (true, false) => "steps",
        (true, true) => "steps, and open",
    }
}

/// The shifts that are shown.
fn shown(alloc: Global, shifts: &[Shift]) -> Result<String, AllocError> {
    let mut told = String::from_str(alloc, "shown")?;
    for shift in shifts {
        told.push_str(if told.len() > 5 { ", " } else { " " })?;
        told.push_str(shown_shift(alloc, shift)?.as_str())?;
    }
    Ok(told)
}

/// A shift: its name, and the hours of its start and length.
fn shown_shift(alloc: Global, shift: &Shift) -> Result<String, AllocError> {
    let start = shift.start.microseconds / 3_600_000_000;
    let length = shift.length.microseconds / 3_600_000_000;
    format!(in alloc; "{} {start}+{length}", shift.name.as_str())
}

/// Why an order was refused.
fn reason(refusal: Refusal) -> &'static str {
    match refusal {
        Refusal::NotPositive => "not positive",
        Refusal::Clash => "clash",
        Refusal::UnknownShift => "unknown shift",
        Refusal::Changed => "changed",
        Refusal::Failed => "failed",
    }
}

/// What a client is told.
fn outcome_told(alloc: Global, outcome: &Outcome) -> Result<String, AllocError> {
    let told = match outcome {
        Outcome::Began => "began",
        Outcome::Committed => "committed",
        Outcome::RolledBack => "rolled back",
        Outcome::Booked => "booked",
        Outcome::Canceled => "canceled",
        Outcome::Shown(shifts) => return shown(alloc, shifts.as_slice()),
        Outcome::Refused(refusal) => reason(*refusal),
    };
    String::from_str(alloc, told)
}

/// What comes of a client's query.
fn told(
    alloc: Global,
    shared: &mut Shared,
    client: Client,
    query: &str,
) -> Result<String, AllocError> {
    let Some(order) = ordered(alloc, query) else {
        return String::from_str(alloc, "no order");
    };
    let (change, outcome) = done(alloc, shared, client, order)?;
    let told = outcome_told(alloc, &outcome)?;
    let state = state_of(&change, shared.transactions.of(client));
    format!(in alloc; "{}; {state}; {}", told.as_str(), shared.table.len())
}

/// The first query of a story of which something else comes, and what; nothing where there is none.
fn told_otherwise(alloc: Global, rows: &[Row]) -> Result<String, AllocError> {
    let mut shared = Shared {
        table: ShiftTable::new(alloc),
        transactions: Transactions {
            one: None,
            other: None,
        },
    };
    for (client, query, wanted) in rows {
        let told = told(alloc, &mut shared, *client, query)?;
        if told.as_str() != *wanted {
            return format!(in alloc; "{query}: {}", told.as_str());
        }
    }
    Ok(String::new(alloc))
}

#[test]
fn clients_share_a_table(rt: HostRuntime) -> Result<(), Fail> {
    for (name, rows) in &STORIES {
        assert_eq!(rt; told_otherwise(rt.alloc(), rows)?.as_str(), "", "{name}");
    }
    Ok(())
}
