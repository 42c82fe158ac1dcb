//! The table behind a shared registry. Word 0 tells how many entries the history has, and whether a
//! seat has the turn. Slot 0 has the roster.
use crate::entries::Entry;
use crate::roster::Roster;
use atomic_table::{Join, Play, Seat, Split, Table, TableRule};
use std::alloc::Global;
use std::collections::LinkedList;

/// What a seat knows. It is only for proofs: no value of it is made.
pub struct View {
    /// The beginning of the history that was seen.
    pub seen: LinkedList<Entry>,
    /// A beginning of it that another seat had seen.
    pub told: LinkedList<Entry>,
    /// The registration whose calls the seat makes or has made.
    pub number: Option<u64>,
    /// The entries with that number.
    pub mine: LinkedList<Entry>,
    /// Whether the registration is live: it was not ended.
    pub is_live: bool,
    /// Whether the seat is the door's, which makes all registrations.
    pub is_door: bool,
    /// The history, while the seat has the turn.
    pub turn: Option<LinkedList<Entry>>,
}

pub struct RosterRule;

impl TableRule<Roster, View, ()> for RosterRule {
    ghost use Rattle.pg_cancel.specs.RosterTable.{InTurn, first_door};

    ghost holds = { λ _. InTurn };

    ghost first = { λ _. first_door };
}

pub type Board = Table<Roster, View, (), RosterRule, Global>;

pub type Place = Seat<Roster, View>;

/// A load, which changes nothing.
pub struct Look;

impl Play<Roster, View> for Look {
    ghost use Rattle.pg_cancel.specs.RosterTable.{looked};

    ghost then = { looked };
}

/// The turn is taken, or the word was another.
pub struct Take;

impl Play<Roster, View> for Take {
    ghost use Rattle.pg_cancel.specs.RosterTable.{took};

    ghost then = { took };
}

/// The turn is given back with one event.
pub struct Publish;

impl Play<Roster, View> for Publish {
    ghost use Rattle.pg_cancel.specs.RosterTable.{publishes};

    ghost then = { publishes };
}

/// The turn is given back with nothing done.
pub struct Release;

impl Play<Roster, View> for Release {
    ghost use Rattle.pg_cancel.specs.RosterTable.{releases};

    ghost then = { releases };
}

/// A new seat has seen as much.
pub struct Copy;

impl Split<View> for Copy {
    ghost use Rattle.pg_cancel.specs.RosterTable.{reader};

    ghost left = { λ v. v };

    ghost right = { λ v. reader v.seen };
}

/// A new seat has seen as much, and has the number and its calls.
pub struct PassOn;

impl Split<View> for PassOn {
    ghost use Rattle.pg_cancel.specs.RosterTable.{without_number, handle};

    ghost left = { without_number };

    ghost right = { handle };
}

/// A seat takes in what another has seen.
pub struct TakeIn;

impl Join<View> for TakeIn {
    ghost use Rattle.pg_cancel.specs.RosterTable.{reader, joined};
    ghost use Rattle.std.specs.Prelude.{[]};

    ghost both = { joined };

    ghost spent = { reader [] };
}

/// A load after a join. It tells that both lists are beginnings of what is seen now.
pub struct Compare;

impl Play<Roster, View> for Compare {
    ghost use Rattle.pg_cancel.specs.RosterTable.{compared};

    ghost then = { compared };
}
