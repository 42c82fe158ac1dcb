//! The table behind a history. It has one word, which stays 0: threads step on it to tell and to learn
//! what was changed.

use atomic_table::{Join, Play, Seat, Split, Table, TableRule};
use std::alloc::Global;
use std::collections::LinkedList;

/// What a seat knows. It is only for proofs: no value of it is made.
pub struct View<C> {
    /// Whether the seat is the writer's, which adds all changes.
    pub writes: bool,
    /// The beginning of the history that was seen.
    pub seen: LinkedList<C>,
    /// A beginning of it that another seat had seen.
    pub told: LinkedList<C>,
}

/// The rule of the table.
pub struct InOrder;

impl<C> TableRule<C, View<C>, ()> for InOrder {
    ghost use Rattle.std.specs.Prelude.{[]};
    ghost use Rattle.shared_history.specs.Seats.{IsInOrder, writer};

    ghost holds = { λ _. IsInOrder };

    ghost first = { λ _. writer [] };
}

pub type Board<C> = Table<C, View<C>, (), InOrder, Global>;

pub type Place<C> = Seat<C, View<C>>;

/// The writer adds the change that it announces.
pub struct Add;

impl<C> Play<C, View<C>> for Add {
    ghost use Rattle.shared_history.specs.Seats.{adds};

    ghost then = { adds };
}

/// A load after a join. It compares both beginnings.
pub struct Compare;

impl<C> Play<C, View<C>> for Compare {
    ghost use Rattle.shared_history.specs.Seats.{compared};

    ghost then = { compared };
}

/// A new seat has seen as much.
pub struct Copy;

impl<C> Split<View<C>> for Copy {
    ghost use Rattle.shared_history.specs.Seats.{reader};

    ghost left = { λ v. v };

    ghost right = { λ v. reader v.seen };
}

/// A seat is told what another had seen.
pub struct TakeIn;

impl<C> Join<View<C>> for TakeIn {
    ghost use Rattle.std.specs.Prelude.{[]};
    ghost use Rattle.shared_history.specs.Seats.{joined, reader};

    ghost both = { joined };

    ghost spent = { reader [] };
}
