//! The writer of a history.

ghost use Rattle.std.specs.Prelude.{◌≡◌, ◌++◌, ◌∷◌, [], option_to_list};
ghost use mathlib.Core.List.{IsPrefix};

use crate::book::{Book, Naming};
use crate::front::Front;
use crate::legal::History;
use crate::seat::{Add, Compare, Copy, Place, TakeIn};
use std::marker::{Model, PhantomData};
use std::mem::replace;

/// The right to add to the history, which one value has. It knows all that was changed. Contracts see
/// it as the history.
#[derive(Drop)]
pub struct Writer<J: Naming, H: History> {
    pub(crate) seat: Place<H::Change>,
    pub(crate) of: PhantomData<J>,
}

impl<J: Naming, H: History> Model for Writer<J, H> {
    ghost use Rattle.std.specs.Prelude.{◌≡◌, List, [], true};

    ghost Value = { List H.Change };

    ghost view = { λ w. w.seat.me.0.seen };

    ghost invariant = { λ w. (w.seat.table_id ≡ J.table) × (w.seat.me.1 ≡ [])
        × (w.seat.me.0.writes ≡ true) × H.legal w.seat.me.0.seen };
}

impl<J: Naming, H: History> Writer<J, H> {
    /// The history is a legal one.
    pub fn is_legal(&self)
        ensures { H.legal self.now }
    {
        let _ = &self.seat;
    }

    /// Adds a change.
    pub fn add(&mut self, book: &Book<J, H>, change: &H::Change)
        requires { H.legal (self.old ++ change.now ∷ []) }
        ensures { self.new ≡ self.old ++ change.now ∷ [] }
    {
        book.table
            .shared
            .compare_exchange_with::<Add>(&mut self.seat, 0, 0, 0, change);
    }

    /// A front that has seen all of it.
    pub fn front(&mut self, book: &Book<J, H>) -> Front<J, H>
        ensures front { result ≡ self.old }
        ensures same { self.new ≡ self.old }
    {
        Front {
            seat: book.table.shared.split_seat::<Copy>(&mut self.seat),
            of: PhantomData,
        }
    }

    /// Takes in a front, which has seen a beginning of it.
    pub fn take_in(&mut self, book: &Book<J, H>, front: Front<J, H>)
        ensures seen { IsPrefix front self.old }
        ensures same { self.new ≡ self.old }
    {
        let Front { seat, of: _ } = front;
        book.table.shared.join_seat::<TakeIn>(&mut self.seat, seat);
        book.table.shared.load::<Compare>(&mut self.seat, 0);
    }

    /// Adds the change, if there is one, and shows the front all of the history then.
    pub fn note(&mut self, book: &Book<J, H>, front: &mut Front<J, H>, change: Option<H::Change>)
        requires { H.legal (self.old ++ option_to_list change) }
        ensures seen { IsPrefix front.old self.old }
        ensures all { front.new ≡ self.old ++ option_to_list change }
        ensures added { self.new ≡ self.old ++ option_to_list change }
    {
        let all = self.front(book);
        self.take_in(book, replace(front, all));
        if let Some(change) = change {
            self.add(book, &change);
            *front = self.front(book);
        }
    }
}
