//! Beginnings of a history that were seen.

ghost use Rattle.std.specs.Prelude.{◌≡◌};
ghost use Rattle.shared_history.specs.Histories.{IsOneHistory};

use crate::book::{Book, Naming};
use crate::legal::History;
use crate::seat::{Compare, Copy, Place, TakeIn};
use std::marker::{Model, PhantomData};

/// A beginning of the history that was seen. Contracts see it as its changes.
#[derive(Drop)]
pub struct Front<J: Naming, H: History> {
    pub(crate) seat: Place<H::Change>,
    pub(crate) of: PhantomData<J>,
}

impl<J: Naming, H: History> Model for Front<J, H> {
    ghost use Rattle.std.specs.Prelude.{◌≡◌, List, []};

    ghost Value = { List H.Change };

    ghost view = { λ f. f.seat.me.0.seen };

    ghost invariant = { λ f. (f.seat.table_id ≡ J.table) × (f.seat.me.1 ≡ [])
        × H.legal f.seat.me.0.seen };
}

impl<J: Naming, H: History> Front<J, H> {
    /// What it has seen is a legal history.
    pub fn is_legal(&self)
        ensures { H.legal self.now }
    {
        let _ = &self.seat;
    }

    /// One more front that has seen as much.
    pub fn again(&mut self, book: &Book<J, H>) -> Front<J, H>
        ensures front { result ≡ self.old }
        ensures same { self.new ≡ self.old }
    {
        Front {
            seat: book.table.shared.split_seat::<Copy>(&mut self.seat),
            of: PhantomData,
        }
    }

    /// Two fronts have seen parts of one history: one of them begins the other.
    pub fn one_history(&mut self, book: &Book<J, H>, other: &mut Front<J, H>)
        ensures one { IsOneHistory self.old other.old }
        ensures this { self.new ≡ self.old }
        ensures that { other.new ≡ other.old }
    {
        let Front { seat, of: _ } = other.again(book);
        book.table.shared.join_seat::<TakeIn>(&mut self.seat, seat);
        book.table.shared.load::<Compare>(&mut self.seat, 0);
    }
}
