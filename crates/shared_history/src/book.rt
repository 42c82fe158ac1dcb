//! The book, by which threads tell and learn what was changed.

ghost use Rattle.std.specs.Prelude.{◌≡◌, []};

use crate::legal::History;
use crate::seat::{Board, Place};
use crate::writer::Writer;
use atomic_table::Table;
use std::alloc::{AllocError, Global};
use std::marker::{Brand, Model, PhantomData};

/// Which book it is. Each call of a program picks it.
pub trait Naming {
    ghost use Rattle.atomic_table.specs.Seated.{TableId};

    ghost table: { TableId };
}

impl Naming for Brand {
    ghost use Rattle.std.specs.Prelude.{[]};

    ghost table = { record {
      words = 0;
      slots = 0;
      views_name = 0;
      atom = 0;
      block = 0;
      offset = 0;
      slot_names = [];
    } };
}

/// A book with an empty history, which has no name yet. Contracts see which one it is.
#[derive(Drop)]
pub struct Opened<H: History> {
    table: Board<H::Change>,
    seat: Place<H::Change>,
}

impl<H: History> Model for Opened<H> {
    ghost use Rattle.std.specs.Prelude.{◌≡◌, []};
    ghost use Rattle.atomic_table.specs.Seated.{TableId, table_id_coded};
    ghost use Rattle.shared_history.specs.Seats.{writer};

    ghost Value = { TableId };

    ghost coded = { table_id_coded };

    ghost view = { λ o. o.seat.table_id };

    ghost invariant = { λ o. (o.seat.me ≡ (writer [], []))
        × (o.table.shared.table_id ≡ o.seat.table_id) × (o.seat.table_id.words ≡ 1) };
}

impl<H: History> Opened<H> {
    /// Opens a book. The only error is running out of memory.
    pub fn new(alloc: Global) -> Result<Opened<H>, AllocError> {
        let (table, seat) = Table::of_words(alloc, &[0], &())?;
        Ok(Opened { table, seat })
    }

    /// The book under a name, and its writer. Nothing has changed yet.
    pub fn named<J: Naming>(self) -> (Book<J, H>, Writer<J, H>)
        requires { self ≡ J.table }
        ensures { result.1 ≡ [] }
    {
        let Opened { table, seat } = self;
        (
            Book {
                table,
                of: PhantomData,
            },
            Writer {
                seat,
                of: PhantomData,
            },
        )
    }
}

/// The book that all threads share. It has no change in it. Contracts see which one it is.
#[derive(Drop)]
pub struct Book<J: Naming, H: History> {
    pub(crate) table: Board<H::Change>,
    of: PhantomData<J>,
}

impl<J: Naming, H: History> Model for Book<J, H> {
    ghost use Rattle.std.specs.Prelude.{◌≡◌};
    ghost use Rattle.atomic_table.specs.Seated.{TableId, table_id_coded};

    ghost Value = { TableId };

    ghost coded = { table_id_coded };

    ghost view = { λ b. b.table.shared.table_id };

    ghost invariant = { λ b.
        (b.table.shared.table_id ≡ J.table) × (b.table.shared.table_id.words ≡ 1) };
}
