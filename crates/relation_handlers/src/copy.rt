//! The lines of a relation, for a COPY of it.

ghost use Rattle.std.specs.Prelude.{◌≡◌};
ghost use Rattle.relation_handlers.specs.Made.{lines_left};

use crate::row_source::RelationRows;
use pg_messages::CopyData;
use pg_portal::{CopySource, OnDemand, PgWireError};
use std::alloc::AllocError;
use std::marker::Model;

/// The lines of a relation from a position on, each made when it is asked for, with the memory of
/// an allocator.
#[derive(Drop)]
pub struct RelationCopy<'r, A> {
    lines: OnDemand<RelationRows<'r>>,
    alloc: A,
}

impl<'r, A> Model for RelationCopy<'r, A> {
    ghost use Rattle.std.specs.Prelude.{List};
    ghost use Rattle.pg_results.specs.Copying.{CopyItem};
    ghost use Rattle.relation_handlers.specs.Made.{lines_left};

    ghost Value = { List CopyItem };

    ghost view = { λ copy. lines_left copy.lines };
}

impl<'r, A: Drop> RelationCopy<'r, A> {
    /// The lines that a maker makes.
    pub(crate) fn new(alloc: A, lines: OnDemand<RelationRows<'r>>) -> RelationCopy<'r, A>
        ensures { result ≡ lines_left lines.entry }
    {
        RelationCopy { lines, alloc }
    }
}

impl<'r, A: Drop> CopySource for RelationCopy<'r, A> {
    ghost items = { λ items. items };

    /// Makes one line. After an AllocError the line is still to come.
    fn next(&mut self) -> Result<Option<Result<CopyData, PgWireError>>, AllocError> {
        CopySource::next(&mut self.lines)
    }

    /// Writes one line into the lent buffer.
    #[inline(always)]
    fn next_copied(&mut self, copied: &mut CopyData) -> Result<bool, AllocError> {
        CopySource::next_copied(&mut self.lines, copied)
    }
}
