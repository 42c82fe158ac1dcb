//! The relations that lines told so far.

ghost use Rattle.std.specs.Prelude.{◌≡◌, ◌<◌, ◌++◌, [], None, IfOk, IfErr, OnOk, length};
ghost use Rattle.relation_files.specs.Reader.{IsReason, reason_at, after, all_of, nothing_read};

use crate::errors::LineError;
use crate::header::read_header;
use crate::row::read_row;
use pg_messages::{PgList, PgStr};
use pg_portal::Named;
use relation_tables::Relation;
use std::alloc::{AllocError, Global};
use std::marker::Model;

/// The relations that the lines so far told: those that an empty line ended, and the one that the
/// next row belongs to.
#[derive(Drop)]
pub(crate) struct Reader {
    // the names of all headers so far
    taken: Named<()>,
    closed: Vec<Relation>,
    current: Option<Relation>,
}

impl Model for Reader {
    ghost use Rattle.std.specs.Prelude.{List, ℕ, ◌≡◌};
    ghost use Rattle.std.specs.Option.{is_some};
    ghost use Rattle.std.specs.FinMap as fin;
    ghost use Rattle.relation_files.specs.Refusal.{is_among};
    ghost use Rattle.relation_files.specs.Reader.{SoFar, names_of};

    ghost Value = { SoFar };

    ghost view = { λ r. record { closed = r.closed.items; current = r.current } };

    ghost invariant = { λ r. (name : List ℕ) → is_some (fin.get r.taken name)
        ≡ is_among (names_of (record { closed = r.closed.items; current = r.current })) name };
}

impl Reader {
    /// Before the first line.
    pub(crate) fn new(alloc: Global) -> Reader
        ensures { result ≡ nothing_read }
    {
        Reader {
            taken: Named::new(alloc),
            closed: Vec::new(alloc),
            current: None,
        }
    }

    /// Takes the next line. After an error nothing has changed.
    pub(crate) fn take(&mut self, alloc: Global, line: &[u8]) -> Result<(), LineError>
        ensures good { OnOk result (reason_at self.old line.now ≡ None) }
        ensures taken { OnOk result (self.new ≡ after self.old line.now) }
        ensures refused { IfErr result (λ error. IsReason error (reason_at self.old line.now)) }
    {
        if line.is_empty() {
            self.close()?;
            return Ok(());
        }
        if let Some(relation) = &mut self.current {
            let row = read_row(alloc, relation.columns.len(), line)?;
            relation.rows.push(row)?;
            return Ok(());
        }
        self.take_header(alloc, line)
    }

    /// Takes a header, where no relation is open. After an error nothing has changed.
    fn take_header(&mut self, alloc: Global, line: &[u8]) -> Result<(), LineError>
        requires closed { self.old.current ≡ None }
        requires filled { 0 < length line.now }
        ensures good { OnOk result (reason_at self.old line.now ≡ None) }
        ensures taken { OnOk result (self.new ≡ after self.old line.now) }
        ensures refused { IfErr result (λ error. IsReason error (reason_at self.old line.now)) }
    {
        let relation = read_header(alloc, &self.taken, line)?;
        self.taken
            .put(PgStr::copy_of(alloc, relation.name.as_str())?, ())?;
        self.current = Some(relation);
        Ok(())
    }

    /// Ends the relation that rows belong to, if there is one. After an error nothing has changed.
    fn close(&mut self) -> Result<(), AllocError>
        ensures { OnOk result (self.new ≡ after self.old []) }
    {
        let Some(relation) = self.current.take() else {
            return Ok(());
        };
        match self.closed.push(relation) {
            Ok(()) => Ok(()),
            Err(failed) => {
                self.current = Some(failed.value);
                Err(AllocError)
            }
        }
    }

    /// The relations of all lines.
    pub(crate) fn finish(mut self) -> Result<PgList<Relation>, AllocError>
        ensures { IfOk result (λ relations. relations ≡ all_of self) }
    {
        self.close()?;
        Ok(PgList::from_vec(self.closed))
    }
}
