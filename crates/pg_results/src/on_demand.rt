//! Rows, and data of a COPY, that are made when they are asked for.

ghost use Rattle.std.specs.Prelude.{◌≡◌, ◌<◌, List, Some, Ok, true, IfOk, IfSome, length, drop, slice_get};
ghost use Rattle.pg_results.specs.Making.{position_after};
ghost use Rattle.pg_results.specs.Copying.{CopyItem, IsNextCopy, IsSendableCopy, IsSendableData};
ghost use Rattle.pg_results.specs.Rows.{RowItem, IsNext, IsSendable, IsSendableRow};

use crate::copy::CopySource;
use crate::error::PgWireError;
use crate::rows::RowSource;
use pg_messages::{CopyData, DataRow};
use std::alloc::AllocError;

/// Makes rows one at a time, each by its index: finitely many items, each a row or an error in its
/// place.
pub trait RowMaker: Drop {
    // the items, in their order
    ghost items: { Self → List RowItem };

    /// How many items there are.
    fn rows(&self) -> usize
        ensures { result ≡ length (items self.now) };

    /// Makes the item at an index. It can be sent as a reply, and an error in the place of a row is
    /// none of the session's own: `NoMemory`, `QueryCanceled`, `NotReadyForQuery`,
    /// `PortalNotStarted`.
    fn make(&self, index: usize) -> Result<Result<DataRow, PgWireError>, AllocError>
        requires { index < length (items self.now) }
        ensures item { IfOk result (λ item. slice_get (items self.now) index ≡ Some item) }
        ensures sendable { IfOk result IsSendable };

    /// A faster `make`, for a maker that can write its row into a buffer. It needs no new memory
    /// for the row, and no room for an error in its place. True: the item is a row, and `_row`
    /// holds it, whatever it held before. False says nothing about the item: `make` gives it.
    /// Unless the result is true, nothing is known of what `_row` holds.
    #[inline(always)]
    fn make_row(&self, _index: usize, _row: &mut DataRow) -> Result<bool, AllocError>
        requires { _index < length (items self.now) }
        ensures item { result ≡ Ok true
            → slice_get (items self.now) _index ≡ Some (Ok _row.new) }
        ensures sendable { result ≡ Ok true → IsSendableRow _row.new }
    {
        Ok(false)
    }
}

/// Makes data of a COPY one at a time, each by its index: finitely many items, each data or an
/// error in its place.
pub trait CopyMaker: Drop {
    // the items, in their order
    ghost items: { Self → List CopyItem };

    /// How many items there are.
    fn data_len(&self) -> usize
        ensures { result ≡ length (items self.now) };

    /// Makes the item at an index. It can be sent as a reply, and an error in the place of data is
    /// none of the session's own: `NoMemory`, `QueryCanceled`, `NotReadyForQuery`,
    /// `PortalNotStarted`.
    fn make_data(&self, index: usize) -> Result<Result<CopyData, PgWireError>, AllocError>
        requires { index < length (items self.now) }
        ensures item { IfOk result (λ item. slice_get (items self.now) index ≡ Some item) }
        ensures sendable { IfOk result IsSendableCopy };

    /// A faster `make_data`, for a maker that can write its data into a buffer. It needs no new
    /// memory for the data, and no room for an error in their place. True: the item is data, and
    /// `_copied` holds it, whatever it held before. False says nothing about the item: `make_data`
    /// gives it. Unless the result is true, nothing is known of what `_copied` holds.
    #[inline(always)]
    fn make_copied(&self, _index: usize, _copied: &mut CopyData) -> Result<bool, AllocError>
        requires { _index < length (items self.now) }
        ensures item { result ≡ Ok true
            → slice_get (items self.now) _index ≡ Some (Ok _copied.new) }
        ensures sendable { result ≡ Ok true → IsSendableData _copied.new }
    {
        Ok(false)
    }
}

/// The items of a maker from a position on, each made when it is asked for. No item is kept.
#[derive(Drop)]
pub struct OnDemand<M> {
    /// The maker of the items.
    pub maker: M,
    /// The index of the next item; past the last one there is none.
    pub position: usize,
}

impl<M: RowMaker> OnDemand<M> {
    /// The items of a maker from the first on. It takes no memory.
    pub fn new(maker: M) -> OnDemand<M>
        ensures maker { result.maker ≡ maker }
        ensures position { result.position ≡ 0 }
    {
        OnDemand { maker, position: 0 }
    }
}

impl<M: RowMaker> RowSource for OnDemand<M> {
    ghost items = { λ source. drop source.position (M.items source.maker) };

    /// Makes one item, and moves the position by one. At the end, and after an AllocError, the
    /// position stays.
    #[inline(always)]
    fn next(&mut self) -> Result<Option<Result<DataRow, PgWireError>>, AllocError>
        ensures next { IsNext (drop self.old.position (M.items self.old.maker)) result
            (drop self.new.position (M.items self.new.maker)) }
        ensures sendable { IfOk result (λ found. IfSome found IsSendable) }
        ensures position { self.new.position ≡ position_after self.old.position result }
        ensures maker { self.new.maker ≡ self.old.maker }
    {
        if self.position < self.maker.rows() {
            // A row is moved alone, without the room that an error in its place would take.
            match self.maker.make(self.position) {
                Ok(Ok(row)) => {
                    self.position += 1;
                    Ok(Some(Ok(row)))
                }
                Ok(Err(error)) => {
                    self.position += 1;
                    Ok(Some(Err(error)))
                }
                Err(error) => Err(error),
            }
        } else {
            Ok(None)
        }
    }

    /// The row that the maker writes with `make_row`. The position moves by one, and stays where no
    /// row is written.
    #[inline(always)]
    fn next_row(&mut self, row: &mut DataRow) -> Result<bool, AllocError> {
        if self.position >= self.maker.rows() {
            return Ok(false);
        }
        let is_made = self.maker.make_row(self.position, row)?;
        if is_made {
            self.position += 1;
        }
        Ok(is_made)
    }
}

impl<M: CopyMaker> CopySource for OnDemand<M> {
    ghost items = { λ source. drop source.position (M.items source.maker) };

    /// Makes one item, and moves the position by one. At the end, and after an AllocError, the
    /// position stays.
    fn next(&mut self) -> Result<Option<Result<CopyData, PgWireError>>, AllocError>
        ensures next { IsNextCopy (drop self.old.position (M.items self.old.maker)) result
            (drop self.new.position (M.items self.new.maker)) }
        ensures sendable { IfOk result (λ found. IfSome found IsSendableCopy) }
        ensures position { self.new.position ≡ position_after self.old.position result }
        ensures maker { self.new.maker ≡ self.old.maker }
    {
        if self.position < self.maker.data_len() {
            match self.maker.make_data(self.position) {
                Ok(Ok(copied)) => {
                    self.position += 1;
                    Ok(Some(Ok(copied)))
                }
                Ok(Err(error)) => {
                    self.position += 1;
                    Ok(Some(Err(error)))
                }
                Err(error) => Err(error),
            }
        } else {
            Ok(None)
        }
    }

    /// The data that the maker writes with `make_copied`. The position moves by one, and stays
    /// where none are written.
    #[inline(always)]
    fn next_copied(&mut self, copied: &mut CopyData) -> Result<bool, AllocError> {
        if self.position >= self.maker.data_len() {
            return Ok(false);
        }
        let is_made = self.maker.make_copied(self.position, copied)?;
        if is_made {
            self.position += 1;
        }
        Ok(is_made)
    }
}
