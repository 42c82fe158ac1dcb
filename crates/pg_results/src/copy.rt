//! Responses that begin a COPY, and the data that the server sends in one.

ghost use Rattle.std.specs.Prelude.{◌≡◌, ◌≤◌, List, Ok, true, IfOk, IfSome};
ghost use Rattle.pg_results.specs.Copying.{CopyItem, IsNextCopied, IsNextCopy, IsSendableCopy, IsSendableData, trailer};

use crate::error::PgWireError;
use pg_messages::{CopyData, PgBytes, PgList};
use std::alloc::{AllocError, Global};
use std::marker::Model;

/// Data of a COPY that are made one by one: finitely many items, each data or an error in its
/// place.
pub trait CopySource: Drop {
    // the items to come
    ghost items: { Self → List CopyItem };

    /// The next item, or None exactly at the end. Each can be sent as a reply, and an error in the
    /// place of data is none of the session's own: `NoMemory`, `QueryCanceled`, `NotReadyForQuery`,
    /// `PortalNotStarted`. After an AllocError all items are still to come.
    fn next(&mut self) -> Result<Option<Result<CopyData, PgWireError>>, AllocError>
        ensures next { IsNextCopy (items self.old) result (items self.new) }
        ensures sendable { IfOk result (λ found. IfSome found IsSendableCopy) };

    /// A faster `next`, for a source that can write its data into a buffer. It needs no new memory
    /// for the data, and no room for an error in their place. True: the next item is data, and
    /// `_copied` holds it, whatever it held before. False takes no item and says nothing about the
    /// items: `next` gives the next one. After an AllocError all items are still to come. Unless
    /// the result is true, nothing is known of what `_copied` holds.
    #[inline(always)]
    fn next_copied(&mut self, _copied: &mut CopyData) -> Result<bool, AllocError>
        ensures next { IsNextCopied (items self.old) result _copied.new (items self.new) }
        ensures sendable { result ≡ Ok true → IsSendableData _copied.new }
    {
        Ok(false)
    }
}

/// The items of a list.
#[derive(Drop)]
pub struct ListCopy {
    // the items to come, the next one last
    items: Vec<Result<CopyData, PgWireError>>,
}

impl Model for ListCopy {
    ghost use Rattle.std.specs.Prelude.{List, reverse};
    ghost use Rattle.std.specs.List.{AllByRecursion};
    ghost use Rattle.pg_results.specs.Copying.{CopyItem, IsSendableCopy};

    ghost Value = { List CopyItem };

    ghost view = { λ copies. reverse copies.items.items };

    ghost invariant = { λ copies. AllByRecursion IsSendableCopy copies.items.items };
}

impl ListCopy {
    ghost use Rattle.std.specs.List.{AllByRecursion};

    /// These items, in their order. It takes no memory.
    pub fn new(items: PgList<Result<CopyData, PgWireError>>) -> ListCopy
        requires { AllByRecursion IsSendableCopy items }
        ensures { result ≡ items }
    {
        let mut items = items.into_vec();
        items.reverse();
        ListCopy { items }
    }
}

impl CopySource for ListCopy {
    ghost items = { λ copies. copies };

    /// The first item is moved out, which takes no memory.
    fn next(&mut self) -> Result<Option<Result<CopyData, PgWireError>>, AllocError> {
        Ok(self.items.pop())
    }
}

/// What begins a COPY: the format and the number of its columns, and the data that the server
/// sends.
#[derive(Drop)]
pub struct CopyResponse<C> {
    /// 0 where the data is text, 1 where it is binary.
    pub format: i8,
    /// How many columns there are.
    pub columns: usize,
    /// The data to come.
    pub data_stream: C,
    /// Whether a trailer, the bytes FF FF, is still to follow the data.
    pub trailer_left: bool,
    /// An Int16 holds the number of columns.
    pub ghost counted: { columns ≤ 32767 },
}

impl<C: CopySource> CopyResponse<C> {
    ghost use Rattle.std.specs.Borrow.{Lends, sem};
    ghost use Rattle.pg_results.specs.Copying.{formats, has_trailer};
    ghost use Rattle.pg_results.specs.contracts.copy.CopyResponse.{the_row};

    /// A COPY of `columns` columns in a format, with these data. In the binary format, 1, a trailer
    /// follows them.
    pub fn new(format: i8, columns: usize, data_stream: C) -> CopyResponse<C>
        requires { columns ≤ 32767 }
        ensures format { result.format ≡ format }
        ensures columns { result.columns ≡ columns }
        ensures data { result.data_stream ≡ data_stream }
        ensures trailer { result.trailer_left ≡ has_trailer format }
    {
        CopyResponse {
            format,
            columns,
            data_stream,
            trailer_left: format == 1,
        }
    }

    /// The data to come, borrowed mutably.
    pub fn data_stream(&mut self) -> &mut C
        ensures* writes_back { sem 𝓛 (Lends (the_row C.row) C.row self.entry result
            (λ w. record self.old { data_stream = w })) }
        ensures value { result.now ≡ self.old.data_stream }
    {
        &mut self.data_stream
    }

    /// The format of each column, which is that of the whole COPY.
    pub fn column_formats(&self, alloc: Global) -> Result<PgList<i16>, AllocError>
        ensures { IfOk result (λ codes. codes ≡ formats self.now.format self.now.columns) }
    {
        let codes = Vec::from_elem(alloc, i16::from(self.format), self.columns)?;
        Ok(PgList::from_vec(codes))
    }
}

/// The trailer of binary data: the bytes FF FF.
pub fn finish_copy_binary(alloc: Global) -> Result<CopyData, AllocError>
    ensures { IfOk result (λ copied. copied ≡ trailer) }
{
    Ok(CopyData {
        payload: PgBytes::copy_of(alloc, &[255, 255])?,
    })
}
