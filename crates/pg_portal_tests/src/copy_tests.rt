//! Answers that begin a COPY. What they send is shown by the rows of conversation_rows: `copy out
//! with a trailer`, `copy both`.

ghost use Rattle.std.specs.List.{AllByRecursion};
ghost use Rattle.pg_results.specs.Copying.{IsSendableCopy};

use pg_messages::{CopyData, PgBytes, PgList};
use pg_portal::{CopyResponse, CopySource, ListCopy, PgWireError};
use std::alloc::{AllocError, Global};

/// Appends data of one byte.
fn push_data(
    alloc: Global,
    items: &mut PgList<Result<CopyData, PgWireError>>,
    byte: u8,
) -> Result<(), AllocError>
    requires { AllByRecursion IsSendableCopy items.old }
    ensures { AllByRecursion IsSendableCopy items.new }
{
    let payload = PgBytes::copy_of(alloc, &[byte])?;
    items.push(Ok(CopyData { payload }))
}

/// Data of these two bytes.
fn two(alloc: Global) -> Result<ListCopy, AllocError> {
    let mut items = PgList::new(alloc);
    push_data(alloc, &mut items, 5)?;
    push_data(alloc, &mut items, 6)?;
    Ok(ListCopy::new(items))
}

/// The first byte of the next data, if data are next.
fn next_byte(copies: &mut ListCopy) -> Option<u8> {
    first_byte(&copies.next())
}

fn first_byte(told: &Result<Option<Result<CopyData, PgWireError>>, AllocError>) -> Option<u8> {
    match told {
        Ok(Some(Ok(copied))) => copied.payload.as_slice().first().copied(),
        _ => None,
    }
}

/// Whether a binary COPY gives its data, and nothing after them.
fn is_given(alloc: Global) -> Result<bool, AllocError> {
    let mut response = CopyResponse::new(1, 2, two(alloc)?);
    let copies = response.data_stream();
    Ok(next_byte(copies) == Some(5) && next_byte(copies) == Some(6) && next_byte(copies).is_none())
}

/// Whether a trailer follows data in a format.
fn has_trailer(alloc: Global, format: i8) -> bool {
    CopyResponse::new(format, 1, ListCopy::new(PgList::new(alloc))).trailer_left
}

#[test]
fn a_binary_copy(rt: HostRuntime) {
    assert!(rt; is_given(rt.alloc()) == Ok(true));
}

#[test]
fn other_copies_have_no_trailer(rt: HostRuntime) {
    for (format, trailer) in [(1, true), (0, false), (2, false), (-1, false)] {
        assert!(rt; has_trailer(rt.alloc(), format) == trailer);
    }
}
