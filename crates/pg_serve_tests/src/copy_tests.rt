//! Data of a COPY to the client that have no byte: they are passed over.

ghost use Rattle.std.specs.List.{AllByRecursion};
ghost use Rattle.pg_results.specs.Copying.{IsSendableCopy};

use pg_messages::{CopyData, PgBytes, PgList};
use pg_portal::{CopyResponse, ListCopy, PgWireError};
use pg_session::{Outbox, send_copy_out_response};
use std::alloc::{AllocError, Global};

/// Data of a COPY, or errors in their place.
type Items = PgList<Result<CopyData, PgWireError>>;

/// Appends data without a byte.
fn push_nothing(alloc: Global, items: &mut Items) -> Result<(), AllocError>
    requires { AllByRecursion IsSendableCopy items.old }
    ensures { AllByRecursion IsSendableCopy items.new }
{
    let payload = PgBytes::copy_of(alloc, &[])?;
    items.push(Ok(CopyData { payload }))
}

/// Appends data of one byte.
fn push_byte(alloc: Global, items: &mut Items, byte: u8) -> Result<(), AllocError>
    requires { AllByRecursion IsSendableCopy items.old }
    ensures { AllByRecursion IsSendableCopy items.new }
{
    let payload = PgBytes::copy_of(alloc, &[byte])?;
    items.push(Ok(CopyData { payload }))
}

/// Data of which the second have a byte, and no others do.
fn data(alloc: Global) -> Result<ListCopy, AllocError> {
    let mut items = PgList::new(alloc);
    push_nothing(alloc, &mut items)?;
    push_byte(alloc, &mut items, 5)?;
    push_nothing(alloc, &mut items)?;
    Ok(ListCopy::new(items))
}

/// CopyOutResponse of one column as text; CopyData of the byte; CopyDone; CommandComplete.
const REPLIES: &[u8] = b"H\0\0\0\x09\0\0\x01\0\0d\0\0\0\x05\x05c\0\0\0\x04C\0\0\0\x0bCOPY 1\0";

/// Whether a COPY of these data is sent as one of the byte.
fn is_sent(alloc: Global) -> Result<bool, AllocError> {
    let mut outbox = Outbox::new(alloc)?;
    let response = CopyResponse::new(0, 1, data(alloc)?);
    let sent = send_copy_out_response(alloc, &mut outbox, response).is_ok();
    Ok(sent && outbox.front() == Some(REPLIES))
}

#[test]
fn data_without_a_byte_are_passed_over(rt: HostRuntime) {
    assert!(rt; is_sent(rt.alloc()) == Ok(true));
}
