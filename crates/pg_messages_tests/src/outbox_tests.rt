//! Each call that takes memory succeeds where there is enough, with replies that reach over the ends
//! of chunks.

ghost use Rattle.std.specs.Prelude.{◌≡◌, ◌≤◌, IfOk, length};

use pg_messages::{CopyData, DataRow, PgBytes, PgWireBackendMessage};
use pg_outbox::{CHUNK, Outbox};
use std::alloc::{AllocError, Global};
use std::test::*;

/// `len` bytes.
fn bytes(alloc: Global, len: usize) -> Result<PgBytes, AllocError>
    ensures { IfOk result (λ bytes. length bytes ≡ len) }
{
    let mut bytes = Vec::new(alloc);
    bytes.resize(len, 7)?;
    Ok(PgBytes::from_vec(bytes))
}

/// Appends a reply of five bytes and `len` more.
fn push(outbox: &mut Outbox, alloc: Global, len: usize) -> Result<(), AllocError>
    requires { len ≤ 200000 }
{
    let payload = bytes(alloc, len)?;
    outbox.push(&PgWireBackendMessage::CopyData(CopyData { payload }))
}

/// Appends a row of seven bytes and `len` more.
fn push_row(outbox: &mut Outbox, alloc: Global, len: usize) -> Result<(), AllocError>
    requires { len ≤ 200000 }
{
    let payload = bytes(alloc, len)?;
    outbox.push_row(&DataRow {
        payload,
        field_count: 1,
    })
}

/// Appends data of a COPY, of five bytes and `len` more.
fn push_copied(outbox: &mut Outbox, alloc: Global, len: usize) -> Result<(), AllocError>
    requires { len ≤ 200000 }
{
    let payload = bytes(alloc, len)?;
    outbox.push_copied(&CopyData { payload })
}

/// Takes the first chunk, and tells how long it was.
fn taken(outbox: &mut Outbox) -> usize {
    let Some(front) = outbox.front() else {
        return 0;
    };
    let len = front.len();
    outbox.drop_front();
    len
}

/// Takes all chunks, and tells whether they had these lengths.
fn are_taken(outbox: &mut Outbox, lens: &[usize]) -> bool {
    for len in lens {
        if taken(outbox) != *len {
            return false;
        }
    }
    taken(outbox) == 0
}

/// Whether a reply fills three chunks.
fn fills_three_chunks(outbox: &mut Outbox, alloc: Global) -> Result<bool, AllocError> {
    push(outbox, alloc, 150000)?;
    Ok(outbox.len() == 150005 && are_taken(outbox, &[65536, 65536, 18933]))
}

/// Whether what was appended over the end of a full chunk is taken back, with a byte before it.
fn is_taken_back(outbox: &mut Outbox, alloc: Global) -> Result<bool, AllocError> {
    push(outbox, alloc, 65531)?;
    let is_full = outbox.len() == CHUNK;
    push(outbox, alloc, 150000)?;
    outbox.truncate(65530);
    Ok(is_full && are_taken(outbox, &[65530]))
}

/// Whether a chunk that was sent is written again.
fn is_written_again(outbox: &mut Outbox, alloc: Global) -> Result<bool, AllocError> {
    push(outbox, alloc, 150000)?;
    let is_sent = taken(outbox) == 65536;
    push(outbox, alloc, 150000)?;
    Ok(is_sent && outbox.len() == 234474 && are_taken(outbox, &[65536, 65536, 65536, 37866]))
}

/// Whether no byte of what waits stands in a chunk that is released.
fn is_released(outbox: &mut Outbox, alloc: Global) -> Result<bool, AllocError> {
    push(outbox, alloc, 65536)?;
    let is_sent = taken(outbox) == 65536;
    outbox.release();
    Ok(is_sent && are_taken(outbox, &[5]))
}

/// Whether rows stand in a chunk and over its end.
fn has_rows(outbox: &mut Outbox, alloc: Global) -> Result<bool, AllocError> {
    push_row(outbox, alloc, 20)?;
    let is_short = outbox.len() == 27;
    push_row(outbox, alloc, 100000)?;
    Ok(is_short && are_taken(outbox, &[65536, 34498]))
}

/// Whether data of a COPY stand in a chunk and over its end.
fn has_copied(outbox: &mut Outbox, alloc: Global) -> Result<bool, AllocError> {
    push_copied(outbox, alloc, 20)?;
    let is_short = outbox.len() == 25;
    push_copied(outbox, alloc, 100000)?;
    Ok(is_short && are_taken(outbox, &[65536, 34494]))
}

/// Whether pieces of a reply stand in a chunk, up to its last byte, and over its end.
fn has_pieces(outbox: &mut Outbox, alloc: Global) -> Result<bool, AllocError> {
    let piece = bytes(alloc, 65531)?;
    outbox.push_bytes(b"C")?;
    outbox.push_bytes(&[0, 0, 0, 4])?;
    outbox.push_bytes(piece.as_slice())?;
    let is_full = outbox.len() == CHUNK;
    outbox.push_bytes(piece.as_slice())?;
    outbox.push_bytes(piece.as_slice())?;
    Ok(is_full && are_taken(outbox, &[65536, 65536, 65526]))
}

/// Whether all this holds of one outbox, which is empty again after each.
fn holds_over_chunks(outbox: &mut Outbox, alloc: Global) -> Result<bool, AllocError> {
    Ok(
        fills_three_chunks(outbox, alloc)?
            && is_taken_back(outbox, alloc)?
            && is_written_again(outbox, alloc)?
            && is_released(outbox, alloc)?
            && has_rows(outbox, alloc)?
            && has_copied(outbox, alloc)?
            && has_pieces(outbox, alloc)?,
    )
}

#[test]
fn replies_over_chunks(rt: HostRuntime) -> Result<(), Fail> {
    let mut outbox = Outbox::new(rt.alloc())?;
    assert!(rt; holds_over_chunks(&mut outbox, rt.alloc()) == Ok(true));
    Ok(())
}
