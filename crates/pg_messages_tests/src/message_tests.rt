//! Each call on texts, bytes and lists that takes memory succeeds where there is enough. The table
//! of frames and replies is the program message_rows.

use pg_messages::{
    FORMAT_CODE_BINARY, FORMAT_CODE_TEXT, PgBytes, PgList, PgStr, TARGET_TYPE_BYTE_PORTAL,
    TARGET_TYPE_BYTE_STATEMENT,
};
use std::alloc::{AllocError, Global};
use std::test::*;

fn is_text(alloc: Global) -> Result<bool, AllocError> {
    let text = PgStr::copy_of(alloc, "span")?;
    let longer = PgStr::copy_of(alloc, "spans")?;
    Ok(text.as_str() == "span" && text < longer)
}

fn are_bytes(alloc: Global) -> Result<bool, AllocError> {
    let bytes = PgBytes::copy_of(alloc, &[1, 0, 255])?;
    Ok(PgBytes::from_vec(bytes.into_vec()).as_slice() == [1, 0, 255].as_slice())
}

fn both_formats(alloc: Global) -> Result<PgList<i16>, AllocError> {
    let mut list = PgList::new(alloc);
    list.push(FORMAT_CODE_TEXT)?;
    list.push(FORMAT_CODE_BINARY)?;
    Ok(list)
}

fn is_pair(list: PgList<i16>) -> bool {
    let is = list.as_slice() == [0, 1].as_slice();
    is && PgList::from_vec(list.into_vec()).len() == 2
}

fn are_target_bytes(statement: u8, portal: u8) -> bool {
    statement == b'S' && portal == b'P'
}

#[test]
fn t_lists(rt: HostRuntime) -> Result<(), Fail> {
    assert!(rt; is_text(rt.alloc())? && are_bytes(rt.alloc())?);
    assert!(rt; is_pair(both_formats(rt.alloc())?));
    assert!(rt; are_target_bytes(TARGET_TYPE_BYTE_STATEMENT, TARGET_TYPE_BYTE_PORTAL));
    Ok(())
}
