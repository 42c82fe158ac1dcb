//! Appends the data types that replies are made of to a buffer.

ghost use Rattle.std.specs.Prelude.{◌≡◌, ◌≤◌, ◌<◌, ◌+◌, ◌-◌, ◌^◌, ◌++◌, ℕ, List, min, length};
ghost use Rattle.std.specs.List.{flat_map};
ghost use Rattle.pg_messages.specs.Fields.{count16};

use crate::values::PgStr;
use bytes::BytesMut;

/// A value that has bytes in a reply.
pub trait Put: Sized {
    /// The bytes of the value.
    ghost bytes_of: { Self → List ℕ };

    /// How many bytes there are. The number saturates at the greatest u64.
    fn byte_len(&self) -> u64
        ensures { result ≡ min (length (bytes_of self.now)) (2 ^ 64 - 1) };

    /// Appends the bytes. The room was made before, so it cannot fail.
    fn put(&self, dst: &mut BytesMut)
        requires { length (bytes_of self.now) ≤ dst.old.spare }
        ensures items { dst.new.items ≡ dst.old.items ++ bytes_of self.now }
        ensures spare { dst.new.spare + length (bytes_of self.now) ≡ dst.old.spare };
}

impl Put for i8 {
    ghost use Rattle.pg_messages.specs.Fields.{int8};

    ghost bytes_of = { int8 };

    fn byte_len(&self) -> u64 {
        1
    }

    fn put(&self, dst: &mut BytesMut) {
        dst.extend_reserved(&self.to_be_bytes());
    }
}

impl Put for u32 {
    ghost use Rattle.pg_messages.specs.Fields.{count32};

    ghost bytes_of = { count32 };

    fn byte_len(&self) -> u64 {
        4
    }

    fn put(&self, dst: &mut BytesMut) {
        dst.extend_reserved(&self.to_be_bytes());
    }
}

impl Put for i32 {
    ghost use Rattle.pg_messages.specs.Fields.{int32};

    ghost bytes_of = { int32 };

    fn byte_len(&self) -> u64 {
        4
    }

    fn put(&self, dst: &mut BytesMut) {
        dst.extend_reserved(&self.to_be_bytes());
    }
}

impl Put for i16 {
    ghost use Rattle.pg_messages.specs.Fields.{int16};

    ghost bytes_of = { int16 };

    fn byte_len(&self) -> u64 {
        2
    }

    fn put(&self, dst: &mut BytesMut) {
        dst.extend_reserved(&self.to_be_bytes());
    }
}

impl Put for PgStr {
    ghost use Rattle.pg_messages.specs.Fields.{string};

    ghost bytes_of = { string };

    fn byte_len(&self) -> u64 {
        (self.as_str().len() as u64).saturating_add(1)
    }

    fn put(&self, dst: &mut BytesMut) {
        dst.extend_reserved(self.as_str().as_bytes());
        dst.extend_reserved(&[0]);
    }
}

/// How many bytes the values have, and `before` others. The number saturates at the greatest u64.
pub fn list_len<T: Put>(before: u64, values: &[T]) -> u64
    ensures { result ≡ min (before + length (flat_map T.bytes_of values.now)) (2 ^ 64 - 1) }
{
    let mut len = before;
    for value in values {
        len = len.saturating_add(value.byte_len());
    }
    len
}

/// Appends an Int16 count and the bytes of as many values.
pub fn put_list<T: Put>(values: &[T], dst: &mut BytesMut)
    requires count { length values.now < 2 ^ 15 }
    requires room { length (count16 (length values.now) ++ flat_map T.bytes_of values.now)
        ≤ dst.old.spare }
    ensures items { dst.new.items
        ≡ dst.old.items ++ (count16 (length values.now) ++ flat_map T.bytes_of values.now) }
    ensures spare { dst.new.spare
        + length (count16 (length values.now) ++ flat_map T.bytes_of values.now) ≡ dst.old.spare }
{
    dst.extend_reserved(&(values.len() as u16).to_be_bytes());
    put_all(values, dst);
}

/// Appends the bytes of values, one after another.
pub fn put_all<T: Put>(values: &[T], dst: &mut BytesMut)
    requires { length (flat_map T.bytes_of values.now) ≤ dst.old.spare }
    ensures items { dst.new.items ≡ dst.old.items ++ flat_map T.bytes_of values.now }
    ensures spare { dst.new.spare + length (flat_map T.bytes_of values.now) ≡ dst.old.spare }
{
    for value in values {
        value.put(dst);
    }
}
