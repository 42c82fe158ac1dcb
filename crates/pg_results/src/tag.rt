//! Tags of commands that were done.

ghost use Rattle.std.specs.Prelude.{◌≡◌, ◌++◌, IfOk, OnOk, string_bytes};
ghost use Rattle.pg_results.specs.Tags.{tag_of, tag_with_rows, tag_with_oid, tag_text, spaced};

use itoa::Buffer;
use pg_messages::{CommandComplete, PgStr};
use std::alloc::{AllocError, Global};

/// The tag of a command: its name, and for some commands an oid and a number of rows.
#[derive(Debug, Drop, PartialEq, Eq)]
pub struct Tag {
    command: PgStr,
    oid: Option<u32>,
    rows: Option<usize>,
}

impl Tag {
    /// The tag of a command, without an oid and a number of rows.
    pub fn new(alloc: Global, command: &str) -> Result<Tag, AllocError>
        ensures { IfOk result (λ tag. tag ≡ tag_of command.now) }
    {
        Ok(Tag {
            command: with_room(alloc, command)?,
            oid: None,
            rows: None,
        })
    }

    /// The tag with this number of rows.
    pub fn with_rows(self, rows: usize) -> Tag
        ensures { result ≡ tag_with_rows rows self }
    {
        let mut tag = self;
        tag.rows = Some(rows);
        tag
    }

    /// The tag with this oid, which is sent only before a number of rows.
    pub fn with_oid(self, oid: u32) -> Tag
        ensures { result ≡ tag_with_oid oid self }
    {
        let mut tag = self;
        tag.oid = Some(oid);
        tag
    }

    /// The reply with the tag's text: `command oid rows` with both numbers, `command rows` with
    /// rows alone, else `command`.
    pub fn into_command_complete(self, _alloc: Global) -> Result<CommandComplete, AllocError>
        ensures { IfOk result (λ reply. reply.tag ≡ tag_text self) }
    {
        let Tag { command, oid, rows } = self;
        let mut text = command.into_string();
        if let Some(rows) = rows {
            if let Some(oid) = oid {
                push_number(&mut text, u64::from(oid))?;
            }
            push_number(&mut text, rows as u64)?;
        }
        Ok(CommandComplete {
            tag: PgStr::from_string(text),
        })
    }

    /// An equal value.
    pub fn copy_of(&self, alloc: Global) -> Result<Tag, AllocError>
        ensures { IfOk result (λ copy. copy ≡ self.now) }
    {
        Ok(Tag {
            command: with_room(alloc, self.command.as_str())?,
            oid: self.oid,
            rows: self.rows,
        })
    }
}

/// A copy of a command's name, with room for both numbers after it: a space and at most ten digits,
/// a space and at most twenty.
fn with_room(alloc: Global, command: &str) -> Result<PgStr, AllocError>
    ensures { IfOk result (λ copy. copy ≡ command.now) }
{
    let mut text = String::with_capacity(alloc, command.len().saturating_add(32))?;
    text.push_str(command)?;
    Ok(PgStr::from_string(text))
}

/// Appends a space and a number.
fn push_number(text: &mut String, number: u64) -> Result<(), AllocError>
    ensures { OnOk result (string_bytes text.new ≡ string_bytes text.old ++ spaced number) }
{
    let mut digits = Buffer::new();
    text.push_str(" ")?;
    text.push_str(digits.format(number))
}
