//! A law of the cursor table. The function takes nothing and does nothing: its contract is the law.

ghost use Rattle.std.specs.Prelude.{Bool};
ghost use Rattle.pg_client.specs.Answer.{Table};
ghost use Rattle.conversation_table.specs.Lawful.{IsLawful};
ghost use Rattle.cursor_table.specs.CursorTable.{cursor_table};

/// The cursor table over a lawful table is lawful: it takes the registry's answers from the front,
/// and awaits the startup packet until that came.
pub fn cursor_table_is_lawful<T>()
    ensures { (ready awaits : T → Bool) (table : Table T)
        → IsLawful table awaits → IsLawful (cursor_table ready table) awaits }
{}
