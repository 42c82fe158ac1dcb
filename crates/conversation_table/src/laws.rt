//! A law of the conversation table. The function takes nothing and does nothing: its contract is
//! the law.

ghost use Rattle.conversation_table.specs.Handlers.{Handlers};
ghost use Rattle.conversation_table.specs.Lawful.{IsLawful};
ghost use Rattle.conversation_table.specs.Table.{whole_table, awaits};

/// The whole table takes the registry's answers from the front. Further answers change nothing, and
/// its calls hold those that it took. It awaits the startup packet until that has come.
pub fn whole_table_is_lawful<S>()
    ensures { (h : Handlers S) → IsLawful (whole_table h) awaits }
{}
