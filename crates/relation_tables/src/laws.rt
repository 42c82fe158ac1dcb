//! The law of both conversation tables. The function takes nothing and does nothing: its contract
//! is the law.

ghost use Rattle.std.specs.Prelude.{Bool, List};
ghost use Rattle.pg_messages.specs.declared.frontend.PgWireFrontendMessage.{PgWireFrontendMessage};
ghost use Rattle.pg_client.specs.Answer.{conversation};
ghost use Rattle.pg_client.specs.State.{first_state};
ghost use Rattle.conversation_table.specs.Table.{whole_table, awaits};
ghost use Rattle.relation_tables.specs.CoreTable.{Setting, core_table, first_core_state, core_awaits};
ghost use Rattle.relation_tables.specs.Premises.{AreCore, IsCoreConversation, AreAlike};
ghost use Rattle.relation_tables.specs.RelationHandler.{relation_handlers};
ghost use Rattle.relation_tables.specs.Relations.{HaveEvenRows};

/// Over relations whose rows are as wide as their columns, the whole table with the handlers of
/// relations and the core table answer alike. They do so for messages of extended queries with
/// binary results, and for the messages of a core conversation, whatever follows its end.
pub fn whole_is_core()
    ensures each { (setting : Setting) (answers : List Bool) (messages : List PgWireFrontendMessage)
        → HaveEvenRows setting.relations → AreCore messages
        → AreAlike awaits core_awaits
        (conversation (whole_table (relation_handlers setting.relations)) answers
        (first_state setting.pid setting.key) messages)
        (conversation (core_table setting) answers first_core_state messages) }
    ensures up_to_the_end { (setting : Setting) (answers : List Bool)
        (messages : List PgWireFrontendMessage)
        → HaveEvenRows setting.relations → IsCoreConversation messages
        → AreAlike awaits core_awaits
        (conversation (whole_table (relation_handlers setting.relations)) answers
        (first_state setting.pid setting.key) messages)
        (conversation (core_table setting) answers first_core_state messages) }
{}
