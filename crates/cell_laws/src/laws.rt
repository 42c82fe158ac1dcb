//! The law of what each row and each line shows, for every table of relations. The function does
//! nothing: its contract is the law.

ghost use Rattle.std.specs.Prelude.{◌≡◌, Bool, ℕ, ℤ, List};
ghost use Rattle.pg_messages.specs.declared.frontend.PgWireFrontendMessage.{PgWireFrontendMessage};
ghost use Rattle.pg_client.specs.Answer.{Goes, conversation};
ghost use Rattle.pg_client.specs.State.{State, first_state};
ghost use Rattle.conversation_table.specs.Table.{whole_table};
ghost use Rattle.relation_tables.specs.declared.RelationStatement.{RelationStatement};
ghost use Rattle.relation_tables.specs.RelationHandler.{relation_handlers};
ghost use Rattle.cell_laws.specs.ShownCells.{ShowInOwnFormat, ShowStored, style_of};

use relation_handlers::RelationTable;

/// Whatever messages come and whatever the registry answers, each cell of the conversation table's
/// replies stands for a stored interval, and for no other. Every conversation that is served over
/// these relations is answered by this table.
pub fn shown_cells_stand(relations: &RelationTable)
    // In the session's style, and in a format that a Bind among the messages chose, or in text.
    ensures cells { (registration : ℤ
        × List ℕ) (answers : List Bool) (messages : List PgWireFrontendMessage)
        → ShowStored relations.now messages
        (conversation (whole_table (relation_handlers relations.now)) answers
        (first_state registration.0 registration.1) messages).replies }

    // Wherever the messages lead, a further message is answered so too: an Execute in the format
    // that its own portal's Bind chose, and every other message in text.
    ensures formats { (registration : ℤ × List ℕ) (answers more : List Bool)
        (messages : List PgWireFrontendMessage) (s : State RelationStatement)
        (m : PgWireFrontendMessage)
        → (conversation (whole_table (relation_handlers relations.now)) answers
        (first_state registration.0 registration.1) messages).next ≡ Goes s
        → ShowInOwnFormat relations.now (style_of messages) s m
        (whole_table (relation_handlers relations.now) more s m).replies }
{
    let _valid = relations.relations();
}
