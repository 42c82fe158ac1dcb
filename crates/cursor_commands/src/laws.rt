//! A law of commands. The function takes nothing and does nothing: its contract is the law.

ghost use Rattle.std.specs.Prelude.{◌≡◌, ℕ, List, false, Some};
ghost use Rattle.std.specs.List.{AllByRecursion};
ghost use Rattle.pg_messages.specs.Frames.{IsFrame};
ghost use Rattle.pg_messages.specs.declared.frontend.PgWireFrontendMessage.TheVariants as client;
ghost use Rattle.pg_messages.specs.declared.simplequery.Query.{Query};
ghost use Rattle.cursor_commands.specs.Asking.{CanBeSent};
ghost use Rattle.cursor_commands.specs.Commands.{command_of};
ghost use Rattle.cursor_commands.specs.Cursors.{messages_of};
ghost use Rattle.cursor_commands.specs.declared.command.CursorCommand.{CursorCommand};

/// The messages of a command can be sent, where a good frame carried the query that is the command.
pub fn commands_can_be_sent()
    ensures { (frame : List ℕ) (query : Query) (command : CursorCommand)
        → IsFrame false frame (client.Query query) → command_of query.query ≡ Some command
        → AllByRecursion CanBeSent (messages_of command) }
{}
