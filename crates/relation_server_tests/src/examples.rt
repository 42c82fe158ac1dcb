//! An example of what a core conversation is. The function takes nothing and does nothing: its
//! contract is the example.

ghost use Rattle.relation_server_tests.specs.Examples.{first_path};
ghost use Rattle.relation_tables.specs.Premises.{IsCoreConversation};

/// The messages of the first path are those of a core conversation, so a client can meet what the
/// run over the core table asks of it.
pub fn first_path_is_core()
    ensures { IsCoreConversation first_path }
{}
