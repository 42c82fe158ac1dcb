//! A law of what clients say. The function takes nothing and does nothing: its contract is the law.

ghost use Rattle.std.specs.Prelude.{◌⊎◌, List, ℕ, true};
ghost use Rattle.pg_messages.specs.Frames.{DividesInto, IsUnfinished, IsBad, awaits_startup_after_all};
ghost use Rattle.pg_messages.specs.declared.frontend.PgWireFrontendMessage.{PgWireFrontendMessage};
ghost use Rattle.relation_serving.specs.Serving.{SpeaksCore};
ghost use Rattle.relation_tables.specs.Premises.{IsCoreConversation};

/// The whole frames of a client's bytes decide whether it speaks as the core table does: a startup
/// packet comes first, and after it messages of the extended query, whose results are binary, up to
/// Terminate. The bytes after these frames may be any rest that is unfinished or bad.
pub fn whole_frames_decide()
    ensures { (text rest : List ℕ) (messages : List PgWireFrontendMessage)
        → DividesInto true text messages rest
        → IsUnfinished (awaits_startup_after_all messages true) rest
        ⊎ IsBad (awaits_startup_after_all messages true) rest
        → IsCoreConversation messages → SpeaksCore text }
{}
