//! Laws of frames. Each function takes nothing and does nothing: its contract is the law.

ghost use Rattle.std.specs.Prelude.{◌≡◌, ◌<◌, ◌++◌, [], List, ℕ, Bool, ◌⊎◌, length};
ghost use Rattle.std.specs.List.{AllByRecursion};
ghost use Rattle.pg_messages.specs.declared.codec.DecodeContext.{DecodeContext};
ghost use Rattle.pg_messages.specs.declared.frontend.PgWireFrontendMessage.{PgWireFrontendMessage};
ghost use Rattle.pg_messages.specs.Fields.{IsText};
ghost use Rattle.pg_messages.specs.Frames.{IsFrame, IsUnfinished, IsBad, DividesInto, awaits_startup_after, awaits_startup_after_all, context_after, message_texts};

/// Bytes that begin with a good frame are neither unfinished nor bad.
pub fn frame_is_no_rest()
    ensures finished { (awaiting : Bool) (frame rest : List ℕ) (m : PgWireFrontendMessage)
        → IsFrame awaiting frame m → ¬ IsUnfinished awaiting (frame ++ rest) }
    ensures good { (awaiting : Bool) (frame rest : List ℕ) (m : PgWireFrontendMessage)
        → IsFrame awaiting frame m → ¬ IsBad awaiting (frame ++ rest) }
{}

/// No bytes are both unfinished and bad.
pub fn unfinished_is_not_bad()
    ensures { (awaiting : Bool) (rest : List ℕ) → IsUnfinished awaiting rest
        → ¬ IsBad awaiting rest }
{}

/// At most one frame begins the bytes, and it carries one message.
pub fn one_frame()
    ensures { (awaiting : Bool) (a b x y : List ℕ) (m n : PgWireFrontendMessage)
        → IsFrame awaiting a m → IsFrame awaiting b n → a ++ x ≡ b ++ y
        → (a ≡ b) × (x ≡ y) × (m ≡ n) }
{}

/// Within one phase no good frame is a proper prefix of another.
pub fn no_frame_begins_another()
    ensures { (awaiting : Bool) (frame more : List ℕ) (m n : PgWireFrontendMessage)
        → IsFrame awaiting frame m → IsFrame awaiting (frame ++ more) n → more ≡ [] }
{}

/// Each text that a frame carries is UTF-8 without a zero byte, and shorter than the frame.
pub fn texts_of_frames()
    ensures { (awaiting : Bool) (frame : List ℕ) (m : PgWireFrontendMessage)
        → IsFrame awaiting frame m
        → AllByRecursion (λ text. IsText text × (length text < length frame)) (message_texts m) }
{}

/// Bytes have at most one division into frames and a rest that is unfinished or bad.
pub fn one_division()
    ensures { (ms ns : List PgWireFrontendMessage) (awaiting : Bool) (text x y : List ℕ)
        → DividesInto awaiting text ms x
        → IsUnfinished (awaits_startup_after_all ms awaiting) x
        ⊎ IsBad (awaits_startup_after_all ms awaiting) x
        → DividesInto awaiting text ns y
        → IsUnfinished (awaits_startup_after_all ns awaiting) y
        ⊎ IsBad (awaits_startup_after_all ns awaiting) y
        → (ms ≡ ns) × (x ≡ y) }
{}

/// Bytes that come later don't change the frames that are there.
pub fn more_bytes_keep_frames()
    ensures { (ms : List PgWireFrontendMessage) (awaiting : Bool) (text rest more : List ℕ)
        → DividesInto awaiting text ms rest
        → DividesInto awaiting (text ++ more) ms (rest ++ more) }
{}

/// All bytes have a division: frames, and a rest that is unfinished or bad.
pub fn has_division()
    ensures { (awaiting : Bool) (text : List ℕ)
        → (ms : List PgWireFrontendMessage) × (rest : List ℕ) × DividesInto awaiting text ms rest
        × (IsUnfinished (awaits_startup_after_all ms awaiting) rest
        ⊎ IsBad (awaits_startup_after_all ms awaiting) rest) }
{}

/// A division, and a division of its rest, join to one division.
pub fn divisions_join()
    ensures messages { (ms ns : List PgWireFrontendMessage) (awaiting : Bool)
        (text mid rest : List ℕ) → DividesInto awaiting text ms mid
        → DividesInto (awaits_startup_after_all ms awaiting) mid ns rest
        → DividesInto awaiting text (ms ++ ns) rest }
    ensures awaiting { (ms ns : List PgWireFrontendMessage) (awaiting : Bool)
        → awaits_startup_after_all (ms ++ ns) awaiting
        ≡ awaits_startup_after_all ns (awaits_startup_after_all ms awaiting) }
{}

/// Bytes that begin with a bad header or frame stay bad when more bytes follow.
pub fn bad_stays_bad()
    ensures { (awaiting : Bool) (rest more : List ℕ)
        → IsBad awaiting rest → IsBad awaiting (rest ++ more) }
{}

/// After each message a codec awaits the startup packet exactly where the division does.
pub fn context_follows_division()
    ensures { (m : PgWireFrontendMessage) (context : DecodeContext)
        → (context_after m context).awaiting_startup
        ≡ awaits_startup_after m context.awaiting_startup }
{}
