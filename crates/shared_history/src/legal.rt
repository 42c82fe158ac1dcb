//! Which histories are legal.

ghost use Rattle.std.specs.Prelude.{List, []};

/// What a history is a list of, and which histories are legal.
pub trait History {
    /// One change, as the history tells it.
    type Change: Drop;

    // the history may be this one
    ghost legal: { List Self.Change → Type 0 };
    // it is where nothing has changed yet
    ghost empty: { legal [] };
}
