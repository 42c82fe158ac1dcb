//! The orders that words give.

ghost use Rattle.std.specs.Prelude.{◌≡◌, ◌↔◌, Ok, Some, IfSome, IfNone, IsSome, IsTrue, slice_get};
ghost use Rattle.pg_text.specs.Words.{interval_style_of};
ghost use Rattle.rota_moments.specs.Texts.{IsReading};
ghost use Rattle.rota_moments.specs.declared.moment.Moment.{Moment};
ghost use Rattle.rota_words.specs.Orders.{Ordered, Orders, told_order};

use crate::orders::{Order, RotaWords};
use pg_messages::PgStr;
use pg_text::IntervalStyle;
use rota_moments::Moment;
use std::alloc::Global;

/// What the words order: `lines FILE RELATION COLUMN START STYLE` or `clashes FILE RELATION COLUMN
/// START RELATION COLUMN START`. FILE, RELATION and COLUMN are any words, START is a text that
/// `Moment::read` takes, and STYLE one that `IntervalStyle::try_from_text` takes. None for any other
/// words.
pub fn read_order<'w>(alloc: Global, words: &'w [PgStr]) -> Option<Order<'w>>
    ensures some { IfSome result (λ o. Orders words.now (told_order o)) }
    ensures none { IfNone result ((o : Ordered) → ¬ Orders words.now o) }
{
    match words {
        [command, _, relation, column, start, style] if is_word(command, "lines") => {
            let rota = read_rota(relation, column, start)?;
            let style = read_style(alloc, style)?;
            Some(Order::Lines(rota, style))
        }
        [
            command,
            _,
            relation,
            column,
            start,
            other,
            its_column,
            its_start,
        ] if is_word(command, "clashes") => {
            let rota = read_rota(relation, column, start)?;
            let other = read_rota(other, its_column, its_start)?;
            Some(Order::Clashes(rota, other))
        }
        _ => None,
    }
}

/// FILE, the second of words that are an order. None for any other words.
pub fn file_word<'w>(alloc: Global, words: &'w [PgStr]) -> Option<&'w str>
    ensures some { IfSome result (λ file. slice_get words.now 1 ≡ Some file.now) }
    ensures ordered { IsSome result ↔ ((o : Ordered) × Orders words.now o) }
{
    read_order(alloc, words)?;
    Some(words.get(1)?.as_str())
}

/// Whether a word is this text.
fn is_word(word: &PgStr, text: &str) -> bool
    ensures { IsTrue result ↔ (word.now ≡ text.now) }
{
    word.as_str() == text
}

/// The rota that three words name.
fn read_rota<'w>(relation: &'w PgStr, column: &'w PgStr, start: &PgStr) -> Option<RotaWords<'w>>
    ensures relation { IfSome result (λ w. w.relation.now ≡ relation.now) }
    ensures column { IfSome result (λ w. w.column.now ≡ column.now) }
    ensures start { IfSome result (λ w. IsReading start.now (Ok w.start)) }
    ensures none { IfNone result ((m : Moment) → ¬ IsReading start.now (Ok m)) }
{
    match Moment::read(start.as_str()) {
        Ok(start) => Some(RotaWords {
            relation: relation.as_str(),
            column: column.as_str(),
            start,
        }),
        Err(_) => None,
    }
}

/// The style that a word names.
fn read_style(alloc: Global, word: &PgStr) -> Option<IntervalStyle>
    ensures { result ≡ interval_style_of word.now }
{
    match IntervalStyle::try_from_text(alloc, word.as_str()) {
        Ok(style) => Some(style),
        Err(_) => None,
    }
}
