// A number with its word, as the styles postgres and postgres_verbose print it.
ghost use Rattle.std.specs.Prelude.{◌≡◌, ◌+◌, ◌++◌, ◌∷◌, [], ◌<◌, ◌≤◌, ◌==◌, drop, length, decimal, if◌then◌else◌};
ghost use Rattle.pg_interval.specs.Printed.{part_text, word_end, minus_if};

use super::LONGEST;
use super::back::{put_byte, put_byte_if, put_word};
use super::digits::put_digits;

/// Writes a space, a number, a space and its word, with an `s` unless the number is 1, and nothing
/// for zero. `words` is what follows a number other than 1: a space, the word and an `s`.
#[inline(always)]
#[tactic(auto, using(crate::proofs::PrintedLemmas::signed_passed), unfolding(crate::specs::Printed::part_text))]
pub fn put_part(
    negative: bool,
    number: u64,
    word: &[u8],
    words: &[u8],
    text: &mut [u8; LONGEST],
    end: usize,
) -> usize
    requires word { length word.now ≤ 4 }
    requires words { words.now ≡ 32 ∷ word.now ++ 115 ∷ [] }
    requires room { (length (decimal number) + 8 ≤ end) × (end ≤ 96) }
    ensures place { (result ≤ end) × (end ≤ result + length (decimal number) + 8) }
    ensures written { drop result text.new
        ≡ (if number == 0 then [] else 32 ∷ part_text negative (decimal number) word.now)
        ++ drop end text.old }
{
    if number == 0 {
        return end;
    }
    let letters = put_words(negative, number, word, words, text, end);
    let digits = put_digits(number, text, letters);
    let minus = put_byte_if(negative, b'-', text, digits);
    put_byte(b' ', text, minus)
}

/// Writes a space and the word, with its `s` unless the number is 1.
#[inline(always)]
#[tactic(auto, using(crate::proofs::SpacedParts::words_put))]
fn put_words(
    negative: bool,
    number: u64,
    word: &[u8],
    words: &[u8],
    text: &mut [u8; LONGEST],
    end: usize,
) -> usize
    requires words { words.now ≡ 32 ∷ word.now ++ 115 ∷ [] }
    requires room { (length word.now + 2 ≤ end) × (end ≤ 96) }
    ensures place { (result ≤ end) × (end ≤ result + length word.now + 2) }
    ensures written { drop result text.new
        ≡ 32 ∷ word.now ++ word_end (minus_if negative ++ decimal number) ++ drop end text.old }
{
    if number == 1 {
        let letter = put_byte_if(negative, b's', text, end);
        put_word(&words[..words.len() - 1], text, letter)
    } else {
        put_word(words, text, end)
    }
}
