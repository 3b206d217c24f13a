//! Numbers, bits and choices in a text. A number is written as decimal digits without leading
//! zeros. What each `put_..` function does without room is in `writing.rt`.

ghost use Rattle.std.specs.Prelude.{◌≡◌, ◌≤◌, ◌++◌, length};
ghost use Rattle.std.specs.Fmt.{decimal};
ghost use Rattle.rd_text.specs.Puts.{Puts, PutsUpTo};
ghost use Rattle.rd_text.specs.Texts.{spaced_number, number_or_hyphen, bit_number, yes_or_no};

use super::texts::{Text, put};
use itoa::Buffer;

/// Appends to the text the decimal digits of a number, without leading zeros.
pub fn put_number(text: &mut Text, number: u64)
    ensures { PutsUpTo 20 text.old.items text.new.items (decimal number) }
{
    let mut digits = Buffer::new();
    put(text, digits.format(number).as_bytes());
}

/// Appends to the text a number, or a hyphen if there is none.
pub fn put_number_or_hyphen(text: &mut Text, number: Option<u64>)
    ensures { PutsUpTo 20 text.old.items text.new.items (number_or_hyphen number) }
{
    match number {
        None => put(text, b"-"),
        Some(number) => put_number(text, number),
    }
}

/// Appends to the text a space and a number.
pub fn put_spaced_number(text: &mut Text, number: u64)
    ensures { PutsUpTo 21 text.old.items text.new.items (spaced_number number) }
{
    put(text, b" ");
    put_number(text, number);
}

/// Appends to the text these words, a space and a number.
pub fn put_words_and_number(text: &mut Text, words: &[u8], number: u64)
    ensures words { Puts text.old.items text.new.items (words.now ++ spaced_number number) }
    ensures len { length (spaced_number number) ≤ 21 }
{
    put(text, words);
    put_spaced_number(text, number);
}

/// Returns a bit as a number, 0 or 1.
pub fn bit_number(bit: bool) -> u64
    ensures { result ≡ bit_number bit }
{
    if bit { 1 } else { 0 }
}

/// Returns a choice as a word, `yes` or `no`.
pub fn yes_or_no(choice: bool) -> &'static [u8]
    ensures name { result.now ≡ yes_or_no choice }
    ensures len { length result.now ≤ 3 }
{
    if choice { b"yes" } else { b"no" }
}
