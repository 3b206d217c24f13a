//! The words that spell a place.

ghost use Rattle.std.specs.Prelude.{◌≤◌, ◌++◌, length};
ghost use Rattle.rd_text.specs.Puts.{Puts, PutsUpTo};
ghost use Rattle.rd_text.specs.Contents.{segment_name_words};
ghost use Rattle.rd_text.specs.Spelling.{place_words};

use super::contents::put_segment_name;
use super::numbers::{put_spaced_number, put_words_and_number};
use super::texts::{Text, put};
use rd_cell::{Place, SegName};

/// Appends to the text the words that spell a place.
pub fn put_place(text: &mut Text, place: Place)
    ensures { PutsUpTo 68 text.old.items text.new.items (place_words place) }
{
    match place {
        Place::QHead => put(text, b"qhead"),
        Place::QTail => put(text, b"qtail"),
        Place::Head(name) => put_words_and_name(text, b"head ", name),
        Place::Tail(name) => put_words_and_name(text, b"tail ", name),
        Place::Next(name) => put_words_and_name(text, b"next ", name),
        Place::Cell(name, index) => {
            put_words_and_name(text, b"cell ", name);
            put_spaced_number(text, u64::from(index));
        }
        Place::Val(name, index) => {
            put_words_and_name(text, b"value ", name);
            put_spaced_number(text, u64::from(index));
        }
        Place::Idx(name, index) => {
            put_words_and_name(text, b"index ", name);
            put_spaced_number(text, u64::from(index));
        }
        Place::Whole(name) => put_words_and_name(text, b"whole ", name),
        Place::ArrHead => put(text, b"ahead"),
        Place::ArrTail => put(text, b"atail"),
        Place::ArrCell(index) => put_words_and_number(text, b"acell", u64::from(index)),
    }
}

/// Appends to the text these words and a segment's name, with no space between them.
fn put_words_and_name(text: &mut Text, words: &[u8], name: SegName)
    ensures words { Puts text.old.items text.new.items (words.now ++ segment_name_words name) }
    ensures len { length (segment_name_words name) ≤ 41 }
{
    put(text, words);
    put_segment_name(text, name);
}
