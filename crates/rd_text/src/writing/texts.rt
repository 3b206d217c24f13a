//! A text in a buffer of fixed capacity, and appending words to it.

ghost use Rattle.rd_text.specs.Puts.{Puts};

use arrayvec::ArrayVec;

/// The greatest number of bytes in a text.
pub const MOST_TEXT_BYTES: usize = 512;

/// A text of up to 512 bytes.
pub type Text = ArrayVec<u8, MOST_TEXT_BYTES>;

/// Appends words to the text if there is room for all of them; if not, the text stays as it is.
pub fn put(text: &mut Text, words: &[u8])
    ensures { Puts text.old.items text.new.items words.now }
{
    let _ = text.try_extend_from_slice(words);
}
