//! Cutting a text into parts: a line into words at its spaces, and a segment's name into numbers at
//! its full stops.
//!
//! Two words have one space between them, and none is before the first or after the last. So an
//! extra space makes an empty part, which spells nothing. No command has more than four words.

ghost use Rattle.std.specs.Prelude.{◌≡◌, ◌==◌, ◌<◌, length, map, IfSome, IfNone};
ghost use Rattle.std.specs.Char.{is_ascii_graphic};
ghost use Rattle.std.specs.List.{list_all, slice_split};
ghost use Rattle.rd_text.specs.Spelling.{is_word};

use arrayvec::ArrayVec;

/// The greatest number of parts: a command has at most four words.
pub const MOST_PARTS: usize = 4;

/// Up to four parts of a text.
pub type TextParts<'a> = ArrayVec<&'a [u8], MOST_PARTS>;

/// Returns the parts of a text between the bytes that separate them, or `None` if there are more
/// than four. An empty text is one empty part.
pub fn parts_of(text: &[u8], separator: u8) -> Option<TextParts<'_>>
    ensures some { IfSome result (λ parts. map (λ part. part.now) parts.items
        ≡ slice_split (λ byte. byte == separator) text.now) }
    ensures none { IfNone result (MOST_PARTS
        < length (slice_split (λ byte. byte == separator) text.now)) }
{
    let mut parts = TextParts::new();
    for part in text.split(|byte| *byte == separator) {
        if parts.try_push(part).is_err() {
            return None;
        }
    }
    Some(parts)
}

/// Returns whether these bytes are a word: at least one, each from 33 to 126.
pub fn is_word(text: &[u8]) -> bool
    ensures { result ≡ is_word text.now }
{
    !text.is_empty() && are_graphic(text)
}

/// Returns whether each of these bytes is from 33 to 126.
fn are_graphic(text: &[u8]) -> bool
    ensures { result ≡ list_all is_ascii_graphic text.now }
{
    text.iter().all(|byte| is_graphic(*byte))
}

/// Returns whether the byte is from 33 to 126.
fn is_graphic(byte: u8) -> bool
    ensures { result ≡ is_ascii_graphic byte }
{
    byte.is_ascii_graphic()
}
