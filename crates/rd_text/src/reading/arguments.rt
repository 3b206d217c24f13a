//! The words after a keyword, read as the arguments that its command needs.

ghost use Rattle.std.specs.Prelude.{◌≡◌, ◌≢◌, ℕ, Bool, true, ◌^◌, ◌<◌, [], ◌∷◌, map, IfSome, IfNone, IfOk, IfErr};
ghost use Rattle.std.specs.Fmt.{decimal};
ghost use Rattle.rd_marks.specs.NameBytes.{is_mark_name};
ghost use Rattle.rd_marks.specs.Names.{bytes_of};
ghost use Rattle.rd_step.specs.Prelude.{SegName as Segment};
ghost use Rattle.rd_text.specs.Contents.{segment_name_words};
ghost use Rattle.rd_text.specs.Grammar.{IsSegmentInRange};
ghost use Rattle.rd_text.specs.Texts.{yes_or_no};
ghost use Rattle.rd_text.specs.Reading.{IsFaultOfNames, ReadsName};

use super::numbers::{parse_segment_name, parse_u8, parse_u64};
use super::words::is_word;
use crate::faults::LineFault;
use rd_cell::SegName;
use rd_marks::MarkName;

/// Returns what a word means without arguments: `meant`, or `None` if there are words after it.
pub fn without_arguments<T: Copy>(words: &[&[u8]], meant: T) -> Option<T>
    ensures some { IfSome result (λ found. (found ≡ meant)
        × (map (λ word. word.now) words.now ≡ [])) }
    ensures none { IfNone result (map (λ word. word.now) words.now ≢ []) }
{
    if words.is_empty() { Some(meant) } else { None }
}

/// Returns the number from 0 to 255 that the only word spells. `None` if there isn't exactly one
/// word, or if it spells no such number.
pub fn only_u8(words: &[&[u8]]) -> Option<u8>
    ensures some { IfSome result (λ n. map (λ word. word.now) words.now ≡ decimal n ∷ []) }
    ensures none { IfNone result ((n : ℕ) → n < 256
        → map (λ word. word.now) words.now ≢ decimal n ∷ []) }
{
    let [number] = words else {
        return None;
    };
    parse_u8(number)
}

/// Returns the number from 0 to 2^64 - 1 that the only word spells. `None` if there isn't exactly
/// one word, or if it spells no such number.
pub fn only_u64(words: &[&[u8]]) -> Option<u64>
    ensures some { IfSome result (λ n. map (λ word. word.now) words.now ≡ decimal n ∷ []) }
    ensures none { IfNone result ((n : ℕ) → n < 2 ^ 64
        → map (λ word. word.now) words.now ≢ decimal n ∷ []) }
{
    let [number] = words else {
        return None;
    };
    parse_u64(number)
}

/// Returns the segment's name that the only word spells. `None` if there isn't exactly one word, or
/// if it spells no segment's name.
pub fn only_segment_name(words: &[&[u8]]) -> Option<SegName>
    ensures some { IfSome result (λ s. map (λ word. word.now) words.now
        ≡ segment_name_words s ∷ []) }
    ensures none { IfNone result ((s : Segment) → IsSegmentInRange s
        → map (λ word. word.now) words.now ≢ segment_name_words s ∷ []) }
{
    let [segment] = words else {
        return None;
    };
    parse_segment_name(segment)
}

/// Returns the segment's name and the index, from 0 to 255, that two words spell. `None` if there
/// aren't exactly two words, or if they don't spell these.
pub fn segment_name_and_u8(words: &[&[u8]]) -> Option<(SegName, u8)>
    ensures some { IfSome result (λ r. map (λ word. word.now) words.now
        ≡ segment_name_words r.0 ∷ decimal r.1 ∷ []) }
    ensures none { IfNone result ((s : Segment) (index : ℕ) → IsSegmentInRange s → index < 256
        → map (λ word. word.now) words.now ≢ segment_name_words s ∷ decimal index ∷ []) }
{
    let [segment, index] = words else {
        return None;
    };
    Some((parse_segment_name(segment)?, parse_u8(index)?))
}

/// Returns the actor, from 0 to 255, and the value, from 0 to 2^64 - 1, that two words spell.
/// `None` if there aren't exactly two words, or if they don't spell these.
pub fn actor_and_value(words: &[&[u8]]) -> Option<(u8, u64)>
    ensures some { IfSome result (λ r. map (λ word. word.now) words.now
        ≡ decimal r.0 ∷ decimal r.1 ∷ []) }
    ensures none { IfNone result ((actor x : ℕ) → actor < 256 → x < 2 ^ 64
        → map (λ word. word.now) words.now ≢ decimal actor ∷ decimal x ∷ []) }
{
    let [actor, value] = words else {
        return None;
    };
    Some((parse_u8(actor)?, parse_u64(value)?))
}

/// Returns the actor, from 0 to 255, and the choice (`yes` or `no`) that two words spell. `None` if
/// there aren't exactly two words, or if they don't spell these.
pub fn actor_and_choice(words: &[&[u8]]) -> Option<(u8, bool)>
    ensures some { IfSome result (λ r. map (λ word. word.now) words.now
        ≡ decimal r.0 ∷ yes_or_no r.1 ∷ []) }
    ensures none { IfNone result ((actor : ℕ) (choice : Bool) → actor < 256
        → map (λ word. word.now) words.now ≢ decimal actor ∷ yes_or_no choice ∷ []) }
{
    let [actor, choice] = words else {
        return None;
    };
    Some((parse_u8(actor)?, parse_choice(choice)?))
}

/// Returns the choice that a word spells, or `None` if it is neither `yes` nor `no`.
fn parse_choice(word: &[u8]) -> Option<bool>
    ensures some { IfSome result (λ choice. word.now ≡ yes_or_no choice) }
    ensures none { IfNone result ((choice : Bool) → word.now ≢ yes_or_no choice) }
{
    if word == b"yes".as_slice() {
        return Some(true);
    }
    if word == b"no".as_slice() {
        return Some(false);
    }
    None
}

/// Returns the bookmark's name that the only word is.
///
/// # Errors
///
/// In this order: `BadLine` if there isn't exactly one word, of bytes from 33 to 126; `BadName` if
/// it is no bookmark's name.
pub fn only_name(words: &[&[u8]]) -> Result<MarkName, LineFault>
    ensures ok { IfOk result (λ name. (is_mark_name (bytes_of name) ≡ true)
        × (map (λ word. word.now) words.now ≡ bytes_of name ∷ [])) }
    ensures err { IfErr result (IsFaultOfNames 1 (map (λ word. word.now) words.now)) }
{
    let [name] = words else {
        return Err(LineFault::BadLine);
    };
    parse_name(name)
}

/// Returns the bookmarks' names that two words are.
///
/// # Errors
///
/// In this order: `BadLine` if there aren't exactly two words, each of bytes from 33 to 126;
/// `BadName` if one of them is no bookmark's name.
pub fn two_names(words: &[&[u8]]) -> Result<(MarkName, MarkName), LineFault>
    ensures ok { IfOk result (λ r. ((is_mark_name (bytes_of r.0) ≡ true)
        × (is_mark_name (bytes_of r.1) ≡ true))
        × (map (λ word. word.now) words.now ≡ bytes_of r.0 ∷ bytes_of r.1 ∷ [])) }
    ensures err { IfErr result (IsFaultOfNames 2 (map (λ word. word.now) words.now)) }
{
    let [one, other] = words else {
        return Err(LineFault::BadLine);
    };
    // If either of them is no word, the line is bad, whatever the other one is.
    if !is_word(one) || !is_word(other) {
        return Err(LineFault::BadLine);
    }
    Ok((parse_name(one)?, parse_name(other)?))
}

/// Returns the bookmark's name that these bytes are.
///
/// # Errors
///
/// In this order: `BadLine` if the bytes are no word; `BadName` if they are no bookmark's name.
fn parse_name(word: &[u8]) -> Result<MarkName, LineFault>
    ensures { ReadsName word.now result }
{
    if !is_word(word) {
        return Err(LineFault::BadLine);
    }
    let Ok(name) = MarkName::new(word) else {
        return Err(LineFault::BadName);
    };
    Ok(name)
}
