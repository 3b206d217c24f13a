//! Numbers and segments' names that a word spells. A number is decimal digits without leading
//! zeros, and a segment's name is two numbers with a full stop between them.
//!
//! A number has just one spelling. Std reads it; but std also accepts a plus sign and leading
//! zeros, so words that begin with these are rejected first. A single digit, as the number of an
//! actor mostly is, needs no std.

ghost use Rattle.std.specs.Prelude.{◌≡◌, ◌≢◌, ◌⊎◌, ℕ, ◌^◌, ◌<◌, [], ◌∷◌, true, false, get_or, length, map, IfSome, IfNone};
ghost use Rattle.std.specs.Fmt.{decimal};
ghost use Rattle.rd_step.specs.Prelude.{SegName as Segment};
ghost use Rattle.rd_text.specs.Contents.{segment_name_words};
ghost use Rattle.rd_text.specs.Grammar.{IsSegmentInRange};

use super::words::parts_of;
use rd_cell::SegName;

/// Returns the number from 0 to 2^64 - 1 that a word spells, or `None` if it spells none.
pub fn parse_u64(word: &[u8]) -> Option<u64>
    ensures spelled { IfSome result (λ n. word.now ≡ decimal n) }
    ensures unspelled { IfNone result ((n : ℕ) → n < 2 ^ 64 → word.now ≢ decimal n) }
{
    if let Some(number) = parse_digit(word) {
        return Some(number);
    }
    if has_plus_or_leading_zero(word) {
        return None;
    }
    let Ok(digits) = str::from_utf8(word) else {
        return None;
    };
    digits.parse().ok()
}

/// Returns the number that a word of a single digit spells, or `None` for any other word.
#[tactic(auto, using(crate::proofs::NumeralLemmas::digit_spelled))]
fn parse_digit(word: &[u8]) -> Option<u64>
    ensures spelled { IfSome result (λ n. word.now ≡ decimal n) }
{
    match word {
        [digit] if digit.is_ascii_digit() => Some(u64::from(*digit - b'0')),
        _ => None,
    }
}

/// Returns whether a word begins with a plus sign, or with a zero before another byte. No number is
/// spelled so, though std may read one there.
fn has_plus_or_leading_zero(word: &[u8]) -> bool
    ensures yes { result ≡ true → (get_or word.now 0 0 ≡ 43)
        ⊎ ((get_or word.now 0 0 ≡ 48) × (1 < length word.now)) }
    ensures no { result ≡ false → (get_or word.now 0 0 ≢ 43)
        × (get_or word.now 0 0 ≡ 48 → length word.now ≡ 1) }
{
    match word {
        [b'+', ..] | [b'0', _, ..] => true,
        _ => false,
    }
}

/// Returns the number from 0 to 255 that a word spells, or `None` if it spells none.
#[tactic(auto, using(std::proofs::lemmas::Fmt::decimal_injective))]
pub fn parse_u8(word: &[u8]) -> Option<u8>
    ensures spelled { IfSome result (λ n. word.now ≡ decimal n) }
    ensures unspelled { IfNone result ((n : ℕ) → n < 256 → word.now ≢ decimal n) }
{
    let number = parse_u64(word)?;
    if number < 256 {
        Some(number as u8)
    } else {
        None
    }
}

/// Returns the segment's name that a word spells: its maker, from 0 to 255, a full stop, and its
/// number, from 0 to 2^32 - 1. `None` if the word spells none.
#[tactic(auto, using(crate::proofs::NumeralLemmas::name_from_parts, crate::proofs::NumeralLemmas::no_name_from_parts, crate::proofs::NumeralLemmas::no_name_of_many))]
pub fn parse_segment_name(word: &[u8]) -> Option<SegName>
    ensures spelled { IfSome result (λ s. word.now ≡ segment_name_words s) }
    ensures unspelled { IfNone result ((s : Segment) → IsSegmentInRange s
        → word.now ≢ segment_name_words s) }
{
    let parts = parts_of(word, b'.')?;
    parse_segment_name_parts(parts.as_slice())
}

/// Returns the segment's name whose maker, from 0 to 255, and number, from 0 to 2^32 - 1, two parts
/// spell. `None` if there aren't exactly two parts, or if they spell no such numbers.
fn parse_segment_name_parts(parts: &[&[u8]]) -> Option<SegName>
    ensures spelled { IfSome result (λ s. map (λ part. part.now) parts.now
        ≡ decimal s.maker ∷ decimal s.n ∷ []) }
    ensures unspelled { IfNone result ((s : Segment) → IsSegmentInRange s
        → map (λ part. part.now) parts.now ≢ decimal s.maker ∷ decimal s.n ∷ []) }
{
    let [maker, n] = parts else {
        return None;
    };
    Some(SegName {
        maker: parse_u8(maker)?,
        n: parse_u32(n)?,
    })
}

/// Returns the number from 0 to 2^32 - 1 that a word spells, or `None` if it spells none.
#[tactic(auto, using(std::proofs::lemmas::Fmt::decimal_injective))]
fn parse_u32(word: &[u8]) -> Option<u32>
    ensures spelled { IfSome result (λ n. word.now ≡ decimal n) }
    ensures unspelled { IfNone result ((n : ℕ) → n < 2 ^ 32 → word.now ≢ decimal n) }
{
    let number = parse_u64(word)?;
    if number < 1 << 32 {
        Some(number as u32)
    } else {
        None
    }
}
