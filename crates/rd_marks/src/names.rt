//! Names of bookmarks.

ghost use Rattle.std.specs.Prelude.{◌≡◌, true, false, IfOk, IfErr, OnOk};
ghost use Rattle.std.specs.List.{list_all};
ghost use Rattle.rd_marks.specs.NameBytes.{is_mark_name, is_name_byte};

use arrayvec::ArrayString;
use rd_cell::Refusal;
use rd_cell::limits::MOST_NAME_BYTES;
use std::str;

/// The name of a bookmark: 1 to 16 bytes of a-z, 0-9 and `-`. Two names are equal exactly if their
/// bytes are.
#[derive(Clone, Copy, Debug, PartialEq, Eq, Hash)]
pub struct MarkName {
    /// The bytes of the name.
    text: ArrayString<MOST_NAME_BYTES>,
    ghost valid: { is_mark_name text.bytes ≡ true },
}

impl MarkName {
    ghost use Rattle.rd_marks.specs.Names.{bytes_of};

    /// Returns the name that these bytes spell.
    ///
    /// # Errors
    ///
    /// `BadName` if they are not 1 to 16 bytes of a-z, 0-9 and `-`.
    #[tactic(auto, using(crate::proofs::NameLemmas::name_is_text))]
    pub fn new(text: &[u8]) -> Result<MarkName, Refusal>
        ensures ok { IfOk result (λ name. bytes_of name ≡ text.now) }
        ensures valid { OnOk result (is_mark_name text.now ≡ true) }
        ensures err { IfErr result (λ refusal. refusal ≡ Refusal.BadName) }
        ensures invalid { IfErr result (λ refusal. is_mark_name text.now ≡ false) }
    {
        if !is_mark_name(text) {
            return Err(Refusal::BadName);
        }
        let Ok(text) = str::from_utf8(text) else {
            unreachable!();
        };
        match ArrayString::from(text) {
            Err(_) => unreachable!(),
            Ok(text) => Ok(MarkName { text }),
        }
    }

    /// Returns the name as text: 1 to 16 bytes of a-z, 0-9 and `-`.
    pub fn as_str(&self) -> &str
        ensures text { result.now ≡ bytes_of self.now }
        ensures valid { is_mark_name result.now ≡ true }
    {
        self.text.as_str()
    }
}

/// Returns whether these bytes spell a name: 1 to 16 bytes of a-z, 0-9 and `-`.
fn is_mark_name(text: &[u8]) -> bool
    ensures { result ≡ is_mark_name text.now }
{
    !text.is_empty() && text.len() <= MOST_NAME_BYTES && are_name_bytes(text)
}

/// Returns whether each of these bytes may be in a name: a-z, 0-9 or `-`.
fn are_name_bytes(text: &[u8]) -> bool
    ensures { result ≡ list_all is_name_byte text.now }
{
    text.iter().all(|b| is_name_byte(*b))
}

/// Returns whether this byte may be in a name: a-z, 0-9 or `-`.
fn is_name_byte(byte: u8) -> bool
    ensures { result ≡ is_name_byte byte }
{
    byte.is_ascii_lowercase() || byte.is_ascii_digit() || byte == b'-'
}
