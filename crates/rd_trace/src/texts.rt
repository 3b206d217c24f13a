//! Parts of the text of a trace: what is between the values of a list, and numbers.

ghost use Rattle.std.specs.Prelude.{◌≡◌, ◌++◌, nat_lt, OnOk, string_bytes, decimal};
ghost use Rattle.serde_json.specs.Written.{comma_if};

use itoa::Buffer;
use std::alloc::AllocError;

/// Returns the text before the next value of a list that has this many values: a comma, or nothing
/// before the first value.
pub fn comma_after(count: usize) -> &'static str
    ensures { result.now ≡ comma_if (nat_lt 0 count) }
{
    if count > 0 { "," } else { "" }
}

/// Appends a number to the text, in decimal digits. Fails only if memory is refused; the text is
/// then unchanged.
pub fn put_number(text: &mut String, number: u64) -> Result<(), AllocError>
    ensures { OnOk result (string_bytes text.new ≡ string_bytes text.old ++ decimal number) }
{
    let mut digits = Buffer::new();
    text.push_str(digits.format(number))
}
