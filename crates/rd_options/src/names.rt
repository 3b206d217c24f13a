//! The names of the files of viewers that are there at once: which of them may stand side by side.

ghost use Rattle.std.specs.Prelude.{◌≡◌, ◌≢◌, true, false, map};
ghost use Rattle.std.specs.List.{AllByRecursion};
ghost use Rattle.rd_options.specs.Options.{AreApart, IsApartFrom, replies_name};

/// What the name of a viewer's file has behind it in the name of the file of its replies.
pub const REPLIES_ENDING: &str = ".replies";

/// Returns whether viewers that read the files of these names share no file.
pub(crate) fn are_apart(names: &[&str]) -> bool
    ensures yes { result ≡ true → AreApart (map (λ name. name.now) names.now) }
    ensures no { result ≡ false → AreApart (map (λ name. name.now) names.now) → ⊥ }
{
    for i in 0..names.len() {
        if !is_apart_from_all(names[i], &names[i + 1..]) {
            return false;
        }
    }
    true
}

/// Returns whether a viewer that reads the file of this name shares none with the viewers that read
/// the others.
fn is_apart_from_all(name: &str, others: &[&str]) -> bool
    ensures yes { result ≡ true → AllByRecursion (IsApartFrom name.now)
        (map (λ other. other.now) others.now) }
    ensures no { result ≡ false → AllByRecursion (IsApartFrom name.now)
        (map (λ other. other.now) others.now) → ⊥ }
{
    for other in others {
        if !is_apart(name, other) {
            return false;
        }
    }
    true
}

/// Returns whether viewers that read the files of these two names share none.
fn is_apart(name: &str, other: &str) -> bool
    ensures yes { result ≡ true → IsApartFrom name.now other.now }
    ensures no { result ≡ false → IsApartFrom name.now other.now → ⊥ }
{
    name != other && !is_replies_name(name, other) && !is_replies_name(other, name)
}

/// Returns whether a text is the name of the file of the replies to the viewer that reads the file
/// of this name.
fn is_replies_name(text: &str, name: &str) -> bool
    ensures yes { result ≡ true → text.now ≡ replies_name name.now }
    ensures no { result ≡ false → text.now ≢ replies_name name.now }
{
    match text.strip_suffix(REPLIES_ENDING) {
        Some(rest) => rest == name,
        None => false,
    }
}
