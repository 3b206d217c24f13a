//! Headings: lines of a view's report that answer no line. They say whose replies follow, and how
//! many calls were recorded.

ghost use Rattle.std.specs.Prelude.{◌≡◌};
ghost use Rattle.rd_text.specs.Headings.{heading_text};

use super::lines::end_line;
use super::numbers::put_words_and_number;
use super::texts::Text;

/// A line of a view's report that answers no line.
#[derive(Clone, Copy, Debug, PartialEq, Eq)]
pub enum Heading {
    /// The replies to this viewer's lines follow; viewers are numbered from 1.
    Viewer(u64),
    /// The number of calls that were recorded.
    History(u64),
}

/// Replaces the text by the line of a heading, with its line feed.
pub fn set_heading(text: &mut Text, heading: Heading)
    ensures { text.new.items ≡ heading_text heading }
{
    text.clear();
    match heading {
        Heading::Viewer(number) => put_words_and_number(text, b"viewer", number),
        Heading::History(calls) => put_words_and_number(text, b"history", calls),
    }
    end_line(text);
}
