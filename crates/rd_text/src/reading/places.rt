//! The kinds of places: the first word of a place is its kind, and the words after it name the
//! place. An index in it is from 0 to 255. A world needn't have the place.

ghost use Rattle.std.specs.Prelude.{◌≡◌, ◌≢◌, ◌<◌, [], map, IfSome, IfNone};
ghost use Rattle.rd_text.specs.declared.reading.places.PlaceKind.{PlaceKind as Kind};
ghost use Rattle.rd_text.specs.Grammar.{kind_text};
ghost use Rattle.rd_text.specs.Reading.{ReadsPlace, ReadsPlaceOfKind};

use super::arguments::{only_segment_name, only_u8, segment_name_and_u8, without_arguments};
use rd_cell::Place;

/// The kind of a place, which is its first word.
#[derive(Clone, Copy, Debug, PartialEq, Eq)]
pub enum PlaceKind {
    /// `qhead`
    QHead,
    /// `qtail`
    QTail,
    /// `head`
    Head,
    /// `tail`
    Tail,
    /// `next`
    Next,
    /// `cell`
    Cell,
    /// `value`
    Value,
    /// `index`
    Index,
    /// `whole`
    Whole,
    /// `ahead`
    ArrHead,
    /// `atail`
    ArrTail,
    /// `acell`
    ArrCell,
}

impl PlaceKind {
    /// All kinds of places.
    const ALL: [PlaceKind; 12] = [
        PlaceKind::QHead,
        PlaceKind::QTail,
        PlaceKind::Head,
        PlaceKind::Tail,
        PlaceKind::Next,
        PlaceKind::Cell,
        PlaceKind::Value,
        PlaceKind::Index,
        PlaceKind::Whole,
        PlaceKind::ArrHead,
        PlaceKind::ArrTail,
        PlaceKind::ArrCell,
    ];

    /// Returns the kind of place that a word is, or `None` if it is no kind.
    fn of(word: &[u8]) -> Option<PlaceKind>
        ensures some { IfSome result (λ kind. word.now ≡ kind_text kind) }
        ensures none { IfNone result ((kind : Kind) → word.now ≢ kind_text kind) }
    {
        for kind in PlaceKind::ALL {
            if kind.text() == word {
                return Some(kind);
            }
        }
        None
    }

    /// Returns the word that spells the kind: the first word of each place of this kind.
    fn text(self) -> &'static [u8]
        ensures { result.now ≡ kind_text self }
    {
        match self {
            PlaceKind::QHead => b"qhead",
            PlaceKind::QTail => b"qtail",
            PlaceKind::Head => b"head",
            PlaceKind::Tail => b"tail",
            PlaceKind::Next => b"next",
            PlaceKind::Cell => b"cell",
            PlaceKind::Value => b"value",
            PlaceKind::Index => b"index",
            PlaceKind::Whole => b"whole",
            PlaceKind::ArrHead => b"ahead",
            PlaceKind::ArrTail => b"atail",
            PlaceKind::ArrCell => b"acell",
        }
    }

    /// Returns the place of this kind that these words, which follow the kind, spell; `None` if
    /// they spell none.
    fn place(self, words: &[&[u8]]) -> Option<Place>
        ensures { ReadsPlaceOfKind self (map (λ word. word.now) words.now) result }
    {
        match self {
            PlaceKind::QHead => without_arguments(words, Place::QHead),
            PlaceKind::QTail => without_arguments(words, Place::QTail),
            PlaceKind::Head => only_segment_name(words).map(Place::Head),
            PlaceKind::Tail => only_segment_name(words).map(Place::Tail),
            PlaceKind::Next => only_segment_name(words).map(Place::Next),
            PlaceKind::Cell => {
                let (segment, index) = segment_name_and_u8(words)?;
                Some(Place::Cell(segment, index))
            }
            PlaceKind::Value => {
                let (segment, index) = segment_name_and_u8(words)?;
                Some(Place::Val(segment, index))
            }
            PlaceKind::Index => {
                let (segment, index) = segment_name_and_u8(words)?;
                Some(Place::Idx(segment, index))
            }
            PlaceKind::Whole => only_segment_name(words).map(Place::Whole),
            PlaceKind::ArrHead => without_arguments(words, Place::ArrHead),
            PlaceKind::ArrTail => without_arguments(words, Place::ArrTail),
            PlaceKind::ArrCell => only_u8(words).map(Place::ArrCell),
        }
    }
}

/// Returns the place that these words spell, its kind first, or `None` if they spell none.
pub fn parse_place(words: &[&[u8]]) -> Option<Place>
    ensures { ReadsPlace (map (λ word. word.now) words.now) result }
{
    let [kind, rest @ ..] = words else {
        return None;
    };
    PlaceKind::of(kind)?.place(rest)
}
