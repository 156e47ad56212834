//! The words `rescue` with `--into TARGET --tag TAG`, which are no command of `bridge` itself: the program reads them, and makes another call
//! for them.
ghost use Rattle.std.specs.Prelude.{◌∷◌, ◌≤◌, IfSome, length, map, string_bytes};
ghost use Rattle.cli_parts.specs.RestoreWords.{IsLayoutIn, IsRestore, IsTagWord};
ghost use Rattle.cli_parts.specs.RestoreParts.{AsksFor, IsNextSaid, IsPart, IsPlainPart, SaysPlace, SaysTag, SaysTarget, SaysThese, places_in};

use crate::digits::number;
use crate::rescue_words::layout_of;
use bridge_rescue::Layout;

// The name of the command.
const RESCUE: &str = "rescue";

// The greatest TAG.
const MOST_TAG: u64 = 4_294_967_295;

/// What words ask for that rescue into another spool.
#[derive(Clone, Copy)]
pub struct RestoreWords<'a> {
    /// How many slots FILE has and how long each is, where the words say so.
    pub layout: Option<Layout>,
    /// The path of the other spool.
    pub target: &'a str,
    /// The tag of its entries there.
    pub tag: u32,
}

// What a word is that stands after the name.
#[derive(Clone, Copy)]
enum Part<'a> {
    // `--into`, whose value is the next word.
    Into,
    // `--into` with its value.
    IntoWith(&'a str),
    // `--tag`, whose value is the next word.
    Tag,
    // `--tag` with its value.
    TagWith(&'a str),
    // Neither.
    Place,
}

// What the word is, which has no `=`.
fn plain_part(word: &str) -> Part<'static>
    ensures { IsPlainPart result word.now }
{
    if word == "--into" {
        return Part::Into;
    }
    if word == "--tag" {
        return Part::Tag;
    }
    Part::Place
}

// What the word is.
fn part_of(word: &str) -> Part<'_>
    ensures { IsPart result word.now }
{
    let Some((name, value)) = word.split_once('=') else {
        return plain_part(word);
    };
    if name == "--into" {
        return Part::IntoWith(value);
    }
    if name == "--tag" {
        return Part::TagWith(value);
    }
    Part::Place
}

// What the words after the name say, as texts.
#[derive(Clone, Copy)]
struct Said<'a> {
    slots: Option<&'a str>,
    size: Option<&'a str>,
    target: Option<&'a str>,
    tag: Option<&'a str>,
}

impl<'a> Said<'a> {
    // A word that is no option more, of which there are two at most.
    fn with_place(self, word: &'a str) -> Option<Said<'a>>
        ensures { IfSome result (SaysPlace self.entry word.now) }
    {
        let Said { target, tag, .. } = self;
        match (self.slots, self.size) {
            (None, _) => Some(Said {
                slots: Some(word),
                size: None,
                target,
                tag,
            }),
            (Some(slots), None) => Some(Said {
                slots: Some(slots),
                size: Some(word),
                target,
                tag,
            }),
            (Some(_), Some(_)) => None,
        }
    }

    // TARGET, which is given once.
    fn with_target(self, value: &'a str) -> Option<Said<'a>>
        ensures { IfSome result (SaysTarget self.entry value.now) }
    {
        match self.target {
            None => Some(Said {
                target: Some(value),
                ..self
            }),
            Some(_) => None,
        }
    }

    // TAG, which is given once.
    fn with_tag(self, value: &'a str) -> Option<Said<'a>>
        ensures { IfSome result (SaysTag self.entry value.now) }
    {
        match self.tag {
            None => Some(Said {
                tag: Some(value),
                ..self
            }),
            Some(_) => None,
        }
    }

    // What is said once the next word is read, with the one after it where that is its value, and the words after these.
    fn read(self, word: &'a str, more: &'a [String]) -> Option<(Said<'a>, &'a [String])>
        ensures read { IfSome result (λ next. IsNextSaid (word.now ∷ map string_bytes more.now) (map string_bytes next.1.now) self.entry next.0) }
        ensures shorter { IfSome result (λ next. length next.1.now ≤ length more.now) }
    {
        match part_of(word) {
            Part::IntoWith(value) => match self.with_target(value) {
                Some(said) => Some((said, more)),
                None => None,
            },
            Part::Into => {
                let [value, left @ ..] = more else {
                    return None;
                };
                match self.with_target(value.as_str()) {
                    Some(said) => Some((said, left)),
                    None => None,
                }
            }
            Part::TagWith(value) => match self.with_tag(value) {
                Some(said) => Some((said, more)),
                None => None,
            },
            Part::Tag => {
                let [value, left @ ..] = more else {
                    return None;
                };
                match self.with_tag(value.as_str()) {
                    Some(said) => Some((said, left)),
                    None => None,
                }
            }
            Part::Place => match self.with_place(word) {
                Some(said) => Some((said, more)),
                None => None,
            },
        }
    }

    // What the words say, one after another.
    fn of(words: &'a [String]) -> Option<Said<'a>>
        ensures { IfSome result (SaysThese (map string_bytes words.now)) }
    {
        let mut said = Said {
            slots: None,
            size: None,
            target: None,
            tag: None,
        };
        let mut left = words;
        while let [word, more @ ..] = left {
            match said.read(word.as_str(), more) {
                Some((next, rest)) => {
                    said = next;
                    left = rest;
                }
                None => return None,
            }
        }
        Some(said)
    }
}

// The layout of SLOTS and SIZE, where they are given: both or none.
fn layout_in(slots: Option<&str>, size: Option<&str>) -> Option<Option<Layout>>
    ensures { IfSome result (λ layout. IsLayoutIn layout (places_in slots.entry size.entry)) }
{
    match (slots, size) {
        (None, _) => Some(None),
        (Some(_), None) => None,
        (Some(slots), Some(size)) => match layout_of(slots, size) {
            Some(layout) => Some(Some(layout)),
            None => None,
        },
    }
}

// TAG, a number of 1 to 10 decimal digits up to 4,294,967,295.
fn tag_in(word: &str) -> Option<u32>
    ensures { IfSome result (λ tag. IsTagWord tag word.now) }
{
    let Some(tag) = number(word) else {
        return None;
    };
    if tag <= MOST_TAG {
        Some(tag as u32)
    } else {
        None
    }
}

// What is asked for by what the words say.
fn asked_by(said: Said<'_>) -> Option<RestoreWords<'_>>
    ensures { IfSome result (AsksFor said.entry) }
{
    let (Some(target), Some(word)) = (said.target, said.tag) else {
        return None;
    };
    let Some(layout) = layout_in(said.slots, said.size) else {
        return None;
    };
    match tag_in(word) {
        Some(tag) => Some(RestoreWords {
            layout,
            target,
            tag,
        }),
        None => None,
    }
}

/// What these words rescue into, where they are `rescue` with `--into TARGET` and `--tag TAG`, each once, in any order and with `=` or without,
/// and with SLOTS and SIZE or without.
pub fn restore_of(words: &[String]) -> Option<RestoreWords<'_>>
    ensures { IfSome result (λ restore. IsRestore restore (map string_bytes words.now)) }
{
    let [name, rest @ ..] = words else {
        return None;
    };
    if name.as_str() == RESCUE {
        match Said::of(rest) {
            Some(said) => asked_by(said),
            None => None,
        }
    } else {
        None
    }
}
