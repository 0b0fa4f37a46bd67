//! The calls of test cases on what is below the headers and above them: lists, texts, entity tags, errors,
//! maps, the program `headers_canon`, and a header of a user's own.
#![tactic(auto)]

mod canon;
mod errors;
mod items;
mod map;
mod streams;
mod texts;
mod user;

use crate::canon::call_canon;
use crate::errors::{display, formats};
use crate::items::{call_comma, call_list};
use crate::map::call_map;
use crate::texts::{call_tag, call_tag_range, call_text};
use crate::user::{call_user, insert_none};
use headers_items::SemiColon;
use test_each::size_hint;
use test_rows::{Arguments, Calls, CaseAnswer, CaseFailure};

/// The calls on what is below the headers and above them.
pub struct Parts;

fn call_part(
    name: &str,
    word: &str,
    arguments: &mut Arguments<'_>,
    answer: &mut CaseAnswer,
) -> Result<(), CaseFailure> {
    match name {
        "canon" => call_canon(word, arguments, answer),
        "Comma" => call_comma(word, arguments, answer),
        "SemiColon" => call_list::<SemiColon>(word, arguments, answer),
        "EntityTag" => call_tag(word, arguments, answer),
        "EntityTagRange" => call_tag_range(word, arguments, answer),
        "map" => call_map(word, arguments, answer),
        "text" => call_text(word, arguments, answer),
        "user" => call_user(word, arguments, answer),
        _ => Err(CaseFailure::NoCall),
    }
}

impl Calls for Parts {
    // A name is a word of its own, or a part, a dot and a word.
    fn make(
        name: &str,
        arguments: &mut Arguments<'_>,
        answer: &mut CaseAnswer,
    ) -> Result<(), CaseFailure> {
        match name {
            "display" => return display(arguments, answer),
            "formats" => return formats(arguments, answer),
            "size_hint" => return size_hint(arguments, answer),
            "MaxForwards.insert_none" => return insert_none(arguments, answer),
            _ => {}
        }
        match name.split_once('.') {
            Some((name, word)) => call_part(name, word, arguments, answer),
            None => Err(CaseFailure::NoCall),
        }
    }
}
