//! Parsers for one field line, and a copy of a field line.
ghost use Rattle.std.specs.Prelude.{◌≡◌, [], ◌∷◌, ◌++◌, Some, None, IfSome, OnOk, OnErr, option_map, if◌then◌else◌};
ghost use Rattle.std.{specs.Iterator.YieldsThen, specs.Option.option_and_then};
ghost use Rattle.headers_syntax.{specs.Lines.{first_line, only_line}, specs.Shapes.word_line, specs.OfLines.OfLines};

use crate::item::AsHeaderValue;
use http_header::HeaderValue;
use std::alloc::AllocError;

/// Takes the first field line. `None` if there is none. The iterator is called once.
pub fn first<I: Iterator>(values: &mut I) -> Option<I::Item>
where
    I::Item: AsHeaderValue,
    requires { I.can_next values.old }
    ensures call { I.next_gives values.old result values.new }
    ensures value { OfLines I.Item.shown I.next_gives values.old values.new
        (λ lines. first_line lines ≡ option_map (λ item. (I.Item.shown item).bytes) result) }
{
    values.next()
}

/// Takes the field line of a field that has exactly one. `None` if there are no or several lines.
pub fn just_one<I: Iterator>(values: &mut I) -> Option<I::Item>
where
    I::Item: AsHeaderValue,
    requires { I.can_next values.old }
    ensures item { IfSome result
        (λ item. YieldsThen I.next_gives values.old (item ∷ []) None values.new) }
    ensures value { OfLines I.Item.shown I.next_gives values.old values.new
        (λ lines. only_line lines ≡ option_map (λ item. (I.Item.shown item).bytes) result) }
{
    let only = values.next()?;
    match values.next() {
        None => Some(only),
        Some(_) => None,
    }
}

// Whether the value is the word, byte for byte.
fn is_word(value: &HeaderValue, word: &str) -> bool
    ensures { word_line word.now value.now.bytes ≡ (if result then Some word.now else None) }
{
    value.as_bytes() == word.as_bytes()
}

/// Returns whether the first field line is the word, byte for byte.
pub fn first_word<I: Iterator>(values: &mut I, word: &str) -> bool
where
    I::Item: AsHeaderValue,
    requires { I.can_next values.old }
    ensures { OfLines I.Item.shown I.next_gives values.old values.new
        (λ lines. option_and_then (word_line word.now) (first_line lines)
        ≡ (if result then Some word.now else None)) }
{
    match first(values) {
        Some(line) => is_word(line.as_header_value(), word),
        None => false,
    }
}

/// Returns whether there is exactly one field line, and it is the word, byte for byte.
pub fn only_word<I: Iterator>(values: &mut I, word: &str) -> bool
where
    I::Item: AsHeaderValue,
    requires { I.can_next values.old }
    ensures { OfLines I.Item.shown I.next_gives values.old values.new
        (λ lines. option_and_then (word_line word.now) (only_line lines)
        ≡ (if result then Some word.now else None)) }
{
    match just_one(values) {
        Some(line) => is_word(line.as_header_value(), word),
        None => false,
    }
}

/// Appends a copy of a header value to the list. If an allocation fails, the list is unchanged.
pub fn push_clone(values: &mut Vec<HeaderValue>, value: &HeaderValue) -> Result<(), AllocError>
    ensures ok { OnOk result (values.new.items ≡ values.old.items ++ value.now ∷ []) }
    ensures err { OnErr result (values.new.items ≡ values.old.items) }
{
    values.push(value.clone()?)?;
    Ok(())
}
