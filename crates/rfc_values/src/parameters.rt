//! Parameters and inner lists (RFC 8941, sections 3.1.1 and 3.1.2).
ghost use Rattle.std.specs.Prelude.{◌≡◌, option_and_then, option_copied};
ghost use Rattle.rfc_values.specs.Items.{after_argument, after_inner, after_item, after_parameter};
ghost use Rattle.rfc_values.specs.Items.{after_parameters, bounded, going, inner_step, parameter_step};
ghost use Rattle.rfc_values.specs.Values.{step_of};

use crate::bytes::{Class, skip};
use crate::items::{after_key, bare_item};

// What one step makes of a text in which something is repeated.
#[derive(Clone, Copy)]
enum Step<'a> {
    // It was the last one, and this follows.
    Ends(&'a [u8]),
    // It is malformed.
    Fails,
    // One more may follow.
    Goes(&'a [u8]),
}

// A step that was made, or wasn't.
fn going(after: Option<&[u8]>) -> Step<'_>
    ensures { step_of result ≡ going (option_copied after.entry) }
{
    match after {
        Some(rest) => Step::Goes(rest),
        None => Step::Fails,
    }
}

// What follows the value of a parameter, if it has one.
fn after_argument(text: &[u8]) -> Option<&[u8]>
    ensures { option_copied result ≡ after_argument text.now }
{
    match text {
        [b'=', after @ ..] => Some(bare_item(after)?.rest),
        _ => Some(text),
    }
}

// What follows a parameter, behind its semicolon.
fn after_parameter(text: &[u8]) -> Option<&[u8]>
    ensures { option_copied result ≡ after_parameter text.now }
{
    after_argument(after_key(skip(Class::Space, text))?)
}

// A parameter, with its semicolon, if there is one more.
fn parameter_step(text: &[u8]) -> Step<'_>
    ensures { step_of result ≡ parameter_step text.now }
{
    match text {
        [b';', after @ ..] => going(after_parameter(after)),
        _ => Step::Ends(text),
    }
}

// What follows the parameters of an item.
pub(crate) fn after_parameters(text: &[u8]) -> Option<&[u8]>
    ensures { option_copied result ≡ after_parameters text.now }
{
    let mut rest = text;
    loop {
        match parameter_step(rest) {
            Step::Ends(after) => return Some(after),
            Step::Fails => return None,
            Step::Goes(after) => rest = after,
        }
    }
}

// What follows an item and its parameters.
fn after_item(text: &[u8]) -> Option<&[u8]>
    ensures { option_copied result ≡ after_item text.now }
{
    after_parameters(bare_item(text)?.rest)
}

// The text, if it begins with a space or the end of an inner list.
fn bounded(text: &[u8]) -> Option<&[u8]>
    ensures { option_copied result ≡ bounded text.now }
{
    match text {
        [b' ' | b')', ..] => Some(text),
        _ => None,
    }
}

// What follows an item of an inner list, behind which comes a space or the end of the list.
fn bounded_item(text: &[u8]) -> Option<&[u8]>
    ensures { option_copied result ≡ option_and_then bounded (after_item text.now) }
{
    bounded(after_item(text)?)
}

// The end of an inner list, or one more item of it.
fn inner_step(text: &[u8]) -> Step<'_>
    ensures { step_of result ≡ inner_step text.now }
{
    let item = skip(Class::Space, text);
    match item {
        [b')', after @ ..] => Step::Ends(after),
        [] => Step::Fails,
        _ => going(bounded_item(item)),
    }
}

// What follows an inner list, behind its first parenthesis.
pub(crate) fn after_inner(text: &[u8]) -> Option<&[u8]>
    ensures { option_copied result ≡ after_inner text.now }
{
    let mut rest = text;
    loop {
        match inner_step(rest) {
            Step::Ends(after) => return Some(after),
            Step::Fails => return None,
            Step::Goes(after) => rest = after,
        }
    }
}
