//! Calls of lists, below the headers: their items, their marks, and the pieces of a cut.
ghost use Rattle.std.specs.Prelude.{◌≡◌, ◌<◌, true, length, count_by, IsTrue};
ghost use Rattle.headers_syntax.specs.Text.{is_quote};
ghost use Rattle.headers_items.{specs.Places.{comma, is_counting_place}, specs.CutLaw.AreCuts};

use headers::HeaderValue;
use headers_items::{Comma, FlatCsv, Scan, Separator};
use std::convert::AsSlice;
use test_rows::{Arguments, CaseAnswer, CaseFailure};

/// Adds byte strings, or `(none)` if there are none.
pub fn show_each<T: AsSlice<u8>>(items: &[T], answer: &mut CaseAnswer) -> Result<(), CaseFailure> {
    if items.is_empty() {
        return Ok(answer.none()?);
    }
    for item in items {
        answer.bytes(item.as_slice())?;
    }
    Ok(())
}

fn show_items<S: Separator>(list: &FlatCsv<S>, answer: &mut CaseAnswer) -> Result<(), CaseFailure> {
    let items: Vec<&str> = list.iter().collect(answer.alloc())?;
    show_each(items.as_slice(), answer)
}

// The list that lines are merged to.
fn merged<S: Separator>(arguments: &mut Arguments<'_>) -> Result<FlatCsv<S>, CaseFailure> {
    let lines = arguments.lines()?;
    Ok(FlatCsv::from_lines(arguments.alloc(), &mut lines.iter())?)
}

fn show_owned<S: Separator>(
    arguments: &mut Arguments<'_>,
    answer: &mut CaseAnswer,
) -> Result<(), CaseFailure> {
    let lines = arguments.lines()?;
    let list: FlatCsv<S> = FlatCsv::from_items(arguments.alloc(), lines.into_iter())?;
    show_items(&list, answer)
}

fn show_copy<S: Separator>(
    arguments: &mut Arguments<'_>,
    answer: &mut CaseAnswer,
) -> Result<(), CaseFailure> {
    let list: FlatCsv<S> = merged(arguments)?;
    let copy = list.clone(arguments.alloc())?;
    if copy != list {
        answer.word("(copy)")?;
    }
    Ok(answer.bytes(copy.to_value(arguments.alloc())?.as_bytes())?)
}

fn are_equal<S: Separator>(
    arguments: &mut Arguments<'_>,
    answer: &mut CaseAnswer,
) -> Result<(), CaseFailure> {
    let lines = arguments.lines()?;
    let [one, other] = lines.as_slice() else {
        return Err(CaseFailure::NoCall);
    };
    let one: FlatCsv<S> = FlatCsv::from_value(one.clone()?);
    Ok(answer.word(one == FlatCsv::from_value(other.clone()?))?)
}

/// Adds the answer of a call of the lists with a separator.
///
/// `items LINE..`: the items of the merged lines; `from_items LINE..`: the same of lines that are
/// handed over; `from_names NAME..`: the line that names make; `copy LINE..`: the line of a copy of
/// the merged lines, after `(copy)` if the copy isn't equal; `eq LINE LINE`.
pub fn call_list<S: Separator>(
    call: &str,
    arguments: &mut Arguments<'_>,
    answer: &mut CaseAnswer,
) -> Result<(), CaseFailure> {
    match call {
        "items" => show_items(&merged::<S>(arguments)?, answer),
        "from_items" => show_owned::<S>(arguments, answer),
        "from_names" => {
            let names = arguments.names()?;
            let list: FlatCsv<S> = FlatCsv::from_names(arguments.alloc(), names)?;
            Ok(answer.bytes(list.as_bytes())?)
        }
        "copy" => show_copy::<S>(arguments, answer),
        "eq" => are_equal::<S>(arguments, answer),
        _ => Err(CaseFailure::NoCall),
    }
}

// A text has at most as many marks as bytes.
fn show_marks(text: &[u8], answer: &mut CaseAnswer) -> Result<(), CaseFailure> {
    let mut scan = Scan::new(text, b',');
    let mut is_found = false;
    for _ in text {
        if let Some(mark) = scan.next_mark() {
            is_found = true;
            let kind = if mark.quote { "quote" } else { "comma" };
            answer.word(format_args!("{kind}:{}", mark.place))?;
        }
    }
    if !is_found {
        answer.none()?;
    }
    if scan.next_mark().is_some() {
        answer.word("(more)")?;
    }
    Ok(())
}

fn quotes_in(text: &[u8]) -> usize
    ensures { result ≡ count_by is_quote text.now }
{
    text.iter().filter(|byte| **byte == b'"').count()
}

// Whether a comma is at the place, outside quotes.
#[tactic(auto, unfolding(headers_items::specs::Places::is_counting_place))]
fn is_counting(text: &[u8], place: usize) -> bool
    requires { place < length text.now }
    ensures { IsTrue result → is_counting_place comma text.now place ≡ true }
{
    text[place] == b',' && quotes_in(&text[..place]) % 2 == 0
}

// Whether the places, none before `start`, increase and are those of commas outside quotes.
fn are_cuts(text: &[u8], start: usize, places: &[usize]) -> bool
    ensures { IsTrue result → AreCuts comma text.now start places.now }
{
    let [place, others @ ..] = places else {
        return true;
    };
    start <= *place
        && *place < text.len()
        && is_counting(text, *place)
        && are_cuts(text, *place + 1, others)
}

fn places(arguments: &mut Arguments<'_>) -> Result<Vec<usize>, CaseFailure> {
    let mut places = Vec::new(arguments.alloc());
    for word in arguments.rest().split_whitespace() {
        places.push(word.parse().map_err(|_| CaseFailure::NoCall)?)?;
    }
    Ok(places)
}

// The pieces of a cut, after the line that they are merged to.
fn show_pieces(arguments: &mut Arguments<'_>, answer: &mut CaseAnswer) -> Result<(), CaseFailure> {
    let alloc = arguments.alloc();
    let line = HeaderValue::from_vec(arguments.bytes()?)?;
    let places = places(arguments)?;
    let list: FlatCsv<Comma> = FlatCsv::from_value(line);
    if list.as_text().is_none() || !are_cuts(list.as_bytes(), 0, places.as_slice()) {
        return Err(CaseFailure::NoCall);
    }
    let pieces = list.cut_at(alloc, places.as_slice())?;
    let merged: FlatCsv<Comma> = FlatCsv::from_lines(alloc, &mut pieces.iter())?;
    answer.bytes(merged.as_bytes())?;
    show_each(pieces.as_slice(), answer)
}

/// Adds the answer of a call of the lists with commas: `marks TEXT` and `cut_at TEXT PLACE..`, or a
/// call of all lists.
pub fn call_comma(
    call: &str,
    arguments: &mut Arguments<'_>,
    answer: &mut CaseAnswer,
) -> Result<(), CaseFailure> {
    match call {
        "marks" => show_marks(&arguments.bytes()?, answer),
        "cut_at" => show_pieces(arguments, answer),
        _ => call_list::<Comma>(call, arguments, answer),
    }
}
