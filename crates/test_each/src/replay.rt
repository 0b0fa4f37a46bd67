//! What is replayed of a header.
ghost use Rattle.std.specs.Iterator.{IsFinite};

use crate::everywhere::everywhere;
use crate::hinted::{decode_hinted, harmless, lengths};
use crate::writing::{add_with_copy, add_written, secret, writes, written};
use headers::{Header, HeaderMap, HeaderMapExt, HeaderName, HeaderValue, Refused, decode_values};
use std::alloc::{AllocError, Global};
use std::cmp::Ordering;
use std::fmt::{Debug, Display};
use std::hash::{DefaultHasher, Hash, Hasher};
use test_rows::{Arguments, CaseAnswer, CaseFailure, append_lines};

/// A header with the words of its getters. `P` is a type of the crate that has the impl, which so may stand apart from
/// the header and from this trait.
pub trait Getters<P>: Drop {
    /// Adds what its getters give, and returns its copy.
    fn getters(&self, answer: &mut CaseAnswer) -> Result<Self, CaseFailure>;
}

/// A copy of a header.
pub fn copy_of<H: Getters<P>, P>(alloc: Global, header: &H) -> Result<H, CaseFailure> {
    header.getters(&mut CaseAnswer::new(alloc))
}

// Whether the answer says of the field with this name whether it is marked sensitive, also if it isn't.
fn answers_mark(name: &HeaderName) -> bool {
    let name = name.as_str();
    name.ends_with("authorization") || name == "sec-websocket-key"
}

// The lines that a header writes, what its getters give, and whether a line is marked sensitive; and its copy.
fn shown<H: Header + Getters<P>, P>(
    alloc: Global,
    header: &H,
) -> Result<(CaseAnswer, H), CaseFailure> {
    let mut answer = CaseAnswer::new(alloc);
    let lines = written(alloc, header)?;
    answer.list(lines.as_slice())?;
    let copy = header.getters(&mut answer)?;
    let is_marked = lines.iter().any(|line| line.is_sensitive());
    if answers_mark(&H::name()) {
        answer.word(is_marked)?;
    } else if is_marked {
        answer.word("(sensitive)")?;
    }
    Ok((answer, copy))
}

/// Adds the lines that a header writes, and what its getters give. If those of its copy are others, they
/// follow.
pub fn show<H: Header + Getters<P>, P>(
    header: &H,
    answer: &mut CaseAnswer,
) -> Result<(), CaseFailure> {
    let (of_header, copy) = shown(answer.alloc(), header)?;
    let (of_copy, _again) = shown(answer.alloc(), &copy)?;
    Ok(add_with_copy(&of_header, &of_copy, answer)?)
}

/// The same of a header that was just made.
pub fn show_made<H: Header + Getters<P>, P>(
    header: H,
    answer: &mut CaseAnswer,
) -> Result<(), CaseFailure> {
    show(&header, answer)
}

/// The same, if the header could be made.
pub fn show_result<H: Header + Getters<P>, P, E: Into<CaseFailure>>(
    made: Result<H, E>,
    answer: &mut CaseAnswer,
) -> Result<(), CaseFailure> {
    match made {
        Ok(header) => show(&header, answer),
        Err(error) => Err(error.into()),
    }
}

/// The lines that a header writes, what its getters give, and whether the lines decode to an equal header, if it
/// could be made.
pub fn show_back_result<H: Header + Getters<P> + PartialEq, P, E: Into<CaseFailure>>(
    made: Result<H, E>,
    answer: &mut CaseAnswer,
) -> Result<(), CaseFailure> {
    match made {
        Ok(header) => show_back(&header, answer),
        Err(error) => Err(error.into()),
    }
}

/// Adds whether the text of a header is the line that it writes.
pub fn show_text<H: Header + Display>(
    header: &H,
    answer: &mut CaseAnswer,
) -> Result<(), CaseFailure> {
    let text = header.to_string(answer.alloc())?;
    say(writes(answer.alloc(), header, text.as_str())?, answer)
}

/// Adds a word.
pub fn say(word: impl Display + Drop, answer: &mut CaseAnswer) -> Result<(), CaseFailure> {
    Ok(answer.word(word)?)
}

/// The lines that a header writes, what its getters give, and whether the lines decode to an equal header.
pub fn show_back<H: Header + Getters<P> + PartialEq, P>(
    header: &H,
    answer: &mut CaseAnswer,
) -> Result<(), CaseFailure> {
    show(header, answer)?;
    let lines = written(answer.alloc(), header)?;
    let is_equal = match decode_values::<H>(answer.alloc(), lines.as_slice()) {
        Ok(back) => back == *header,
        Err(Refused::Invalid(_)) => false,
        Err(Refused::Memory(_)) => return Err(CaseFailure::Memory),
    };
    Ok(answer.word(is_equal)?)
}

/// Adds the names of an iterator.
pub fn show_names<I: Iterator<Item = Result<HeaderName, AllocError>> + Drop>(
    walk: I,
    answer: &mut CaseAnswer,
) -> Result<(), CaseFailure>
    requires can { I.can_next walk }
    requires ends { IsFinite (I.remaining walk) }
{
    let mut names = Vec::new(answer.alloc());
    for name in walk {
        names.push(name?)?;
    }
    Ok(answer.list(names.as_slice())?)
}

/// Whether the headers of two lines are equal; and `(copy)` if the copy of the first answers otherwise.
pub fn eq<H: Header + Getters<P> + PartialEq, P>(
    arguments: &mut Arguments<'_>,
    answer: &mut CaseAnswer,
) -> Result<(), CaseFailure> {
    let first: H = arguments.header()?;
    let second: H = arguments.header()?;
    let is_equal = first == second;
    answer.word(is_equal)?;
    if (copy_of(arguments.alloc(), &first)? == second) != is_equal {
        answer.word("(copy)")?;
    }
    Ok(())
}

/// How the headers of two lines are ordered.
pub fn cmp<H: Header + PartialOrd>(
    arguments: &mut Arguments<'_>,
    answer: &mut CaseAnswer,
) -> Result<(), CaseFailure> {
    let first: H = arguments.header()?;
    let second: H = arguments.header()?;
    let order = match first.partial_cmp(&second) {
        Some(Ordering::Less) => "less",
        Some(Ordering::Equal) => "equal",
        Some(Ordering::Greater) => "greater",
        None => "(none)",
    };
    Ok(answer.word(order)?)
}

// The hash of a value.
fn hash_of<T: Hash>(value: &T) -> u64 {
    let mut state = DefaultHasher::new();
    value.hash(&mut state);
    state.finish()
}

/// Whether the headers of two lines have the same hash.
pub fn hash<H: Header + Eq + Hash>(
    arguments: &mut Arguments<'_>,
    answer: &mut CaseAnswer,
) -> Result<(), CaseFailure> {
    let first: H = arguments.header()?;
    let second: H = arguments.header()?;
    Ok(answer.word(hash_of(&first) == hash_of(&second))?)
}

/// The text of the header of a line, as it is printed to the right of 20 columns.
pub fn padded<H: Header + Display>(
    arguments: &mut Arguments<'_>,
    answer: &mut CaseAnswer,
) -> Result<(), CaseFailure> {
    let header: H = arguments.header()?;
    let text = format!(in arguments.alloc(); "{header:>20}")?;
    Ok(answer.bytes(text.as_bytes())?)
}

/// How `{:?}` prints the header of lines that are marked sensitive.
pub fn debug_secret<H: Header + Debug>(
    arguments: &mut Arguments<'_>,
    answer: &mut CaseAnswer,
) -> Result<(), CaseFailure> {
    let mut lines = arguments.lines()?;
    for line in lines.iter_mut() {
        line.set_sensitive(true);
    }
    let header: H = decode_values(arguments.alloc(), &lines)?;
    let text = format!(in arguments.alloc(); "{header:?}")?;
    Ok(answer.bytes(text.as_bytes())?)
}

// A map that has the lines under the header's name, and other names before and after it.
fn map_of_lines<H: Header>(arguments: &mut Arguments<'_>) -> Result<HeaderMap, CaseFailure> {
    let mut map = HeaderMap::new(arguments.alloc());
    map.append("x-before", HeaderValue::from_static("1"))?;
    append_lines(&mut map, &H::name(), arguments.lines()?)?;
    map.append("x-after", HeaderValue::from_static("2"))?;
    Ok(map)
}

// The header of the lines under its name in a map.
fn typed_try_get<H: Header + Getters<P>, P>(
    arguments: &mut Arguments<'_>,
    answer: &mut CaseAnswer,
) -> Result<(), CaseFailure> {
    let alloc = arguments.alloc();
    let map = map_of_lines::<H>(arguments)?;
    let tried = map.typed_try_get::<H>(alloc);
    let has_header = matches!(tried, Ok(Some(_)));
    let is_given = map.typed_get::<H>(alloc).is_some();
    // An allocation failed; or `typed_get` hides a header, and does so again.
    if matches!(tried, Err(Refused::Memory(_))) || has_header && !is_given {
        return Err(CaseFailure::Memory);
    }
    if is_given != has_header {
        return Ok(answer.word("(typed_get)")?);
    }
    match tried? {
        Some(header) => show(&header, answer),
        None => Ok(answer.none()?),
    }
}

// The header that `typed_get` returns. `None` with a header in the map is a failed allocation.
fn typed_get<H: Header + Getters<P>, P>(
    arguments: &mut Arguments<'_>,
    answer: &mut CaseAnswer,
) -> Result<(), CaseFailure> {
    let alloc = arguments.alloc();
    let map = map_of_lines::<H>(arguments)?;
    if let Some(header) = map.typed_get::<H>(alloc) {
        return show(&header, answer);
    }
    match map.typed_try_get::<H>(alloc) {
        Ok(None) | Err(Refused::Invalid(_)) => Ok(answer.none()?),
        Ok(Some(_)) | Err(Refused::Memory(_)) => Err(CaseFailure::Memory),
    }
}

// The lines under the header's name once the header of the first lines is put in a map that has the
// others.
fn typed_insert<H: Header>(
    arguments: &mut Arguments<'_>,
    answer: &mut CaseAnswer,
) -> Result<(), CaseFailure> {
    let alloc = arguments.alloc();
    let count = usize::try_from(arguments.number()?).map_err(|_| CaseFailure::NoCall)?;
    let mut first = arguments.lines()?;
    if count > first.len() {
        return Err(CaseFailure::NoCall);
    }
    let others = first.split_off(count)?;
    let header: H = decode_values(alloc, &first)?;
    let mut map = HeaderMap::new(alloc);
    append_lines(&mut map, &H::name(), others)?;
    map.typed_insert(alloc, header)?;
    let kept: Vec<&HeaderValue> = map.get_all(H::name()).iter().collect(alloc)?;
    Ok(answer.list(kept.as_slice())?)
}

/// Adds the answer of a call of a header. No hint of an iterator is read, so that of a wrong one is
/// that of none.
pub fn call<H: Header + Getters<P>, P>(
    call: &str,
    arguments: &mut Arguments<'_>,
    answer: &mut CaseAnswer,
) -> Result<(), CaseFailure> {
    match call {
        "name" => Ok(answer.bytes(H::name().as_bytes())?),
        "decode" | "decode_one_hint" => show(&arguments.header_of_rest::<H>()?, answer),
        "writes" => Ok(add_written(&arguments.header_of_rest::<H>()?, answer)?),
        "secret" => secret::<H, P>(arguments, answer),
        "everywhere" => everywhere::<H, P>(arguments, answer),
        "harmless" => harmless::<H>(arguments, answer),
        "lengths" => lengths::<H>(arguments, answer),
        "decode_hinted" => decode_hinted::<H, P>(arguments, answer),
        "typed_try_get" => typed_try_get::<H, P>(arguments, answer),
        "typed_get" => typed_get::<H, P>(arguments, answer),
        "typed_insert" => typed_insert::<H>(arguments, answer),
        _ => Err(CaseFailure::NoCall),
    }
}
