//! The ends of quotes and of elements.
ghost use Rattle.std.specs.Prelude.{◌≡◌, ◌≤◌, length, drop};
ghost use Rattle.rfc_fields.specs.Scan.{FindsEnd, end_from, end_of};
ghost use Rattle.rfc_fields.specs.{Scan.{is_cut, is_outside, state_after}, declared.scan.State.TheVariants.Outside};

use memchr::memchr2;

const QUOTE: u8 = b'"';

/// The place of a byte: outside quotes, between two quotes, or after the backslash of a
/// quoted-pair.
#[derive(Clone, Copy)]
pub(crate) enum State {
    Outside,
    Inside,
    Escaped,
}

/// Where an element ends.
#[derive(Clone, Copy)]
pub(crate) enum End {
    /// Before the separator at this place.
    Cut(usize),
    /// With the text.
    Closed,
    /// Nowhere: a quote has no end.
    Open,
}

// The state after a byte. A backslash begins a quoted-pair only where there are some.
fn after(pairs: bool, state: State, byte: u8) -> State
    ensures { result ≡ state_after pairs state byte }
{
    match state {
        State::Outside => {
            if byte == QUOTE {
                State::Inside
            } else {
                State::Outside
            }
        }
        State::Inside => {
            if byte == QUOTE {
                State::Outside
            } else if pairs && byte == b'\\' {
                State::Escaped
            } else {
                State::Inside
            }
        }
        State::Escaped => State::Inside,
    }
}

fn is_outside(state: State) -> bool
    ensures { result ≡ is_outside state }
{
    matches!(state, State::Outside)
}

// Whether the byte is a separator outside quotes.
fn is_cut(separator: u8, state: State, byte: u8) -> bool
    ensures { result ≡ is_cut separator state byte }
{
    byte == separator && is_outside(state)
}

// The end of a text in this state.
fn last_end(state: State) -> End
    ensures { result ≡ end_of state }
{
    if is_outside(state) {
        End::Closed
    } else {
        End::Open
    }
}

// Where the first element ends, byte by byte, from a place outside quotes on.
fn end_from(separator: u8, pairs: bool, text: &[u8], from: usize) -> End
    requires { from ≤ length text.now }
    ensures { result ≡ end_from separator pairs Outside from (drop from text.now) }
{
    let mut state = State::Outside;
    for place in from..text.len() {
        let byte = text[place];
        if is_cut(separator, state, byte) {
            return End::Cut(place);
        }
        state = after(pairs, state, byte);
    }
    last_end(state)
}

/// Finds the end of the first element. One search finds the separator of an element without quotes.
pub(crate) fn first_end(separator: u8, pairs: bool, text: &[u8]) -> End
    ensures { FindsEnd separator pairs text.now result }
{
    match memchr2(QUOTE, separator, text) {
        Some(place) => end_from(separator, pairs, text, place),
        None => End::Closed,
    }
}
