//! Field names that some servers can't tell from others.
ghost use Rattle.std.specs.{Prelude.◌≡◌, Prelude.◌==◌, Prelude.bytes_eq, List.list_any};
ghost use Rattle.gateway_messages.specs.Spellings.{dash_for, dashed, guarded_names, has_mark, has_underscore, is_mark};
ghost use Rattle.gateway_messages.specs.Spellings.{is_misspelt, resembles_guarded};

use crate::gateway::Gateway;
use headers::HeaderName;

// Whether the byte is neither a letter, nor a digit, nor a dash.
fn is_mark(byte: u8) -> bool
    ensures { result ≡ is_mark byte }
{
    !(byte.is_ascii_alphanumeric() || byte == b'-')
}

fn has_mark(name: &[u8]) -> bool
    ensures { result ≡ has_mark name.now }
{
    name.iter().any(|byte| is_mark(*byte))
}

fn has_underscore(name: &[u8]) -> bool
    ensures { result ≡ has_underscore name.now }
{
    name.iter().any(|byte| *byte == b'_')
}

fn dash_for(byte: u8) -> u8
    ensures { result ≡ dash_for byte }
{
    if is_mark(byte) { b'-' } else { byte }
}

// Whether the name, with a dash for each mark, is this one.
fn resembles(mut name: &[u8], mut own: &[u8]) -> bool
    ensures { result ≡ bytes_eq (dashed name.now) own.now }
{
    while let [first, rest @ ..] = name {
        match own {
            [byte, others @ ..] if dash_for(*first) == *byte => {
                name = rest;
                own = others;
            }
            _ => return false,
        }
    }
    own.is_empty()
}

fn resembles_always_guarded(name: &[u8]) -> bool
    ensures { result ≡ list_any (bytes_eq (dashed name.now)) guarded_names }
{
    resembles(name, b"content-length")
        || resembles(name, b"transfer-encoding")
        || resembles(name, b"max-forwards")
        || resembles(name, b"cache-control")
        || resembles(name, b"set-cookie")
        || resembles(name, b"keep-alive")
        || resembles(name, b"proxy-connection")
        || resembles(name, b"proxy-authenticate")
        || resembles(name, b"proxy-authentication-info")
        || resembles(name, b"proxy-authorization")
        || resembles(name, b"x-forwarded-for")
        || resembles(name, b"x-forwarded-host")
        || resembles(name, b"x-forwarded-proto")
}

fn resembles_some(name: &[u8], names: &[HeaderName]) -> bool
    ensures { result ≡ list_any (bytes_eq (dashed name.now)) names.now }
{
    names
        .iter()
        .any(|own| resembles(name, own.as_str().as_bytes()))
}

// Whether the name, with a dash for each mark, is one that the gateway guards.
fn resembles_guarded(name: &[u8], further: &[HeaderName]) -> bool
    ensures { result ≡ resembles_guarded further.now name.now }
{
    resembles_always_guarded(name) || resembles_some(name, further)
}

/// Whether the field isn't forwarded for its name: it resembles a field that the gateway guards, or
/// has an underscore that the gateway doesn't let pass.
#[tactic(auto, unfolding(crate::specs::Spellings::is_misspelt))]
pub(crate) fn is_misspelt(gateway: &Gateway, name: &str) -> bool
    ensures { result ≡ is_misspelt gateway.now name.now }
{
    let name = name.as_bytes();
    has_mark(name)
        && (resembles_guarded(name, gateway.protected.as_slice())
            || (!gateway.passes_underscores && has_underscore(name)))
}
