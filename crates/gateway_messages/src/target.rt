//! The target of a request in absolute-form (RFC 9112, section 3.2.2).
ghost use Rattle.std.specs.Prelude.{◌≡◌, ◌≤◌, codes, length};
ghost use Rattle.gateway_messages.specs.Targets.{authority_len, begins_with, scheme_len};

fn is_http(target: &[u8]) -> bool
    ensures { result ≡ begins_with 7 (codes "http://") target.now }
{
    target.len() >= 7 && target[..7].eq_ignore_ascii_case(b"http://")
}

fn is_https(target: &[u8]) -> bool
    ensures { result ≡ begins_with 8 (codes "https://") target.now }
{
    target.len() >= 8 && target[..8].eq_ignore_ascii_case(b"https://")
}

/// How many bytes of the target are the scheme and the mark behind it: none if it isn't in absolute-form.
pub fn scheme_len(target: &[u8]) -> usize
    ensures value { result ≡ scheme_len target.now }
    ensures within { result ≤ length target.now }
{
    if is_http(target) {
        7
    } else if is_https(target) {
        8
    } else {
        0
    }
}

/// How many bytes of what follows the scheme are the authority.
pub fn authority_len(text: &[u8]) -> usize
    ensures value { result ≡ authority_len text.now }
    ensures within { result ≤ length text.now }
{
    text.iter()
        .take_while(|byte| !matches!(**byte, b'/' | b'?' | b'#'))
        .count()
}
