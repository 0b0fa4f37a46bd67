//! Removal of spaces and tabs at the ends of a slice.
ghost use Rattle.std.{specs.Prelude.{◌≡◌, ◌-◌, ◌≤◌, length}, specs.List.{prefix_len, suffix_len, slice_range}};
ghost use Rattle.headers_syntax.specs.Text.{is_blank, trim, trim_start};

fn is_blank(byte: u8) -> bool
    ensures { result ≡ is_blank byte }
{
    byte == b'\t' || byte == b' '
}

// How many spaces and tabs the bytes begin with.
fn leading(bytes: &[u8]) -> usize
    ensures within { result ≤ length bytes.now }
    ensures value { result ≡ prefix_len is_blank bytes.now }
{
    for (i, byte) in bytes.iter().enumerate() {
        if !is_blank(*byte) {
            return i;
        }
    }
    bytes.len()
}

// How many bytes stand before the spaces and tabs at the end.
fn without_trailing(bytes: &[u8]) -> usize
    ensures within { result ≤ length bytes.now }
    ensures value { result ≡ length bytes.now - suffix_len is_blank bytes.now }
{
    let mut end = bytes.len();
    while end > 0 && is_blank(bytes[end - 1]) {
        end -= 1;
    }
    end
}

/// Returns the bounds of a slice without its leading and trailing spaces and tabs. The slice is
/// `bytes[start..end]`.
pub fn trimmed(bytes: &[u8], start: usize, end: usize) -> (usize, usize)
    requires order { start ≤ end }
    requires within { end ≤ length bytes.now }
    ensures low { result.0 ≤ result.1 }
    ensures high { result.1 ≤ end }
    ensures value { slice_range bytes.now result.0 result.1 ≡ trim (slice_range bytes.now start end) }
{
    let piece = &bytes[start..end];
    let low = leading(piece);
    let rest = &piece[low..];
    (start + low, start + low + without_trailing(rest))
}

/// Removes leading spaces and tabs from a slice.
pub fn trim_start(bytes: &[u8]) -> &[u8]
    ensures { result.now ≡ trim_start bytes.now }
{
    &bytes[leading(bytes)..]
}

/// Removes leading and trailing spaces and tabs from a slice (RFC 9110, section 5.6.3).
pub fn trim(bytes: &[u8]) -> &[u8]
    ensures { result.now ≡ trim bytes.now }
{
    let (low, high) = trimmed(bytes, 0, bytes.len());
    &bytes[low..high]
}
