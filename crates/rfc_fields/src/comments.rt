//! Comments (RFC 9110, section 5.6.5).
ghost use Rattle.std.specs.Prelude.{◌≡◌, ◌<◌, ◌≤◌, ◌+◌, ℕ, List, MatchResult};
ghost use Rattle.rfc_fields.specs.{Comments.HasComment, CommentScan.after, CommentScan.closing};
ghost use Rattle.rfc_fields.specs.{declared.comments.Nesting.Nesting, declared.comments.Progress.TheVariants.Within};

use crate::error::Malformed;
use crate::values::is_value_byte;

/// The place of a byte in a comment.
#[derive(Clone, Copy)]
pub(crate) struct Nesting {
    /// The number of open comments around the innermost one.
    pub(crate) outer: usize,
    /// Whether a backslash is before the byte, so that both are a quoted-pair.
    pub(crate) is_escaped: bool,
}

/// What follows a byte of a comment.
#[derive(Clone, Copy)]
pub(crate) enum Progress {
    /// The next byte is in the comment.
    Within(Nesting),
    /// The comment ends with this byte.
    Closed,
    /// No comment has this byte.
    Never,
}

// What the parenthesis that closes the innermost comment leads to.
fn closing(outer: usize) -> Progress
    ensures value { result ≡ closing outer }
    ensures fewer { (next : Nesting) → result ≡ Within next → next.outer ≤ outer }
{
    if outer == 0 {
        return Progress::Closed;
    }
    Progress::Within(Nesting {
        outer: outer - 1,
        is_escaped: false,
    })
}

fn after(nesting: Nesting, byte: u8) -> Progress
    requires { nesting.outer < usize.MAX }
    ensures value { result ≡ after nesting byte }
    ensures one_more { (next : Nesting) → result ≡ Within next → next.outer ≤ nesting.outer + 1 }
{
    let Nesting { outer, is_escaped } = nesting;
    if !is_value_byte(byte) {
        return Progress::Never;
    }
    if is_escaped {
        return Progress::Within(Nesting {
            outer,
            is_escaped: false,
        });
    }
    match byte {
        b'\\' => Progress::Within(Nesting {
            outer,
            is_escaped: true,
        }),
        b'(' => Progress::Within(Nesting {
            outer: outer + 1,
            is_escaped: false,
        }),
        b')' => closing(outer),
        _ => Progress::Within(nesting),
    }
}

/// Skips the comment at the front of a text, and returns what follows it (RFC 9110, section 5.6.5).
/// `Malformed` if the text doesn't begin with a comment.
///
/// A comment is between parentheses. It may have comments and quoted-pairs in it; a parenthesis in
/// a quoted-pair neither opens nor closes a comment.
pub fn skip_comment(text: &[u8]) -> Result<&[u8], Malformed>
    ensures { MatchResult result (λ rest. HasComment text.now rest.now)
        (λ _. (rest : List ℕ) → HasComment text.now rest → ⊥) }
{
    if text.is_empty() {
        return Err(Malformed);
    }
    if text[0] != b'(' {
        return Err(Malformed);
    }
    let mut nesting = Nesting {
        outer: 0,
        is_escaped: false,
    };
    for place in 1..text.len() {
        match after(nesting, text[place]) {
            Progress::Within(next) => nesting = next,
            Progress::Closed => return Ok(&text[place + 1..]),
            Progress::Never => return Err(Malformed),
        }
    }
    Err(Malformed)
}
