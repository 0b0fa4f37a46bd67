//! Comparison without ASCII case.
ghost use Rattle.std.specs.Prelude.{◌↔◌, IsTrue};
ghost use Rattle.headers_syntax.specs.AsciiCase.{SameButForCase};

/// Returns whether two texts are equal apart from the case of ASCII letters. Options, directives
/// and other names are compared so (RFC 9110, section 7.6.1; RFC 9111, section 5.2).
pub fn same_but_for_case(a: &str, b: &str) -> bool
    ensures { IsTrue result ↔ SameButForCase a.now b.now }
{
    a.eq_ignore_ascii_case(b)
}
