//! The methods that a server implements, as C hands them in.
ghost use Rattle.headers.specs.Lines.{lines_of};
ghost use Rattle.c_resource.specs.Implemented.{AreImplemented, AreMethods, AreUsual};

use c_decisions::{read_method, values_of};
use c_parts::Failure;
use headers::HeaderValue;
use http::Method;
use std::alloc::Global;

// The method that each line is.
fn methods_of(alloc: Global, lines: &[HeaderValue]) -> Result<Vec<Method>, Failure>
    ensures { AreMethods (lines_of lines.now) result }
{
    let mut methods = Vec::new(alloc);
    for line in lines {
        methods.push(read_method(alloc, line.as_bytes())?)?;
    }
    Ok(methods)
}

// The methods of RFC 9110, section 9.3, and PATCH (RFC 5789), beside GET and HEAD.
fn usual_methods(alloc: Global) -> Result<Vec<Method>, Failure>
    ensures { AreUsual result }
{
    let mut methods = Vec::new(alloc);
    methods.push(Method::POST)?;
    methods.push(Method::PUT)?;
    methods.push(Method::DELETE)?;
    methods.push(Method::CONNECT)?;
    methods.push(Method::OPTIONS)?;
    methods.push(Method::TRACE)?;
    methods.push(Method::PATCH)?;
    Ok(methods)
}

/// The methods of the text, one a line, if they are said, or else the usual ones. Rejected if a line is
/// no token.
pub(crate) fn read_implemented(
    alloc: Global,
    is_said: bool,
    text: &[u8],
) -> Result<Vec<Method>, Failure>
    ensures { AreImplemented is_said text.now result }
{
    if is_said {
        methods_of(alloc, &values_of(alloc, text)?)
    } else {
        usual_methods(alloc)
    }
}
