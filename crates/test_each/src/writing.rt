//! The encoding of a header.
use crate::replay::{Getters, copy_of};
use headers::{Header, HeaderValue, decode_values};
use std::alloc::{AllocError, Global};
use test_rows::{Arguments, CaseAnswer, CaseFailure};

/// The lines that a header writes.
pub fn written<H: Header>(alloc: Global, header: &H) -> Result<Vec<HeaderValue>, AllocError> {
    let mut lines = Vec::new(alloc);
    header.encode(alloc, &mut lines)?;
    Ok(lines)
}

/// Whether a header writes one line, which is the text.
pub fn writes<H: Header>(alloc: Global, header: &H, text: &str) -> Result<bool, AllocError> {
    let lines = written(alloc, header)?;
    Ok(match lines.as_slice() {
        [line] => line.as_bytes() == text.as_bytes(),
        _ => false,
    })
}

/// A list of one value, which is marked sensitive. Headers write after it.
pub fn value_before(alloc: Global) -> Result<Vec<HeaderValue>, AllocError> {
    let mut value = HeaderValue::from_static("before");
    value.set_sensitive(true);
    let mut lines = Vec::new(alloc);
    lines.push(value)?;
    Ok(lines)
}

/// The lines that follow that value. `None` if it isn't as it was.
pub fn lines_behind(lines: &[HeaderValue]) -> Option<&[HeaderValue]> {
    match lines {
        [before, behind @ ..] => {
            let is_kept = before.as_bytes() == b"before".as_slice() && before.is_sensitive();
            if is_kept { Some(behind) } else { None }
        }
        [] => None,
    }
}

// Adds lines, and whether all of them are marked sensitive, or some and not others.
fn add_lines(lines: &[HeaderValue], answer: &mut CaseAnswer) -> Result<(), AllocError> {
    if lines.is_empty() {
        return answer.none();
    }
    let mut marked: usize = 0;
    for line in lines {
        answer.bytes(line.as_bytes())?;
        marked = marked.saturating_add(line.is_sensitive().into());
    }
    match marked {
        0 => Ok(()),
        _ if marked == lines.len() => answer.word("(sensitive)"),
        _ => answer.word("(mixed)"),
    }
}

/// Adds the lines that a header writes after a value, and whether they are marked sensitive.
pub fn add_written<H: Header>(header: &H, answer: &mut CaseAnswer) -> Result<(), AllocError> {
    let mut lines = value_before(answer.alloc())?;
    header.encode(answer.alloc(), &mut lines)?;
    match lines_behind(&lines) {
        Some(behind) => add_lines(behind, answer),
        None => {
            answer.word("(changed)")?;
            add_lines(&lines, answer)
        }
    }
}

/// Adds the words of a header, and, if those of its copy are others, these after them.
pub fn add_with_copy(
    of_header: &CaseAnswer,
    of_copy: &CaseAnswer,
    answer: &mut CaseAnswer,
) -> Result<(), AllocError> {
    answer.word(of_header.as_str())?;
    if of_copy.as_str() != of_header.as_str() {
        answer.word("(copy)")?;
        answer.word(of_copy.as_str())?;
    }
    Ok(())
}

/// Adds the lines that encode the header that marked lines decode to, and those of its copy.
pub fn secret<H: Header + Getters<P>, P>(
    arguments: &mut Arguments<'_>,
    answer: &mut CaseAnswer,
) -> Result<(), CaseFailure> {
    let alloc = arguments.alloc();
    let mut lines = arguments.lines()?;
    for line in lines.iter_mut() {
        line.set_sensitive(true);
    }
    let header: H = decode_values(alloc, &lines)?;
    let mut of_header = CaseAnswer::new(alloc);
    add_written(&header, &mut of_header)?;
    let mut of_copy = CaseAnswer::new(alloc);
    add_written(&copy_of(alloc, &header)?, &mut of_copy)?;
    Ok(add_with_copy(&of_header, &of_copy, answer)?)
}
