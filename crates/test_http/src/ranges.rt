//! Calls of the headers of ranges.
use crate::Http;
use headers::{ContentRange, Range};
use test_each::{Getters, show_back, show_back_result, show_result};
use test_rows::{Arguments, CaseAnswer, CaseFailure};

impl Getters<Http> for Range {
    fn getters(&self, answer: &mut CaseAnswer) -> Result<Range, CaseFailure> {
        Ok(self.clone(answer.alloc())?)
    }
}

impl Getters<Http> for ContentRange {
    fn getters(&self, answer: &mut CaseAnswer) -> Result<ContentRange, CaseFailure> {
        match self.bytes_range() {
            Some((first, last)) => {
                answer.word(first)?;
                answer.word(last)?;
            }
            None => answer.none()?,
        }
        answer.option(self.bytes_len())?;
        Ok(self.clone()?)
    }
}

// The ranges that a length satisfies.
fn satisfiable_ranges(
    arguments: &mut Arguments<'_>,
    answer: &mut CaseAnswer,
) -> Result<(), CaseFailure> {
    let length = arguments.number()?;
    let header: Range = arguments.header()?;
    let mut ranges = Vec::new(arguments.alloc());
    for range in header.satisfiable_ranges(length) {
        ranges.push(range)?;
    }
    answer.word(ranges.len())?;
    if header.satisfiable_ranges(length).count() != ranges.len() {
        answer.word("(count)")?;
    }
    for (first, last) in ranges.iter() {
        answer.bound(*first)?;
        answer.bound(*last)?;
    }
    Ok(())
}

/// Adds the answer of a call of these headers of its own.
pub fn call_range(
    name: &str,
    arguments: &mut Arguments<'_>,
    answer: &mut CaseAnswer,
) -> Result<(), CaseFailure> {
    let alloc = arguments.alloc();
    match name {
        "Range.bytes" => {
            let range = (arguments.bound()?, arguments.bound()?);
            show_result(Range::bytes(alloc, range), answer)
        }
        "Range.satisfiable_ranges" => satisfiable_ranges(arguments, answer),
        "ContentRange.bytes" => {
            let range = (arguments.bound()?, arguments.bound()?);
            let header = ContentRange::bytes(range, arguments.optional_number()?);
            show_back_result(header.map_err(|_| CaseFailure::Refused), answer)
        }
        "ContentRange.unsatisfied_bytes" => {
            let length = arguments.number()?;
            show_back(&ContentRange::unsatisfied_bytes(length), answer)
        }
        _ => Err(CaseFailure::NoCall),
    }
}
