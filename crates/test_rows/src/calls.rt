//! The calls that test cases name.
use crate::answer::CaseAnswer;
use crate::arguments::Arguments;
use crate::failure::CaseFailure;
use std::alloc::Global;

/// Calls that test cases can name.
pub trait Calls {
    /// Makes the call with this name, and appends its answer. `NoCall` if there is no such call.
    fn make(
        name: &str,
        arguments: &mut Arguments<'_>,
        answer: &mut CaseAnswer,
    ) -> Result<(), CaseFailure>;
}

/// The calls of A, and those calls of B that A doesn't have.
impl<A: Calls, B: Calls> Calls for (A, B) {
    fn make(
        name: &str,
        arguments: &mut Arguments<'_>,
        answer: &mut CaseAnswer,
    ) -> Result<(), CaseFailure> {
        let left = *arguments;
        match A::make(name, arguments, answer) {
            Err(CaseFailure::NoCall) => {
                *arguments = left;
                B::make(name, arguments, answer)
            }
            made => made,
        }
    }
}

/// Makes a call that is written as its name and its arguments, with one space between them.
pub fn answer_of<C: Calls>(alloc: Global, call: &str) -> Result<CaseAnswer, CaseFailure> {
    let (name, arguments) = call.split_once(' ').unwrap_or((call, ""));
    let mut arguments = Arguments::new(alloc, arguments);
    let mut answer = CaseAnswer::new(alloc);
    C::make(name, &mut arguments, &mut answer)?;
    if arguments.is_empty() {
        Ok(answer)
    } else {
        Err(CaseFailure::NoCall)
    }
}
