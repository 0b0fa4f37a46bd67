//! Calls of the program `headers_canon`.
use crate::streams::{Sink, TextSource};
use headers_section::{Outcome, RunError, exit_status, run, run_with_system_keys};
use std::alloc::Global;
use std::hash::RandomState;
use std::io::{self, ErrorKind};
use std::random::RandomSource;
use test_rows::{Arguments, CaseAnswer, CaseFailure};

// Gives the same bytes each time.
struct SameBytes;

impl RandomSource for SameBytes {
    fn fill_bytes(&self, buf: &mut [u8]) -> io::Result<()> {
        buf.fill(7);
        Ok(())
    }
}

// How a run ended, if its writer holds what it may: `(left)` if a run that may not write wrote or
// flushed. If memory was wanting, the call is made again.
fn outcome_of(ended: Result<Outcome, RunError>, sink: &Sink) -> Result<&'static str, CaseFailure> {
    if sink.is_refused {
        return Err(CaseFailure::Memory);
    }
    match ended {
        Ok(Outcome::Clean) => Ok("clean"),
        Ok(Outcome::SomeRefused) => Ok("some-refused"),
        Err(RunError::Io) => Ok("io"),
        _ if !sink.is_untouched() => Ok("(left)"),
        Ok(Outcome::NotAField) => Ok("not-a-field"),
        Err(RunError::Room) => Ok("room"),
        Err(RunError::Memory) => Err(CaseFailure::Memory),
    }
}

// The next word, as a number of bytes.
fn size(arguments: &mut Arguments<'_>) -> Result<usize, CaseFailure> {
    usize::try_from(arguments.number()?).map_err(|_| CaseFailure::NoCall)
}

// The next word, as the kind of a failure, or `None` if it is absent.
fn failure(arguments: &mut Arguments<'_>) -> Result<Option<ErrorKind>, CaseFailure> {
    match arguments.option()? {
        Some("other") => Ok(Some(ErrorKind::Other)),
        Some("interrupted") => Ok(Some(ErrorKind::Interrupted)),
        Some(_) => Err(CaseFailure::NoCall),
        None => Ok(None),
    }
}

// INPUT: how a run over it ends, and the text that it writes. `(keys)` stands first if a run with keys
// differs.
fn call_run(arguments: &mut Arguments<'_>, answer: &mut CaseAnswer) -> Result<(), CaseFailure> {
    let alloc = arguments.alloc();
    let input = arguments.bytes()?;
    let mut sink = Sink::new(alloc);
    let ended = run(alloc, &mut TextSource::new(&input), &mut sink);
    let outcome = outcome_of(ended, &sink)?;
    let mut other = Sink::new(alloc);
    let keys = RandomState::new(&SameBytes);
    let ended = run_with_system_keys(alloc, keys, &mut TextSource::new(&input), &mut other);
    if outcome_of(ended, &other)? != outcome || other.taken != sink.taken {
        answer.word("(keys)")?;
    }
    answer.word(outcome)?;
    Ok(answer.bytes(&sink.taken)?)
}

// INPUT EACH NONSENSE FAILURE: how a run ends, the text that it writes, and how many reads were late.
fn call_reads(arguments: &mut Arguments<'_>, answer: &mut CaseAnswer) -> Result<(), CaseFailure> {
    let input = arguments.bytes()?;
    let (each, nonsense) = (size(arguments)?, size(arguments)?);
    let mut source = TextSource::with_failure(&input, each, nonsense, failure(arguments)?);
    let mut sink = Sink::new(arguments.alloc());
    let ended = run(arguments.alloc(), &mut source, &mut sink);
    answer.word(outcome_of(ended, &sink)?)?;
    answer.bytes(&sink.taken)?;
    Ok(answer.word(source.late_reads)?)
}

// INPUT EACH MOST FAILURE FLUSH_FAILURE: how a run ends, and what its writer holds, how many writes
// and how many flushes were made of it.
fn call_writes(arguments: &mut Arguments<'_>, answer: &mut CaseAnswer) -> Result<(), CaseFailure> {
    let alloc = arguments.alloc();
    let input = arguments.bytes()?;
    let (each, most) = (size(arguments)?, size(arguments)?);
    let (on_write, on_flush) = (failure(arguments)?, failure(arguments)?);
    let mut sink = Sink::with_failures(alloc, each, most, on_write, on_flush);
    let ended = run(alloc, &mut TextSource::new(&input), &mut sink);
    answer.word(outcome_of(ended, &sink)?)?;
    answer.bytes(&sink.taken)?;
    answer.word(sink.writes)?;
    Ok(answer.word(sink.flushes)?)
}

// So many fields with different names.
fn fields(alloc: Global, count: u64) -> Result<String, CaseFailure> {
    let mut text = String::new(alloc);
    for number in 0..count {
        write!(text, "x-{number}: a\n")?;
    }
    Ok(text)
}

// COUNT: how a run over so many names ends, and whether it writes its input.
fn call_names(arguments: &mut Arguments<'_>, answer: &mut CaseAnswer) -> Result<(), CaseFailure> {
    let alloc = arguments.alloc();
    let input = fields(alloc, arguments.number()?)?;
    let mut sink = Sink::new(alloc);
    let ended = run(alloc, &mut TextSource::new(input.as_bytes()), &mut sink);
    answer.word(outcome_of(ended, &sink)?)?;
    Ok(answer.word(sink.taken.as_slice() == input.as_bytes())?)
}

// OUTCOME: the exit status of a run that ended so.
fn call_status(arguments: &mut Arguments<'_>, answer: &mut CaseAnswer) -> Result<(), CaseFailure> {
    let ended = match arguments.word()? {
        "clean" => Ok(Outcome::Clean),
        "some-refused" => Ok(Outcome::SomeRefused),
        "not-a-field" => Ok(Outcome::NotAField),
        "io" => Err(RunError::Io),
        "memory" => Err(RunError::Memory),
        "room" => Err(RunError::Room),
        _ => return Err(CaseFailure::NoCall),
    };
    Ok(answer.word(exit_status(&ended))?)
}

/// Adds the answer of a call of the program.
pub fn call_canon(
    call: &str,
    arguments: &mut Arguments<'_>,
    answer: &mut CaseAnswer,
) -> Result<(), CaseFailure> {
    match call {
        "run" => call_run(arguments, answer),
        "reads" => call_reads(arguments, answer),
        "writes" => call_writes(arguments, answer),
        "names" => call_names(arguments, answer),
        "status" => call_status(arguments, answer),
        _ => Err(CaseFailure::NoCall),
    }
}
