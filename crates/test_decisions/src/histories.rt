//! Histories: calls of one cache, in order, with the answers that are wanted.
use crate::cors::Cors;
use crate::fields::FieldCases;
use crate::gateway::Gateways;
use crate::handshake::Handshake;
use crate::limits::WithinLimits;
use crate::policies::Policies;
use crate::routes::Routing;
use crate::store::{Caches, make, new_caches};
use anyhow::{Context, Result, anyhow};
use std::alloc::{AllocError, Global};
use std::fs::File;
use std::hash::RandomState;
use std::io::{self, BufWriter, Read, Write};
use std::process::ExitCode;
use std::random::RandomSource;
use std::rt::{Env, Files};
use test_rows::{Arguments, CaseAnswer, CaseFailure, Tally, replay_rows};

// A call, the answer that is wanted, and the number of its line.
#[derive(Clone, Copy)]
struct Row<'a> {
    number: usize,
    call: &'a str,
    wanted: &'a str,
}

// What makes the cache, the number of that line, and the calls.
#[derive(Drop)]
struct History<'a> {
    number: usize,
    limits: &'a str,
    rows: Vec<Row<'a>>,
}

// Whether a line says nothing: it is empty, or a comment.
fn is_aside(line: &str) -> bool {
    line.is_empty() || line.starts_with('#')
}

// The lines at the beginning that are of the history whose first line is before them.
fn calls_in<'s, 'a>(lines: &'s [&'a str]) -> &'s [&'a str] {
    let others = lines.iter().position(|line| !line.starts_with("  "));
    match others {
        Some(count) => &lines[..count],
        None => lines,
    }
}

// The calls of lines whose first one has this number.
fn read_rows<'a>(
    alloc: Global,
    number: usize,
    lines: &[&'a str],
) -> Result<Vec<Row<'a>>, AllocError> {
    let mut rows = Vec::new(alloc);
    for (index, line) in lines.iter().enumerate() {
        let line = line.trim_start();
        if is_aside(line) {
            continue;
        }
        let (call, wanted) = line.split_once(" = ").unwrap_or((line, ""));
        rows.push(Row {
            number: number.saturating_add(index),
            call,
            wanted,
        })?;
    }
    Ok(rows)
}

// The single calls.
type Decisions = (
    (Policies, (WithinLimits, Routing)),
    ((Cors, Handshake), (Gateways, FieldCases)),
);

// What a call is answered.
fn answer_of(alloc: Global, caches: &mut Caches, call: &str) -> Result<CaseAnswer, CaseFailure> {
    let (name, arguments) = call.split_once(' ').unwrap_or((call, ""));
    let mut arguments = Arguments::new(alloc, arguments);
    let mut answer = CaseAnswer::new(alloc);
    make(caches, name, &mut arguments, &mut answer)?;
    if arguments.is_empty() {
        Ok(answer)
    } else {
        Err(CaseFailure::NoCall)
    }
}

// What the calls of a history are answered.
fn play(
    alloc: Global,
    keys: RandomState,
    history: &History<'_>,
) -> Result<Vec<CaseAnswer>, CaseFailure> {
    let mut caches = new_caches(alloc, keys, history.limits)?;
    let mut answers = Vec::new(alloc);
    for row in history.rows.iter() {
        match answer_of(alloc, &mut caches, row.call) {
            Err(CaseFailure::NoCall | CaseFailure::Refused) => {
                let mut answer = CaseAnswer::new(alloc);
                answer.word(CaseFailure::NoCall.as_str())?;
                answers.push(answer)?;
            }
            made => answers.push(made?)?,
        }
    }
    Ok(answers)
}

// Counts a call, and prints it if the answer isn't the wanted one.
fn judge<W: Write>(
    file: &str,
    row: &Row<'_>,
    answer: &CaseAnswer,
    tally: &mut Tally,
    writer: &mut W,
) -> Result<()> {
    let Row {
        number,
        call,
        wanted,
    } = *row;
    let given = answer.as_str();
    tally.add_row(None, given == wanted)?;
    if given != wanted {
        writeln!(
            writer,
            "{file}:{number}: {call}: wanted {wanted}, given {given}"
        )?;
    }
    Ok(())
}

// Plays a history, once more from its beginning if a call runs out of memory.
fn replay_history<W: Write>(
    alloc: Global,
    keys: RandomState,
    file: &str,
    history: &History<'_>,
    tally: &mut Tally,
    writer: &mut W,
) -> Result<()> {
    let History { number, limits, .. } = history;
    let mut made = play(alloc, keys, history);
    if matches!(made, Err(CaseFailure::Memory)) {
        writeln!(
            writer,
            "{file}:{number}: cache {limits}: refused, made again"
        )?;
        made = play(alloc, keys, history);
    }
    match made {
        Ok(answers) => {
            for (row, answer) in history.rows.iter().zip(answers.iter()) {
                judge(file, row, answer, tally, writer)?;
            }
            Ok(())
        }
        Err(failure) => Err(anyhow!("line {number}: {}", failure.as_str())),
    }
}

// Plays the histories of a text.
fn replay_text<W: Write>(
    alloc: Global,
    keys: RandomState,
    file: &str,
    text: &str,
    tally: &mut Tally,
    writer: &mut W,
) -> Result<()> {
    let lines: Vec<&str> = text.lines().collect(alloc)?;
    // How many lines were read.
    let mut end = 0;
    for (index, line) in lines.iter().enumerate() {
        if index < end || is_aside(line) {
            continue;
        }
        let number = index + 1;
        let Some(limits) = line.strip_prefix("cache ") else {
            return Err(anyhow!("line {number} is of no history"));
        };
        let calls = calls_in(&lines[number..]);
        end = number.saturating_add(calls.len());
        let history = History {
            number,
            limits,
            rows: read_rows(alloc, number.saturating_add(1), calls)?,
        };
        replay_history(alloc, keys, file, &history, tally, writer)?;
    }
    Ok(())
}

// Whether the first call of a text is in a history.
fn has_histories(text: &str) -> bool {
    let first = text.lines().find(|line| !is_aside(line));
    first.is_some_and(|line| line.starts_with("cache "))
}

// Makes the calls of a file, whose name is given.
fn replay_file<R: Read + Drop, W: Write>(
    alloc: Global,
    keys: RandomState,
    file: &str,
    reader: R,
    tally: &mut Tally,
    writer: &mut W,
) -> Result<()> {
    let input = io::read_to_string(alloc, reader)?;
    if !has_histories(input.as_str()) {
        return replay_rows::<Decisions, _, _>(alloc, file, input.as_bytes(), tally, writer);
    }
    let before = tally.rows;
    replay_text(alloc, keys, file, input.as_str(), tally, writer)?;
    tally.add_file(file, tally.rows.saturating_sub(before))?;
    Ok(())
}

/// Makes the calls of the files that the program's arguments name. Prints the calls that are
/// answered otherwise than is wanted, and then the counts. The exit code is 0 exactly if there are
/// none.
pub fn replay_files<R: Env + Files + Print + AllocGlobal + RandomSource>(
    rt: &R,
) -> Result<ExitCode> {
    let alloc = rt.alloc();
    let keys = RandomState::new(rt)?;
    let mut writer = BufWriter::new(alloc, io::writer(rt))?;
    let mut tally = Tally::new(alloc);
    for argument in std::env::args(rt)?.skip(1) {
        let name = argument.as_str();
        let file = File::open(rt, name).context(name)?;
        replay_file(alloc, keys, name, file, &mut tally, &mut writer).context(name)?;
    }
    tally.print(&mut writer)?;
    writer.flush()?;
    Ok(ExitCode::from(tally.exit_status()))
}
