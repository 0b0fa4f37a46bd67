//! The program that runs test cases.
use crate::calls::Calls;
use crate::replay::replay_rows;
use crate::tally::Tally;
use anyhow::{Context, Result};
use std::fs::File;
use std::io::{self, BufWriter, Write};
use std::process::ExitCode;
use std::rt::{Env, Files};

/// Runs the test cases in the files that the program's arguments name. It prints the test cases
/// with an unexpected answer, and then the counts. The exit code is 0 exactly if there are none.
pub fn replay_files<C: Calls, R: Env + Files + Print + AllocGlobal>(rt: &R) -> Result<ExitCode> {
    let alloc = rt.alloc();
    let mut writer = BufWriter::new(alloc, io::writer(rt))?;
    let mut tally = Tally::new(alloc);
    for argument in std::env::args(rt)?.skip(1) {
        let name = argument.as_str();
        let file = File::open(rt, name).context(name)?;
        replay_rows::<C, _, _>(alloc, name, file, &mut tally, &mut writer).context(name)?;
    }
    tally.print(&mut writer)?;
    writer.flush()?;
    Ok(ExitCode::from(tally.exit_status()))
}
