//! The counts of a run.
ghost use Rattle.std.specs.Prelude.{◌≡◌, ◌+◌, ◌<◌, ◌≤◌, ◌^◌, ◌↔◌, if◌then◌else◌, OnOk};

use anyhow::{Context, Result};
use std::alloc::{AllocError, Global};
use std::collections::BTreeMap;
use std::io::{self, Write};

/// The counts of a run of test cases.
#[derive(Drop)]
pub struct Tally {
    alloc: Global,
    files: Vec<(String, u64)>,
    kinds: BTreeMap<String, u64>,
    /// The number of test cases that were run.
    pub rows: u64,
    /// The number of test cases with an unexpected answer.
    pub differing: u64,
    ghost within: { differing ≤ rows },
}

impl Tally {
    /// Makes the counts before the first test case.
    pub fn new(alloc: Global) -> Tally
        ensures rows { result.rows ≡ 0 }
        ensures differing { result.differing ≡ 0 }
    {
        Tally {
            alloc,
            files: Vec::new(alloc),
            kinds: BTreeMap::new(alloc),
            rows: 0,
            differing: 0,
        }
    }

    fn add_kind(&mut self, kind: &str) -> Result<(), AllocError>
        ensures rows { self.new.rows ≡ self.old.rows }
        ensures differing { self.new.differing ≡ self.old.differing }
    {
        if let Some(count) = self.kinds.get_mut(kind) {
            *count = count.saturating_add(1);
            return Ok(());
        }
        self.kinds.insert(String::from_str(self.alloc, kind)?, 1)?;
        Ok(())
    }

    /// Counts a test case, and whether its answer was the expected one. It has a kind if the answer
    /// must differ from upstream's.
    pub fn add_row(&mut self, kind: Option<&str>, agrees: bool) -> Result<()>
        ensures rows { OnOk result (self.new.rows ≡ self.old.rows + 1) }
        ensures differing { OnOk result (self.new.differing ≡ self.old.differing + (if agrees then 0 else 1)) }
    {
        if let Some(kind) = kind {
            self.add_kind(kind)?;
        }
        self.rows = self.rows.checked_add(1).context("too many rows")?;
        if !agrees {
            self.differing += 1;
        }
        Ok(())
    }

    /// Stores the number of test cases of a file.
    pub fn add_file(&mut self, file: &str, rows: u64) -> Result<(), AllocError>
        ensures rows { self.new.rows ≡ self.old.rows }
        ensures differing { self.new.differing ≡ self.old.differing }
    {
        let file = String::from_str(self.alloc, file)?;
        self.files.push((file, rows))?;
        Ok(())
    }

    /// Prints the counts: a line for each file, a line for each kind of difference, and the sum.
    pub fn print<W: Write>(&self, writer: &mut W) -> io::Result<()> {
        for (file, rows) in self.files.iter() {
            writeln!(writer, "{file}: {rows} rows")?;
        }
        for (kind, count) in self.kinds.iter() {
            writeln!(writer, "{kind} {count}")?;
        }
        writeln!(
            writer,
            "{} rows, {} answered otherwise",
            self.rows, self.differing
        )
    }

    /// Returns the exit status: 0 exactly if no test case had an unexpected answer.
    pub fn exit_status(&self) -> u8
        ensures { (result ≡ 0) ↔ (self.now.differing ≡ 0) }
    {
        if self.differing == 0 { 0 } else { 1 }
    }
}
