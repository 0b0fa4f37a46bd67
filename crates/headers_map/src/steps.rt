//! Lists of steps that change a header map.
ghost use Rattle.std.{specs.Prelude.{◌≡◌, ◌≢◌, ℕ, List, [], OnOk, IfErr}, specs.List.All};
ghost use Rattle.http_header.specs.HeaderMap.{get_all};
ghost use Rattle.headers_map.specs.LineMap.{lines_at, run, last, after_step, IsOfOther};
ghost use Rattle.headers_map.specs.InsertErrors.{AppliesPart, IsRefusedStep};

use crate::encoded::Encoded;
use crate::insert::{InsertError, put_lines};
use http_header::{HeaderMap, HeaderName};
use std::error::Error;
use std::fmt;

/// One change of a header map.
#[derive(Debug, Drop)]
pub enum Step {
    /// Replaces all lines with the name by these. Without a line nothing changes.
    Put(Encoded),
    /// Removes all lines with the name.
    Remove(HeaderName),
}

/// Which step failed, and why.
#[derive(Clone, Copy, Debug, PartialEq, Eq)]
pub struct ApplyError {
    /// The number of steps before it, which are all done.
    pub done: usize,
    /// Why the step failed.
    pub cause: InsertError,
}

impl fmt::Display for ApplyError {
    ghost use Rattle.std.specs.Prelude.{Some};
    ghost use Rattle.headers_map.specs.InsertErrors.{apply_error_text};

    ghost output = { λ e. Some (apply_error_text e) };

    fn fmt<W: fmt::Write>(&self, f: &mut fmt::Formatter<W>) -> fmt::Result {
        write!(f, "after {} steps: {}", self.done, self.cause)
    }
}

impl Error for ApplyError {}

/// Applies steps to a header map, in order. If a `Put` fails, the steps before it are done, and
/// none after it. Fields whose names are in no step never change.
pub fn apply(map: &mut HeaderMap, steps: Vec<Step>) -> Result<(), ApplyError>
    ensures ok { OnOk result ((name : List ℕ)
        → lines_at map.new name ≡ run (lines_at map.old) steps.items name) }
    ensures last { OnOk result ((name : List ℕ)
        → lines_at map.new name ≡ last (lines_at map.old) steps.items name) }
    ensures err { IfErr result (AppliesPart map.old map.new steps.items) }
    ensures others { (name : List ℕ) → All (IsOfOther name) steps.items
        → get_all map.new name ≡ get_all map.old name }
{
    let mut done = 0;
    let mut left = steps.into_iter();
    while let Some(step) = left.next() {
        if let Err(cause) = apply_step(map, step) {
            return Err(ApplyError { done, cause });
        }
        done += 1;
    }
    Ok(())
}

pub(crate) fn apply_step(map: &mut HeaderMap, step: Step) -> Result<(), InsertError>
    ensures ok { OnOk result ((name : List ℕ)
        → lines_at map.new name ≡ after_step (lines_at map.old) step name) }
    ensures err { IfErr result (IsRefusedStep map.old map.new step) }
    ensures others { (name : List ℕ) → IsOfOther name step
        → get_all map.new name ≡ get_all map.old name }
{
    match step {
        Step::Put(Encoded { name, lines }) => put_lines(map, &name, lines),
        Step::Remove(name) => {
            remove_lines(map, &name);
            Ok(())
        }
    }
}

fn remove_lines(map: &mut HeaderMap, name: &HeaderName)
    ensures gone { get_all map.new name.now ≡ [] }
    ensures others { (other : List ℕ) → name.now ≢ other → get_all map.new other ≡ get_all map.old other }
{
    let _names = map.keys_len();
    let _first = map.remove(name);
}
