//! Texts that a test case repeats, so that one with a long value is short.
use anyhow::{Context, Result};
use std::alloc::Global;

// Appends a part of a line that follows `%{`: it begins with `COUNT:TEXT}`.
fn append_part(alloc: Global, part: &str, expanded: &mut String) -> Result<()> {
    let (count, rest) = part
        .split_once(':')
        .context("a repeated text has no count")?;
    let (text, rest) = rest.split_once('}').context("a repeated text has no end")?;
    let count = count.parse().context(count)?;
    expanded.push_str(text.repeat(alloc, count)?.as_str())?;
    expanded.push_str(rest)?;
    Ok(())
}

/// Returns the line with COUNT times TEXT for each `%{COUNT:TEXT}` in it. Fails if a count isn't a
/// number, if a `}` is missing, and if an allocation fails.
pub fn expand(alloc: Global, line: &str) -> Result<String> {
    let mut parts = line.split("%{");
    let mut expanded = String::from_str(alloc, parts.next().unwrap_or(""))?;
    for part in parts {
        append_part(alloc, part, &mut expanded)?;
    }
    Ok(expanded)
}
