//! Maps of fields, and steps over them, as words.
//!
//! A name in parentheses begins the lines of a field, as in `(age) 5`. `(put:age) 5` is a step that
//! puts these lines, and `(remove:age)` is a step that removes the name. `(sensitive)` marks the
//! line before it. A map ends at the word `(/)`, or with the test case. A map is answered as its
//! fields, in the order of their names.
use crate::answer::CaseAnswer;
use crate::arguments::Arguments;
use crate::failure::CaseFailure;
use headers::{Encoded, HeaderMap, HeaderName, HeaderValue, Step};
use std::alloc::Global;

// What a word in parentheses begins.
#[derive(Clone, Copy)]
enum Kind {
    Field,
    Put,
    Remove,
}

// A name with its lines.
#[derive(Drop)]
struct Part {
    kind: Kind,
    name: HeaderName,
    lines: Vec<HeaderValue>,
}

fn begun_part(alloc: Global, word: &str) -> Result<Part, CaseFailure> {
    let (kind, name) = match word.split_once(':') {
        None => (Kind::Field, word),
        Some(("put", name)) => (Kind::Put, name),
        Some(("remove", name)) => (Kind::Remove, name),
        Some(_) => return Err(CaseFailure::NoCall),
    };
    Ok(Part {
        kind,
        name: Arguments::new(alloc, name).name()?,
        lines: Vec::new(alloc),
    })
}

// The text in the parentheses of a word that isn't bytes.
fn in_parentheses(word: &str) -> Option<&str> {
    if word == "()" {
        return None;
    }
    word.strip_prefix('(')?.strip_suffix(')')
}

fn mark_sensitive(parts: &mut Vec<Part>) -> Result<(), CaseFailure> {
    let part = parts.last_mut().ok_or(CaseFailure::NoCall)?;
    part.lines
        .last_mut()
        .ok_or(CaseFailure::NoCall)?
        .set_sensitive(true);
    Ok(())
}

fn add_lines(parts: &mut Vec<Part>, lines: Vec<HeaderValue>) -> Result<(), CaseFailure> {
    let part = parts.last_mut().ok_or(CaseFailure::NoCall)?;
    for line in lines {
        part.lines.push(line)?;
    }
    Ok(())
}

fn read_parts(alloc: Global, text: &str) -> Result<Vec<Part>, CaseFailure> {
    let mut parts = Vec::new(alloc);
    for word in text.split_whitespace() {
        match in_parentheses(word) {
            Some("sensitive") => mark_sensitive(&mut parts)?,
            Some(begin) => parts.push(begun_part(alloc, begin)?)?,
            None => add_lines(&mut parts, Arguments::new(alloc, word).lines()?)?,
        }
    }
    Ok(parts)
}

/// Appends field lines with a name to a map.
pub fn append_lines(
    map: &mut HeaderMap,
    name: &HeaderName,
    lines: Vec<HeaderValue>,
) -> Result<(), CaseFailure> {
    for line in lines {
        map.append(name, line)?;
    }
    Ok(())
}

impl<'a> Arguments<'a> {
    // The words up to `(/)`, which is taken too.
    fn words_of_map(&mut self) -> &'a str {
        let rest = self.rest();
        let (words, others) = match rest.strip_prefix("(/)") {
            Some(others) => ("", others),
            None => rest.split_once(" (/)").unwrap_or((rest, "")),
        };
        self.rest = others.strip_prefix(' ').unwrap_or(others);
        words
    }

    /// Takes the words up to `(/)` as the fields of a map, and the steps among them.
    pub fn map_and_steps(&mut self) -> Result<(HeaderMap, Vec<Step>), CaseFailure> {
        let alloc = self.alloc();
        let mut map = HeaderMap::new(alloc);
        let mut steps = Vec::new(alloc);
        for part in read_parts(alloc, self.words_of_map())? {
            let Part { kind, name, lines } = part;
            match kind {
                Kind::Field => append_lines(&mut map, &name, lines)?,
                Kind::Put => steps.push(Step::Put(Encoded { name, lines }))?,
                Kind::Remove => steps.push(Step::Remove(name))?,
            }
        }
        Ok((map, steps))
    }

    /// Takes the words up to `(/)` as the fields of a map. `NoCall` if a step is among them.
    pub fn map(&mut self) -> Result<HeaderMap, CaseFailure> {
        let (map, steps) = self.map_and_steps()?;
        if steps.is_empty() {
            Ok(map)
        } else {
            Err(CaseFailure::NoCall)
        }
    }
}

impl CaseAnswer {
    /// Appends a field line to the answer, and whether it is sensitive.
    pub fn line(&mut self, line: &HeaderValue) -> Result<(), CaseFailure> {
        self.bytes(line.as_bytes())?;
        if line.is_sensitive() {
            self.word("(sensitive)")?;
        }
        Ok(())
    }

    /// Appends the fields of a map that have one of these names.
    pub fn fields(&mut self, map: &HeaderMap, names: &[&str]) -> Result<(), CaseFailure> {
        for name in names {
            self.word(format_args!("({name})"))?;
            for line in map.get_all(*name) {
                self.line(line)?;
            }
        }
        Ok(())
    }

    /// Appends the fields of a map in the order of their names, or `(none)`.
    pub fn map(&mut self, map: &HeaderMap) -> Result<(), CaseFailure> {
        let mut names: Vec<&str> = map.keys().map(|name| name.as_str()).collect(self.alloc())?;
        names.sort_unstable();
        if names.is_empty() {
            return Ok(self.none()?);
        }
        self.fields(map, names.as_slice())
    }
}
