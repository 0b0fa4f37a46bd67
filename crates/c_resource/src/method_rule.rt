//! The methods of a resource, as C hands them in.
ghost use Rattle.std.specs.Prelude.{◌≡◌, IfOk, codes, option_map};
ghost use Rattle.headers.{specs.LineMap.lines_at, specs.Lines.lines_of};
ghost use Rattle.c_resource.{specs.Lists.filled_at, specs.MethodRules.{AreRulesRead, IsRuleAnswer, IsRulesAnswer}};
ghost use Rattle.c_resource.specs.MethodRules.{lines_by, option_lines};

use crate::lists::{filled_at, is_named, read_list};
use crate::resource::ResourceParts;
use c_decisions::{read_method, values_of};
use c_parts::Failure;
use decide_resource::MethodRule;
use headers::{Encoded, HeaderMap, HeaderValue, set_all};
use http_header::{ACCEPT, ACCEPT_ENCODING};
use std::alloc::{AllocError, Global};

// What is said of the methods beside their names.
#[derive(Drop)]
struct RuleLists {
    creating: Vec<HeaderValue>,
    guarded: Vec<HeaderValue>,
    accept: Vec<HeaderValue>,
    accept_encoding: Vec<HeaderValue>,
}

fn copied(alloc: Global, line: Option<&HeaderValue>) -> Result<Vec<HeaderValue>, AllocError>
    ensures { IfOk result (λ lines. lines_of lines.items ≡ option_lines (option_map (λ it. it.now.bytes) line.entry)) }
{
    let mut lines = Vec::new(alloc);
    if let Some(line) = line {
        lines.push(line.clone()?)?;
    }
    Ok(lines)
}

// What content a method takes, by a line of each field.
fn takes_of(
    alloc: Global,
    accept: Option<&HeaderValue>,
    accept_encoding: Option<&HeaderValue>,
) -> Result<HeaderMap, AllocError>
    ensures accept { IfOk result (λ takes. lines_at takes (codes "accept")
        ≡ option_lines (option_map (λ it. it.now.bytes) accept.entry)) }
    ensures accept_encoding { IfOk result (λ takes. lines_at takes (codes "accept-encoding")
        ≡ option_lines (option_map (λ it. it.now.bytes) accept_encoding.entry)) }
{
    let types = Encoded {
        name: ACCEPT,
        lines: copied(alloc, accept)?,
    };
    let codings = Encoded {
        name: ACCEPT_ENCODING,
        lines: copied(alloc, accept_encoding)?,
    };
    let mut takes = HeaderMap::new(alloc);
    match set_all(&mut takes, vec![in alloc; types, codings]?) {
        Ok(()) => Ok(takes),
        Err(_) => Err(AllocError),
    }
}

// The rule of the method at a place.
fn rule_at(
    alloc: Global,
    lists: &RuleLists,
    place: usize,
    line: &HeaderValue,
) -> Result<MethodRule, Failure>
    ensures { IsRuleAnswer (lines_by lists.now) place line.now.bytes result }
{
    let method = read_method(alloc, line.as_bytes())?;
    let accept = filled_at(&lists.accept, place);
    let accept_encoding = filled_at(&lists.accept_encoding, place);
    let takes = takes_of(alloc, accept, accept_encoding)?;
    Ok(MethodRule {
        method,
        takes,
        creates: is_named(&lists.creating, line),
        needs_condition: is_named(&lists.guarded, line),
        takes_parts: false,
    })
}

// The rule of each method.
fn rules_by(
    alloc: Global,
    methods: &[HeaderValue],
    lists: &RuleLists,
) -> Result<Vec<MethodRule>, Failure>
    ensures { AreRulesRead (lines_of methods.now) (lines_by lists.now) result }
{
    let mut rules = Vec::new(alloc);
    for (place, method) in methods.iter().enumerate() {
        rules.push(rule_at(alloc, lists, place, method)?)?;
    }
    Ok(rules)
}

/// The rules of the methods that are said. Rejected if a method is no token, a line can't be a field
/// line, or more lines say what content is taken than there are methods.
pub(crate) fn read_rules(
    alloc: Global,
    parts: &ResourceParts<'_>,
) -> Result<Vec<MethodRule>, Failure>
    ensures { IsRulesAnswer parts.entry.now result }
{
    let methods = values_of(alloc, parts.methods)?;
    let lists = RuleLists {
        creating: values_of(alloc, parts.creating)?,
        guarded: values_of(alloc, parts.guarded)?,
        accept: read_list(alloc, parts.accept, methods.len())?,
        accept_encoding: read_list(alloc, parts.accept_encoding, methods.len())?,
    };
    rules_by(alloc, &methods, &lists)
}
