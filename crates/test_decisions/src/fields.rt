//! Calls of the grammars of RFC 9110.
use headers::HeaderMap;
use http_header::CACHE_CONTROL;
use rfc_fields::{
    Directive, FieldMembers, Malformed, Members, Parameterized, Value, are_tokens, contains_token,
    delta_seconds, find_directive, is_clear_of, number, read_directive, read_value, skip_comment,
    weight,
};
use std::alloc::AllocError;
use test_rows::{Arguments, Calls, CaseAnswer, CaseFailure};

/// The calls of the grammars.
pub struct FieldCases;

// All words that are left, as the lines of a field, whichever it is.
fn read_field(arguments: &mut Arguments<'_>) -> Result<HeaderMap, CaseFailure> {
    let mut map = HeaderMap::new(arguments.alloc());
    for line in arguments.lines()? {
        map.append(CACHE_CONTROL, line)?;
    }
    Ok(map)
}

fn add_value(value: &Value<'_>, answer: &mut CaseAnswer) -> Result<(), AllocError> {
    answer.word(match value {
        Value::Token(_) => "token",
        Value::Quoted(_) => "quoted",
    })?;
    let octets: Vec<u8> = value.octets().collect(answer.alloc())?;
    answer.bytes(&octets)
}

fn add_directive(
    directive: Result<Option<Directive<'_>>, Malformed>,
    answer: &mut CaseAnswer,
) -> Result<(), CaseFailure> {
    match directive {
        Ok(Some(directive)) => {
            answer.bytes(directive.name)?;
            if let Some(value) = directive.argument {
                add_value(&value, answer)?;
            }
        }
        Ok(None) => answer.none()?,
        Err(Malformed) => answer.word("(malformed)")?,
    }
    Ok(())
}

fn add_member(
    member: Result<&[u8], Malformed>,
    answer: &mut CaseAnswer,
) -> Result<(), CaseFailure> {
    match member {
        Ok(text) => Ok(answer.bytes(text)?),
        Err(Malformed) => Ok(answer.word("(malformed)")?),
    }
}

fn add_members(members: Members<'_>, answer: &mut CaseAnswer) -> Result<(), CaseFailure> {
    for member in members {
        add_member(member, answer)?;
    }
    add_none(answer)
}

// An answer that is empty so far is none.
fn add_none(answer: &mut CaseAnswer) -> Result<(), CaseFailure> {
    if answer.as_str().is_empty() {
        answer.none()?;
    }
    Ok(())
}

// Calls with a field: LINE .., after a name or a token.
fn make_field_call(
    name: &str,
    arguments: &mut Arguments<'_>,
    answer: &mut CaseAnswer,
) -> Result<(), CaseFailure> {
    let word = match name {
        "field" | "tokens" => Vec::new(arguments.alloc()),
        _ => arguments.bytes()?,
    };
    let map = read_field(arguments)?;
    let lines = map.get_all(CACHE_CONTROL);
    match name {
        // the members of the field
        "field" => {
            for member in FieldMembers::new(&lines) {
                add_member(member, answer)?;
            }
            add_none(answer)
        }
        // the first directive of the name
        "find" => add_directive(find_directive(&lines, &word), answer),
        // whether the field surely lacks the directive of the name
        "clear" => Ok(answer.word(is_clear_of(&lines, &word))?),
        // whether each member is a token
        "tokens" => Ok(answer.word(are_tokens(&lines))?),
        // whether some member is the token
        _ => Ok(answer.word(contains_token(&lines, &word))?),
    }
}

// ELEMENT: its value and its parameters.
fn add_parts(element: &[u8], answer: &mut CaseAnswer) -> Result<(), CaseFailure> {
    match Parameterized::read(element) {
        Ok(parts) => {
            answer.bytes(parts.value)?;
            add_members(parts.parameters, answer)
        }
        Err(Malformed) => Ok(answer.word("(malformed)")?),
    }
}

// VALUE VALUE: whether both mean the same octets.
fn add_equal(one: &[u8], other: &[u8], answer: &mut CaseAnswer) -> Result<(), CaseFailure> {
    match (read_value(one), read_value(other)) {
        (Ok(one), Ok(other)) => Ok(answer.word(one.same_octets(&other))?),
        _ => Ok(answer.word("(malformed)")?),
    }
}

// Calls with a text.
fn make_text_call(
    name: &str,
    text: &[u8],
    arguments: &mut Arguments<'_>,
    answer: &mut CaseAnswer,
) -> Result<(), CaseFailure> {
    match name {
        // the members of a field line, and of one of entity tags
        "members" => add_members(Members::new(text), answer),
        "tags" => add_members(Members::of_tags(text), answer),
        // the directive that it is
        "directive" => add_directive(read_directive(text).map(|it| Some(it)), answer),
        "parameters" => add_parts(text, answer),
        "equal" => add_equal(text, &arguments.bytes()?, answer),
        // the number, the delta-seconds, and the weight in thousandths that it is
        "number" => Ok(answer.option(number(text))?),
        "seconds" => Ok(answer.option(delta_seconds(text))?),
        "weight" => Ok(answer.option(weight(text))?),
        // what follows the comment that it begins with
        "comment" => add_member(skip_comment(text), answer),
        _ => Err(CaseFailure::NoCall),
    }
}

impl Calls for FieldCases {
    fn make(
        name: &str,
        arguments: &mut Arguments<'_>,
        answer: &mut CaseAnswer,
    ) -> Result<(), CaseFailure> {
        match name {
            "field" | "find" | "clear" | "tokens" | "contains" => {
                make_field_call(name, arguments, answer)
            }
            _ => {
                let text = arguments.bytes()?;
                make_text_call(name, &text, arguments, answer)
            }
        }
    }
}
