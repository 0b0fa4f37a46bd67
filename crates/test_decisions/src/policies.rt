//! Single decisions of the cache policy, and dates.
use crate::store::kind;
use cache_policy::{Freshness, RequestHead, StoredHeads, date_field, decide_by, freshening_fields};
use headers::{HeaderMap, set_all};
use http::Method;
use http_header::AGE;
use rfc_values::{ItemValue, Timestamp, read_date, read_entry};
use test_rows::{Arguments, Calls, CaseAnswer, CaseFailure};

// Date is the time at which a 304 came, and Age is removed.
fn age_anew(stored: &mut HeaderMap, second: u64, answer: &CaseAnswer) -> Result<(), CaseFailure> {
    let date = date_field(answer.alloc(), second)?;
    set_all(stored, vec![in answer.alloc(); date]?).map_err(|_| CaseFailure::Memory)?;
    stored.remove(AGE);
    Ok(())
}

// STORED UPDATE: the stored fields after the update, if it is about them. If it came at a second, they are aged anew.
fn call_freshening(
    second: Option<u64>,
    arguments: &mut Arguments<'_>,
    answer: &mut CaseAnswer,
) -> Result<(), CaseFailure> {
    let (mut stored, update) = (arguments.map()?, arguments.map()?);
    let Some(fields) = freshening_fields(arguments.alloc(), &stored, &update)? else {
        return Ok(answer.word("not_updated")?);
    };
    if let Some(second) = second {
        age_anew(&mut stored, second, answer)?;
    }
    set_all(&mut stored, fields).map_err(|_| CaseFailure::Memory)?;
    answer.map(&stored)
}

// KIND LIFETIME AGE REQUEST RESPONSE: what is done with the GET, by a response to the same.
fn call_decide_by(
    arguments: &mut Arguments<'_>,
    answer: &mut CaseAnswer,
) -> Result<(), CaseFailure> {
    let kind = kind(arguments)?;
    let freshness = Freshness {
        lifetime: arguments.number()?,
        age: arguments.number()?,
    };
    let (request, response) = (arguments.map()?, arguments.map()?);
    let request = RequestHead {
        method: &Method::GET,
        fields: &request,
    };
    let stored = StoredHeads {
        request,
        response: &response,
    };
    let decision = decide_by(&stored, &request, freshness, kind);
    Ok(answer.word(format_args!("{decision:?}"))?)
}

// Whether each member of a dictionary is well formed.
fn is_dictionary(line: &[u8]) -> bool {
    let mut rest = Some(line);
    for _ in 0..=line.len() {
        let Some(text) = rest else {
            return true;
        };
        let Some(entry) = read_entry(text) else {
            return false;
        };
        rest = entry.next;
    }
    true
}

// LINE: the members of a dictionary, each with its key and its value.
fn call_dictionary(
    arguments: &mut Arguments<'_>,
    answer: &mut CaseAnswer,
) -> Result<(), CaseFailure> {
    let line = arguments.bytes()?;
    if !is_dictionary(&line) {
        return Ok(answer.word("malformed")?);
    }
    let mut rest = Some(line.as_slice());
    for _ in 0..=line.len() {
        let Some(text) = rest else {
            break;
        };
        let Some(entry) = read_entry(text) else {
            break;
        };
        answer.bytes(entry.member.key)?;
        match entry.member.value {
            ItemValue::Integer(digits) => answer.bytes(digits)?,
            ItemValue::Boolean(is) => answer.word(is)?,
            ItemValue::String(inside) => {
                answer.word("(string)")?;
                answer.bytes(inside)?;
            }
            ItemValue::Other => answer.word("(other)")?,
        }
        rest = entry.next;
    }
    Ok(())
}

// The seconds since 1970 of a time that is none before.
fn show_time(time: Option<Timestamp>, answer: &mut CaseAnswer) -> Result<(), CaseFailure> {
    let seconds = time.and_then(|time| time.unix_seconds());
    Ok(answer.option(seconds)?)
}

/// The decisions of the cache policy.
pub struct Policies;

impl Calls for Policies {
    fn make(
        name: &str,
        arguments: &mut Arguments<'_>,
        answer: &mut CaseAnswer,
    ) -> Result<(), CaseFailure> {
        match name {
            "freshening_steps" => call_freshening(None, arguments, answer),
            "freshening_at" => {
                let second = arguments.number()?;
                call_freshening(Some(second), arguments, answer)
            }
            "decide_by" => call_decide_by(arguments, answer),
            "dictionary" => call_dictionary(arguments, answer),
            "from_unix_seconds" => {
                show_time(
                    Some(Timestamp::from_unix_seconds(arguments.number()?)),
                    answer,
                )
            }
            "read_date" => show_time(read_date(&arguments.bytes()?, arguments.number()?), answer),
            _ => Err(CaseFailure::NoCall),
        }
    }
}
