//! Ranges within limits.
use decide_preconditions::{
    Part, RangeFacts, RangeLimits, RequestHead, Selection, Validators, select,
};
use headers::LastModified;
use http::Method;
use test_rows::{Arguments, Calls, CaseAnswer, CaseFailure};

/// The time of calls: the start of 2026.
const PRESENT: u64 = 1_767_225_600;

fn read_validators(arguments: &mut Arguments<'_>) -> Result<Validators, CaseFailure> {
    let etag = arguments.optional_tag()?;
    let last_modified = arguments.optional_date()?.map(LastModified::from_unix_secs);
    let is_date_strong = match arguments.word()? {
        "strong" => true,
        "weak" => false,
        _ => return Err(CaseFailure::NoCall),
    };
    Ok(Validators {
        etag,
        last_modified,
        is_date_strong,
    })
}

fn read_limits(arguments: &mut Arguments<'_>) -> Result<RangeLimits, CaseFailure> {
    Ok(RangeLimits {
        gap: arguments.number()?,
        head: arguments.number()?,
        parts: arguments.number()?,
    })
}

fn show_selection(selection: &Selection, answer: &mut CaseAnswer) -> Result<(), CaseFailure> {
    match selection {
        Selection::Whole => answer.word("whole")?,
        Selection::Unsatisfiable => answer.word("unsatisfiable")?,
        Selection::Parts(parts) => {
            for Part { first, last } in parts {
                answer.word(format_args!("{first}-{last}"))?;
            }
        }
    }
    Ok(())
}

/// `select_within GAP HEAD PARTS METHOD FIELD.. (/) ETAG SECOND strong|weak LENGTH`.
pub struct WithinLimits;

impl Calls for WithinLimits {
    fn make(
        name: &str,
        arguments: &mut Arguments<'_>,
        answer: &mut CaseAnswer,
    ) -> Result<(), CaseFailure> {
        if name != "select_within" {
            return Err(CaseFailure::NoCall);
        }
        let alloc = arguments.alloc();
        let limits = read_limits(arguments)?;
        let method = Method::from_bytes(alloc, &arguments.bytes()?)?;
        let fields = arguments.map()?;
        let current = read_validators(arguments)?;
        let len = arguments.number()?;
        let request = RequestHead {
            method: &method,
            fields: &fields,
        };
        let facts = RangeFacts {
            present: PRESENT,
            len,
            limits,
        };
        let found = select(alloc, &request, &current, &facts)?;
        show_selection(&found, answer)
    }
}
