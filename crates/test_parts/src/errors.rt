//! Texts of errors.
use headers::authorization::InvalidBearerToken;
use headers::{
    Error, InvalidContentRange, InvalidETag, InvalidOrigin, InvalidRange, InvalidReferer,
    InvalidServer, InvalidUserAgent,
};
use std::fmt::{Debug, Display};
use test_rows::{Arguments, CaseAnswer, CaseFailure};

fn text_of<E: Display>(error: &E, answer: &mut CaseAnswer) -> Result<(), CaseFailure> {
    let text = error.to_string(answer.alloc())?;
    Ok(answer.bytes(text.as_bytes())?)
}

// Whatever width and precision are asked for, and by its name.
fn texts_of<E: Debug + Display>(error: &E, answer: &mut CaseAnswer) -> Result<(), CaseFailure> {
    text_of(error, answer)?;
    let padded = format!(in answer.alloc(); "{error:>40.3}")?;
    answer.bytes(padded.as_bytes())?;
    let name = format!(in answer.alloc(); "{error:?}")?;
    Ok(answer.bytes(name.as_bytes())?)
}

/// Adds the text of an error by its name.
pub fn display(arguments: &mut Arguments<'_>, answer: &mut CaseAnswer) -> Result<(), CaseFailure> {
    match arguments.word()? {
        "Error" => text_of(&Error::invalid(), answer),
        "InvalidETag" => text_of(&InvalidETag, answer),
        "InvalidRange" => text_of(&InvalidRange, answer),
        "InvalidContentRange" => text_of(&InvalidContentRange, answer),
        "InvalidOrigin" => text_of(&InvalidOrigin, answer),
        "InvalidBearerToken" => text_of(&InvalidBearerToken, answer),
        "InvalidReferer" => text_of(&InvalidReferer, answer),
        "InvalidServer" => text_of(&InvalidServer, answer),
        "InvalidUserAgent" => text_of(&InvalidUserAgent, answer),
        _ => Err(CaseFailure::NoCall),
    }
}

/// Adds the text of an error by its name: as it is, under `{:>40.3}`, and under `{:?}`.
pub fn formats(arguments: &mut Arguments<'_>, answer: &mut CaseAnswer) -> Result<(), CaseFailure> {
    match arguments.word()? {
        "InvalidETag" => texts_of(&InvalidETag, answer),
        "InvalidRange" => texts_of(&InvalidRange, answer),
        "InvalidContentRange" => texts_of(&InvalidContentRange, answer),
        "InvalidOrigin" => texts_of(&InvalidOrigin, answer),
        "InvalidBearerToken" => texts_of(&InvalidBearerToken, answer),
        "InvalidReferer" => texts_of(&InvalidReferer, answer),
        "InvalidServer" => texts_of(&InvalidServer, answer),
        "InvalidUserAgent" => texts_of(&InvalidUserAgent, answer),
        _ => Err(CaseFailure::NoCall),
    }
}
