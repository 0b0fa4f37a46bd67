//! Calls of `Content-Type` and of media types.
use crate::Http;
use headers::{ContentType, Mime};
use test_each::{Getters, say, show_made, show_result, writes};
use test_rows::{Arguments, CaseAnswer, CaseFailure};

impl Getters<Http> for ContentType {
    fn getters(&self, answer: &mut CaseAnswer) -> Result<ContentType, CaseFailure> {
        let alloc = answer.alloc();
        let mime = Mime::from(self.clone(alloc)?);
        answer.bytes(mime.as_str().as_bytes())?;
        let is_displayed = writes(alloc, self, self.to_string(alloc)?.as_str())?;
        answer.word(is_displayed && mime.to_string(alloc)?.as_str() == mime.as_str())?;
        Ok(self.clone(alloc)?)
    }
}

// The media type of the next word.
fn read_mime(arguments: &mut Arguments<'_>) -> Result<Mime, CaseFailure> {
    Ok(Mime::parse(arguments.alloc(), &arguments.text()?)?)
}

// The content types that have names.
fn named_type(name: &str) -> Option<ContentType> {
    Some(match name {
        "json" => ContentType::json(),
        "text" => ContentType::text(),
        "text_utf8" => ContentType::text_utf8(),
        "html" => ContentType::html(),
        "xml" => ContentType::xml(),
        "form_url_encoded" => ContentType::form_url_encoded(),
        "jpeg" => ContentType::jpeg(),
        "png" => ContentType::png(),
        "octet_stream" => ContentType::octet_stream(),
        _ => return None,
    })
}

/// Adds the answer of a call of `Content-Type` of its own.
pub fn call_content(
    word: &str,
    arguments: &mut Arguments<'_>,
    answer: &mut CaseAnswer,
) -> Result<(), CaseFailure> {
    let alloc = arguments.alloc();
    match word {
        "from_str" => show_result(ContentType::from_str(alloc, &arguments.text()?), answer),
        "from_mime" => show_made(ContentType::from(read_mime(arguments)?), answer),
        _ => show_result(named_type(word).ok_or(CaseFailure::NoCall), answer),
    }
}

fn show_mime(mime: &Mime, answer: &mut CaseAnswer) -> Result<(), CaseFailure> {
    answer.bytes(mime.as_str().as_bytes())?;
    Ok(answer.word(mime.to_string(answer.alloc())?.as_str() == mime.as_str())?)
}

// Adds how a media type is printed: plainly, at a width of 12 to the right, and cut to 4 characters.
fn format_mime(arguments: &mut Arguments<'_>, answer: &mut CaseAnswer) -> Result<(), CaseFailure> {
    let alloc = arguments.alloc();
    let mime = read_mime(arguments)?;
    answer.bytes(format!(in alloc; "{mime}")?.as_bytes())?;
    answer.bytes(format!(in alloc; "{mime:>12}")?.as_bytes())?;
    Ok(answer.bytes(format!(in alloc; "{mime:.4}")?.as_bytes())?)
}

// The media types that have names.
fn named(name: &str) -> Option<Mime> {
    Some(match name {
        "APPLICATION_JSON" => Mime::APPLICATION_JSON,
        "TEXT_PLAIN" => Mime::TEXT_PLAIN,
        "TEXT_PLAIN_UTF_8" => Mime::TEXT_PLAIN_UTF_8,
        "TEXT_HTML" => Mime::TEXT_HTML,
        "TEXT_XML" => Mime::TEXT_XML,
        "APPLICATION_WWW_FORM_URLENCODED" => Mime::APPLICATION_WWW_FORM_URLENCODED,
        "IMAGE_JPEG" => Mime::IMAGE_JPEG,
        "IMAGE_PNG" => Mime::IMAGE_PNG,
        "APPLICATION_OCTET_STREAM" => Mime::APPLICATION_OCTET_STREAM,
        _ => return None,
    })
}

// Whether a media type equals a constant, as its copy does.
fn equals(mime: &Mime, other: &Mime, answer: &mut CaseAnswer) -> Result<(), CaseFailure> {
    let is_equal = mime == other;
    if (mime.clone(answer.alloc())? == *other) != is_equal {
        answer.word("(copy)")?;
    }
    say(is_equal, answer)
}

/// Adds the answer of a call of a media type.
pub fn call_mime(
    word: &str,
    arguments: &mut Arguments<'_>,
    answer: &mut CaseAnswer,
) -> Result<(), CaseFailure> {
    match word {
        "equals" => {
            let other = named(arguments.word()?).ok_or(CaseFailure::NoCall)?;
            equals(&read_mime(arguments)?, &other, answer)
        }
        "formats" => format_mime(arguments, answer),
        "parse" => show_mime(&read_mime(arguments)?, answer),
        _ => show_mime(&named(word).ok_or(CaseFailure::NoCall)?, answer),
    }
}
