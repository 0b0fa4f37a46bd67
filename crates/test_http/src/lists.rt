//! Calls of the headers that are a list, or a condition on one.
use crate::Http;
use headers::{
    AccessControlAllowHeaders, AccessControlAllowMethods, AccessControlExposeHeaders,
    AccessControlRequestHeaders, Allow, Connection, ContentEncoding, Cookie, HeaderName, Range, Te,
    TransferEncoding, Upgrade, Vary,
};
use headers_names::{ListField, ListHeader, ListItem};
use test_each::{
    Getters, debug_secret, hinted_methods, hinted_names, say, show_made, show_names, show_result,
};
use test_rows::{Arguments, CaseAnswer, CaseFailure};

// Lists of field names or of methods.
impl<N: ListField> Getters<Http> for ListHeader<N> {
    fn getters(&self, answer: &mut CaseAnswer) -> Result<ListHeader<N>, CaseFailure> {
        let mut lines = Vec::new(answer.alloc());
        for item in self.iter(answer.alloc()) {
            lines.push(item?.into_line(answer.alloc())?)?;
        }
        answer.list(lines.as_slice())?;
        Ok(self.clone(answer.alloc())?)
    }
}

impl Getters<Http> for AccessControlAllowHeaders {
    fn getters(&self, answer: &mut CaseAnswer) -> Result<AccessControlAllowHeaders, CaseFailure> {
        show_names(self.iter(answer.alloc()), answer)?;
        Ok(self.clone(answer.alloc())?)
    }
}

impl Getters<Http> for Vary {
    fn getters(&self, answer: &mut CaseAnswer) -> Result<Vary, CaseFailure> {
        answer.word(self.is_any())?;
        let names: Vec<&str> = self.iter_strs().collect(answer.alloc())?;
        answer.list(names.as_slice())?;
        Ok(self.clone(answer.alloc())?)
    }
}

impl Getters<Http> for Connection {
    fn getters(&self, answer: &mut CaseAnswer) -> Result<Connection, CaseFailure> {
        Ok(self.clone(answer.alloc())?)
    }
}

impl Getters<Http> for ContentEncoding {
    fn getters(&self, answer: &mut CaseAnswer) -> Result<ContentEncoding, CaseFailure> {
        Ok(self.clone(answer.alloc())?)
    }
}

impl Getters<Http> for Te {
    fn getters(&self, answer: &mut CaseAnswer) -> Result<Te, CaseFailure> {
        Ok(self.clone(answer.alloc())?)
    }
}

impl Getters<Http> for TransferEncoding {
    fn getters(&self, answer: &mut CaseAnswer) -> Result<TransferEncoding, CaseFailure> {
        answer.word(self.is_chunked())?;
        Ok(self.clone(answer.alloc())?)
    }
}

impl Getters<Http> for Upgrade {
    fn getters(&self, answer: &mut CaseAnswer) -> Result<Upgrade, CaseFailure> {
        Ok(self.clone(answer.alloc())?)
    }
}

/// Adds the header of a list of names or methods: of `from_iter` and `from_hinted_iter`.
pub fn call_from_iter(
    kind: &str,
    word: &str,
    arguments: &mut Arguments<'_>,
    answer: &mut CaseAnswer,
) -> Result<(), CaseFailure> {
    let alloc = arguments.alloc();
    if kind == "Allow" {
        return show_result(
            Allow::from_iter(alloc, hinted_methods(word, arguments)?),
            answer,
        );
    }
    if kind == "AccessControlAllowMethods" {
        let methods = hinted_methods(word, arguments)?;
        return show_result(AccessControlAllowMethods::from_iter(alloc, methods), answer);
    }
    let names = hinted_names(word, arguments)?;
    match kind {
        "AccessControlAllowHeaders" => {
            show_result(AccessControlAllowHeaders::from_iter(alloc, names), answer)
        }
        "AccessControlExposeHeaders" => {
            show_result(AccessControlExposeHeaders::from_iter(alloc, names), answer)
        }
        "AccessControlRequestHeaders" => {
            show_result(AccessControlRequestHeaders::from_iter(alloc, names), answer)
        }
        "Connection" => show_result(Connection::from_iter(alloc, names), answer),
        "Vary" => show_result(Vary::from_iter(alloc, names), answer),
        _ => Err(CaseFailure::NoCall),
    }
}

// Whether the options have this one, which the call takes by reference, and as it is.
fn contains_name(
    name: HeaderName,
    header: &Connection,
    answer: &mut CaseAnswer,
) -> Result<(), CaseFailure> {
    let is_in = header.contains(&name);
    answer.word(is_in)?;
    if header.contains(name) != is_in {
        answer.word("(owned)")?;
    }
    Ok(())
}

/// Adds the answer of a call of a list of its own.
pub fn call_list(
    name: &str,
    arguments: &mut Arguments<'_>,
    answer: &mut CaseAnswer,
) -> Result<(), CaseFailure> {
    let alloc = arguments.alloc();
    match name {
        "Connection.close" => show_made(Connection::close(), answer),
        "Connection.keep_alive" => show_made(Connection::keep_alive(), answer),
        "Connection.upgrade" => show_made(Connection::upgrade(), answer),
        "Connection.contains" => {
            let option = arguments.text()?;
            let header: Connection = arguments.header_of_rest()?;
            say(header.contains(option.as_str()), answer)
        }
        "Connection.contains_name" => {
            let option = arguments.name()?;
            contains_name(option, &arguments.header_of_rest()?, answer)
        }
        "ContentEncoding.gzip" => show_made(ContentEncoding::gzip(), answer),
        "ContentEncoding.brotli" => show_made(ContentEncoding::brotli(), answer),
        "ContentEncoding.zstd" => show_made(ContentEncoding::zstd(), answer),
        "ContentEncoding.contains" => {
            let coding = arguments.text()?;
            let header: ContentEncoding = arguments.header_of_rest()?;
            say(header.contains(coding.as_str()), answer)
        }
        "Te.trailers" => show_made(Te::trailers(), answer),
        "TransferEncoding.chunked" => show_made(TransferEncoding::chunked(), answer),
        "Upgrade.websocket" => show_made(Upgrade::websocket(), answer),
        "Vary.any" => show_made(Vary::any(), answer),
        "Vary.from_name" => show_result(Vary::from_name(alloc, arguments.name()?), answer),
        _ => Err(CaseFailure::NoCall),
    }
}

// Whether each of three calls of `next` gives an item of the header of a line.
macro_rules! nexts {
    ($header:ident.$items:ident($($given:expr),*), $arguments:ident, $answer:ident) => {{
        let header: $header = $arguments.header()?;
        let mut items = header.$items($($given),*);
        $answer.word(items.next().is_some())?;
        $answer.word(items.next().is_some())?;
        say(items.next().is_some(), $answer)
    }};
}

/// Adds the answer of `nexts`: whether each of three calls of `next` gives an item.
pub fn call_nexts(
    kind: &str,
    arguments: &mut Arguments<'_>,
    answer: &mut CaseAnswer,
) -> Result<(), CaseFailure> {
    let alloc = arguments.alloc();
    match kind {
        "Vary" => nexts!(Vary.iter_strs(), arguments, answer),
        "Cookie" => nexts!(Cookie.iter(), arguments, answer),
        "Range" => nexts!(Range.satisfiable_ranges(3), arguments, answer),
        "Allow" => nexts!(Allow.iter(alloc), arguments, answer),
        "AccessControlAllowHeaders" => {
            nexts!(AccessControlAllowHeaders.iter(alloc), arguments, answer)
        }
        "AccessControlExposeHeaders" => {
            nexts!(AccessControlExposeHeaders.iter(alloc), arguments, answer)
        }
        _ => Err(CaseFailure::NoCall),
    }
}
