//! The calls of test cases on the headers, and on media types.
#![tactic(auto)]

mod authorization;
mod caching;
mod conditional;
mod content;
mod cors;
mod hosts;
pub mod impls;
mod lists;
mod own;
mod ranges;
mod security;
mod texts;
pub mod traits;

use crate::authorization::{
    AuthorizationBasic, AuthorizationBearer, ProxyAuthorizationBasic, ProxyAuthorizationBearer,
    call_authorization,
};
use crate::caching::call_caching;
use crate::conditional::{call_condition, call_conditional};
use crate::content::{call_content, call_mime};
use crate::cors::call_cors;
use crate::hosts::call_host;
use crate::lists::{call_from_iter, call_list, call_nexts};
use crate::own::{FirstCookie, OwnAge, call_own};
use crate::ranges::call_range;
use crate::security::call_security;
use crate::texts::{call_date, call_text};
use headers::*;
use headers_user::MaxForwards;
use test_each::{call, cmp, debug_secret, eq, hash, padded};
use test_rows::{Arguments, Calls, CaseAnswer, CaseFailure};

/// The calls on the headers, and on media types.
pub struct Http;

// Makes a call of the header of the kind.
macro_rules! of_kind {
    ($kind:ident $call:ident $given:tt $($header:ident)+) => {
        match $kind {
            $(stringify!($header) => $call::<$header, Http>$given,)+
            _ => Err(CaseFailure::NoCall),
        }
    };
}

// The calls that every header has.
fn call_header(
    kind: &str,
    word: &str,
    arguments: &mut Arguments<'_>,
    answer: &mut CaseAnswer,
) -> Result<(), CaseFailure> {
    of_kind!(kind call (word, arguments, answer)
        AcceptRanges AccessControlAllowCredentials AccessControlAllowHeaders
        AccessControlAllowMethods AccessControlAllowOrigin AccessControlExposeHeaders
        AccessControlMaxAge AccessControlRequestHeaders AccessControlRequestMethod Age Allow
        AuthorizationBasic AuthorizationBearer CacheControl Connection ContentDisposition
        ContentEncoding ContentLength ContentLocation ContentRange ContentType Cookie Date ETag
        Expect Expires FirstCookie Host IfMatch IfModifiedSince IfNoneMatch IfRange
        IfUnmodifiedSince LastModified Location MaxForwards Origin OwnAge Pragma
        ProxyAuthorizationBasic ProxyAuthorizationBearer Range Referer ReferrerPolicy RetryAfter
        SecWebsocketAccept SecWebsocketKey SecWebsocketVersion Server SetCookie
        StrictTransportSecurity Te TransferEncoding Upgrade UserAgent Vary)
}

// Equality.
fn call_eq(
    kind: &str,
    arguments: &mut Arguments<'_>,
    answer: &mut CaseAnswer,
) -> Result<(), CaseFailure> {
    of_kind!(kind eq (arguments, answer)
        AcceptRanges AccessControlAllowCredentials AccessControlAllowHeaders
        AccessControlAllowMethods AccessControlAllowOrigin AccessControlMaxAge
        AccessControlRequestMethod Age Allow AuthorizationBasic AuthorizationBearer CacheControl
        ContentLength ContentLocation ContentRange ContentType Date ETag Expect Expires Host
        IfMatch IfModifiedSince IfNoneMatch IfRange IfUnmodifiedSince LastModified Location
        MaxForwards Origin Pragma ProxyAuthorizationBasic ProxyAuthorizationBearer Range Referer
        ReferrerPolicy RetryAfter SecWebsocketAccept SecWebsocketKey SecWebsocketVersion Server
        StrictTransportSecurity Te Upgrade UserAgent Vary)
}

// Orders, texts at a width, and for a programmer, and hashes.
fn call_some(
    kind: &str,
    word: &str,
    arguments: &mut Arguments<'_>,
    answer: &mut CaseAnswer,
) -> Result<(), CaseFailure> {
    match word {
        "cmp" => match kind {
            "Age" => cmp::<Age>(arguments, answer),
            "AccessControlMaxAge" => cmp::<AccessControlMaxAge>(arguments, answer),
            "Date" => cmp::<Date>(arguments, answer),
            "Expires" => cmp::<Expires>(arguments, answer),
            "Host" => cmp::<Host>(arguments, answer),
            "IfModifiedSince" => cmp::<IfModifiedSince>(arguments, answer),
            "IfUnmodifiedSince" => cmp::<IfUnmodifiedSince>(arguments, answer),
            "LastModified" => cmp::<LastModified>(arguments, answer),
            "Server" => cmp::<Server>(arguments, answer),
            "UserAgent" => cmp::<UserAgent>(arguments, answer),
            _ => Err(CaseFailure::NoCall),
        },
        "debug_secret" => match kind {
            "Server" => debug_secret::<Server>(arguments, answer),
            "Vary" => debug_secret::<Vary>(arguments, answer),
            _ => Err(CaseFailure::NoCall),
        },
        "padded" => match kind {
            "ContentType" => padded::<ContentType>(arguments, answer),
            "Host" => padded::<Host>(arguments, answer),
            "Origin" => padded::<Origin>(arguments, answer),
            "Server" => padded::<Server>(arguments, answer),
            _ => Err(CaseFailure::NoCall),
        },
        "hash" => match kind {
            "AccessControlAllowOrigin" => hash::<AccessControlAllowOrigin>(arguments, answer),
            "AccessControlRequestMethod" => hash::<AccessControlRequestMethod>(arguments, answer),
            "Date" => hash::<Date>(arguments, answer),
            "Host" => hash::<Host>(arguments, answer),
            "Origin" => hash::<Origin>(arguments, answer),
            "ReferrerPolicy" => hash::<ReferrerPolicy>(arguments, answer),
            "SecWebsocketAccept" => hash::<SecWebsocketAccept>(arguments, answer),
            "SecWebsocketKey" => hash::<SecWebsocketKey>(arguments, answer),
            "Server" => hash::<Server>(arguments, answer),
            _ => Err(CaseFailure::NoCall),
        },
        _ => Err(CaseFailure::NoCall),
    }
}

// The calls of a header of its own, by the subject.
fn call_subject(
    kind: &str,
    name: &str,
    word: &str,
    arguments: &mut Arguments<'_>,
    answer: &mut CaseAnswer,
) -> Result<(), CaseFailure> {
    match kind {
        "Mime" => call_mime(word, arguments, answer),
        "ContentType" => call_content(word, arguments, answer),
        "CacheControl" => call_caching(name, arguments, answer),
        "IfMatch" | "IfNoneMatch" => call_condition(kind, word, arguments, answer),
        "ETag" | "IfRange" => call_conditional(name, arguments, answer),
        "Range" | "ContentRange" => call_range(name, arguments, answer),
        "Cookie" | "Host" | "Origin" => call_host(name, arguments, answer),
        "Connection" | "ContentEncoding" | "Te" | "TransferEncoding" | "Upgrade" | "Vary" => {
            call_list(name, arguments, answer)
        }
        "Date" | "Expires" | "LastModified" | "IfModifiedSince" | "IfUnmodifiedSince" => {
            call_date(name, arguments, answer)
        }
        "MaxForwards" => call_own(name, arguments, answer),
        _ => call_other(name, arguments, answer),
    }
}

fn call_other(
    name: &str,
    arguments: &mut Arguments<'_>,
    answer: &mut CaseAnswer,
) -> Result<(), CaseFailure> {
    if name.contains("Authorization") {
        return call_authorization(name, arguments, answer);
    }
    match call_text(name, arguments, answer) {
        Err(CaseFailure::NoCall) => {}
        made => return made,
    }
    match call_cors(name, arguments, answer) {
        Err(CaseFailure::NoCall) => call_security(name, arguments, answer),
        made => made,
    }
}

// The calls of several headers, and those of one.
fn call_by_word(
    kind: &str,
    name: &str,
    word: &str,
    arguments: &mut Arguments<'_>,
    answer: &mut CaseAnswer,
) -> Result<(), CaseFailure> {
    match word {
        "eq" => call_eq(kind, arguments, answer),
        "cmp" | "debug_secret" | "hash" | "padded" => call_some(kind, word, arguments, answer),
        "from_iter" | "from_hinted_iter" => call_from_iter(kind, word, arguments, answer),
        "nexts" => call_nexts(kind, arguments, answer),
        _ => call_subject(kind, name, word, arguments, answer),
    }
}

impl Calls for Http {
    // A name is a type, a dot and a word.
    fn make(
        name: &str,
        arguments: &mut Arguments<'_>,
        answer: &mut CaseAnswer,
    ) -> Result<(), CaseFailure> {
        let Some((kind, word)) = name.split_once('.') else {
            return Err(CaseFailure::NoCall);
        };
        let left = *arguments;
        match call_header(kind, word, arguments, answer) {
            Err(CaseFailure::NoCall) => {
                *arguments = left;
                call_by_word(kind, name, word, arguments, answer)
            }
            made => made,
        }
    }
}
