//! Calls of the headers of credentials, also of a scheme of a user's own.
use crate::Http;
use crate::own::Pin;
use headers::authorization::{Authorization, Basic, Bearer, Credentials, ProxyAuthorization};
use test_each::{Getters, add_written, show_back, show_made};
use test_rows::{Arguments, CaseAnswer, CaseFailure};

/// `Authorization` of Basic.
pub type AuthorizationBasic = Authorization<Basic>;
/// `Authorization` of Bearer.
pub type AuthorizationBearer = Authorization<Bearer>;
/// `Proxy-Authorization` of Basic.
pub type ProxyAuthorizationBasic = ProxyAuthorization<Basic>;
/// `Proxy-Authorization` of Bearer.
pub type ProxyAuthorizationBearer = ProxyAuthorization<Bearer>;

impl Getters<Http> for Authorization<Basic> {
    fn getters(&self, answer: &mut CaseAnswer) -> Result<Authorization<Basic>, CaseFailure> {
        answer.bytes(self.username().as_bytes())?;
        answer.bytes(self.password().as_bytes())?;
        Ok(self.clone(answer.alloc())?)
    }
}

impl Getters<Http> for Authorization<Bearer> {
    fn getters(&self, answer: &mut CaseAnswer) -> Result<Authorization<Bearer>, CaseFailure> {
        answer.bytes(self.token().as_bytes())?;
        Ok(self.clone(answer.alloc())?)
    }
}

impl Getters<Http> for ProxyAuthorization<Basic> {
    fn getters(&self, answer: &mut CaseAnswer) -> Result<ProxyAuthorization<Basic>, CaseFailure> {
        answer.bytes(self.0.username().as_bytes())?;
        answer.bytes(self.0.password().as_bytes())?;
        Ok(self.clone(answer.alloc())?)
    }
}

impl Getters<Http> for ProxyAuthorization<Bearer> {
    fn getters(&self, answer: &mut CaseAnswer) -> Result<ProxyAuthorization<Bearer>, CaseFailure> {
        answer.bytes(self.0.token().as_bytes())?;
        Ok(self.clone(answer.alloc())?)
    }
}

// The credentials of Basic with the next two words as user and password.
fn read_basic(arguments: &mut Arguments<'_>) -> Result<Authorization<Basic>, CaseFailure> {
    let user = arguments.text()?;
    let password = arguments.text()?;
    Ok(Authorization::basic(arguments.alloc(), user.as_str(), password.as_str())?)
}

/// Adds the answer of a call of these headers of its own. `AuthorizationPin` and `ProxyAuthorizationPin` are of a
/// scheme of a user's own.
pub fn call_authorization(
    name: &str,
    arguments: &mut Arguments<'_>,
    answer: &mut CaseAnswer,
) -> Result<(), CaseFailure> {
    let alloc = arguments.alloc();
    match name {
        "Authorization.basic" => show_back(&read_basic(arguments)?, answer),
        "Authorization.bearer" => {
            show_back(&Authorization::bearer(alloc, &arguments.text()?)?, answer)
        }
        "AuthorizationBasic.scheme" => Ok(answer.word(Basic::SCHEME)?),
        "AuthorizationBearer.scheme" => Ok(answer.word(Bearer::SCHEME)?),
        "ProxyAuthorizationBasic.from" => {
            show_made(ProxyAuthorization(read_basic(arguments)?.0), answer)
        }
        "AuthorizationPin.writes" => {
            let header: Authorization<Pin> = arguments.header_of_rest()?;
            Ok(add_written(&header, answer)?)
        }
        "ProxyAuthorizationPin.writes" => {
            let header: ProxyAuthorization<Pin> = arguments.header_of_rest()?;
            Ok(add_written(&header, answer)?)
        }
        _ => Err(CaseFailure::NoCall),
    }
}
