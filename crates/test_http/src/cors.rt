//! Calls of the access control headers.
use crate::Http;
use crate::hosts::show_origin;
use headers::{
    AccessControlAllowCredentials, AccessControlAllowOrigin, AccessControlRequestMethod,
};
use http::Method;
use http::method::MethodError;
use test_each::{Getters, show_made, show_result};
use test_rows::{Arguments, CaseAnswer, CaseFailure};

impl Getters<Http> for AccessControlAllowCredentials {
    fn getters(
        &self,
        answer: &mut CaseAnswer,
    ) -> Result<AccessControlAllowCredentials, CaseFailure> {
        answer.word(*self == AccessControlAllowCredentials)?;
        Ok(self.clone()?)
    }
}

impl Getters<Http> for AccessControlAllowOrigin {
    fn getters(&self, answer: &mut CaseAnswer) -> Result<AccessControlAllowOrigin, CaseFailure> {
        match self.origin() {
            Some(origin) => show_origin(origin, self, answer)?,
            None => answer.none()?,
        }
        Ok(self.clone(answer.alloc())?)
    }
}

impl Getters<Http> for AccessControlRequestMethod {
    fn getters(&self, answer: &mut CaseAnswer) -> Result<AccessControlRequestMethod, CaseFailure> {
        let method = Method::from(self.clone(answer.alloc())?);
        answer.bytes(method.as_str().as_bytes())?;
        Ok(self.clone(answer.alloc())?)
    }
}

// The header of a method.
fn of_method(arguments: &mut Arguments<'_>) -> Result<AccessControlRequestMethod, CaseFailure> {
    match Method::from_bytes(arguments.alloc(), &arguments.bytes()?) {
        Ok(method) => Ok(AccessControlRequestMethod::from(method)),
        Err(MethodError::Invalid) => Err(CaseFailure::Refused),
        Err(MethodError::OutOfMemory) => Err(CaseFailure::Memory),
    }
}

/// Adds the answer of a call of these headers of its own.
pub fn call_cors(
    name: &str,
    arguments: &mut Arguments<'_>,
    answer: &mut CaseAnswer,
) -> Result<(), CaseFailure> {
    let alloc = arguments.alloc();
    match name {
        "AccessControlAllowCredentials.unit" => show_made(AccessControlAllowCredentials, answer),
        "AccessControlAllowOrigin.ANY" => show_made(AccessControlAllowOrigin::ANY, answer),
        "AccessControlAllowOrigin.NULL" => show_made(AccessControlAllowOrigin::NULL, answer),
        "AccessControlAllowOrigin.try_from_str" => {
            let text = arguments.text()?;
            show_result(AccessControlAllowOrigin::try_from_str(alloc, &text), answer)
        }
        "AccessControlRequestMethod.from_method" => show_result(of_method(arguments), answer),
        _ => Err(CaseFailure::NoCall),
    }
}
