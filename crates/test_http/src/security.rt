//! Calls of the security headers, and of those of WebSocket.
use crate::Http;
use headers::{
    ReferrerPolicy, SecWebsocketAccept, SecWebsocketKey, SecWebsocketVersion,
    StrictTransportSecurity,
};
use test_each::{Getters, show, show_made, show_result};
use test_rows::{Arguments, CaseAnswer, CaseFailure};

// The constants, by name.
const POLICIES: [(&str, ReferrerPolicy); 8] = [
    ("NO_REFERRER", ReferrerPolicy::NO_REFERRER),
    (
        "NO_REFERRER_WHEN_DOWNGRADE",
        ReferrerPolicy::NO_REFERRER_WHEN_DOWNGRADE,
    ),
    ("SAME_ORIGIN", ReferrerPolicy::SAME_ORIGIN),
    ("ORIGIN", ReferrerPolicy::ORIGIN),
    (
        "ORIGIN_WHEN_CROSS_ORIGIN",
        ReferrerPolicy::ORIGIN_WHEN_CROSS_ORIGIN,
    ),
    ("UNSAFE_URL", ReferrerPolicy::UNSAFE_URL),
    ("STRICT_ORIGIN", ReferrerPolicy::STRICT_ORIGIN),
    (
        "STRICT_ORIGIN_WHEN_CROSS_ORIGIN",
        ReferrerPolicy::STRICT_ORIGIN_WHEN_CROSS_ORIGIN,
    ),
];

impl Getters<Http> for ReferrerPolicy {
    fn getters(&self, answer: &mut CaseAnswer) -> Result<ReferrerPolicy, CaseFailure> {
        for (name, policy) in POLICIES.iter() {
            if policy == self {
                answer.word(*name)?;
            }
        }
        Ok(self.clone()?)
    }
}

impl Getters<Http> for StrictTransportSecurity {
    fn getters(&self, answer: &mut CaseAnswer) -> Result<StrictTransportSecurity, CaseFailure> {
        answer.word(self.max_age().as_secs())?;
        answer.word(self.include_subdomains())?;
        Ok(self.clone()?)
    }
}

impl Getters<Http> for SecWebsocketKey {
    fn getters(&self, answer: &mut CaseAnswer) -> Result<SecWebsocketKey, CaseFailure> {
        Ok(self.clone(answer.alloc())?)
    }
}

impl Getters<Http> for SecWebsocketAccept {
    fn getters(&self, answer: &mut CaseAnswer) -> Result<SecWebsocketAccept, CaseFailure> {
        Ok(self.clone(answer.alloc())?)
    }
}

impl Getters<Http> for SecWebsocketVersion {
    fn getters(&self, answer: &mut CaseAnswer) -> Result<SecWebsocketVersion, CaseFailure> {
        answer.word(*self == SecWebsocketVersion::V13)?;
        Ok(self.clone()?)
    }
}

// The policy of the constant with this name.
fn show_policy(wanted: &str, answer: &mut CaseAnswer) -> Result<(), CaseFailure> {
    for (name, policy) in POLICIES.iter() {
        if *name == wanted {
            return show(policy, answer);
        }
    }
    Err(CaseFailure::NoCall)
}

fn show_policies(answer: &mut CaseAnswer) -> Result<(), CaseFailure> {
    for policy in ReferrerPolicy::all().iter() {
        policy.getters(answer)?;
    }
    Ok(())
}

// The key of 16 bytes.
fn read_key(arguments: &mut Arguments<'_>) -> Result<SecWebsocketKey, CaseFailure> {
    let bytes = <[u8; 16]>::try_from(arguments.bytes()?.as_slice());
    let bytes = bytes.map_err(|_| CaseFailure::NoCall)?;
    Ok(SecWebsocketKey::from_bytes16(arguments.alloc(), bytes)?)
}

/// Adds the answer of a call of these headers of its own.
pub fn call_security(
    name: &str,
    arguments: &mut Arguments<'_>,
    answer: &mut CaseAnswer,
) -> Result<(), CaseFailure> {
    match name {
        "ReferrerPolicy.all" => show_policies(answer),
        "ReferrerPolicy.const" => show_policy(arguments.word()?, answer),
        "SecWebsocketAccept.from_key" => {
            let key: SecWebsocketKey = arguments.header()?;
            show_result(
                SecWebsocketAccept::from_key(arguments.alloc(), &key),
                answer,
            )
        }
        "SecWebsocketKey.from_bytes16" => show_result(read_key(arguments), answer),
        "SecWebsocketVersion.V13" => show_made(SecWebsocketVersion::V13, answer),
        "StrictTransportSecurity.including_subdomains" => {
            let age = arguments.duration()?;
            show_made(StrictTransportSecurity::including_subdomains(age), answer)
        }
        "StrictTransportSecurity.excluding_subdomains" => {
            let age = arguments.duration()?;
            show_made(StrictTransportSecurity::excluding_subdomains(age), answer)
        }
        _ => Err(CaseFailure::NoCall),
    }
}
