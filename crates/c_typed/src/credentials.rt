//! Credentials of `authorization` and of `proxy-authorization`.
ghost use Rattle.std.specs.Prelude.{IfOk};
ghost use Rattle.c_typed.specs.Credentials.{ShowsToken, ShowsUserPassword, basic_reads, bearer_reads};
ghost use Rattle.c_typed.specs.Shown.{FieldShows};

use c_parts::{Failure, read_field};
use headers::Authorization;
use headers::authorization::{Basic, Bearer};
use std::alloc::{AllocError, Global};

/// A user name and, right after it, a password.
#[derive(Drop)]
pub struct UserPassword {
    /// The number of bytes of the user name.
    pub user_length: usize,
    /// Both texts, without a colon between them.
    pub text: Vec<u8>,
}

/// Decodes the field lines of `authorization` or `proxy-authorization` to Basic credentials (RFC
/// 7617, section 2).
pub fn read_user_password(alloc: Global, lines: &[u8]) -> Result<UserPassword, Failure>
    ensures { FieldShows basic_reads ShowsUserPassword lines.now result }
{
    match read_field::<Authorization<Basic>>(alloc, lines) {
        Ok(credentials) => match user_password(alloc, &credentials) {
            Ok(shown) => Ok(shown),
            Err(_) => Err(Failure::Memory),
        },
        Err(failure) => Err(failure),
    }
}

fn user_password(
    alloc: Global,
    credentials: &Authorization<Basic>,
) -> Result<UserPassword, AllocError>
    ensures { IfOk result (ShowsUserPassword credentials.now) }
{
    let user = credentials.username();
    let mut text = Vec::from_slice(alloc, user.as_bytes())?;
    text.extend_from_slice(credentials.password().as_bytes())?;
    Ok(UserPassword {
        user_length: user.len(),
        text,
    })
}

/// Decodes the field lines of `authorization` or `proxy-authorization` to a bearer token (RFC 6750,
/// section 2.1).
pub fn read_token(alloc: Global, lines: &[u8]) -> Result<Vec<u8>, Failure>
    ensures { FieldShows bearer_reads ShowsToken lines.now result }
{
    match read_field::<Authorization<Bearer>>(alloc, lines) {
        Ok(credentials) => match Vec::from_slice(alloc, credentials.token().as_bytes()) {
            Ok(token) => Ok(token),
            Err(_) => Err(Failure::Memory),
        },
        Err(failure) => Err(failure),
    }
}
