//! Members of lists between commas.
ghost use Rattle.std.{specs.Prelude.{◌≡◌, ◌&&◌, IfOk}, specs.List.list_any};
ghost use Rattle.headers.specs.ItemsState.{is_entry};
ghost use Rattle.c_typed.specs.Members.{ShowsMembers, ShowsMembership, is_same, members, reads_list};
ghost use Rattle.c_typed.specs.Shown.{FieldShows};

use c_decisions::flag_of;
use c_parts::{Failure, read_field};
use headers::Vary;
use std::alloc::{AllocError, Global};

/// Returns the members of a list in order, each with a byte 10 after it (RFC 9110, section 5.6.1):
/// the trimmed items between commas that aren't empty, as of `allow`, `connection` and `vary`.
pub fn members_text(alloc: Global, lines: &[u8]) -> Result<Vec<u8>, Failure>
    ensures { FieldShows reads_list ShowsMembers lines.now result }
{
    // Each list between commas decodes as `Vary` does.
    match read_field::<Vary>(alloc, lines) {
        Ok(list) => match text_of(alloc, &list) {
            Ok(text) => Ok(text),
            Err(_) => Err(Failure::Memory),
        },
        Err(failure) => Err(failure),
    }
}

fn text_of(alloc: Global, list: &Vary) -> Result<Vec<u8>, AllocError>
    ensures { IfOk result (ShowsMembers list.now) }
{
    let mut text = Vec::new(alloc);
    for item in list.iter_strs() {
        if !item.is_empty() {
            text.extend_from_slice(item.as_bytes())?;
            text.push(b'\n')?;
        }
    }
    Ok(text)
}

/// Returns whether a list has a member, ignoring the case of ASCII letters if `any_case` says so: 1
/// if it has, else 0. The empty text is no member.
pub fn has_member(alloc: Global, lines: &[u8], member: &[u8], any_case: bool) -> Result<u8, Failure>
    ensures { FieldShows reads_list (ShowsMembership any_case member.now) lines.now result }
{
    match read_field::<Vary>(alloc, lines) {
        Ok(list) => Ok(flag_of(lists(&list, member, any_case))),
        Err(failure) => Err(failure),
    }
}

fn lists(list: &Vary, member: &[u8], any_case: bool) -> bool
    ensures { result ≡ list_any (is_same any_case member.now) (members list.now) }
{
    list.iter_strs()
        .any(|item| is_member(item, member, any_case))
}

// Whether an item is a member, and is the text.
fn is_member(item: &str, text: &[u8], any_case: bool) -> bool
    ensures { result ≡ (is_entry item.now && is_same any_case text.now item.now) }
{
    !item.is_empty() && is_same(item, text, any_case)
}

fn is_same(item: &str, text: &[u8], any_case: bool) -> bool
    ensures { result ≡ is_same any_case text.now item.now }
{
    if any_case {
        item.as_bytes().eq_ignore_ascii_case(text)
    } else {
        item.as_bytes() == text
    }
}
