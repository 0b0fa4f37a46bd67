//! A section that is parsed once: its fields behind a handle.
ghost use Rattle.std.specs.Prelude.{◌≡◌, None, codes};
ghost use Rattle.headers.specs.Lines.{lines_of};
ghost use Rattle.decide_negotiation.{specs.Choice.Chooses, specs.Codings.encoding_quality};
ghost use Rattle.decide_negotiation.{specs.Languages.language_says, specs.MediaRanges.media_type_says};
ghost use Rattle.decide_negotiation.specs.Qualities.{quality_by, quality_in};
ghost use Rattle.c_parts.specs.Endings.{Gives, Writes, done};
ghost use Rattle.c_parts.specs.Written.{lines_text};
ghost use Rattle.c_decisions.specs.Selection.{WritesSelection};
ghost use Rattle.c_handles.{specs.Handles.{OnHeld, Opens, section_in}, specs.Sections.{EvaluatesOf, FindsOf}};
ghost use Rattle.c_handles.specs.Views.{IsSame};
ghost use Rattle.c_handles.specs.Sections.{IsSectionHeld, IsWrittenOf, RespondsOf, SelectsOf, lines_under};
ghost use Rattle.c_library.{specs.CacheStore.Ends, specs.Responses.WritesResponse};

use crate::giving::give;
use crate::response::worse;
use crate::store::ended;
use c_decisions::{BytesRange, ContentParts, ResponseFacts, TargetFacts};
use c_handles::{
    Handle, View, choose, close, evaluate, open_section, respond, select, written_field,
};
use c_parts::{DONE, Failure, HashKeys, copy_into, lines_text};
use decide_negotiation::{Accept, AcceptEncoding, AcceptLanguage};
use std::alloc::Global;

/// Opens a closed handle with the fields of a section. Rejected also if the handle is open.
#[unsafe(no_mangle)]
pub extern "C" fn typed_headers_section_new(
    alloc: Global,
    fields: &mut Handle,
    section: &[u8],
    keys: &HashKeys,
) -> u8
    ensures { Ends (Opens (IsSectionHeld section.now) fields.old.held fields.new.held) result }
{
    ended(open_section(alloc, fields, section, keys))
}

/// Closes the handle of a section, and frees what it has.
#[unsafe(no_mangle)]
pub extern "C" fn typed_headers_section_free(alloc: Global, fields: &mut Handle) -> u8
    ensures { (result ≡ 0) × (fields.new.held ≡ None) }
{
    close(alloc, fields);
    DONE
}

/// Gives the canonical field lines of the header with this name in a section.
#[unsafe(no_mangle)]
pub extern "C" fn typed_headers_section_field(
    alloc: Global,
    fields: &mut View,
    name: &[u8],
    room: &mut [u8],
    written: &mut usize,
) -> u8
    ensures same { IsSame fields.old fields.new }
    ensures lines { Writes (λ lines. lines_text (lines_of lines.items)) (λ _. done)
        (OnHeld (λ held. IsWrittenOf held name.now) (section_in fields.old.held))
        room.old room.new written.old written.new result }
{
    match written_field(alloc, fields, name) {
        Ok(lines) => match lines_text(alloc, lines.as_slice()) {
            Ok(text) => copy_into(text.as_slice(), DONE, room, written),
            Err(_) => Failure::Memory.status(),
        },
        Err(failure) => failure.status(),
    }
}

/// Evaluates the preconditions of a request with these fields (RFC 9110, section 13.2.2): 0 if the
/// method is performed, 304 or 412.
#[unsafe(no_mangle)]
pub extern "C" fn typed_headers_section_evaluate(
    alloc: Global,
    fields: &mut View,
    method: &[u8],
    target: &TargetFacts<'_>,
    answer: &mut u16,
) -> u8
    ensures same { IsSame fields.old fields.new }
    ensures answer { Gives (OnHeld (λ held. EvaluatesOf held method.now target.now) (section_in fields.old.held))
        answer.old answer.new result }
{
    give(evaluate(alloc, fields, method, target), answer)
}

/// Which part of a representation of `length` bytes a request with these fields selects (RFC 9110,
/// sections 13.2.2 and 14.2): all of it (200), ranges of it (206) or none (416).
#[unsafe(no_mangle)]
pub extern "C" fn typed_headers_section_select(
    alloc: Global,
    fields: &mut View,
    method: &[u8],
    target: &TargetFacts<'_>,
    length: u64,
    answer: &mut u16,
    room: &mut [BytesRange],
    written: &mut usize,
) -> u8
    ensures same { IsSame fields.old fields.new }
    ensures selection { WritesSelection
        (OnHeld (λ held. SelectsOf held method.now target.now length) (section_in fields.old.held))
        answer.old answer.new room.old room.new written.old written.new result }
{
    match select(alloc, fields, method, target, length) {
        Ok(selected) => {
            *answer = selected.code;
            copy_into(selected.ranges.as_slice(), DONE, room, written)
        }
        Err(failure) => failure.status(),
    }
}

/// The response to a request with these fields, for a representation (RFC 9110, sections 13.2.2 and
/// 14.2): its status, the parts that it sends, and its field lines.
#[unsafe(no_mangle)]
pub extern "C" fn typed_headers_section_respond(
    alloc: Global,
    fields: &mut View,
    method: &[u8],
    target: &TargetFacts<'_>,
    content: &ContentParts<'_>,
    facts: &mut ResponseFacts,
    parts: &mut [BytesRange],
    parts_written: &mut usize,
    room: &mut [u8],
    written: &mut usize,
) -> u8
    ensures same { IsSame fields.old fields.new }
    ensures response { WritesResponse
        (OnHeld (λ held. RespondsOf held method.now target.now content.now) (section_in fields.old.held))
        facts.old facts.new parts.old parts.new parts_written.old parts_written.new
        room.old room.new written.old written.new result }
{
    match respond(alloc, fields, method, target, content) {
        Ok(responded) => {
            *facts = responded.facts;
            let one = copy_into(responded.parts.as_slice(), DONE, parts, parts_written);
            let other = copy_into(responded.text.as_slice(), DONE, room, written);
            worse(one, other)
        }
        Err(failure) => failure.status(),
    }
}

/// The place of the media type that a request with these fields is served (RFC 9110, section 12.5.1).
#[unsafe(no_mangle)]
pub extern "C" fn typed_headers_section_choose_type(
    alloc: Global,
    fields: &mut View,
    offers: &[u8],
    place: &mut usize,
) -> u8
    ensures same { IsSame fields.old fields.new }
    ensures place { Gives
        (OnHeld (λ held.
        FindsOf (Chooses (quality_in (quality_by media_type_says) (lines_under held (codes "accept")))) offers.now)
        (section_in fields.old.held)) place.old place.new result }
{
    give(choose::<Accept>(alloc, fields, offers), place)
}

/// The place of the content coding that a request with these fields is served (RFC 9110, section
/// 12.5.3).
#[unsafe(no_mangle)]
pub extern "C" fn typed_headers_section_choose_coding(
    alloc: Global,
    fields: &mut View,
    offers: &[u8],
    place: &mut usize,
) -> u8
    ensures same { IsSame fields.old fields.new }
    ensures place { Gives
        (OnHeld (λ held.
        FindsOf (Chooses (quality_in encoding_quality (lines_under held (codes "accept-encoding")))) offers.now)
        (section_in fields.old.held)) place.old place.new result }
{
    give(choose::<AcceptEncoding>(alloc, fields, offers), place)
}

/// The place of the language that a request with these fields is served (RFC 9110, section 12.5.4; RFC
/// 4647, section 3.3.1).
#[unsafe(no_mangle)]
pub extern "C" fn typed_headers_section_choose_language(
    alloc: Global,
    fields: &mut View,
    offers: &[u8],
    place: &mut usize,
) -> u8
    ensures same { IsSame fields.old fields.new }
    ensures place { Gives
        (OnHeld (λ held.
        FindsOf (Chooses (quality_in (quality_by language_says) (lines_under held (codes "accept-language"))))
        offers.now)
        (section_in fields.old.held)) place.old place.new result }
{
    give(choose::<AcceptLanguage>(alloc, fields, offers), place)
}
