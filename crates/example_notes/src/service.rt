//! Answers requests for notes.
ghost use Rattle.std.specs.Prelude.{◌≡◌, [], ◌++◌, IfOk, OnOk, map, option_copied};
ghost use Rattle.http.specs.Request.{body_of, head_of};
ghost use Rattle.http_header.specs.HeaderMap.{pairs};
ghost use Rattle.http_server.specs.Response.{fields};
ghost use Rattle.headers.specs.LineMap.{fields_of};
ghost use Rattle.decide_resource.specs.Requests.{request_of};
ghost use Rattle.example_notes.specs.Plans.{Carries, Does, IsAnswerAt, IsAnswerBy, IsAsked, IsText, date_fields};
ghost use Rattle.example_notes.specs.Plans.{pieces_of};

use crate::clock::OptionalClock;
use crate::notes::{Note, Notes};
use crate::perform::{Done, only, perform};
use crate::resource::{collection, note, server};
use crate::target::{RouteTarget, Target, router, target_of};
use crate::text::list_text;
use bytes::Bytes;
use decide_preconditions::Plan as Planned;
use decide_resource::{Answer, RequestContent, Resource, ResourceRequest, Sends, answer_request};
use decide_routes::{Routes, nowhere, server_wide};
use gateway_messages::Protocol;
use headers::{Date, Encoded, HeaderMap, encoding, set_all};
use http::{Request, Version};
use server_connection::{Handler, Piece, ResponsePlan};
use std::alloc::{AllocError, Global};
use std::collections::BTreeMap;
use std::io;

/// A service that answers requests for notes.
#[derive(Drop)]
pub struct Service<'a> {
    alloc: Global,
    routes: Routes<RouteTarget>,
    notes: Notes,
    clock: OptionalClock<'a>,
}

/// Makes a service without notes, whose changes are of this series. Fails only if an allocation
/// fails.
pub fn new_service(
    alloc: Global,
    series: u64,
    clock: OptionalClock<'_>,
) -> Result<Service<'_>, AllocError> {
    let Ok(router) = router(alloc) else {
        return Err(AllocError);
    };
    let nowhere = nowhere(alloc, server(alloc)?)?;
    let server_wide = server_wide(alloc, server(alloc)?)?;
    let notes = Notes {
        by_id: BTreeMap::new(alloc),
        changes: 0,
        series,
    };
    Ok(Service {
        alloc,
        routes: Routes {
            router,
            nowhere,
            server_wide,
        },
        notes,
        clock,
    })
}

// What a decision reads of a request.
fn asked(request: &Request<Bytes>) -> ResourceRequest<'_>
    ensures { IsAsked request.now (request_of result) }
{
    let protocol = if request.version() == Version::HTTP_10 {
        Protocol::Http10
    } else {
        Protocol::Http11
    };
    let authority = None;
    ResourceRequest {
        protocol,
        method: request.method(),
        authority,
        content: RequestContent::Sized(request.body().len() as u64),
        fields: request.headers(),
        denied: None,
    }
}

// The answer of a resource to a request.
fn answer_by(
    alloc: Global,
    resource: &Resource,
    request: &Request<Bytes>,
) -> Result<Answer, AllocError>
    ensures { IfOk result (IsAnswerBy resource.now request.now) }
{
    let head = asked(request);
    answer_request(alloc, resource, &head, 0)
}

impl Service<'_> {
    // The current text of a target, if it has one.
    fn text_at(&self, target: Target) -> Result<Option<Note>, AllocError>
        ensures { IfOk result (IsText self.now.notes target) }
    {
        match target {
            Target::Notes => Ok(Some(Note {
                text: Bytes::from_string(list_text(self.alloc, &self.notes)?)?,
                version: self.notes.changes,
                series: self.notes.series,
            })),
            Target::Note(id) => self.notes.get(id),
            Target::Nowhere | Target::Server => Ok(None),
        }
    }

    // The answer to a request for a target with this text.
    fn answer(
        &self,
        target: Target,
        text: Option<&Note>,
        request: &Request<Bytes>,
    ) -> Result<Answer, AllocError>
        ensures { IfOk result (IsAnswerAt self.now.routes.nowhere self.now.routes.server_wide target
            (option_copied text.entry) request.now) }
    {
        let alloc = self.alloc;
        match target {
            Target::Notes => {
                let resource = collection(alloc, text)?;
                let answer = answer_by(alloc, &resource, request)?;
                Ok(answer)
            }
            Target::Note(_) => {
                let resource = note(alloc, text)?;
                let answer = answer_by(alloc, &resource, request)?;
                Ok(answer)
            }
            Target::Nowhere => {
                let answer = answer_by(alloc, &self.routes.nowhere, request)?;
                Ok(answer)
            }
            Target::Server => {
                let answer = answer_by(alloc, &self.routes.server_wide, request)?;
                Ok(answer)
            }
        }
    }
}

// Performs the method if the answer has no status.
fn outcome(
    alloc: Global,
    notes: &mut Notes,
    answer: &Answer,
    target: Target,
    request: &Request<Bytes>,
) -> Result<Done, AllocError>
    ensures { IfOk result (Does answer.now.status notes.old (head_of request.now).method target
        (body_of request.now) notes.new) }
{
    match answer.status {
        Some(status) => Ok(only(alloc, status)),
        None => perform(alloc, notes, request.method(), target, request.body()),
    }
}

// These fields after the one that says when the response is made, if the time is known.
fn dated(
    alloc: Global,
    date: &Option<Date>,
    mut fields: Vec<Encoded>,
) -> Result<Vec<Encoded>, AllocError>
    ensures { IfOk result (λ sent. fields_of sent.items ≡ date_fields date.now ++ fields_of fields.items) }
{
    let Some(date) = date else {
        return Ok(fields);
    };
    let mut sent = vec![in alloc; encoding(alloc, date)?]?;
    sent.append(&mut fields)?;
    Ok(sent)
}

// Adds the field lines of a map.
fn add_lines(plan: &mut ResponsePlan, lines: &HeaderMap) -> Result<(), AllocError>
    requires { fields plan.old.headers.items ≡ [] }
    ensures headers { OnOk result
        (fields plan.new.headers.items ≡ map (λ p. (p.0, p.1.bytes)) (pairs lines.now)) }
    ensures status { plan.new.status ≡ plan.old.status }
    ensures pieces { plan.new.pieces.items ≡ plan.old.pieces.items }
{
    for (name, line) in lines {
        plan.add_header(name.clone()?, line.clone()?)?;
    }
    Ok(())
}

// Adds the field lines of fields that are set in their order.
fn add_fields(alloc: Global, plan: &mut ResponsePlan, sent: Vec<Encoded>) -> Result<(), AllocError>
    requires { fields plan.old.headers.items ≡ [] }
    ensures headers { OnOk result (Carries (fields_of sent.items) plan.new) }
    ensures status { plan.new.status ≡ plan.old.status }
    ensures pieces { plan.new.pieces.items ≡ plan.old.pieces.items }
{
    let mut lines = HeaderMap::new(alloc);
    match set_all(&mut lines, sent) {
        Ok(()) => add_lines(plan, &lines),
        Err(_) => Err(AllocError),
    }
}

// Adds the text, if the answer sends it whole.
fn add_content(plan: &mut ResponsePlan, sends: &Sends, text: Option<Note>) -> Result<(), AllocError>
    requires { plan.old.pieces.items ≡ [] }
    ensures pieces { OnOk result (plan.new.pieces.items ≡ pieces_of sends.now text) }
    ensures status { plan.new.status ≡ plan.old.status }
    ensures headers { plan.new.headers ≡ plan.old.headers }
{
    match (sends, text) {
        (Sends::Planned(_, Planned::Full), Some(note)) => plan.push(Piece::Literal(note.text)),
        _ => Ok(()),
    }
}

impl Handler for Service<'_> {
    ghost use Rattle.std.specs.Prelude.{⊤};
    ghost use Rattle.example_notes.specs.Plans.{IsPlanned};

    ghost plans = { IsPlanned };

    ghost gives = { λ _ _ _. ⊤ };

    fn plan(
        &mut self,
        request: &Request<Bytes>,
        plan: &mut ResponsePlan,
    ) -> Result<(), AllocError> {
        let alloc = self.alloc;
        let target = target_of(&self.routes.router, request.uri().path());
        let text = self.text_at(target)?;
        let mut answer = self.answer(target, text.as_ref(), request)?;
        let mut done = outcome(alloc, &mut self.notes, &answer, target, request)?;
        plan.status = done.status;
        answer.fields.append(&mut done.fields)?;
        add_content(plan, &answer.sends, text)?;
        let date = self.clock.now();
        let sent = dated(alloc, &date, answer.fields)?;
        add_fields(alloc, plan, sent)?;
        Ok(())
    }

    // Nothing is open: each piece is literal.
    fn read(&self, _: u64, _: &mut [u8]) -> io::Result<usize> {
        Ok(0)
    }
}
