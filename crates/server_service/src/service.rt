//! The service: a request is answered from a store.
ghost use Rattle.std.{specs.Prelude.{◌≡◌, true, [], ◌++◌, IfOk, OnOk, take}, specs.Io.ReadsAtMost, specs.List.fold};
ghost use Rattle.std.specs.Option.{unwrap_or};
ghost use Rattle.headers.specs.LineMap.{fields_of as encoded_fields};
ghost use Rattle.server_service.specs.Answer.{Carries, FitsIn, IsDescribed, clock, explained_fields, later, pieces_for};
ghost use Rattle.server_service.{specs.Answer.{pieces_sent, source_sent, status_for, tag_sent}, specs.File.ReadsOf};
ghost use Rattle.server_service.{specs.File.{gives_of, len_of}, specs.Parts.Fits, specs.Response.fields_of};
ghost use Rattle.server_service.specs.Response.{is_bare_tag};

use crate::answer::decide;
use crate::asked::{asked, authority_of};
use crate::cache::put_cache_control;
use crate::date::{KnownDate, date_of, put_date};
use crate::fields::{add_fields, put_closing, put_sniff, trim_values};
use crate::file::File;
use crate::found::{Found, look_up};
use crate::multipart::{extent_of, push_parts};
use crate::page::explain;
use crate::representation::representations_of;
use crate::settings::{Page, Site};
use crate::source::Source;
use crate::store::FileStore;
use crate::whole::{all_sent, carry_whole, whole_file};
use bytes::Bytes;
use decide_preconditions::Plan;
use decide_resource::{Answer, Reason, Resource, Sends, State};
use headers::{Date, Encoded, LastModified};
use http::{Request, StatusCode};
use server_connection::{Handler, OpenRange, Piece, ResponsePlan as Response};
use std::alloc::{AllocError, Global};
use std::io;
use std::mem::replace;

/// Answers requests from a store, as `decide_resource` decides.
#[derive(Drop)]
pub struct FileService<S: FileStore> {
    /// For responses.
    pub alloc: Global,
    /// Where files come from.
    pub store: S,
    /// How they are served.
    pub site: Site,
    /// How many responses are left. The last one says that the connection ends.
    pub left: u64,
    /// What the ranges of the last response are read from, if it has any.
    pub source: Option<Source>,
    /// The date of the last response, if it had one.
    pub date: Option<KnownDate>,
}

// Puts the pieces that a plan sends.
fn put_pieces(
    alloc: Global,
    boundary: &str,
    plan: &Plan,
    file: &File,
    response: &mut Response,
) -> Result<(), AllocError>
    requires blank { response.old.pieces.items ≡ [] }
    requires fits { Fits (len_of file.now.source) plan.now }
    ensures pieces { OnOk result (response.new.pieces.items ≡ pieces_sent boundary.now file.now plan.now) }
    ensures headers { response.new.headers ≡ response.old.headers }
{
    match plan {
        Plan::Full => {
            let len = file.source.len();
            response.push(Piece::Range(OpenRange { start: 0, len }))
        }
        Plan::Single(part) => response.push(Piece::Range(extent_of(file, *part))),
        Plan::Multiple(parts) => push_parts(alloc, boundary, parts.as_slice(), file, response),
        Plan::NotModified | Plan::Failed | Plan::Unsatisfiable => Ok(()),
    }
}

// Puts the pieces that an answer sends.
fn put_content(
    alloc: Global,
    divider: &str,
    pages: &[Page],
    files: &[File],
    status: StatusCode,
    sends: &Sends,
    response: &mut Response,
) -> Result<(), AllocError>
    requires blank { response.old.pieces.items ≡ [] }
    requires fits { FitsIn files.now sends.now }
    ensures pieces { OnOk result
        (response.new.pieces.items ≡ pieces_for divider.now pages.now files.now status sends.now) }
    ensures headers { OnOk result
        (fields_of response.new ≡ fields_of response.old ++ explained_fields status sends.now) }
{
    match sends {
        Sends::Nothing | Sends::Alternatives => explain(alloc, pages, status, response),
        Sends::Planned(Some(place), plan) => match files.get(*place) {
            Some(file) => put_pieces(alloc, divider, plan, file, response),
            None => Ok(()),
        },
        Sends::Planned(None, _) | Sends::Perform => Ok(()),
    }
}

// What the type of its tag says of the file that an answer sends, or sends parts of.
fn show_tag(files: &[File], sends: &Sends)
    ensures { is_bare_tag (tag_sent files.now sends.now) ≡ true }
{
    match sends {
        Sends::Planned(Some(place), _) => match files.get(*place) {
            Some(file) => file.source.show_tag(),
            None => {}
        },
        Sends::Planned(None, _) | Sends::Nothing | Sends::Alternatives | Sends::Perform => {}
    }
}

// The status of an answer, where this is that of what can't be read.
fn status_for(absent: StatusCode, reason: Reason, status: Option<StatusCode>) -> StatusCode
    ensures { result ≡ status_for absent reason status }
{
    match (reason, status) {
        (Reason::NotFound, _) => absent,
        (_, Some(status)) => status,
        (_, None) => StatusCode::OK,
    }
}

// Fills a response with an answer.
fn carry(
    alloc: Global,
    site: &Site,
    files: &[File],
    status: StatusCode,
    sends: &Sends,
    fields: Vec<Encoded>,
    response: &mut Response,
) -> Result<(), AllocError>
    requires blank { response.old.pieces.items ≡ [] }
    requires fits { FitsIn files.now sends.now }
    ensures { OnOk result (Carries (fields_of response.old) site.now files.now status sends.now
        (encoded_fields fields.items) response.new) }
{
    put_cache_control(&site.cache_control, sends, response)?;
    add_fields(response, site.resource.cors.is_some(), fields)?;
    let divider = site.divider.as_str();
    put_content(alloc, divider, &site.pages, files, status, sends, response)?;
    trim_values(alloc, response)?;
    // A proof needs what it says, and that the length is a number of 64 bits.
    show_tag(files, sends);
    let _len = response.len;
    response.status = status;
    Ok(())
}

// The latest date of contents: the start of 1970 if none has one.
fn latest_date(files: &[File]) -> u64
    ensures { result ≡ fold later 0 files.now }
{
    let mut latest = 0;
    for file in files {
        latest = later(latest, file);
    }
    latest
}

// The later of a time and the date of a content, if it has one.
fn later(time: u64, file: &File) -> u64
    ensures { result ≡ later time file.now }
{
    time.max(seconds_or_0(file.modified))
}

fn seconds_or_0(modified: Option<LastModified>) -> u64
    ensures { result ≡ unwrap_or modified 0 }
{
    match modified {
        Some(modified) => modified.unix_secs(),
        None => 0,
    }
}

// The time by which a request for contents is answered: without a clock the latest of their dates.
fn clock(date: &Option<Date>, files: &[File]) -> u64
    ensures { result ≡ clock date.now files.now }
{
    match date {
        Some(date) => date.unix_secs(),
        None => latest_date(files),
    }
}

// What the ranges of a response are read from, if it has any.
fn source_sent(files: Vec<File>, sends: &Sends) -> Option<Source>
    ensures { result ≡ source_sent files.items sends.now }
{
    let mut files = files;
    match sends {
        Sends::Planned(Some(place), _) if *place < files.len() => {
            let File { source, .. } = files.swap_remove(*place);
            Some(source)
        }
        _ => None,
    }
}

// Makes it the resource of what was found.
fn describe(
    alloc: Global,
    resource: &mut Resource,
    present: u64,
    found: &mut Found,
) -> Result<(), AllocError>
    ensures described { OnOk result (IsDescribed present resource.old found.old resource.new) }
    ensures files { found.new.files ≡ found.old.files }
    ensures status { found.new.status ≡ found.old.status }
{
    resource.representations = representations_of(alloc, present, &found.files)?;
    resource.state = replace(&mut found.state, State::Absent);
    Ok(())
}

impl<S: FileStore> Handler for FileService<S> {
    ghost use Rattle.std.specs.Prelude.{◌≡◌, ◌-◌};
    ghost use Rattle.server_service.{specs.Answer.{IsAnswer, IsSameSite}, specs.File.gives_of};

    ghost plans = { λ before request plan after.
        IsAnswer (S.tells before.store) before.left before.site (S.has before.store) request plan after.source
        × IsSameSite before.site after.site × (after.store ≡ before.store) × (after.left ≡ before.left - 1) };

    ghost gives = { λ service. gives_of service.source };

    fn plan(&mut self, request: &Request<Bytes>, plan: &mut Response) -> Result<(), AllocError> {
        let alloc = self.alloc;
        let date = date_of(self.store.now());
        put_date(alloc, &mut self.date, plan, &date)?;
        put_sniff(plan)?;
        put_closing(plan, self.left)?;
        self.left = self.left.saturating_sub(1);
        let negotiates = self.site.resource.negotiation.coding;
        let mut found = look_up(alloc, &self.store, negotiates, request)?;
        let present = clock(&date, &found.files);
        let authority = authority_of(alloc, request)?;
        let head = asked(request, authority.as_ref());
        if let Some(file) = whole_file(&self.site.resource, &head, &found) {
            carry_whole(alloc, &self.site, present, file, plan)?;
            self.store.note(request, plan);
            self.source = source_sent(found.files, &all_sent());
            return Ok(());
        }
        describe(alloc, &mut self.site.resource, present, &mut found)?;
        let Answer {
            reason,
            status,
            sends,
            fields,
        } = decide(
            alloc,
            &self.site.resource,
            &head,
            present,
            &found.files,
            self.site.divider.as_str(),
        )?;
        let status = status_for(found.status, reason, status);
        carry(
            alloc,
            &self.site,
            &found.files,
            status,
            &sends,
            fields,
            plan,
        )?;
        self.store.note(request, plan);
        self.source = source_sent(found.files, &sends);
        Ok(())
    }

    #[tactic(auto, using(crate::proofs::ReadLemmas::reads_at_most, crate::proofs::ReadLemmas::reads_give))]
    fn read(&self, start: u64, buffer: &mut [u8]) -> io::Result<usize>
        ensures bound { ReadsAtMost result buffer.new }
        ensures bytes { IfOk result (λ count. gives_of self.now.source start (take count buffer.new)) }
        ensures exact { ReadsOf self.now.source start buffer.old buffer.new result }
    {
        match &self.source {
            Some(source) => source.read(start, buffer),
            None => Ok(0),
        }
    }

    fn note_rejection(&self, status: StatusCode) {
        self.store.note_rejection(status);
    }
}
