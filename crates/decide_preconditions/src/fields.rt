//! The fields of a response.
ghost use Rattle.std.specs.Prelude.{◌≡◌, ◌++◌, [], IfOk, OnOk, codes, decimal, option_copied};
ghost use Rattle.{http_header.specs.FieldValue.FieldValue, headers.specs.{ContentBytes.content_text, Date.fixdate}};
ghost use Rattle.headers.specs.{LineMap.{field_of, fields_of}, Lines.Line};
ghost use Rattle.decide_preconditions.specs.{Conditions.modified_of, Fields.{etag_of, etag_sent, modified_sent}};
ghost use Rattle.decide_preconditions.specs.Fields.{units_sent, range_sent, length_sent, type_sent, lines_sent};
ghost use Rattle.decide_preconditions.specs.Fields.{fields_sent, IsSized, digests_removed, encoding_removed, is_whole};
ghost use Rattle.decide_preconditions.specs.{Fields.{keeps_encoding, not_after, written}, Contents.is_divisible};

use crate::boundary::Boundary;
use crate::content::{Content, Sending};
use crate::plan::Plan;
use crate::resource::TargetState;
use headers::{
    AcceptRanges, ContentLength, ContentRange, ETag, Encoded, Header, HeaderName, HeaderValue,
    LastModified, encoding,
};
use http_header::{CONTENT_ENCODING, CONTENT_TYPE};
use std::alloc::{AllocError, Global};

// The field of this name without field lines.
fn absent(alloc: Global, name: HeaderName) -> Encoded
    ensures { field_of result ≡ (name, []) }
{
    Encoded {
        name,
        lines: Vec::new(alloc),
    }
}

// The field of a header, which is absent without one.
fn field<H: Header>(alloc: Global, header: Option<&H>) -> Result<Encoded, AllocError>
    ensures { IfOk result (λ field. field_of field ≡ (H.field_name, written H.writes (option_copied header.entry))) }
{
    match header {
        Some(header) => encoding(alloc, header),
        None => Ok(absent(alloc, H::name())),
    }
}

impl Plan {
    /// Returns the fields of a response with this plan (RFC 9110, sections 14.3, 14.4, 15.3.7,
    /// 15.4.5 and 15.5.17). They are ETag, Last-Modified, Accept-Ranges, Content-Range,
    /// Content-Length and Content-Type, and without field lines Content-Encoding, Content-Digest
    /// and Content-MD5 unless they stay. A client that knows the representation
    /// isn't sent its date, its type and its coding again. Last-Modified isn't later than
    /// `sending.present` (section 8.8.2.1).
    pub(crate) fn fields(
        &self,
        alloc: Global,
        is_known: bool,
        resource: &TargetState,
        sending: &Sending<'_>,
    ) -> Result<Vec<Encoded>, AllocError>
        requires { IsSized self.now }
        ensures { IfOk result (λ fields. fields_of fields.items ≡ fields_sent sending.now.present self.now is_known
            resource.now sending.now.content.now sending.now.boundary.now) }
    {
        let Sending {
            present,
            content,
            boundary,
        } = *sending;
        let etag = self.etag(alloc, resource)?;
        let last_modified = self.last_modified(alloc, present, is_known, resource)?;
        let accept_ranges = self.accept_ranges(alloc, content)?;
        let content_range = self.content_range(alloc, content.len)?;
        let content_length = self.content_length(alloc, content.len)?;
        let content_type = self.content_type(alloc, is_known, content, boundary)?;
        let mut fields = vec![in alloc;
            etag,
            last_modified,
            accept_ranges,
            content_range,
            content_length,
            content_type,
        ]?;
        self.push_encoding_removed(alloc, is_known, &mut fields)?;
        fields.append(&mut self.digests_removed(alloc)?)?;
        Ok(fields)
    }

    // Appends Content-Encoding without field lines, unless it stays.
    fn push_encoding_removed(
        &self,
        alloc: Global,
        is_known: bool,
        fields: &mut Vec<Encoded>,
    ) -> Result<(), AllocError>
        ensures { OnOk result (fields_of fields.new.items
            ≡ fields_of fields.old.items ++ encoding_removed self.now is_known) }
    {
        if !self.keeps_encoding(is_known) {
            fields.push(absent(alloc, CONTENT_ENCODING))?;
        }
        Ok(())
    }

    // The digests of the content without field lines, unless they stay.
    fn digests_removed(&self, alloc: Global) -> Result<Vec<Encoded>, AllocError>
        ensures { IfOk result (λ fields. fields_of fields.items ≡ digests_removed self.now) }
    {
        if self.is_whole() {
            return Ok(Vec::new(alloc));
        }
        Ok(vec![in alloc;
            absent(alloc, HeaderName::from_static("content-digest")),
            absent(alloc, HeaderName::from_static("content-md5")),
        ]?)
    }

    // Whether the content is all of the representation.
    fn is_whole(&self) -> bool
        ensures { result ≡ is_whole self.now }
    {
        matches!(self, Plan::Full)
    }

    /// Returns whether Content-Encoding stays as the server set it: in a 200, and in a 206 with one
    /// part unless the client knows the representation (RFC 9110, sections 8.4 and 15.3.7).
    pub fn keeps_encoding(&self, is_known: bool) -> bool
        ensures { result ≡ keeps_encoding self.now is_known }
    {
        match self {
            Plan::Full => true,
            Plan::Single(_) => !is_known,
            Plan::Multiple(_) | Plan::NotModified | Plan::Failed | Plan::Unsatisfiable => false,
        }
    }

    fn etag(&self, alloc: Global, resource: &TargetState) -> Result<Encoded, AllocError>
        ensures { IfOk result (λ field. field_of field ≡ (
          codes "etag",
          lines_sent (λ (tag : FieldValue). tag.bytes) (etag_sent self.now (etag_of resource.now)),
        )) }
    {
        field(alloc, self.etag_sent(resource))
    }

    fn last_modified(
        &self,
        alloc: Global,
        present: u64,
        is_known: bool,
        resource: &TargetState,
    ) -> Result<Encoded, AllocError>
        ensures { IfOk result (λ field. field_of field ≡ (
          codes "last-modified",
          lines_sent fixdate
              (not_after present (modified_sent self.now is_known (etag_of resource.now) (modified_of resource.now))),
        )) }
    {
        let sent = not_after(present, self.modified_sent(is_known, resource));
        field(alloc, sent.as_ref())
    }

    fn accept_ranges(&self, alloc: Global, content: &Content) -> Result<Encoded, AllocError>
        ensures { IfOk result (λ field. field_of field ≡ (
          codes "accept-ranges",
          lines_sent (λ (units : Line). units) (units_sent self.now (is_divisible content.now)),
        )) }
    {
        field(alloc, self.units_sent(content.is_divisible()).as_ref())
    }

    fn content_range(&self, alloc: Global, len: Option<u64>) -> Result<Encoded, AllocError>
        ensures { IfOk result (λ field. field_of field ≡ (
          codes "content-range",
          lines_sent content_text (range_sent self.now len),
        )) }
    {
        field(alloc, self.range_sent(len).as_ref())
    }

    fn content_length(&self, alloc: Global, len: Option<u64>) -> Result<Encoded, AllocError>
        requires { IsSized self.now }
        ensures { IfOk result (λ field. field_of field ≡ (
          codes "content-length",
          lines_sent decimal (length_sent self.now len),
        )) }
    {
        let sent = self.length_sent(len).map(ContentLength);
        field(alloc, sent.as_ref())
    }

    fn content_type(
        &self,
        alloc: Global,
        is_known: bool,
        content: &Content,
        boundary: &Boundary,
    ) -> Result<Encoded, AllocError>
        ensures { IfOk result (λ field. field_of field ≡ (
          codes "content-type",
          lines_sent (λ (line : FieldValue). line.bytes)
              (type_sent self.now is_known content.now.media_type boundary.now),
        )) }
    {
        let Some(line) = self.type_sent(is_known, content, boundary) else {
            return Ok(absent(alloc, CONTENT_TYPE));
        };
        let lines = vec![in alloc; line.clone()?]?;
        Ok(Encoded {
            name: CONTENT_TYPE,
            lines,
        })
    }

    fn etag_sent<'a>(&self, resource: &'a TargetState) -> Option<&'a ETag>
        ensures { option_copied result ≡ etag_sent self.now (etag_of resource.now) }
    {
        match self {
            Plan::Full | Plan::Single(_) | Plan::Multiple(_) | Plan::NotModified => {
                etag_of(resource)
            }
            Plan::Failed | Plan::Unsatisfiable => None,
        }
    }

    fn modified_sent(&self, is_known: bool, resource: &TargetState) -> Option<LastModified>
        ensures { result ≡ modified_sent self.now is_known (etag_of resource.now) (modified_of resource.now) }
    {
        let TargetState::Current(current) = resource else {
            return None;
        };
        match self {
            Plan::Full => current.last_modified,
            Plan::Single(_) | Plan::Multiple(_) if !is_known => current.last_modified,
            Plan::NotModified if current.etag.is_none() => current.last_modified,
            _ => None,
        }
    }

    fn units_sent(&self, divisible: bool) -> Option<AcceptRanges>
        ensures { result ≡ units_sent self.now divisible }
    {
        match self {
            Plan::NotModified | Plan::Failed => None,
            _ if divisible => Some(AcceptRanges::bytes()),
            _ => None,
        }
    }

    fn range_sent(&self, len: Option<u64>) -> Option<ContentRange>
        ensures { result ≡ range_sent self.now len }
    {
        match (self, len) {
            (Plan::Single(part), Some(len)) => Some(part.content_range(len)),
            (Plan::Unsatisfiable, Some(len)) => Some(ContentRange::unsatisfied_bytes(len)),
            _ => None,
        }
    }

    // The bytes of the content, where they are known.
    fn length_sent(&self, len: Option<u64>) -> Option<u64>
        requires { IsSized self.now }
        ensures { result ≡ length_sent self.now len }
    {
        match self {
            Plan::Full => len,
            Plan::Single(part) => Some(part.size()),
            Plan::Failed | Plan::Unsatisfiable => Some(0),
            Plan::Multiple(_) | Plan::NotModified => None,
        }
    }

    fn type_sent<'a>(
        &self,
        is_known: bool,
        content: &'a Content,
        boundary: &'a Boundary,
    ) -> Option<&'a HeaderValue>
        ensures { option_copied result ≡ type_sent self.now is_known content.now.media_type boundary.now }
    {
        match self {
            Plan::Full => content.media_type.as_ref(),
            Plan::Single(_) if !is_known => content.media_type.as_ref(),
            Plan::Multiple(_) => Some(boundary.content_type()),
            _ => None,
        }
    }
}

// The date that is sent of a modification, which isn't later than the response.
fn not_after(present: u64, modified: Option<LastModified>) -> Option<LastModified>
    ensures { result ≡ not_after present modified }
{
    let secs = modified?.unix_secs();
    Some(LastModified::from_unix_secs(present.min(secs)))
}

fn etag_of(resource: &TargetState) -> Option<&ETag>
    ensures { option_copied result ≡ etag_of resource.now }
{
    match resource {
        TargetState::Missing => None,
        TargetState::Current(current) => current.etag.as_ref(),
    }
}
