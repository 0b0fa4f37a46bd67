//! Theorems about the definitions alone. To cite one in a proof, call it.
ghost use Rattle.std.specs.Prelude.{◌≡◌, ◌++◌, ℕ, List, false, true, codes};
ghost use Rattle.http_header.specs.FieldValue.{IsFieldValue};
ghost use Rattle.headers.specs.Lines.{Line};
ghost use Rattle.rfc_fields.specs.Values.{is_value, octets_of};
ghost use Rattle.gateway_hops.{specs.Arrivals.ArrivalParts, specs.Elements.{element_text, value_of}};
ghost use Rattle.gateway_hops.{specs.Fields.forwarded_lines, specs.Last.{EndsWith, IsTold}};
ghost use Rattle.gateway_hops.specs.declared.fields.Forwarding.{Forwarding};
ghost use Rattle.headers.specs.LineMap as Encodings;
ghost use Rattle.headers.specs.LineMap.{LineMap};
ghost use Rattle.gateway_messages.{specs.FieldLines.{Field, fields_of, lines_under}, specs.Recipients.KnowsPlain};
ghost use Rattle.gateway_messages.{specs.Recipients.{Recipient, accepted_by, framing_by}, specs.Requests.Request};
ghost use Rattle.gateway_messages.specs.declared.gateway.Gateway.{Gateway};
ghost use Rattle.gateway_hops.{specs.Replaced.{frame_nothing, has_field, replaced_by}, specs.Sent.{Hop, IsSent}};
ghost use Rattle.gateway_hops.specs.declared.request.SentRequest.{SentRequest};

use gateway_messages::laws::forwarded_request_is_framed_alike;
use rfc_fields::laws::{joined_lines_keep_members, lists_parse_one_way};

/// Theorem: an encoded value is a value by the grammar, and means the octets that were encoded.
pub fn values_read_back()
    ensures valid { (octets : Line) → IsFieldValue octets → is_value (value_of octets) ≡ true }
    ensures octets { (octets : Line) → IsFieldValue octets → octets_of (value_of octets) ≡ octets }
{}

/// Theorem: whatever was received, the gateway's own element is the last member of Forwarded, if
/// the gateway writes that field, and the field may hold the values of the element. This holds also
/// for a recipient that joins the field lines: no received text, such as an open quote, can include
/// it (RFC 7239, section 4).
pub fn own_element_is_last()
    ensures { (forwarding : Forwarding) (arrival : ArrivalParts) (received : List Line)
        → forwarding.writes_forwarded ≡ true → IsTold arrival
        → EndsWith (forwarded_lines forwarding arrival received) (element_text arrival) }
{
    lists_parse_one_way();
    joined_lines_keep_members();
}

/// Theorem: fields that replace others change no field with another name. If none of them frames a
/// message, all recipients that know the plain forms delimit the content as before.
pub fn replaced_fields_leave_others()
    ensures others { (own : List Encodings.Field) (fields : List Field) (name : List ℕ)
        → has_field own name ≡ false → lines_under (replaced_by own fields) name ≡ lines_under fields name }
    ensures framing { (own : List Encodings.Field) (fields : List Field) (recipient : Recipient)
        → frame_nothing own ≡ true → KnowsPlain recipient
        → framing_by recipient (replaced_by own fields) ≡ framing_by recipient fields }
{}

/// Theorem: each recipient that knows the plain forms delimits the content of a sent request as this
/// gateway did, or rejects it, whatever it makes of other field lines (RFC 9112, section 11.2).
pub fn sent_request_is_framed_alike()
    ensures { (gateway : Gateway) (hop : Hop) (request : Request) (sent : SentRequest) (recipient : Recipient)
        → IsSent gateway hop request sent → KnowsPlain recipient
        → framing_by recipient (fields_of sent.fields.items) ≡ accepted_by recipient sent.framing }
{
    forwarded_request_is_framed_alike();
}
