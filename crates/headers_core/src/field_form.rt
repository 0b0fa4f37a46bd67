//! Encoding shapes: what headers store of the field lines.
ghost use Rattle.std.{specs.Prelude.{◌≡◌, Bool, IsTrue, OnOk, OnErr}, specs.Iterator.IsFinite};
ghost use Rattle.headers_syntax.{specs.Lines.Appends, specs.OfLines.OfLines, specs.DecodesTo.DecodesTo};
ghost use Rattle.headers_syntax.{specs.Refusal.NeverMemory, specs.HeaderLaws.{Grammar, ReadsBy, written_by, ReadsBack}};

use headers_syntax::{AsHeaderValue, Error, Refused};
use http_header::HeaderValue;
use std::alloc::{AllocError, Global};

/// An encoding shape: what a header of any name stores of its field lines, and how it decodes and
/// encodes.
pub trait FieldForm: Drop {
    // Whether `read_lines` never runs out of memory.
    ghost free: { Bool };

    // The abstract value, without its representation.
    ghost Kept: { Type 0 };

    // Which value field lines decode to, if any, and which field lines encode a value.
    ghost grammar: { Grammar Self Kept };

    /// Decodes the field lines: `Invalid` if they encode no value, `Memory` if an allocation fails.
    fn read_lines<I: Iterator>(alloc: Global, lines: &mut I) -> Result<Self, Refused<Error>>
    where
        I::Item: AsHeaderValue,
        requires can { I.can_next lines.old }
        requires ends { IsFinite (I.remaining lines.old) }
        ensures value { OfLines I.Item.shown I.next_gives lines.old lines.new
            (λ ls. DecodesTo (ReadsBy grammar) ls result) }
        ensures memory { IsTrue free → NeverMemory result };

    /// Appends the field lines that encode the value. If an allocation fails, the list is
    /// unchanged.
    fn write_lines(&self, alloc: Global, values: &mut Vec<HeaderValue>) -> Result<(), AllocError>
        ensures ok { OnOk result (Appends values.old.items values.new.items (written_by grammar self.now)) }
        ensures err { OnErr result (values.new.items ≡ values.old.items) };

    // Round trip: the encoding of a decoded value decodes to that value.
    ghost reads_back: { ReadsBack grammar };
}
