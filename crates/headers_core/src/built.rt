//! Theorems: which values that a constructor made survive a round trip.
ghost use Rattle.std.specs.Prelude.{◌↔◌, List, IsTrue};
ghost use Rattle.headers_syntax.{specs.EntityTag.is_tag, specs.Lines.Line, specs.HeaderLaws.{ReadsBy, written_by}};
ghost use Rattle.headers_syntax.{specs.Shapes.{first_word, only_word}, specs.Text.is_text};
ghost use Rattle.headers_items.specs.Merge.{merge};

use crate::field_form::FieldForm;
use crate::form_header::FormHeader;
use crate::header::Header;
use headers_items::{FlatCsv, Separator};
use headers_syntax::{EntityTag, HeaderValueString};
use http_header::HeaderValue;

/// Theorem: every value of a header that stores the first field line survives a round trip.
pub fn lines_read_back<H: FormHeader<Form = HeaderValue>>()
    ensures { (header : H) → ⟦<H as Header>⟧.reads (⟦<H as Header>⟧.writes header) header }
{}

/// Theorem: every list of a header that joins its field lines survives a round trip.
pub fn lists_read_back<S: Separator>()
    ensures { (list : Line) → ReadsBy ⟦<FlatCsv<S> as FieldForm>⟧.grammar
        (written_by ⟦<FlatCsv<S> as FieldForm>⟧.grammar list) list }
{}

/// Theorem: every list of field lines decodes if a header joins its lines; never to `Invalid`.
pub fn lists_read_all<S: Separator>()
    ensures { (lines : List Line) → ReadsBy ⟦<FlatCsv<S> as FieldForm>⟧.grammar lines (merge S.BYTE lines) }
{}

/// Theorem: the word of a header that is one word survives a round trip. This holds for headers
/// that decode the only field line, and for those that decode the first.
pub fn words_read_back()
    ensures only { (word : Line) → let grammar = only_word word (λ (kept : Line). kept) in
        ReadsBy grammar (written_by grammar word) word }
    ensures first { (word : Line) → let grammar = first_word word (λ (kept : Line). kept) in
        ReadsBy grammar (written_by grammar word) word }
{}

/// Theorem: of a header that stores text, exactly the values whose bytes are text survive a round
/// trip.
pub fn texts_read_back<H: FormHeader<Form = HeaderValueString>>()
    ensures { (header : H) → ⟦<H as Header>⟧.reads (⟦<H as Header>⟧.writes header) header
        ↔ IsTrue (is_text (H.form header).bytes) }
{}

/// Theorem: of a header that stores an entity tag, exactly the values whose bytes are an entity tag
/// survive a round trip.
pub fn tags_read_back<H: FormHeader<Form = EntityTag>>()
    ensures { (header : H) → ⟦<H as Header>⟧.reads (⟦<H as Header>⟧.writes header) header
        ↔ IsTrue (is_tag (H.form header).bytes) }
{}
