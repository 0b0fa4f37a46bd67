//! Theorems about the definitions alone. To cite one in a proof, call it.
ghost use Rattle.std.specs.Prelude.{◌≡◌, ◌↔◌, ℕ, List, Some};
ghost use Rattle.rfc_fields.specs.Comments.{CommentsParseOneWay};
ghost use Rattle.rfc_fields.specs.{Directives.{DirectiveParts, IsDirective, directive_in}, Laws.HasAReading};
ghost use Rattle.rfc_fields.specs.Laws.{JoinKeepsMembers, KeepsMembersBefore, MalformedComesLast};
ghost use Rattle.rfc_fields.specs.Laws.{DirectivesParseOneWay, JoinKeepsDirectives, MalformedIsClearOfNone};
ghost use Rattle.rfc_fields.specs.Laws.{ParsesOneWay, PartsAreWhole, QuotedTextsAreOctets, QuotedTextsParse, Separate};
ghost use Rattle.rfc_fields.specs.Laws.{WellFormedFieldIsWhole, WellFormedIsWhole, WholeMembersAreWellFormed};

/// Theorem: a list by the grammar is parsed to its elements, and has no others (RFC 9110, section
/// 5.6.1).
pub fn lists_parse_one_way()
    ensures { ParsesOneWay }
{}

/// Theorem: a well formed field line is a list by the grammar.
#[tactic(auto, using(crate::proofs::ReadingLemmas::has_a_reading))]
pub fn well_formed_lines_are_lists()
    ensures { HasAReading }
{}

/// Theorem: text after a well formed line changes none of its members, even malformed text.
pub fn members_before_stay()
    ensures { KeepsMembersBefore }
{}

/// Theorem: joining well formed field lines by commas changes no member (RFC 9110, section 5.3).
pub fn joined_lines_keep_members()
    ensures { JoinKeepsMembers }
{}

/// Theorem: a line that isn't well formed has one malformed member, which is the last. It reaches
/// to the end of the line, so nothing is skipped.
#[tactic(auto, using(crate::proofs::JoinLemmas::malformed_comes_last))]
pub fn malformed_member_is_last()
    ensures { MalformedComesLast }
{}

/// Theorem: a line is well formed exactly if none of its members is malformed.
#[tactic(auto, using(crate::proofs::PieceLemmas::whole_members))]
pub fn well_formed_lines_are_whole()
    ensures { WellFormedIsWhole }
{}

/// Theorem: a member that isn't malformed is well formed by itself.
#[tactic(auto, using(crate::proofs::WholeLemmas::whole_members_close))]
pub fn whole_members_are_well_formed()
    ensures { WholeMembersAreWellFormed }
{}

/// Theorem: each parameter of a well formed member is well formed (RFC 9110, section 5.6.6).
#[tactic(auto, using(crate::proofs::WholeLemmas::parts_are_whole))]
pub fn parts_of_well_formed_texts_are_whole()
    ensures { PartsAreWhole }
{}

/// Theorem: no member of a field is malformed exactly if each of its lines is well formed.
#[tactic(auto, using(crate::proofs::FieldLemmas::whole_field))]
pub fn well_formed_fields_are_whole()
    ensures { WellFormedFieldIsWhole }
{}

/// Theorem: a quoted-string by the grammar is parsed as one (RFC 9110, section 5.6.4). A
/// quoted-pair in it means the octet after its backslash.
pub fn quoted_strings_parse()
    ensures { QuotedTextsParse }
{}

/// Theorem: what is parsed as a quoted-string is a quoted-string by the grammar.
#[tactic(auto, using(crate::proofs::QuotedLemmas::quoted_texts_are_octets))]
pub fn quoted_strings_have_octets()
    ensures { QuotedTextsAreOctets }
{}

/// Theorem: a text is the directive that the grammar gives, and no other (RFC 9111, section 5.2).
pub fn directives_follow_the_grammar()
    ensures { (text : List ℕ) (directive : DirectiveParts) → directive_in text ≡ Some directive
        ↔ IsDirective text directive }
{}

/// Theorem: a text is at most one directive, and a field at most one list of directives.
#[tactic(auto, using(crate::proofs::FieldLemmas::directives_parse_one_way))]
pub fn directives_parse_one_way()
    ensures { DirectivesParseOneWay }
{}

/// Theorem: joining well formed field lines by commas changes no directive.
#[tactic(auto, using(crate::proofs::FieldLemmas::join_keeps_directives))]
pub fn joined_lines_keep_directives()
    ensures { JoinKeepsDirectives }
{}

/// Theorem: a field with a malformed line certainly lacks no directive.
pub fn malformed_fields_are_clear_of_none()
    ensures { MalformedIsClearOfNone }
{}

/// Theorem: commas, which separate members, and semicolons, which separate parameters, are
/// separators of the grammar.
pub fn commas_and_semicolons_separate()
    ensures { Separate }
{}

/// Theorem: a text begins with at most one comment (RFC 9110, section 5.6.5).
pub fn comments_parse_one_way()
    ensures { CommentsParseOneWay }
{}
