//! Field names as types.
ghost use Rattle.std.specs.Prelude.{List, ℕ};

use http_header::HeaderName;

/// A field name as a type. It tells apart headers that are otherwise the same type.
pub trait NamedField {
    // The name, in lower case.
    ghost NAME: { List ℕ };

    /// The field name.
    const NAME: HeaderName;
}
