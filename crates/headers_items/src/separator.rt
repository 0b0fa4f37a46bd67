//! The bytes that separate the items of a list.
ghost use Rattle.std.specs.Prelude.{◌≡◌, ℕ};
ghost use Rattle.headers_items.specs.Separator.{IsSeparator};

/// The separator of a list: a byte of text other than a quote, a space or a tab.
pub trait Separator {
    /// The separator, as a byte.
    const BYTE: u8;

    ghost BYTE: { ℕ };

    /// Returns the separator as a byte, for contracts.
    final fn separator_byte() -> u8
        ensures { result ≡ BYTE }
    {
        Self::BYTE
    }

    // It is a byte of text other than a quote, a space or a tab.
    ghost lawful: { IsSeparator BYTE };
}

/// The separator of lists between commas (RFC 9110, section 5.6.1).
#[derive(Clone, Copy, Debug)]
pub struct Comma;

/// The separator of lists between semicolons (RFC 6265, section 4.2.1).
#[derive(Clone, Copy, Debug)]
pub struct SemiColon;

impl Separator for Comma {
    ghost use Rattle.headers_items.{specs.Places.comma, specs.Separator.comma_is_separator};

    const BYTE: u8 = b',';

    ghost BYTE = { comma };

    ghost lawful = { comma_is_separator };
}

impl Separator for SemiColon {
    ghost use Rattle.headers_items.{specs.Places.semicolon, specs.Separator.semicolon_is_separator};

    const BYTE: u8 = b';';

    ghost BYTE = { semicolon };

    ghost lawful = { semicolon_is_separator };
}
