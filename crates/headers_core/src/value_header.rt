//! Headers that are the first line of a field.
ghost use Rattle.std.specs.Prelude.{◌≡◌, IfOk};

use crate::form_header::FormHeader;
use crate::named_field::NamedField;
use http_header::{HeaderName, HeaderValue};
use std::alloc::{AllocError, Global};
use std::marker::{Model, PhantomData};

/// A header that stores the first field line, whatever it is, and encodes to it. `decode` rejects
/// only a field without a line. Headers are compared by their bytes.
#[derive(Debug, Drop, PartialEq)]
pub struct ValueHeader<N: NamedField> {
    value: HeaderValue,
    of: PhantomData<N>,
}

impl<N: NamedField> Model for ValueHeader<N> {
    ghost use Rattle.http_header.specs.FieldValue.{FieldValue, field_value_code};

    ghost Value = { FieldValue };

    ghost coded = { field_value_code };

    ghost view = { λ header. header.value };

    ghost inverse = { λ value. record { value = value; of = record {} } };
}

impl<N: NamedField> ValueHeader<N> {
    /// Copies the header. The copy is sensitive exactly if the original is. Fails only if an
    /// allocation fails.
    pub fn clone(&self, _alloc: Global) -> Result<ValueHeader<N>, AllocError>
        ensures { IfOk result (λ copy. copy ≡ self.now) }
    {
        Ok(ValueHeader::from_form(self.value.clone()?))
    }
}

impl<N: NamedField> FormHeader for ValueHeader<N> {
    type Form = HeaderValue;

    ghost NAME = { N.NAME };

    const NAME: HeaderName = N::NAME;

    ghost form = { λ header. header };

    fn from_form(value: HeaderValue) -> ValueHeader<N> {
        ValueHeader {
            value,
            of: PhantomData,
        }
    }

    fn as_form(&self) -> &HeaderValue {
        &self.value
    }
}
