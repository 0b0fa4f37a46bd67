//! The header `connection`.
ghost use Rattle.std.{specs.Prelude.{◌≡◌, ◌↔◌, List, ℕ, IsTrue, IfOk, codes}, specs.Iterator.IsFinite};
ghost use Rattle.headers_items.{specs.Answers.{GoesByItems, SurvivesCuts}, specs.Merge.merge, specs.Places.comma};
ghost use Rattle.headers_items.{specs.Places.items, specs.CutLaw.MergesLines};
ghost use Rattle.headers_connection.specs.Connection.{HasOption};

use headers_core::{Comma, FlatCsv, FormHeader, same_but_for_case};
use http_header::{CONNECTION, HeaderName};
use std::alloc::{AllocError, Global};
use std::marker::Model;

/// The header `Connection`: the options that the sender wants for this connection (RFC 9110,
/// section 7.6.1). All field lines are joined by a comma and a space, and none are rejected:
/// `decode` fails only if an allocation fails.
#[derive(Debug, Drop)]
pub struct Connection {
    options: FlatCsv<Comma>,
}

impl Model for Connection {
    ghost Value = { List ℕ };

    ghost view = { λ v. v.options };

    ghost inverse = { λ bytes. record { options = bytes } };
}

mod sealed {
    use http_header::HeaderName;

    pub trait Sealed: Drop {}

    impl Sealed for &str {}

    impl Sealed for &HeaderName {}

    impl Sealed for HeaderName {}
}

/// The name of a connection option: a text, or a field name. No other type can be one.
pub trait AsConnectionOption: sealed::Sealed {
    // The text.
    ghost option: { Self → List ℕ };

    /// Returns the name of the connection option as text.
    fn as_connection_option(&self) -> &str
        ensures { result.now ≡ option self.now };
}

impl AsConnectionOption for &str {
    ghost option = { λ text. text.now };

    fn as_connection_option(&self) -> &str {
        *self
    }
}

impl AsConnectionOption for &HeaderName {
    ghost option = { λ name. name.now };

    fn as_connection_option(&self) -> &str {
        (*self).as_str()
    }
}

impl AsConnectionOption for HeaderName {
    ghost option = { λ name. name };

    fn as_connection_option(&self) -> &str {
        self.as_str()
    }
}

impl Connection {
    /// Makes the header `close`: the connection is closed after the response.
    pub fn close() -> Connection
        ensures { result ≡ codes "close" }
    {
        Connection::from_form(FlatCsv::from_word("close"))
    }

    /// Makes the header `keep-alive`: the connection stays open.
    pub fn keep_alive() -> Connection
        ensures { result ≡ codes "keep-alive" }
    {
        Connection::from_form(FlatCsv::from_word("keep-alive"))
    }

    /// Makes the header `upgrade`: the message has an Upgrade field (RFC 9110, section 7.8).
    pub fn upgrade() -> Connection
        ensures { result ≡ codes "upgrade" }
    {
        Connection::from_form(FlatCsv::from_word("upgrade"))
    }

    /// Joins the field names of an iterator by a comma and a space. Fails only if an allocation
    /// fails. The size hint isn't used.
    pub fn from_iter<I: Iterator<Item = HeaderName> + Drop>(
        alloc: Global,
        names: I,
    ) -> Result<Connection, AllocError>
        requires can { I.can_next names }
        requires ends { IsFinite (I.remaining names) }
        ensures { IfOk result (MergesLines I.next_gives names comma) }
    {
        Ok(Connection::from_form(FlatCsv::from_names(alloc, names)?))
    }

    /// Returns whether some item is the option, ignoring the case of ASCII letters (RFC 9110,
    /// section 7.6.1).
    pub fn contains<T: AsConnectionOption>(&self, option: T) -> bool
        ensures answer { IsTrue result ↔ HasOption (items comma self.now) (T.option option) }
        ensures cuts { SurvivesCuts comma
            (λ lines has. IsTrue has ↔ HasOption (items comma (merge comma lines)) (T.option option)) }
        ensures by_items { GoesByItems comma
            (λ value has. IsTrue has ↔ HasOption (items comma value) (T.option option)) }
    {
        let option = option.as_connection_option();
        self.options
            .iter()
            .any(|item| same_but_for_case(item, option))
    }

    /// Copies the header. Fails only if an allocation fails.
    pub fn clone(&self, alloc: Global) -> Result<Connection, AllocError>
        ensures { IfOk result (λ copy. copy ≡ self.now) }
    {
        Ok(Connection::from_form(self.options.clone(alloc)?))
    }
}

impl FormHeader for Connection {
    type Form = FlatCsv<Comma>;

    ghost NAME = { codes "connection" };

    const NAME: HeaderName = CONNECTION;

    ghost form = { λ header. header };

    fn from_form(options: FlatCsv<Comma>) -> Connection {
        Connection { options }
    }

    fn as_form(&self) -> &FlatCsv<Comma> {
        &self.options
    }
}
