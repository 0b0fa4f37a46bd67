//! A request, as C hands it in.

/// The method and the fields of a request, as C passes them in.
#[repr(C)]
#[derive(Clone, Copy)]
pub struct RequestTexts<'a> {
    /// Its method.
    pub method: &'a [u8],
    /// Its header section.
    pub section: &'a [u8],
}
