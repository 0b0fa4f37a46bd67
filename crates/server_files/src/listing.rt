//! The names in a folder, and the page that lists them.
ghost use Rattle.std.specs.Prelude.{◌≡◌, true, not, ◌==◌, ◌++◌, All, IfOk, OnOk, IsSorted, codes, flat_map, map};
ghost use Rattle.std.{specs.Prelude.{string_bytes, string_cmp}, specs.List.list_all};
ghost use Rattle.server_files.specs.Listings.{is_listable, is_unreserved, item, link, link_byte, listable};
ghost use Rattle.server_files.specs.Listings.{listing_page, own_name, shown, shown_byte};

use crate::kept::Kept;
use crate::page::page_with;
use crate::path::{ends_in_slash, is_name};
use bytes::Bytes;
use percent_encoding::percent_encode_byte;
use std::alloc::{AllocError, Global};

/// The names in a folder that may be listed, in the order of their bytes, and the page that lists them. A
/// name that ends in a slash is that of a folder.
#[derive(Debug, Drop)]
pub struct Listing {
    folder: String,
    names: Vec<String>,
    page: Kept,
    ghost is_sorted: { IsSorted string_cmp names.items },
    ghost are_listable: { All (λ name. is_listable (string_bytes name) ≡ true) names.items },
    ghost is_page: { page.content ≡ listing_page (string_bytes folder) (map string_bytes names.items) },
}

impl Listing {
    ghost use Rattle.std.specs.Prelude.{IsPermutation};

    /// Lists those of the names in a folder that may be listed: a name that is hidden, or that the path of
    /// a URI can't name, is left out. The path of the folder is empty or ends in a slash, as the names of
    /// folders do. Fails only if an allocation fails.
    pub fn new(alloc: Global, folder: String, names: Vec<String>) -> Result<Listing, AllocError>
        ensures folder { IfOk result (λ listing. listing.folder ≡ folder) }
        ensures names { IfOk result (λ listing. IsPermutation (listable names.items) listing.names.items) }
    {
        let mut names = listable(alloc, names)?;
        names.sort_unstable();
        let page = listing_page(alloc, folder.as_str(), &names)?;
        let page = Kept::new(alloc, Bytes::from_vec(page)?)?;
        Ok(Listing {
            folder,
            names,
            page,
        })
    }

    /// Returns the path of the folder.
    pub fn folder(&self) -> &str
        ensures { result.now ≡ string_bytes self.now.folder }
    {
        self.folder.as_str()
    }

    /// Returns the page, in HTML.
    pub fn page(&self) -> &Kept
        ensures { result.now ≡ self.now.page }
    {
        &self.page
    }

    /// Gives the page alone.
    pub fn into_page(self) -> Kept
        ensures { result ≡ self.page }
    {
        let Listing { page, .. } = self;
        page
    }
}

// A name without the slash that ends that of a folder.
fn own_name(name: &[u8]) -> &[u8]
    ensures { result.now ≡ own_name name.now }
{
    if ends_in_slash(name) {
        &name[..name.len() - 1]
    } else {
        name
    }
}

fn has_no_slash(name: &[u8]) -> bool
    ensures { result ≡ list_all (λ byte. not (byte == 47)) name.now }
{
    name.iter().all(|byte| *byte != b'/')
}

fn is_listable(name: &[u8]) -> bool
    ensures { result ≡ is_listable name.now }
{
    let own = own_name(name);
    is_name(own) && has_no_slash(own)
}

fn listable(alloc: Global, names: Vec<String>) -> Result<Vec<String>, AllocError>
    ensures { IfOk result (λ listed. listed.items ≡ listable names.items) }
{
    let mut listed = Vec::new(alloc);
    for name in names {
        if is_listable(name.as_bytes()) {
            listed.push(name)?;
        }
    }
    Ok(listed)
}

fn push_shown_byte(text: &mut Vec<u8>, byte: u8) -> Result<(), AllocError>
    ensures { OnOk result (text.new.items ≡ text.old.items ++ shown_byte byte) }
{
    match byte {
        b'&' => Ok(text.extend_from_slice(b"&amp;")?),
        b'<' => Ok(text.extend_from_slice(b"&lt;")?),
        b'>' => Ok(text.extend_from_slice(b"&gt;")?),
        b'"' => Ok(text.extend_from_slice(b"&quot;")?),
        b'\'' => Ok(text.extend_from_slice(b"&#39;")?),
        _ => Ok(text.push(byte)?),
    }
}

fn push_shown(text: &mut Vec<u8>, name: &[u8]) -> Result<(), AllocError>
    ensures { OnOk result (text.new.items ≡ text.old.items ++ shown name.now) }
{
    for byte in name {
        push_shown_byte(text, *byte)?;
    }
    Ok(())
}

fn is_unreserved(byte: u8) -> bool
    ensures { result ≡ is_unreserved byte }
{
    byte.is_ascii_alphanumeric() || matches!(byte, b'-' | b'.' | b'_' | b'~')
}

fn push_link_byte(text: &mut Vec<u8>, byte: u8) -> Result<(), AllocError>
    ensures { OnOk result (text.new.items ≡ text.old.items ++ link_byte byte) }
{
    if is_unreserved(byte) || byte == b'/' {
        return Ok(text.push(byte)?);
    }
    Ok(text.extend_from_slice(percent_encode_byte(byte).as_bytes())?)
}

fn push_link(text: &mut Vec<u8>, name: &[u8]) -> Result<(), AllocError>
    ensures { OnOk result (text.new.items ≡ text.old.items ++ link name.now) }
{
    for byte in name {
        push_link_byte(text, *byte)?;
    }
    Ok(())
}

fn push_item(text: &mut Vec<u8>, name: &str) -> Result<(), AllocError>
    ensures { OnOk result (text.new.items ≡ text.old.items ++ item name.now) }
{
    text.extend_from_slice(b"<li><a href=\"")?;
    push_link(text, name.as_bytes())?;
    text.extend_from_slice(b"\">")?;
    push_shown(text, name.as_bytes())?;
    text.extend_from_slice(b"</a>\n")?;
    Ok(())
}

fn push_items(text: &mut Vec<u8>, names: &[String]) -> Result<(), AllocError>
    ensures { OnOk result
        (text.new.items ≡ text.old.items ++ flat_map item (map string_bytes names.now)) }
{
    for name in names {
        push_item(text, name.as_str())?;
    }
    Ok(())
}

// The title of the page that lists a folder.
fn title_of(alloc: Global, folder: &str) -> Result<Vec<u8>, AllocError>
    ensures { IfOk result (λ title. title.items ≡ codes "Index of /" ++ shown folder.now) }
{
    let mut title = Vec::new(alloc);
    title.extend_from_slice(b"Index of /")?;
    push_shown(&mut title, folder.as_bytes())?;
    Ok(title)
}

fn listing_page(alloc: Global, folder: &str, names: &[String]) -> Result<Vec<u8>, AllocError>
    ensures { IfOk result (λ page. page.items ≡ listing_page folder.now (map string_bytes names.now)) }
{
    let title = title_of(alloc, folder)?;
    let mut page = page_with(alloc, &title)?;
    page.extend_from_slice(b"<ul>\n")?;
    push_item(&mut page, "../")?;
    push_items(&mut page, names)?;
    page.extend_from_slice(b"</ul>\n")?;
    Ok(page)
}
