//! Where the bytes of a file come from.
ghost use Rattle.std.{specs.Prelude.{◌≡◌, true}, specs.Io.ReadsAtMost};
ghost use Rattle.server_service.{specs.File.{Reads, len_of, tag_of}, specs.Response.is_bare_tag};

use headers::ETag;
use server_files::Kept;
use std::os::unix::fs::FileExt;
use std::{fs, io};

/// Who reads an open file.
#[derive(Debug, Drop)]
pub enum Reader {
    /// The service.
    System(fs::File),
    /// The caller, who has it under this number. The service reads nothing.
    Caller(usize),
}

/// An open file.
#[derive(Debug, Drop)]
pub struct Opened {
    /// Who reads it.
    pub reader: Reader,
    /// How many bytes it had when it was opened.
    pub len: u64,
    /// Its entity tag. A strong one is for the caller to vouch for.
    pub tag: Option<ETag>,
}

/// Where the bytes of a file come from.
#[derive(Debug, Drop)]
pub enum Source {
    /// Memory.
    Kept(Kept),
    /// An open file. It is read while it is sent.
    Opened(Opened),
}

impl Source {
    /// How many bytes there are.
    pub fn len(&self) -> u64
        ensures { result ≡ len_of self.now }
    {
        match self {
            Source::Kept(kept) => kept.content().len() as u64,
            Source::Opened(opened) => opened.len,
        }
    }

    // What the type of a tag says of its ends. The tag of bytes in memory is known.
    pub(crate) fn show_tag(&self)
        ensures { is_bare_tag (tag_of self.now) ≡ true }
    {
        match self {
            Source::Kept(_) => {}
            Source::Opened(opened) => show_tag(&opened.tag),
        }
    }

    /// Reads bytes from a place on: of those in memory, as many as there are and the buffer has room for.
    /// Fails only if the system does.
    pub(crate) fn read(&self, start: u64, buffer: &mut [u8]) -> io::Result<usize>
        ensures { Reads self.now start buffer.old buffer.new result }
    {
        match self {
            Source::Kept(kept) => Ok(kept.read(start, buffer)),
            Source::Opened(opened) => opened.reader.read(start, buffer),
        }
    }
}

impl Reader {
    fn read(&self, start: u64, buffer: &mut [u8]) -> io::Result<usize>
        ensures { ReadsAtMost result buffer.new }
    {
        match self {
            Reader::System(file) => file.read_at(buffer, start),
            Reader::Caller(_) => Ok(0),
        }
    }
}

// What the type of a tag says of its ends.
fn show_tag(tag: &Option<ETag>)
    ensures { is_bare_tag tag.now ≡ true }
{
    match tag {
        Some(tag) => {
            let _weak = tag.is_weak();
        }
        None => {}
    }
}
