//! A reader and a writer that fail once, and count the calls that are made on them.
ghost use Rattle.std.specs.Prelude.{◌≤◌, length, IfOk};

use std::alloc::Global;
use std::io::{self, ErrorKind, Read, Write};

/// The greatest length of an input that a run reads, in bytes.
const INPUT_LIMIT: usize = 8_388_608;

/// Gives a text, up to `each` bytes a call, and then as many bytes of nonsense. Then it fails, if it
/// is to, else it gives nothing. A later read fails and is counted, also one past the limit.
#[derive(Drop)]
pub struct TextSource<'a> {
    text: &'a [u8],
    each: usize,
    nonsense: usize,
    failure: Option<ErrorKind>,
    given: usize,
    is_over: bool,
    /// How many reads were made of a reader that had failed, had given nothing, or had given more than
    /// the limit.
    pub late_reads: u64,
}

impl<'a> TextSource<'a> {
    /// A reader that gives the text, and doesn't fail.
    pub fn new(text: &'a [u8]) -> TextSource<'a> {
        TextSource::with_failure(text, usize::MAX, 0, None)
    }

    /// A reader that gives the text and the nonsense, and then fails.
    pub fn with_failure(
        text: &'a [u8],
        each: usize,
        nonsense: usize,
        failure: Option<ErrorKind>,
    ) -> TextSource<'a> {
        TextSource {
            text,
            each,
            nonsense,
            failure,
            given: 0,
            is_over: false,
            late_reads: 0,
        }
    }

    // The next bytes.
    fn give(&mut self, buf: &mut [u8]) -> io::Result<usize>
        ensures { IfOk result (λ count. count ≤ length buf.old) }
    {
        if !self.text.is_empty() {
            let most = buf.len().min(self.each);
            return self.text.read(&mut buf[..most]);
        }
        let count = buf.len().min(self.nonsense);
        if count == 0
            && let Some(kind) = self.failure.take()
        {
            return Err(io::Error::from(kind));
        }
        buf[..count].fill(b'x');
        self.nonsense -= count;
        Ok(count)
    }
}

impl Read for TextSource<'_> {
    fn read(&mut self, buf: &mut [u8]) -> io::Result<usize> {
        if self.is_over {
            self.late_reads = self.late_reads.saturating_add(1);
            return Err(io::Error::from(ErrorKind::Other));
        }
        let given = self.give(buf);
        let count = given.as_ref().copied().unwrap_or(0);
        self.given = self.given.saturating_add(count);
        self.is_over = count == 0 || self.given > INPUT_LIMIT;
        given
    }
}

/// Takes up to `each` bytes a call. It fails once when it holds `most`, and once when it is flushed, if
/// it is to, and then goes on.
#[derive(Drop)]
pub struct Sink {
    /// The bytes that it holds.
    pub taken: Vec<u8>,
    each: usize,
    most: usize,
    failure: Option<ErrorKind>,
    flush_failure: Option<ErrorKind>,
    /// How many writes were made.
    pub writes: u64,
    /// How many flushes were made.
    pub flushes: u64,
    /// Whether it ran out of memory for its bytes.
    pub is_refused: bool,
}

impl Sink {
    /// A writer that takes all bytes, and doesn't fail.
    pub fn new(alloc: Global) -> Sink {
        Sink::with_failures(alloc, usize::MAX, 0, None, None)
    }

    /// A writer that takes up to `each` bytes a call, and fails.
    pub fn with_failures(
        alloc: Global,
        each: usize,
        most: usize,
        failure: Option<ErrorKind>,
        flush_failure: Option<ErrorKind>,
    ) -> Sink {
        Sink {
            taken: Vec::new(alloc),
            each,
            most,
            failure,
            flush_failure,
            writes: 0,
            flushes: 0,
            is_refused: false,
        }
    }

    /// Whether no call was made.
    pub fn is_untouched(&self) -> bool {
        self.writes == 0 && self.flushes == 0
    }
}

impl Write for Sink {
    fn write(&mut self, buf: &[u8]) -> io::Result<usize> {
        self.writes = self.writes.saturating_add(1);
        if self.taken.len() >= self.most
            && let Some(kind) = self.failure.take()
        {
            return Err(io::Error::from(kind));
        }
        let count = buf.len().min(self.each);
        if self.taken.extend_from_slice(&buf[..count]).is_err() {
            self.is_refused = true;
            return Err(io::Error::from(ErrorKind::OutOfMemory));
        }
        Ok(count)
    }

    fn flush(&mut self) -> io::Result<()> {
        self.flushes = self.flushes.saturating_add(1);
        match self.flush_failure.take() {
            Some(kind) => Err(io::Error::from(kind)),
            None => Ok(()),
        }
    }
}
