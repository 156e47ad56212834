//! What is shown on standard output.
use std::alloc::{AllocError, Global};
use std::io::{self, Write};

// The first byte of each of the characters from U+0080 to U+00BF.
const LEAD: u8 = 0xC2;

/// Who reads standard output.
#[derive(Clone, Copy, PartialEq, Eq)]
pub enum Reader {
    /// A terminal.
    Terminal,
    /// A file, or another program.
    Program,
    /// Nobody: what is written is dropped.
    Nobody,
}

/// A writer to standard output. Where that is a terminal, control characters of events don't reach it: DEL, those up to U+001F but tab
/// and line feed, and those from U+0080 to U+009F are written as `\u` and four hexadecimal digits. Elsewhere bytes stay as they are,
/// and where nobody reads them none is written.
#[derive(Drop)]
pub struct Shown<W: Drop> {
    alloc: Global,
    inner: W,
    reader: Reader,
    // The last byte may begin a control character, and isn't written yet.
    has_lead: bool,
}

impl<W: Drop> Shown<W> {
    /// A writer over this one, which has such a reader.
    pub fn over(alloc: Global, inner: W, reader: Reader) -> Shown<W> {
        Shown {
            alloc,
            inner,
            reader,
            has_lead: false,
        }
    }

    // The bytes as they are shown.
    fn escaped(&mut self, bytes: &[u8]) -> Result<Vec<u8>, AllocError> {
        let mut shown = Vec::with_capacity(self.alloc, bytes.len())?;
        for &byte in bytes {
            let is_second = self.has_lead;
            self.has_lead = byte == LEAD;
            let is_high = is_second && (0x80..0xA0).contains(&byte);
            if is_second && !is_high {
                shown.push(LEAD)?;
            }
            if is_high || is_control(byte) {
                let digits = format!(in self.alloc; "\\u{byte:04x}")?;
                shown.extend_from_slice(digits.as_bytes())?;
            } else if byte != LEAD {
                shown.push(byte)?;
            }
        }
        Ok(shown)
    }
}

// Whether the byte is a control character that a terminal is not to get.
fn is_control(byte: u8) -> bool {
    byte.is_ascii_control() && byte != b'\n' && byte != b'\t'
}

impl<W: Write + Drop> Write for Shown<W> {
    fn write(&mut self, buf: &[u8]) -> io::Result<usize> {
        match self.reader {
            Reader::Nobody => Ok(buf.len()),
            Reader::Program => self.inner.write(buf),
            Reader::Terminal => {
                let shown = self.escaped(buf)?;
                self.inner.write_all(&shown)?;
                Ok(buf.len())
            }
        }
    }

    fn flush(&mut self) -> io::Result<()> {
        self.inner.flush()
    }
}
