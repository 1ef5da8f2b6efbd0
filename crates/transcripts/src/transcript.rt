//! Transcripts: the lines that are sent, each followed by the lines that are to be written.
ghost use Rattle.std.specs.Prelude.{◌≡◌, ◌↔◌, IsTrue, string_bytes};

use std::alloc::{AllocError, Global};
use std::io;

/// A transcript, as far as it was read.
#[derive(Drop)]
pub struct Transcript {
    /// All that is sent.
    pub sent: String,
    /// All that is to be written.
    pub written: String,
    /// All that is to be said on standard error.
    pub said: String,
    /// The status that is to come.
    pub status: u8,
}

/// What came of a replay.
#[derive(Drop)]
pub struct Outcome {
    /// The status that came.
    pub status: u8,
    /// All that was written.
    pub written: Vec<u8>,
    /// All that was said on standard error.
    pub said: Vec<u8>,
}

impl Transcript {
    /// Nothing is sent, nothing is to be written or said, and the status is to be 0.
    pub fn new(alloc: Global) -> Transcript {
        Transcript {
            sent: String::new(alloc),
            written: String::new(alloc),
            said: String::new(alloc),
            status: 0,
        }
    }

    /// Whether the outcome is what is written down.
    pub fn came_out(&self, outcome: &Outcome) -> bool
        ensures { IsTrue result ↔ ((outcome.now.status ≡ self.now.status) × (outcome.now.written.items ≡ string_bytes self.now.written) × (outcome.now.said.items ≡ string_bytes self.now.said)) }
    {
        outcome.status == self.status
            && outcome.written.as_slice() == self.written.as_str().as_bytes()
            && outcome.said.as_slice() == self.said.as_str().as_bytes()
    }

    // The same once more.
    fn copy(&self, alloc: Global) -> Result<Transcript, AllocError> {
        Ok(Transcript {
            sent: String::from_str(alloc, self.sent.as_str())?,
            written: String::from_str(alloc, self.written.as_str())?,
            said: String::from_str(alloc, self.said.as_str())?,
            status: self.status,
        })
    }

    // Reads one line. Blank lines and those that begin with `#` say nothing.
    fn read(&mut self, line: &str) -> io::Result<()> {
        if let Some(sent) = line.strip_prefix("< ") {
            self.sent.push_str(sent)?;
            self.sent.push('\n')?;
        } else if let Some(sent) = line.strip_prefix("<. ") {
            self.sent.push_str(sent)?;
        } else if let Some(written) = line.strip_prefix("> ") {
            self.written.push_str(written)?;
            self.written.push('\n')?;
        } else if let Some(said) = line.strip_prefix("! ") {
            self.said.push_str(said)?;
            self.said.push('\n')?;
        } else if let Some(status) = line.strip_prefix("= ") {
            self.status = status
                .parse()
                .map_err(|_| io::Error::from(io::ErrorKind::InvalidData))?;
        } else if !line.is_empty() && !line.starts_with('#') {
            return Err(io::Error::from(io::ErrorKind::InvalidData));
        }
        Ok(())
    }
}

/// Reads a transcript behind the one that opens it: `< LINE` is a line that is sent, `<. LINE` one that is sent without
/// its end, `> LINE` a line that is written, `! LINE` one that is said on standard error, and `= STATUS` the status, which
/// is 0 where none is named.
pub fn read_transcript(alloc: Global, opening: &Transcript, block: &str) -> io::Result<Transcript> {
    let mut transcript = opening.copy(alloc)?;
    for line in block.lines() {
        transcript.read(line)?;
    }
    Ok(transcript)
}
