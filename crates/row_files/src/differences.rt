//! Where a run differs from its row.

use shared_types::Memory;
use std::alloc::Global;

/// How many bytes of a text are shown at most.
const MOST_SHOWN: usize = 4_000;

/// Where one run differs from its row.
#[derive(Drop)]
pub struct Differences {
    text: String,
}

impl Differences {
    pub fn new(alloc: Global) -> Differences {
        Differences {
            text: String::new(alloc),
        }
    }

    pub fn is_empty(&self) -> bool {
        self.text.as_str().is_empty()
    }

    /// Each on lines of its own.
    pub fn as_str(&self) -> &str {
        self.text.as_str()
    }

    /// Tells what must be and what is, where these differ.
    pub fn compare(
        &mut self,
        alloc: Global,
        what: &str,
        wanted: &[u8],
        got: &[u8],
    ) -> Result<(), Memory> {
        if wanted == got {
            return Ok(());
        }
        self.tell(alloc, what, " must be", wanted)?;
        self.tell(alloc, what, " is", got)
    }

    fn tell(&mut self, alloc: Global, what: &str, told: &str, bytes: &[u8]) -> Result<(), Memory> {
        self.push(what, told)?;
        self.show(alloc, bytes)
    }

    /// Tells something of what is named.
    pub fn push(&mut self, what: &str, told: &str) -> Result<(), Memory> {
        self.text.push_str("\n    ")?;
        self.text.push_str(what)?;
        self.text.push_str(told)
    }

    // Shows each line of a text behind a mark, as a row file has it.
    fn show(&mut self, alloc: Global, bytes: &[u8]) -> Result<(), Memory> {
        let front = bytes.get(..MOST_SHOWN).unwrap_or(bytes);
        let lossy = shown(alloc, front)?;
        self.show_lines(lossy.as_str(), front.len() < bytes.len())
    }

    fn show_lines(&mut self, text: &str, is_cut: bool) -> Result<(), Memory> {
        for line in text.split('\n') {
            self.show_line(line)?;
        }
        self.text.push_str(if is_cut { "\n    .." } else { "" })
    }

    fn show_line(&mut self, line: &str) -> Result<(), Memory> {
        self.text.push_str("\n    | ")?;
        self.text.push_str(line)
    }
}

// The bytes as a text, with what isn't ASCII as escapes.
fn shown(alloc: Global, bytes: &[u8]) -> Result<String, Memory> {
    let mut text = String::new(alloc);
    match push_all(alloc, &mut text, bytes) {
        Ok(()) => Ok(text),
        Err(fault) => Err(fault),
    }
}

fn push_all(alloc: Global, text: &mut String, bytes: &[u8]) -> Result<(), Memory> {
    for byte in bytes {
        push_byte(alloc, text, *byte)?;
    }
    Ok(())
}

fn push_byte(alloc: Global, text: &mut String, byte: u8) -> Result<(), Memory> {
    if byte.is_ascii_graphic() || byte == b' ' || byte == b'\n' {
        return text.push(char::from(byte));
    }
    let escape = format!(in alloc; "\\x{byte:02x}")?;
    text.push_str(escape.as_str())
}
