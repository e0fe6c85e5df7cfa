//! Words, as a shell splits them.

use row_texts::{RowFault, malformed, unescaped_text};
use std::alloc::Global;

/// What has been read of the words.
#[derive(Drop)]
struct Splitting {
    words: Vec<String>,
    /// The word that isn't at its end; None between words.
    word: Option<String>,
    /// The mark that ends a quoted part.
    quote: Option<char>,
}

impl Splitting {
    fn push(&mut self, alloc: Global, character: char) -> Result<(), RowFault> {
        self.begin(alloc);
        if let Some(word) = &mut self.word {
            word.push(character)?;
        }
        Ok(())
    }

    fn begin(&mut self, alloc: Global) {
        if self.word.is_none() {
            self.word = Some(String::new(alloc));
        }
    }

    fn end(&mut self) -> Result<(), RowFault> {
        if let Some(word) = self.word.take() {
            self.words.push(word)?;
        }
        Ok(())
    }

    fn take(&mut self, alloc: Global, character: char) -> Result<(), RowFault> {
        match (self.quote, character) {
            (Some(quote), _) if quote == character => {
                self.quote = None;
                Ok(())
            }
            (Some(_), _) => self.push(alloc, character),
            (None, ' ') => self.end(),
            (None, '\'') => self.quoted(alloc, character),
            (None, '"') => self.quoted(alloc, character),
            (None, _) => self.push(alloc, character),
        }
    }

    fn quoted(&mut self, alloc: Global, quote: char) -> Result<(), RowFault> {
        self.begin(alloc);
        self.quote = Some(quote);
        Ok(())
    }

    fn take_all(&mut self, alloc: Global, text: &str) -> Result<(), RowFault> {
        for character in text.chars() {
            self.take(alloc, character)?;
        }
        self.end()?;
        match self.quote {
            None => Ok(()),
            Some(_) => Err(malformed("a quoted word doesn't end")),
        }
    }
}

/// The words of a text with escapes. Spaces are between words; what stands between two `'` or two `"` is as it is.
pub(crate) fn words_of(alloc: Global, text: &str) -> Result<Vec<String>, RowFault> {
    let text = unescaped_text(alloc, text, None)?;
    let mut splitting = Splitting {
        words: Vec::new(alloc),
        word: None,
        quote: None,
    };
    match splitting.take_all(alloc, text.as_str()) {
        Ok(()) => Ok(splitting.words),
        Err(fault) => Err(fault),
    }
}

/// Copies of words.
pub(crate) fn copied(alloc: Global, words: &[String]) -> Result<Vec<String>, RowFault> {
    let mut copies = Vec::new(alloc);
    for word in words {
        copies.push(String::from_str(alloc, word.as_str())?)?;
    }
    Ok(copies)
}
