//! Numbers, and ranges of them.

use crate::fault::{RowFault, malformed};

pub fn number_of(text: &str) -> Result<u64, RowFault> {
    match text.parse::<u64>() {
        Ok(number) => Ok(number),
        Err(_) => Err(malformed("a number is none")),
    }
}

/// The first and the last number of `A-B`, or of `A`, which is both.
pub fn range_of(text: &str) -> Result<(u64, u64), RowFault> {
    let (first, last) = match text.split_once('-') {
        None => (number_of(text)?, number_of(text)?),
        Some((first, last)) => (number_of(first)?, number_of(last)?),
    };
    if last < first {
        return Err(malformed("a range ends before it begins"));
    }
    Ok((first, last))
}
