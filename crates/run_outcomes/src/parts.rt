//! Texts that are put together.

use shared_types::Memory;

/// Puts texts at the end, one after another.
pub fn push_all(text: &mut String, parts: &[&str]) -> Result<(), Memory> {
    for part in parts {
        text.push_str(part)?;
    }
    Ok(())
}
