ghost use Rattle.std.specs.Prelude.{◌≡◌, ◌++◌, [], IfOk, bytes_eq, map, string_bytes};
ghost use Rattle.std.specs.List.{IsDistinct, list_any};
ghost use Rattle.config_spec.specs.Projects as spec;

use indexmap::IndexSet;
use shared_types::{Listed, Memory, Text};
use std::alloc::Global;

/// These entries with those of the words behind them, each once.
pub(crate) fn once_onto(
    alloc: Global,
    old: Listed<Text>,
    words: &[String],
) -> Result<Listed<Text>, Memory>
    requires { IsDistinct bytes_eq old }
    ensures entries { IfOk result (λ found. found ≡ spec.once_onto old (map string_bytes words.now)) }
    ensures distinct { IfOk result (IsDistinct bytes_eq) }
{
    let all = with_words(alloc, old, words)?;
    once(alloc, all.as_slice())
}

fn with_words(alloc: Global, old: Listed<Text>, words: &[String]) -> Result<Listed<Text>, Memory>
    ensures { IfOk result (λ all. all ≡ old ++ map string_bytes words.now) }
{
    let mut all = old;
    for word in words {
        all.push(Text::of(alloc, word.as_str())?)?;
    }
    Ok(all)
}

fn once(alloc: Global, texts: &[Text]) -> Result<Listed<Text>, Memory>
    ensures { IfOk result (λ found. found ≡ spec.once_onto [] texts.now) }
{
    let mut seen = IndexSet::new(alloc);
    for text in texts {
        seen.insert(text.copy(alloc)?)?;
    }
    Ok(Listed::from_vec(seen.into_iter().collect(alloc)?))
}

/// Whether an entry is among these.
pub(crate) fn holds(entries: &Listed<Text>, entry: &str) -> bool
    ensures { result ≡ list_any (bytes_eq entry.now) entries.now }
{
    entries.as_slice().iter().any(|own| entry == own.as_str())
}

/// The entries that aren't this one.
pub(crate) fn without(entry: &str, entries: Listed<Text>) -> Listed<Text>
    ensures { result ≡ spec.without entry.now entries }
{
    let mut left = entries.into_vec();
    left.retain(|other| entry != other.as_str());
    Listed::from_vec(left)
}
