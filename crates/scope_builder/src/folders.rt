ghost use Rattle.std.specs.Prelude.{◌≡◌, ◌++◌, ◌∷◌, [], if◌then◌else◌, IfOk, OnOk};
ghost use Rattle.layout_spec.specs.Places as definition;

use shared_types::{Listed, Memory, Text};
use std::alloc::Global;
use web_url::WebUrl;

/// Places in a map, each as the key of its scope; the top level is the empty text.
pub type Places = Listed<Text>;

/// The places of a referrer: itself, the folders above it and the top level, longest first.
pub fn places(alloc: Global, referrer: &WebUrl) -> Result<Places, Memory>
    ensures { IfOk result (λ all. all ≡ definition.places referrer.now) }
{
    let text = referrer.as_str();
    let mut all = Places::new(alloc);
    all.push(Text::of(alloc, text)?)?;
    let mut size = text.len().saturating_sub(1);
    while size > 0 {
        push_folder(alloc, &mut all, &text[..size])?;
        size -= 1;
    }
    all.push(Text::new(alloc))?;
    Ok(all)
}

fn push_folder(alloc: Global, all: &mut Places, front: &str) -> Result<(), Memory>
    ensures { OnOk result (all.new ≡ (if definition.is_folder front.now then all.old ++ front.now ∷ [] else all.old)) }
{
    if is_folder(alloc, front)? {
        all.push(Text::of(alloc, front)?)?;
    }
    Ok(())
}

/// Whether a text ends in `/` and parses to itself.
pub fn is_folder(alloc: Global, text: &str) -> Result<bool, Memory>
    ensures { IfOk result (λ is. is ≡ definition.is_folder text.now) }
{
    if !text.ends_with('/') {
        return Ok(false);
    }
    match WebUrl::parse(alloc, text)? {
        None => Ok(false),
        Some(url) => Ok(text == url.as_str()),
    }
}
