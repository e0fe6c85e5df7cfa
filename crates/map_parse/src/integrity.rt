ghost use Rattle.std.specs.Prelude.{◌≡◌, IfOk, OnOk};
ghost use Rattle.import_map_spec.specs.Parsing.{normalized_integrity, with_integrity};
ghost use Rattle.url_spec.specs.Specifiers.{as_url};
ghost use Rattle.ordered_json.specs.Lists.{pairs_of};
ghost use Rattle.ordered_json.specs.Shown.{json_of, members_of};

use crate::TextMap;
use crate::text_map::Gathering;
use ordered_json::{Members, Value};
use shared_types::{Memory, Text};
use std::alloc::Global;
use web_url::{WebUrl, as_url};

/// The integrity that the members of an object give. They are moved: each gives its memory back once it was read.
pub fn integrity_of(alloc: Global, base: &WebUrl, members: Members) -> Result<TextMap<Text>, Memory>
    ensures { IfOk result (λ digests. digests ≡ normalized_integrity base.now (members_of (pairs_of members))) }
{
    let digests = gathered(alloc, base, members)?;
    digests.into_map()
}

fn gathered(alloc: Global, base: &WebUrl, members: Members) -> Result<Gathering<Text>, Memory>
    ensures { IfOk result (λ digests. digests ≡ normalized_integrity base.now (members_of (pairs_of members))) }
{
    let mut digests = Gathering::with_room(alloc, members.len())?;
    let mut pairs = members.into_pairs()?;
    pairs.reverse();
    while let Some((key, value)) = pairs.pop() {
        put_digest(alloc, base, &mut digests, key.as_str(), &value)?;
    }
    Ok(digests)
}

// Puts what a member gives.
fn put_digest(
    alloc: Global,
    base: &WebUrl,
    digests: &mut Gathering<Text>,
    key: &str,
    value: &Value,
) -> Result<(), Memory>
    ensures { OnOk result (digests.new ≡ with_integrity (as_url base.now key.now) (json_of value.now) digests.old) }
{
    match as_url(alloc, key, base)? {
        None => Ok(()),
        Some(url) => match value {
            Value::Text(text) => digests.put(url.into_text(alloc)?, text.copy(alloc)?),
            Value::Null => Ok(()),
            Value::Bool(_) => Ok(()),
            Value::Number(_) => Ok(()),
            Value::List(_) => Ok(()),
            Value::Object(_) => Ok(()),
        },
    }
}
