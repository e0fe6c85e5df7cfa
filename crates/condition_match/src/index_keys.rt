//! Keys of an object that are array indices.
ghost use Rattle.std.specs.Prelude.{◌≡◌};
ghost use Rattle.json_spec.specs.PropertyOrder.{is_array_index};
ghost use Rattle.node_spec.specs.PackageTargets.{has_index_key};
ghost use Rattle.ordered_json.specs.Lists.{pairs_of};
ghost use Rattle.ordered_json.specs.Shown.{members_of};

use crate::choice::member_at;
use ordered_json::{Members, array_index};

/// Whether a key is an array index.
pub fn has_index_key(members: &Members) -> bool
    ensures { result ≡ has_index_key (members_of (pairs_of members.now)) }
{
    for index in 0..members.len() {
        let (key, _) = member_at(members, index);
        if is_array_index(key.as_str().as_bytes()) {
            return true;
        }
    }
    false
}

fn is_array_index(key: &[u8]) -> bool
    ensures { result ≡ is_array_index key.now }
{
    match array_index(key) {
        Some(_) => true,
        None => false,
    }
}
