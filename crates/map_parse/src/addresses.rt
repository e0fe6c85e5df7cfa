ghost use Rattle.std.specs.Prelude.{◌≡◌, ◌<◌, ◌≤◌, ℕ, length, take, IfOk, IfSome, OnOk, None, option_map};
ghost use Rattle.std.specs.FinMap.{get};
ghost use Rattle.url_spec.specs.Parsing.{IsUrl};
ghost use Rattle.import_map_spec.specs.Parsing as definition;
ghost use Rattle.import_map_spec.specs.Parsing.{normalized_addresses, with_address, fitting};
ghost use Rattle.url_spec.specs.Specifiers.{as_url, normalized};
ghost use Rattle.ordered_json.specs.Lists.{pairs_of};
ghost use Rattle.ordered_json.specs.Shown.{json_of, members_of};

use crate::text_map::Gathering;
use crate::{TextMap, UrlText};
use ordered_json::{Members, Value};
use shared_types::{Memory, Text};
use std::alloc::Global;
use std::marker::Model;
use web_url::{WebUrl, as_url, ends_in_slash, normalized};

/// A module specifier map: keys with their addresses, some of which are null.
#[derive(Drop)]
pub struct Addresses {
    entries: TextMap<Option<UrlText>>,
}

impl Model for Addresses {
    ghost use Rattle.std.specs.Prelude.{List, ℕ, Option};
    ghost use Rattle.std.specs.Ordering.{nat_cmp};
    ghost use Rattle.std.specs.Cmp.Lexicographic.{slice_cmp};
    ghost use Rattle.std.specs.FinMap as map;
    ghost use Rattle.std.specs.Coded.{coded_ℕ, coded_list, coded_option};

    ghost Value = { map.FinMap (slice_cmp nat_cmp) (Option (List ℕ)) };

    ghost coded = { map.code (coded_list coded_ℕ) (coded_option (coded_list coded_ℕ)) };

    ghost view = { λ a. a.entries };
}

impl Addresses {
    /// The address of a key, which is None where it is null; None where there is no such key.
    pub fn get(&self, key: &str) -> Option<Option<&str>>
        ensures { option_map (λ address. option_map (λ url. url.now) address) result ≡ get self.now key.now }
    {
        match self.address(key) {
            None => None,
            Some(None) => Some(None),
            Some(Some(url)) => Some(Some(url.as_str())),
        }
    }

    /// The same with an address that can be parsed.
    pub fn address(&self, key: &str) -> Option<Option<&UrlText>>
        ensures { option_map (λ address. option_map (λ url. url.now) address) result ≡ get self.now key.now }
    {
        match self.entries.get(key) {
            None => None,
            Some(None) => Some(None),
            Some(Some(url)) => Some(Some(url)),
        }
    }

    /// How far keys go with a text: of its fronts that are longer, none is a key.
    pub fn reach(&self, text: &str) -> usize
        ensures within { result ≤ length text.now }
        ensures none { (n : ℕ) → result < n → n ≤ length text.now → get self.now (take n text.now) ≡ None }
    {
        self.entries.reach(text)
    }

    /// The addresses that the members of an object give.
    pub(crate) fn of(alloc: Global, base: &WebUrl, members: &Members) -> Result<Addresses, Memory>
        ensures { IfOk result (λ addresses.
            addresses ≡ normalized_addresses base.now (members_of (pairs_of members.now))) }
    {
        let gathering = gathered(alloc, base, members)?;
        Ok(Addresses {
            entries: gathering.into_map()?,
        })
    }

    /// The same of members that are moved: each gives its memory back once it was read.
    pub(crate) fn from_members(
        alloc: Global,
        base: &WebUrl,
        members: Members,
    ) -> Result<Addresses, Memory>
        ensures { IfOk result (λ addresses. addresses ≡ normalized_addresses base.now (members_of (pairs_of members))) }
    {
        let gathering = gathered_from(alloc, base, members)?;
        Ok(Addresses {
            entries: gathering.into_map()?,
        })
    }
}

fn gathered_from(
    alloc: Global,
    base: &WebUrl,
    members: Members,
) -> Result<Gathering<Option<UrlText>>, Memory>
    ensures { IfOk result (λ addresses. addresses ≡ normalized_addresses base.now (members_of (pairs_of members))) }
{
    let mut addresses = Gathering::with_room(alloc, members.len())?;
    let mut pairs = members.into_pairs()?;
    pairs.reverse();
    while let Some((key, value)) = pairs.pop() {
        put_address(alloc, base, &mut addresses, &key, &value)?;
    }
    Ok(addresses)
}

fn gathered(
    alloc: Global,
    base: &WebUrl,
    members: &Members,
) -> Result<Gathering<Option<UrlText>>, Memory>
    ensures { IfOk result (λ addresses. addresses ≡ normalized_addresses base.now (members_of (pairs_of members.now))) }
{
    let mut addresses = Gathering::with_room(alloc, members.len())?;
    let mut rest = members.as_slice();
    while let Some((pair, more)) = rest.split_first() {
        put_address(alloc, base, &mut addresses, &pair.0, &pair.1)?;
        rest = more;
    }
    Ok(addresses)
}

// Puts what a member gives.
fn put_address(
    alloc: Global,
    base: &WebUrl,
    addresses: &mut Gathering<Option<UrlText>>,
    key: &Text,
    value: &Value,
) -> Result<(), Memory>
    ensures { OnOk result (addresses.new ≡ with_address base.now key.now (json_of value.now) addresses.old) }
{
    if key.is_empty() {
        return Ok(());
    }
    let address = address_of(alloc, base, key.as_str(), value)?;
    addresses.put(normalized_key(alloc, base, key)?, address)
}

// A key that is normal shares the memory of what was written.
fn normalized_key(alloc: Global, base: &WebUrl, key: &Text) -> Result<Text, Memory>
    ensures { IfOk result (λ text. text ≡ normalized base.now key.now) }
{
    let text = normalized(alloc, key.as_str(), base)?;
    if text == *key {
        key.copy(alloc)
    } else {
        Ok(text)
    }
}

// The address of a key, or null.
fn address_of(
    alloc: Global,
    base: &WebUrl,
    key: &str,
    value: &Value,
) -> Result<Option<UrlText>, Memory>
    ensures { IfOk result (λ address. address ≡ definition.address_of base.now key.now (json_of value.now)) }
{
    match value {
        Value::Text(text) => url_for(alloc, base, key, text),
        Value::Null => Ok(None),
        Value::Bool(_) => Ok(None),
        Value::Number(_) => Ok(None),
        Value::List(_) => Ok(None),
        Value::Object(_) => Ok(None),
    }
}

// The URL of a text, where it may be the address of the key.
fn url_for(alloc: Global, base: &WebUrl, key: &str, text: &Text) -> Result<Option<UrlText>, Memory>
    ensures { IfOk result (λ address. address ≡ fitting key.now (as_url base.now text.now)) }
{
    match as_url(alloc, text.as_str(), base)? {
        None => Ok(None),
        Some(url) => {
            if ends_in_slash(key) && !ends_in_slash(url.as_str()) {
                Ok(None)
            } else {
                Ok(Some(UrlText::of(alloc, &url, text)?))
            }
        }
    }
}
