ghost use Rattle.std.specs.Prelude.{◌≡◌, [], Some, map, IfOk, OnOk, All};
ghost use Rattle.std.specs.FinMap.{insert};
ghost use Rattle.layout_spec.specs.PutMappings.{nothing_mapped, mapped_at};
ghost use Rattle.layout_spec.specs.Serving.{scope_of};
ghost use Rattle.scope_builder.specs.Keys.{InKeyOrder};
ghost use Rattle.scope_builder.specs.Lists.{Lists};
ghost use Rattle.layout.specs.Grouped.{scopes_of, listed_scope};
ghost use Rattle.layout.specs.Laid.{laid_map};

use scope_builder::{Layout, Mappings, Scopes};
use shared_types::{Memory, Text};
use std::alloc::Global;
use std::collections::BTreeMap;

/// Specifiers and the URLs to which they are mapped.
type Scope = BTreeMap<Text, Text>;

/// Mappings that are laid, by their places.
#[derive(Drop)]
pub(crate) struct Laid {
    imports: Scope,
    scopes: BTreeMap<Text, Scope>,
}

impl Laid {
    pub(crate) fn new(alloc: Global) -> Laid
        ensures { laid_map result ≡ nothing_mapped }
    {
        Laid {
            imports: BTreeMap::new(alloc),
            scopes: BTreeMap::new(alloc),
        }
    }

    /// Puts a mapping at a place, over one that is there.
    pub(crate) fn put(
        &mut self,
        alloc: Global,
        place: &str,
        asked: &Text,
        target: &Text,
    ) -> Result<(), Memory>
        ensures { OnOk result (laid_map self.new ≡ mapped_at place.now asked.now target.now (laid_map self.old)) }
    {
        let asked = asked.copy(alloc)?;
        let target = target.copy(alloc)?;
        if place.is_empty() {
            self.imports.insert(asked, target)?;
            return Ok(());
        }
        let place = Text::of(alloc, place)?;
        put_in_scope(alloc, &mut self.scopes, place, asked, target)
    }

    /// The lists of the mappings.
    pub(crate) fn into_layout(self, alloc: Global) -> Result<Layout, Memory>
        ensures { IfOk result (λ layout. Lists layout [] (laid_map self)) }
    {
        let Laid { imports, scopes } = self;
        Ok(Layout {
            imports: Mappings::from_map(alloc, imports)?,
            scopes: listed(alloc, scopes)?,
        })
    }
}

fn put_in_scope(
    alloc: Global,
    scopes: &mut BTreeMap<Text, Scope>,
    place: Text,
    asked: Text,
    target: Text,
) -> Result<(), Memory>
    ensures { OnOk result (scopes_of scopes.new ≡ insert (scopes_of scopes.old) place
        (insert (scope_of (scopes_of scopes.old) place) asked (Some target))) }
{
    match scopes.get_mut(&place) {
        Some(scope) => {
            scope.insert(asked, target)?;
        }
        None => {
            let mut scope = BTreeMap::new(alloc);
            scope.insert(asked, target)?;
            scopes.insert(place, scope)?;
        }
    }
    Ok(())
}

fn listed(alloc: Global, grouped: BTreeMap<Text, Scope>) -> Result<Scopes, Memory>
    ensures scopes { IfOk result (λ scopes. scopes ≡ map listed_scope grouped.entries) }
    ensures in_order { IfOk result (λ scopes. InKeyOrder scopes × All (λ scope. InKeyOrder scope.1) scopes) }
{
    let mut scopes = Scopes::new(alloc);
    for (place, scope) in grouped {
        scopes.push(place, Mappings::from_map(alloc, scope)?)?;
    }
    Ok(scopes)
}
