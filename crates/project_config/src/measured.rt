ghost use Rattle.std.specs.Prelude.{◌≡◌, ◌∷◌, [], codes, IfOk};
ghost use Rattle.config_spec.specs.Projects as spec;

use crate::defaults::{first_conditions, first_page};
use shared_types::{Listed, Memory, Text};
use std::alloc::{AllocError, Global};
use trace_config::Config;
use web_url::{Base, BaseFault};

/// The base of a measure.
const BASE: &str = "https://app.test/";

/// The entry of a measure.
const ENTRY: &str = "./app.mjs";

/// The config of a measure.
pub fn measure_config(alloc: Global) -> Result<Config, Memory>
    ensures { IfOk result (λ config. config ≡ spec.measure_config) }
{
    let base = measure_base(alloc)?;
    let page = first_page(alloc)?;
    let conditions = first_conditions(alloc)?;
    let entries = measure_entries(alloc)?;
    Ok(Config::new(base, page, conditions, entries))
}

fn measure_entries(alloc: Global) -> Result<Listed<Text>, Memory>
    ensures { IfOk result (λ entries. entries ≡ codes "./app.mjs" ∷ []) }
{
    let mut entries = Listed::new(alloc);
    entries.push(Text::of(alloc, ENTRY)?)?;
    Ok(entries)
}

fn measure_base(alloc: Global) -> Result<Base, Memory>
    ensures { IfOk result (λ base. base ≡ codes "https://app.test/") }
{
    match Base::parse(alloc, BASE) {
        Ok(base) => Ok(base),
        Err(BaseFault::Memory) => Err(AllocError),
        Err(BaseFault::BadBase) => unreachable!(),
    }
}
