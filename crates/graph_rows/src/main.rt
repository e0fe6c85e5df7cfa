//! An arena and a graph, each put to work by hand: a place that is used twice, and a module that is a target and is taken
//! out. What is seen then is proved of the contracts alone. That there is memory for it, and for what it is done with, is
//! what is printed.
#![tactic(auto)]

ghost use Rattle.std.specs.Prelude.{◌≡◌, ◌<◌};

mod modules;
mod places;

use modules::{Led, lead, module_of};
use places::give_anew;
use shared_types::{Memory, Steps};
use std::alloc::Global;
use std::io;
use std::marker::Brand;
use std::sync::ledger::{Blank, Ledger};

/// Two modules, of which the first asks for the second; None where they can't be made.
fn led<L: Ledger>(alloc: Global, blank: Blank) -> Result<Option<Led>, Memory>
    requires name { blank.name ≡ L.name }
    requires parts { blank.parts ≡ L.parts }
    requires some { 0 < blank.parts }
{
    let mut steps = Steps::<L>::start(blank);
    let text = String::from_str(alloc, "import \"./b.mjs\";")?;
    let none = String::new(alloc);
    let Some(first) = module_of(alloc, "/a.mjs", &text, &mut steps)? else {
        return Ok(None);
    };
    let Some(second) = module_of(alloc, "/b.mjs", &none, &mut steps)? else {
        return Ok(None);
    };
    if !first.is_well_made() || !second.is_well_made() || first.requests.len() == 0 {
        return Ok(None);
    }
    Ok(Some(lead(alloc, first, second)?))
}

fn main(rt: HostRuntime) -> io::Result<()> {
    match give_anew(rt.alloc(), 7, 8) {
        Ok((taken, old, new)) => {
            println!(rt;
                "taken out: {taken:?}, then under its slot: {old:?}, and under the new one: {new:?}"
            )?;
        }
        Err(_) => println!(rt; "no memory for two values")?,
    }
    let Ok(Some(led)) = led::<Brand>(rt.alloc(), Blank::new(1)) else {
        println!(rt; "no two modules")?;
        return Ok(());
    };
    let Led {
        second,
        target,
        is_there,
        after,
    } = led;
    let leads = target == Some(second);
    let names = after == Some(second);
    println!(rt;
        "target is the second: {leads}, there once it is taken out: {is_there}, still the target: {names}"
    )?;
    Ok(())
}
