ghost use Rattle.std.specs.Prelude.{◌≡◌, ◌<◌};

use es_module_parser::{OutlineFault, outline};
use shared_types::Steps;
use std::alloc::Global;
use std::marker::Brand;
use std::rt::Runtime;
use std::sync::ledger::{Blank, Ledger};
use std::{fs, io};

/// What is told of a text.
#[derive(Clone, Copy, Debug, PartialEq, Eq)]
enum Report {
    /// The number of its requests, and whether it is a module's.
    Requests(usize, bool),
    Fault(OutlineFault),
}

// A `&str` here would leave no ghost members to pick at the call.
fn report_on<L: Ledger>(alloc: Global, text: &String, blank: Blank) -> Report
    requires name { blank.name ≡ L.name }
    requires parts { blank.parts ≡ L.parts }
    requires some { 0 < blank.parts }
{
    let mut steps = Steps::<L>::start(blank);
    match outline(alloc, text.as_str(), &mut steps) {
        Ok(outline) => Report::Requests(outline.requests.len(), outline.declares),
        Err(fault) => Report::Fault(fault),
    }
}

/// The requests of a module.
pub fn tell<R: Runtime + AllocGlobal>(rt: &R, name: &String) -> io::Result<()> {
    let text = fs::read_to_string(rt, name.as_str())?;
    match report_on::<Brand>(rt.alloc(), &text, Blank::new(1)) {
        Report::Requests(count, true) => println!(rt; "{count} requests, a module"),
        Report::Requests(count, false) => println!(rt; "{count} requests, no module"),
        Report::Fault(OutlineFault::Unreadable { at }) => println!(rt; "unreadable at {at}"),
        Report::Fault(OutlineFault::TooDeep) => println!(rt; "too deep"),
        Report::Fault(OutlineFault::TooManyRequests) => println!(rt; "too many requests"),
        Report::Fault(OutlineFault::Memory) => println!(rt; "no memory"),
    }
}
