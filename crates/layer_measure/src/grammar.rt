ghost use Rattle.std.specs.Prelude.{◌≡◌, ◌<◌};

use es_grammar::{Strict, strict};
use es_module_parser::outline;
use shared_types::Steps;
use std::alloc::Global;
use std::marker::Brand;
use std::rt::Runtime;
use std::sync::ledger::{Blank, Ledger};
use std::{fs, io};

/// What is told of a text.
#[derive(Clone, Copy, Debug, PartialEq, Eq)]
enum Report {
    Agrees,
    Differs,
    Syntax(usize),
    TooDeep,
    /// It can't be read, or isn't a text.
    Unread,
    /// It has no outline.
    Fault,
    Memory,
}

// A `&str` here would leave no ghost members to pick at the call.
fn report_on<L: Ledger>(alloc: Global, text: &String, blank: Blank) -> Report
    requires name { blank.name ≡ L.name }
    requires parts { blank.parts ≡ L.parts }
    requires some { 0 < blank.parts }
{
    let mut steps = Steps::<L>::start(blank);
    let text = text.as_str();
    match outline(alloc, text, &mut steps) {
        Err(_) => Report::Fault,
        Ok(outline) => match strict(alloc, text, &outline) {
            Ok(Strict::Agrees) => Report::Agrees,
            Ok(Strict::Differs { .. }) => Report::Differs,
            Ok(Strict::Syntax { at }) => Report::Syntax(at),
            Ok(Strict::TooDeep) => Report::TooDeep,
            Err(_) => Report::Memory,
        },
    }
}

fn tell_report<R: Runtime>(rt: &R, report: Report, name: &str) -> io::Result<()> {
    match report {
        Report::Agrees => println!(rt; "agrees {name}"),
        Report::Differs => println!(rt; "differs {name}"),
        Report::Syntax(at) => println!(rt; "syntax at {at} {name}"),
        Report::TooDeep => println!(rt; "too deep {name}"),
        Report::Unread => println!(rt; "unread {name}"),
        Report::Fault => println!(rt; "no outline {name}"),
        Report::Memory => println!(rt; "no memory {name}"),
    }
}

/// What the statement grammar says of a module.
pub fn tell<R: Runtime + AllocGlobal>(rt: &R, name: &String) -> io::Result<()> {
    let report = match fs::read_to_string(rt, name.as_str()) {
        Ok(text) => report_on::<Brand>(rt.alloc(), &text, Blank::new(1)),
        Err(_) => Report::Unread,
    };
    tell_report(rt, report, name.as_str())
}
