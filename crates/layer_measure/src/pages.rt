use html_inject::{InjectFault, inject};
use html_scan::Scanner;
use std::alloc::Global;
use std::rt::Runtime;
use std::{fs, io};

fn count(text: &str) -> usize {
    let mut scanner = Scanner::new(text);
    for count in 0..=text.len() {
        if scanner.next().is_none() {
            return count;
        }
    }
    text.len()
}

fn injected(alloc: Global, page: &[u8]) -> Result<Vec<u8>, InjectFault> {
    inject(alloc, page, b"{}".as_slice())
}

/// The pieces of a page.
pub fn tell_pieces<R: Runtime + AllocGlobal>(rt: &R, name: &String) -> io::Result<()> {
    let text = fs::read_to_string(rt, name.as_str())?;
    let pieces = count(text.as_str());
    println!(rt; "{pieces} pieces")
}

/// The bytes of a page with a map put into it.
pub fn tell_injected<R: Runtime + AllocGlobal>(rt: &R, name: &String) -> io::Result<()> {
    let page = fs::read(rt, name.as_str())?;
    match injected(rt.alloc(), page.as_slice()) {
        Ok(page) => {
            let bytes = page.as_slice().len();
            println!(rt; "{bytes} bytes")
        }
        Err(InjectFault::PageUnclear { at }) => println!(rt; "PageUnclear at {at}"),
        Err(InjectFault::TwoMaps { at }) => println!(rt; "TwoMaps at {at}"),
        Err(InjectFault::NoPlace) => println!(rt; "NoPlace"),
        Err(InjectFault::Memory) => println!(rt; "Memory"),
    }
}
