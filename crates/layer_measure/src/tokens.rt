use es_lexer::{LexFault, Lexer};
use std::alloc::{AllocError, Global};
use std::rt::Runtime;
use std::{fs, io};

/// How many tokens stand before the end or the first fault, and the fault.
fn count(alloc: Global, text: &str) -> Result<(usize, Option<LexFault>), AllocError> {
    let mut lexer = Lexer::new(alloc, text)?;
    for count in 0..=text.len() {
        match lexer.next() {
            Ok(Some(_)) => {}
            Ok(None) => return Ok((count, None)),
            Err(fault) => return Ok((count, Some(fault))),
        }
    }
    Ok((text.len(), None))
}

/// The tokens of a file.
pub fn tell<R: Runtime + AllocGlobal>(rt: &R, name: &String) -> io::Result<()> {
    let text = fs::read_to_string(rt, name.as_str())?;
    let (tokens, fault) = count(rt.alloc(), text.as_str())?;
    match fault {
        None => println!(rt; "{tokens} tokens"),
        Some(fault) => {
            let at = fault.at;
            println!(rt; "{tokens} tokens, fault at {at}")
        }
    }
}
