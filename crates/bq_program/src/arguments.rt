//! The words of a program's command line.

use crate::chosen::OptionFault;
use std::alloc::Global;
use std::io::ErrorKind;
use std::rt::Env;
use std::{env, io};

/// Returns the words of the command line, the program's name first. Words that are not UTF-8 are `BadOptions`.
pub fn words<R: AllocGlobal + Env>(rt: &R) -> Result<Vec<String>, OptionFault> {
    match env::args(rt) {
        Ok(words) => {
            let words: Vec<String> = words.collect(rt.alloc())?;
            Ok(words)
        }
        Err(e) => Err(fault_of_words(rt.alloc(), &e)),
    }
}

// Words that are not UTF-8 can't be options.
fn fault_of_words(alloc: Global, e: &io::Error) -> OptionFault {
    if e.kind() == ErrorKind::OutOfMemory {
        return OptionFault::NoMemory;
    }
    match String::from_str(
        alloc,
        "error: invalid UTF-8 was detected in one or more arguments\n",
    ) {
        Ok(text) => OptionFault::BadOptions(text),
        Err(_) => OptionFault::NoMemory,
    }
}
