//! The compiler as a program: `maxjc` on the words after its own name, the files of the system, the
//! standard output and the program's pattern of stalls. It ends with the status as its exit status.
#![tactic(auto)]

use maxjc_core::{Status, maxjc};
use mx_base::{RealFiles, StdSay, Text};
use stall_source::{Pattern, program_stalls};
use std::io::ErrorKind;
use std::process::ExitCode;
use std::rt::Env;
use std::{env, io};

// The words after the program's own name.
fn words_of(rt: &(impl Env + AllocGlobal)) -> io::Result<Vec<Text>> {
    let mut words = Vec::new(rt.alloc());
    for word in env::args(rt)?.skip(1) {
        words.push(Text::from_vec(word.into_bytes()))?;
    }
    Ok(words)
}

// How the program ends where it can't have its words. A word that isn't UTF-8 is one that can't be
// read.
fn status_without_words(error: &io::Error) -> Status {
    match error.kind() {
        ErrorKind::OutOfMemory => Status::NoMemory,
        _ => Status::ReadFault,
    }
}

fn main(rt: HostRuntime) -> ExitCode {
    let words = match words_of(&rt) {
        Ok(words) => words,
        Err(error) => return ExitCode::from(status_without_words(&error).code()),
    };
    let Ok(mut files) = RealFiles::new(rt.alloc(), &rt) else {
        return ExitCode::from(Status::NoMemory.code());
    };
    let mut say = StdSay::new(&rt);
    let stalls = Pattern::new(|pick: u64, edge: u64, port: u32| program_stalls(pick, edge, port));
    let status = maxjc(rt.alloc(), &words, &mut files, &mut say, &stalls);
    ExitCode::from(status.code())
}
