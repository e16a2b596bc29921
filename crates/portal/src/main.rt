//! The program's entry point.
#![tactic(auto)]

use portal_run::{NamedFiles, Unknown, run, say};
use std::env::Env;
use std::io::ErrorKind;
use std::process::ExitCode;
use std::{env, io};

// Returns the command-line words; the error is `InvalidData` if a word is not UTF-8.
fn words_of(rt: &(impl Env + AllocGlobal)) -> io::Result<Vec<String>> {
    Ok(env::args(rt)?.collect(rt.alloc())?)
}

fn main(rt: HostRuntime) -> ExitCode {
    let mut writer = io::writer(&rt);
    let status = match words_of(&rt) {
        Ok(words) => {
            let files = NamedFiles { start: Unknown };
            run(&rt, words.as_slice(), files, &mut rt.reader(), &mut writer)
        }
        Err(error) => match error.kind() {
            ErrorKind::InvalidData => say(&mut writer, b"error: a word is no UTF-8 text\n", 2),
            _ => say(&mut writer, b"fault memory\n", 3),
        },
    };
    ExitCode::from(status)
}
