//! Runs `check` or `solve` on the standard input. `./portal --unproved` tries this program where the whole one is not compiled yet.
#![tactic(auto)]

use portal_answer::{Task, answer_to};
use std::env::Env;
use std::io::{Read, Write};
use std::process::ExitCode;
use std::{env, io};

// Returns the task that the last word of the command line names.
fn task_of(rt: &(impl Env + AllocGlobal)) -> Option<Task> {
    let words: Vec<String> = env::args(rt).ok()?.collect(rt.alloc()).ok()?;
    match words.last()?.as_str() {
        "check" => Some(Task::Check),
        "solve" => Some(Task::Solve),
        _ => None,
    }
}

fn main(rt: HostRuntime) -> ExitCode {
    let task = match task_of(&rt) {
        Some(task) => task,
        None => return ExitCode::from(2),
    };
    let mut input = Vec::new(rt.alloc());
    if rt.reader().read_to_end(&mut input).is_err() {
        return ExitCode::from(3);
    }
    match answer_to(rt.alloc(), task, &input) {
        Ok(told) => match io::writer(&rt).write_all(&told.text) {
            Ok(()) => ExitCode::from(told.status),
            Err(_) => ExitCode::from(3),
        },
        Err(_) => ExitCode::from(3),
    }
}
