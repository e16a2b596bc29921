//! Runs any command, and returns its exit status.

ghost use Rattle.std.specs.Prelude.{◌≡◌, ◌<◌, ◌≤◌, ◌⊎◌, ◌∷◌, [], codes, drop, map, None};
ghost use Rattle.std.specs.Prelude.{IfSome, IfOk, IsErr, IsTrue};
ghost use Rattle.clap.specs.Words.{Text};
ghost use Rattle.portal_words.specs.Line.{TakesDatabase, is_file_word};
ghost use Rattle.portal_run.specs.Databases.{PerformsCommand, PerformsNamed, known};
ghost use Rattle.portal_run.specs.Run.{AnswersSome, ConsumesAtMost, WritesAnswer};
ghost use Rattle.portal_run.specs.Commands.{IsOfFile, task_of};
ghost use Rattle.portal_desk.specs.Kept.{TakesAtMost, taken_limit};

use crate::databases::Databases;
use crate::init::{init, upgrade_over};
use crate::input::{InputFault, bytes_of};
use crate::output::{say, say_fault};
use crate::serve::{pipe_over, report_over, serve_over};
use portal_answer::{Task, answer_to};
use portal_desk::Cause;
use portal_words::{Asked, Command, command_of};
use std::alloc::Global;
use std::convert::AsStr;
use std::io::{Read, Write};
use std::{fs, io};

/// The highest exit status of a help text or a usage error; 3 reports a fault.
const WORST_STATUS: u8 = 2;

/// Reads an instance file from a reader, and writes the answer.
fn answer<R: Read, W: Write>(alloc: Global, task: Task, reader: &mut R, writer: &mut W) -> u8
    ensures bound { result ≤ 3 }
    ensures takes { ConsumesAtMost 4194305 (R.remaining reader.old) (R.remaining reader.new) }
    ensures answers { result < 3 → WritesAnswer task (R.remaining reader.old) result
        (W.contents writer.old) (W.contents writer.new) }
    ensures some { result < 3 → AnswersSome task result (W.contents writer.old)
        (W.contents writer.new) }
{
    let bytes = match bytes_of(alloc, reader) {
        Ok(bytes) => bytes,
        Err(InputFault::Read) => return say_fault(writer, Cause::Read),
        Err(InputFault::Memory) => return say_fault(writer, Cause::Memory),
    };
    match answer_to(alloc, task, &bytes) {
        Ok(told) => say(writer, &told.text, told.status),
        Err(_) => say_fault(writer, Cause::Memory),
    }
}

/// Writes the answer to an opened file, or reports a read fault if opening failed.
fn answer_opened<F: Read + Drop, W: Write>(
    alloc: Global,
    task: Task,
    opened: io::Result<F>,
    writer: &mut W,
) -> u8
    ensures bound { result ≤ 3 }
    ensures answers { IfOk opened (λ f. result < 3
        → WritesAnswer task (F.remaining f) result (W.contents writer.old)
        (W.contents writer.new)) }
    ensures some { result < 3 → AnswersSome task result (W.contents writer.old)
        (W.contents writer.new) }
    ensures closed { IsErr opened → result ≡ 3 }
{
    match opened {
        Ok(mut file) => answer(alloc, task, &mut file, writer),
        Err(_) => say_fault(writer, Cause::Read),
    }
}

/// Writes the answer to a named file, or to the standard input if no file is named.
fn answer_file<R: Read, W: Write>(
    rt: &HostRuntime,
    task: Task,
    file: Option<&str>,
    reader: &mut R,
    writer: &mut W,
) -> u8
    ensures bound { result ≤ 3 }
    ensures takes { ConsumesAtMost 4194305 (R.remaining reader.old) (R.remaining reader.new) }
    ensures answers { file.entry ≡ None → result < 3
        → WritesAnswer task (R.remaining reader.old) result (W.contents writer.old)
        (W.contents writer.new) }
    ensures some { result < 3 → AnswersSome task result (W.contents writer.old)
        (W.contents writer.new) }
{
    match file {
        None => answer(rt.alloc(), task, reader, writer),
        Some(path) => answer_opened(rt.alloc(), task, fs::open(rt, path), writer),
    }
}

/// Performs a command and returns the exit status. `check` and `solve` write the answer to their
/// task for the bytes of the instance file; the status is 3 if reading or writing fails. A command
/// over a database does its work over the one at the path that is named, once, and writes the line
/// of what came of it, with that line's status; or it stops before, and says why. `init` makes the
/// tables with the first line of the input as the office's code. If the output fails, beginnings of
/// these lines are written, and the status is 3.
///
/// No contract says which file `NamedFiles` finds at a path, that nothing else is done to files, or
/// that the port that is told is the one listened on: this is read in this crate, and tested.
#[tactic(auto, using(crate::proofs::Taken::few_taken, crate::proofs::Taken::same_left))]
pub fn run_command<F: Databases, R: Read, W: Write>(
    rt: &HostRuntime,
    command: Command<'_>,
    files: F,
    reader: &mut R,
    writer: &mut W,
) -> u8
    ensures bound { result ≤ 3 }
    ensures takes { TakesAtMost taken_limit (R.remaining reader.old) (R.remaining reader.new) }
    ensures files { IsOfFile command.entry
        → ConsumesAtMost 4194305 (R.remaining reader.old) (R.remaining reader.new) }
    ensures check { command.entry ≡ Command.Check None → result < 3
        → WritesAnswer Task.Check (R.remaining reader.old) result (W.contents writer.old)
        (W.contents writer.new) }
    ensures own_task { IfSome (task_of command.entry)
        (λ task. result < 3
        → AnswersSome task result (W.contents writer.old) (W.contents writer.new)) }
    ensures solve { command.entry ≡ Command.Solve None → result < 3
        → WritesAnswer Task.Solve (R.remaining reader.old) result (W.contents writer.old)
        (W.contents writer.new) }
    ensures performs { PerformsCommand W.contents (known F.stands F.over files) (record {
      remaining = R.remaining reader.old;
      left = R.remaining reader.new;
      before = W.contents writer.old;
      after = W.contents writer.new;
    }) result command.entry }
{
    match command {
        Command::Check(file) => answer_file(rt, Task::Check, file, reader, writer),
        Command::Solve(file) => answer_file(rt, Task::Solve, file, reader, writer),
        Command::Init(database) => init(rt, files, database, reader, writer),
        Command::Serve {
            database,
            port,
            connections,
        } => serve_over(rt, files, database, port, connections, writer),
        Command::Pipe(database) => pipe_over(rt, files, database, reader, writer),
        Command::Report(database) => report_over(rt, files, database, writer),
        Command::Upgrade(database) => upgrade_over(rt, files, database, writer),
    }
}

/// Performs the command that the words name, and returns the exit status, at most 3. It takes at
/// most 272,629,760 bytes from a reader whose bytes are known; `check` and `solve` take at most
/// 4,194,305. `check FILE` and `solve FILE` write the answer to their task unless the name begins
/// with `-`. Their status is 3 if reading the file or writing the answer fails. `init`, `pipe`,
/// `report` and `upgrade` work over the database that is named unless its name begins with `-`, and
/// say what came of it, as `run_command` does; no clause says how the words of `serve` are read.
#[tactic(auto, using(crate::proofs::Taken::same_left))]
pub fn run<S: AsStr, F: Databases, R: Read, W: Write>(
    rt: &HostRuntime,
    words: &[S],
    files: F,
    reader: &mut R,
    writer: &mut W,
) -> u8
    ensures bound { result ≤ 3 }
    ensures takes { TakesAtMost taken_limit (R.remaining reader.old) (R.remaining reader.new) }
    ensures files { (drop 1 (map S.text words.entry.now) ≡ codes "check" ∷ [])
        ⊎ (drop 1 (map S.text words.entry.now) ≡ codes "solve" ∷ [])
        → ConsumesAtMost 4194305 (R.remaining reader.old) (R.remaining reader.new) }
    ensures check { drop 1 (map S.text words.entry.now) ≡ codes "check" ∷ [] → result < 3
        → WritesAnswer Task.Check (R.remaining reader.old) result (W.contents writer.old)
        (W.contents writer.new) }
    ensures solve { drop 1 (map S.text words.entry.now) ≡ codes "solve" ∷ [] → result < 3
        → WritesAnswer Task.Solve (R.remaining reader.old) result (W.contents writer.old)
        (W.contents writer.new) }
    ensures check_file { (file : Text)
        → drop 1 (map S.text words.entry.now) ≡ codes "check" ∷ file ∷ []
        → IsTrue (is_file_word file)
        → result < 3 → AnswersSome Task.Check result (W.contents writer.old)
        (W.contents writer.new) }
    ensures solve_file { (file : Text)
        → drop 1 (map S.text words.entry.now) ≡ codes "solve" ∷ file ∷ []
        → IsTrue (is_file_word file)
        → result < 3 → AnswersSome Task.Solve result (W.contents writer.old)
        (W.contents writer.new) }
    ensures database { (name db : Text) → TakesDatabase name
        → drop 1 (map S.text words.entry.now) ≡ name ∷ db ∷ [] → IsTrue (is_file_word db)
        → PerformsNamed W.contents (known F.stands F.over files) (record {
          remaining = R.remaining reader.old;
          left = R.remaining reader.new;
          before = W.contents writer.old;
          after = W.contents writer.new;
        }) result name db }
{
    match command_of(rt.alloc(), words) {
        Ok(Asked::Do(command)) => run_command(rt, command, files, reader, writer),
        Ok(Asked::Show { text, status }) => say(writer, text.as_bytes(), status.min(WORST_STATUS)),
        Err(_) => say_fault(writer, Cause::Memory),
    }
}
