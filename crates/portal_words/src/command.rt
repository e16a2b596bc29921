//! Parses the command line into a command or a text to print.

ghost use Rattle.std.specs.Prelude.{◌≡◌, ◌∷◌, [], codes, drop, map, IfOk, IfErr, IsTrue, IsSomeAnd};
ghost use Rattle.std.specs.Prelude.{Option, Some, None};
ghost use Rattle.clap.specs.Words.{Text, first_of, found_of, kind_of, rows_of, subcommand_rows_of};
ghost use Rattle.portal_words.specs.inner.Asks.{Asks, ChecksFile, IsOverDatabase, SolvesFile};
ghost use Rattle.portal_words.specs.Line.{TakesDatabase, is_file_word};
ghost use Rattle.portal_words.specs.inner.Arguments.{AsksDatabase, AsksFile, MeetsDatabase};
ghost use Rattle.portal_words.specs.inner.Arguments.{MeetsFile};

use crate::build::portal;
use clap::error::ErrorKind;
use clap::{ArgMatches, Error};
use std::alloc::{AllocError, Global};
use std::convert::AsStr;

/// A command of the program, with its arguments.
#[derive(Clone, Copy, Debug)]
pub enum Command<'a> {
    /// Print the blocking pairs of a file, or of the standard input.
    Check(Option<&'a str>),
    /// Print the student-optimal stable matching of a file, or of the standard input.
    Solve(Option<&'a str>),
    /// Create a database. The first line of the standard input is the office's code.
    Init(&'a str),
    /// Serve a database on a port, for a given number of connections.
    Serve {
        database: &'a str,
        port: u16,
        connections: u32,
    },
    /// Answer the requests on the standard input as one connection.
    Pipe(&'a str),
    /// Print the status of a database, and its result if one is available.
    Report(&'a str),
    /// Upgrade a database from version 1 to version 2.
    Upgrade(&'a str),
}

/// The outcome of parsing: a command to run, or a text to show with an exit status.
#[derive(Debug, Drop)]
pub enum Asked<'a> {
    Do(Command<'a>),
    Show { text: String, status: u8 },
}

// Returns the command `serve` with the arguments that the parser matched.
fn serve_command<'a>(matches: &ArgMatches<'a>) -> Option<Command<'a>> {
    Some(Command::Serve {
        database: matches.get_str("DB")?,
        port: matches.get_one("port")?,
        connections: matches.get_one("connections")?,
    })
}

// Returns the command for the name of a subcommand that takes only a database.
fn on_database<'a>(name: &str, database: &'a str) -> Option<Command<'a>>
    ensures { TakesDatabase name.now → IsSomeAnd result (IsOverDatabase name.now database.now) }
{
    match name {
        "init" => Some(Command::Init(database)),
        "pipe" => Some(Command::Pipe(database)),
        "report" => Some(Command::Report(database)),
        "upgrade" => Some(Command::Upgrade(database)),
        _ => None,
    }
}

// Returns the command for a subcommand's name and matches.
fn command_named<'a>(name: &str, matches: &ArgMatches<'a>) -> Option<Command<'a>>
    ensures check { name.now ≡ codes "check"
        → IsSomeAnd result (ChecksFile (first_of (codes "FILE") (rows_of (found_of matches.now)))) }
    ensures solve { name.now ≡ codes "solve"
        → IsSomeAnd result (SolvesFile (first_of (codes "FILE") (rows_of (found_of matches.now)))) }
    ensures database { (db : Text) → TakesDatabase name.now
        → first_of (codes "DB") (rows_of (found_of matches.now)) ≡ Some db
        → IsSomeAnd result (IsOverDatabase name.now db) }
{
    match name {
        "check" => Some(Command::Check(matches.get_str("FILE"))),
        "solve" => Some(Command::Solve(matches.get_str("FILE"))),
        "serve" => serve_command(matches),
        _ => on_database(name, matches.get_str("DB")?),
    }
}

// Returns the command for the subcommand that was matched.
fn command_matched<'a>(matches: &ArgMatches<'a>) -> Option<Command<'a>>
    ensures check { (file : Option Text)
        → MeetsFile (subcommand_rows_of matches.now) (codes "check") file
        → IsSomeAnd result (ChecksFile file) }
    ensures solve { (file : Option Text)
        → MeetsFile (subcommand_rows_of matches.now) (codes "solve") file
        → IsSomeAnd result (SolvesFile file) }
    ensures database { (name db : Text)
        → MeetsDatabase (subcommand_rows_of matches.now) name db → TakesDatabase name
        → IsSomeAnd result (IsOverDatabase name db) }
{
    match matches.subcommand() {
        Some((name, inner)) => command_named(name, inner),
        None => None,
    }
}

// Parses the words of a command line into matches.
fn matches_of<'a, S: AsStr>(alloc: Global, words: &'a [S]) -> Result<ArgMatches<'a>, Error>
    ensures matches { (name : Text) (file : Option Text)
        → AsksFile (map S.text words.entry.now) name file
        → IfOk result (λ m. MeetsFile (subcommand_rows_of m) name file) }
    ensures passes { (name : Text) (file : Option Text)
        → AsksFile (map S.text words.entry.now) name file
        → IfErr result (λ e. kind_of e ≡ ErrorKind.OutOfMemory) }
    ensures database { (name db : Text)
        → AsksDatabase (map S.text words.entry.now) name db
        → IfOk result (λ m. MeetsDatabase (subcommand_rows_of m) name db) }
    ensures passes_database { (name db : Text)
        → AsksDatabase (map S.text words.entry.now) name db
        → IfErr result (λ e. kind_of e ≡ ErrorKind.OutOfMemory) }
{
    portal(alloc)?.try_get_matches_from(words)
}

/// Parses the words of a command line. The first word is the program's name. After `check` or
/// `solve`, a word that does not begin with `-` names the file; after `init`, `pipe`, `report` or
/// `upgrade`, the database.
pub fn command_of<'a, S: AsStr>(alloc: Global, words: &'a [S]) -> Result<Asked<'a>, AllocError>
    ensures check { drop 1 (map S.text words.entry.now) ≡ codes "check" ∷ []
        → IfOk result (λ a. a ≡ Asked.Do (Command.Check None)) }
    ensures solve { drop 1 (map S.text words.entry.now) ≡ codes "solve" ∷ []
        → IfOk result (λ a. a ≡ Asked.Do (Command.Solve None)) }
    ensures check_file { (file : Text)
        → drop 1 (map S.text words.entry.now) ≡ codes "check" ∷ file ∷ []
        → IsTrue (is_file_word file) → IfOk result (Asks (ChecksFile (Some file))) }
    ensures solve_file { (file : Text)
        → drop 1 (map S.text words.entry.now) ≡ codes "solve" ∷ file ∷ []
        → IsTrue (is_file_word file) → IfOk result (Asks (SolvesFile (Some file))) }
    ensures database { (name db : Text) → TakesDatabase name
        → drop 1 (map S.text words.entry.now) ≡ name ∷ db ∷ []
        → IsTrue (is_file_word db) → IfOk result (Asks (IsOverDatabase name db)) }
{
    match matches_of(alloc, words) {
        Ok(matches) => match command_matched(&matches) {
            Some(command) => Ok(Asked::Do(command)),
            None => Ok(Asked::Show {
                text: String::from_str(alloc, "error: no command\n")?,
                status: 2,
            }),
        },
        Err(e) => {
            if e.kind() == ErrorKind::OutOfMemory {
                return Err(AllocError);
            }
            let status = if e.exit_code() == 0 { 0 } else { 2 };
            let text = e.to_string(alloc)?;
            Ok(Asked::Show { text, status })
        }
    }
}
