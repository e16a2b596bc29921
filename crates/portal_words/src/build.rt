//! Builds the command line's parser and help texts.

ghost use Rattle.std.specs.Prelude.{◌≡◌, false, IfOk};
ghost use Rattle.clap.specs.Words.{rule_of};
ghost use Rattle.portal_words.specs.inner.Arguments.{Reads, file_app, database_app, port_rule};
ghost use Rattle.portal_words.specs.inner.Arguments.{connections_rule, serve_app, files_app};
ghost use Rattle.portal_words.specs.inner.Arguments.{portal_app};
ghost use Rattle.clap.specs.Words.{App, with_subcommand};

use clap::builder::ValueParser;
use clap::{Arg, Command};
use std::alloc::{AllocError, Global};

/// The version of the portal, as `portal --version` prints it.
const VERSION: &str = "1.2.0";

const CHECK_PRINTS: &str =
    "Prints a line `block STUDENT PROJECT LETTER` for each pair, and then `blocking N`.
Exit status: 0 no pair blocks, 1 some do, 2 the file is refused, 3 a device or memory failed.";

const SOLVE_PRINTS: &str =
    "Prints a line `assign STUDENT PROJECT` or `none STUDENT` for each student, and then `assigned N unassigned M`.
Exit status: 0 solved, 2 the file is refused, 3 a device or memory failed.";

const INIT_PRINTS: &str = "Prints `made`. The code has 8 to 40 ASCII letters, digits and `-`.
Exit status: 0 made, 2 the code or the database is refused, 3 a device or memory failed.";

const SERVE_PRINTS: &str = "Prints `listening 127.0.0.1:N`, and at the end `served N faults M`.
Exit status: 0 after so many connections, 2 the database is refused, 3 a device or memory failed.";

const PIPE_PRINTS: &str = "Prints the replies.
Exit status: 0 the connection ended, 2 the database is refused, 3 a device or memory failed.";

const REPORT_PRINTS: &str =
    "Prints the status of the round and, once there is a result, the text of /report.
Exit status: 0 printed, 2 the database is refused, 3 a device or memory failed.";

const UPGRADE_PRINTS: &str = "Prints `upgraded`.
Exit status: 0 upgraded, 2 the database is refused, 3 a device or memory failed.";

// Builds the parser of a command with one optional file; `prints` describes its output and exit
// status.
fn of_file<'a>(
    alloc: Global,
    name: &'a str,
    about: &'a str,
    prints: &'a str,
) -> Result<Command<'a>, AllocError>
    ensures { IfOk result (λ c. Reads c (file_app name.entry.now)) }
{
    Command::new(alloc, name)
        .about(about)
        .after_help(prints)
        .arg(Arg::new(alloc, "FILE").help("The instance file; standard input without it"))
}

// Builds the parser of a command on one database; `prints` describes its output and exit status.
fn of_database<'a>(
    alloc: Global,
    name: &'a str,
    about: &'a str,
    prints: &'a str,
) -> Result<Command<'a>, AllocError>
    ensures { IfOk result (λ c. Reads c (database_app name.entry.now)) }
{
    Command::new(alloc, name)
        .about(about)
        .after_help(prints)
        .arg(
            Arg::new(alloc, "DB")
                .required(true)
                .help("The database file"),
        )
}

// Creates the option for the port to listen on.
fn port<'a>(alloc: Global) -> Arg<'a>
    ensures rule { rule_of result ≡ port_rule }
    ensures local { result.global ≡ false }
{
    Arg::new(alloc, "port")
        .long("port")
        .value_name("N")
        .required(true)
        .value_parser(ValueParser::unsigned(1, 65_535))
        .help("The port, 1 to 65535")
}

// Creates the option for the number of connections to serve.
fn connections<'a>(alloc: Global) -> Arg<'a>
    ensures rule { rule_of result ≡ connections_rule }
    ensures local { result.global ≡ false }
{
    Arg::new(alloc, "connections")
        .long("connections")
        .value_name("N")
        .default_value("1000")
        .value_parser(ValueParser::unsigned(1, 1_000_000))
        .help("End after so many connections, 1 to 1000000")
}

// Builds the parser of the command that listens on a port.
fn serve<'a>(alloc: Global) -> Result<Command<'a>, AllocError>
    ensures { IfOk result (λ c. Reads c serve_app) }
{
    of_database(
        alloc,
        "serve",
        "Serve the portal on a port of 127.0.0.1",
        SERVE_PRINTS,
    )?
    .arg(port(alloc))?
    .arg(connections(alloc))
}

// Creates the parser with only the commands on instance files.
fn with_files<'a>(alloc: Global) -> Result<Command<'a>, AllocError>
    ensures { IfOk result (λ c. Reads c files_app) }
{
    let check = of_file(
        alloc,
        "check",
        "Print the pairs that block the matching of an instance file",
        CHECK_PRINTS,
    )?;
    let solve = of_file(
        alloc,
        "solve",
        "Print the students' best stable matching of an instance file",
        SOLVE_PRINTS,
    )?;
    Command::new(alloc, "portal")
        .about("Student-project allocation with lecturer preferences over students")
        .version(VERSION)
        .subcommand_required(true)
        .subcommand(check)?
        .subcommand(solve)
}

// Adds a command on one database to those of `app`.
fn with_database<'a>(
    alloc: Global,
    app: Command<'a>,
    name: &'a str,
    about: &'a str,
    prints: &'a str,
) -> Result<Command<'a>, AllocError>
    ensures { IfOk result (λ c. (a : App) → Reads app.entry a → Reads c (with_subcommand a (database_app name.entry.now).top)) }
{
    app.subcommand(of_database(alloc, name, about, prints)?)
}

// Adds the command that listens on a port to those of `app`.
fn with_serve<'a>(alloc: Global, app: Command<'a>) -> Result<Command<'a>, AllocError>
    ensures { IfOk result (λ c. (a : App) → Reads app.entry a → Reads c (with_subcommand a serve_app.top)) }
{
    app.subcommand(serve(alloc)?)
}

/// Creates the parser of the whole command line.
pub(crate) fn portal<'a>(alloc: Global) -> Result<Command<'a>, AllocError>
    ensures { IfOk result (λ c. Reads c portal_app) }
{
    let init = with_database(
        alloc,
        with_files(alloc)?,
        "init",
        "Make a database; the first line of the input is the office's code",
        INIT_PRINTS,
    )?;
    let pipe = with_database(
        alloc,
        with_serve(alloc, init)?,
        "pipe",
        "Answer the requests of the input, as one connection, on the output",
        PIPE_PRINTS,
    )?;
    let report = with_database(
        alloc,
        pipe,
        "report",
        "Print where the year stands, and the allocation once it is published",
        REPORT_PRINTS,
    )?;
    with_database(
        alloc,
        report,
        "upgrade",
        "Bring a database of version 1 to version 2",
        UPGRADE_PRINTS,
    )
}
