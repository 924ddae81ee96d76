//! The words of the command line.

ghost use Rattle.std.specs.Prelude.{◌≤◌, IfOk};

use crate::explaining::Question;
use clap::{Arg, ArgAction, ArgMatches, Command, Error};
use gk_terms::limits::{MOST_SEATS, MOST_WORKERS};
use gk_terms::{Dialled, Name, read_number};
use std::alloc::{AllocError, Global};

/// The version of the program, as `--version` prints it.
const VERSION: &str = "0.5.0";

/// What `gkd` is asked to do.
#[derive(Clone, Copy, Debug, PartialEq, Eq)]
pub enum Task<'a> {
    /// Without words: to read a configuration and then requests from standard input, and to write
    /// the replies.
    RunInput,
    /// `run FILE [--record CSV]`: to read the configuration from a file, and then requests from
    /// standard input, and to write the replies; at the end the calls, if that is asked for.
    RunFile {
        file: &'a str,
        record: Option<&'a str>,
    },
    /// `check FILE [--print]`: to say whether the configuration in a file is accepted, and to print
    /// it if that is asked for.
    Check {
        file: &'a str,
        prints: bool,
    },
    /// `trial FILE --calls CSV --endpoints FILE --workers N`: to report what the configuration in a
    /// file would have answered to recorded calls.
    Trial {
        file: &'a str,
        calls: &'a str,
        endpoints: &'a str,
        /// 1 to 64.
        workers: u32,
    },
    /// `serve FILE --port N --seats N`: to serve so many sessions over TCP under the configuration
    /// in a file.
    Serve {
        file: &'a str,
        /// 1 to 65535.
        port: u16,
        /// 1 to 32.
        seats: u32,
    },
    /// `explain FILE DIGITS [--zone NAME] [--endpoints FILE]`: to say step by step why the digits
    /// go where they go.
    Explain(Question<'a>),
    /// `diff OLD NEW [--all] [--csv]`: to print which digits two configurations plan otherwise;
    /// with those that they plan alike, and as comma-separated fields, if that is asked for.
    Diff {
        old: &'a str,
        new: &'a str,
        lists_all: bool,
        as_csv: bool,
    },
    /// The word after this option is not a number in its range.
    BadNumber(BadNumber<'a>),
    /// A word is not what its place asks for.
    BadWord(BadWord<'a>),
}

/// A word that is not what its place asks for.
#[derive(Clone, Copy, Debug, PartialEq, Eq)]
pub struct BadWord<'a> {
    pub word: &'a str,
    /// The place, as help shows it.
    pub place: &'a str,
    /// What the word is not.
    pub what: &'a str,
}

/// A word that is not a number in the range of its option.
#[derive(Clone, Copy, Debug, PartialEq, Eq)]
pub struct BadNumber<'a> {
    pub word: &'a str,
    /// The option, as help shows it.
    pub option: &'a str,
    /// The greatest number; the least is 1.
    pub most: u32,
}

/// The greatest port.
const MOST_PORT: u32 = 65_535;

/// What the words ask for. An error is a bad command line, or a call for help: its text and its
/// status are `clap`'s.
pub fn task_of<'a>(alloc: Global, words: &'a [String]) -> Result<Task<'a>, Error> {
    let matches = commands(alloc)?.try_get_matches_from(words)?;
    Ok(task_in(&matches))
}

/// What the parsed words ask for.
fn task_in<'a>(matches: &ArgMatches<'a>) -> Task<'a> {
    match matches.subcommand() {
        Some(("check", check)) => check_in(check),
        Some(("diff", diff)) => diff_in(diff),
        Some(("explain", explain)) => explain_in(explain),
        Some(("run", run)) => run_in(run),
        Some(("serve", serve)) => serve_in(serve),
        Some(("trial", trial)) => trial_in(trial),
        _ => Task::RunInput,
    }
}

/// A word that is required: `clap` refuses a command line without it.
fn word_in<'a>(matches: &ArgMatches<'a>, id: &str) -> &'a str {
    matches.get_str(id).unwrap_or("")
}

/// `run` with its file.
fn run_in<'a>(matches: &ArgMatches<'a>) -> Task<'a> {
    Task::RunFile {
        file: word_in(matches, "FILE"),
        record: matches.get_str("record"),
    }
}

/// `check` with its file.
fn check_in<'a>(matches: &ArgMatches<'a>) -> Task<'a> {
    Task::Check {
        file: word_in(matches, "FILE"),
        prints: matches.get_flag("print"),
    }
}

/// `diff` with its files.
fn diff_in<'a>(matches: &ArgMatches<'a>) -> Task<'a> {
    Task::Diff {
        old: word_in(matches, "OLD"),
        new: word_in(matches, "NEW"),
        lists_all: matches.get_flag("all"),
        as_csv: matches.get_flag("csv"),
    }
}

/// `explain` with its files, its digits and its zone.
fn explain_in<'a>(matches: &ArgMatches<'a>) -> Task<'a> {
    let word = word_in(matches, "DIGITS");
    let Ok(digits) = Dialled::read(word.as_bytes()) else {
        return Task::BadWord(BadWord {
            word,
            place: "<DIGITS>",
            what: "dialled digits",
        });
    };
    let zone = match matches.get_str("zone") {
        Some(word) => match Name::read(word.as_bytes()) {
            Ok(zone) => Some(zone),
            Err(_) => {
                return Task::BadWord(BadWord {
                    word,
                    place: "--zone <NAME>",
                    what: "a name",
                });
            }
        },
        None => None,
    };
    Task::Explain(Question {
        file: word_in(matches, "FILE"),
        digits,
        zone,
        endpoints: matches.get_str("endpoints"),
    })
}

/// `trial` with its files and its workers.
fn trial_in<'a>(matches: &ArgMatches<'a>) -> Task<'a> {
    match number_in(matches, "workers", "--workers <N>", MOST_WORKERS) {
        Ok(workers) => Task::Trial {
            file: word_in(matches, "FILE"),
            calls: word_in(matches, "calls"),
            endpoints: word_in(matches, "endpoints"),
            workers,
        },
        Err(bad) => Task::BadNumber(bad),
    }
}

/// `serve` with its file, its port and its seats.
fn serve_in<'a>(matches: &ArgMatches<'a>) -> Task<'a> {
    let port = match number_in(matches, "port", "--port <N>", MOST_PORT) {
        Ok(port) => port as u16,
        Err(bad) => return Task::BadNumber(bad),
    };
    match number_in(matches, "seats", "--seats <N>", MOST_SEATS) {
        Ok(seats) => Task::Serve {
            file: word_in(matches, "FILE"),
            port,
            seats,
        },
        Err(bad) => Task::BadNumber(bad),
    }
}

/// The number after an option, from 1 to the greatest one.
fn number_in<'a>(
    matches: &ArgMatches<'a>,
    id: &str,
    option: &'a str,
    most: u32,
) -> Result<u32, BadNumber<'a>>
    ensures { IfOk result (λ number. number ≤ most) }
{
    let word = word_in(matches, id);
    match read_number(word.as_bytes(), 1, most) {
        Ok(number) if number <= most => Ok(number),
        _ => Err(BadNumber { word, option, most }),
    }
}

/// The command line that `gkd` takes.
fn commands<'a>(alloc: Global) -> Result<Command<'a>, AllocError> {
    let command = Command::new(alloc, "gkd")
        .about(
            "Routes and admits calls as an H.323 gatekeeper. Without words it reads a \
            configuration and then requests from standard input, and writes a reply to each \
            request on standard output.",
        )
        .version(VERSION)
        .disable_help_subcommand(true);
    let command = with_form(command, check_command(alloc))?;
    let command = with_form(command, diff_command(alloc))?;
    let command = with_form(command, explain_command(alloc))?;
    let command = with_form(command, run_command(alloc))?;
    let command = with_form(command, serve_command(alloc))?;
    with_form(command, trial_command(alloc))
}

/// The command line with one form more, if there was memory for it.
fn with_form<'a>(
    command: Command<'a>,
    form: Result<Command<'a>, AllocError>,
) -> Result<Command<'a>, AllocError> {
    match form {
        Ok(form) => command.subcommand(form),
        Err(refused) => Err(refused),
    }
}

/// `run FILE [--record CSV]`.
fn run_command<'a>(alloc: Global) -> Result<Command<'a>, AllocError> {
    Command::new(alloc, "run")
        .about(
            "Reads the configuration from a file and then requests from standard input, and \
            writes a reply to each request on standard output",
        )
        .arg(file(alloc))?
        .arg(named(
            alloc,
            "record",
            "CSV",
            "Writes the calls of the run to this file at its end, for `gkd trial`",
        ))
}

/// `serve FILE --port N --seats N`.
fn serve_command<'a>(alloc: Global) -> Result<Command<'a>, AllocError> {
    Command::new(alloc, "serve")
        .about(
            "Serves sessions over TCP under the configuration in a file, many at a time, and ends \
            when all have ended",
        )
        .arg(file(alloc))?
        .arg(needed(
            alloc,
            "port",
            "N",
            "The TCP port on 127.0.0.1 that sessions come to, 1 to 65535",
        ))?
        .arg(needed(
            alloc,
            "seats",
            "N",
            "How many sessions are served, each in a thread of its own, 1 to 32",
        ))
}

/// `trial FILE --calls CSV --endpoints FILE --workers N`.
fn trial_command<'a>(alloc: Global) -> Result<Command<'a>, AllocError> {
    Command::new(alloc, "trial")
        .about(
            "Reports what the configuration in a file would have answered to recorded calls, and \
            how much bandwidth would have been in use in each zone",
        )
        .arg(file(alloc))?
        .arg(needed(
            alloc,
            "calls",
            "CSV",
            "The calls, as `gkd run --record` wrote them",
        ))?
        .arg(needed(
            alloc,
            "endpoints",
            "FILE",
            "The endpoints that are registered: one RRQ line for each",
        ))?
        .arg(needed(
            alloc,
            "workers",
            "N",
            "How many threads share the work, 1 to 64; the report is the same for any number",
        ))
}

/// `diff OLD NEW [--all] [--csv]`.
fn diff_command<'a>(alloc: Global) -> Result<Command<'a>, AllocError> {
    Command::new(alloc, "diff")
        .about(
            "Prints which digits two configurations plan otherwise. The status is 0 if there are \
            none, 1 if there are some, and 2 in case of trouble",
        )
        .arg(operand(alloc, "OLD", "The configuration that is in force"))?
        .arg(operand(alloc, "NEW", "The one that is to come"))?
        .arg(flag(alloc, "all", "Lists the digits too that both plan alike"))?
        .arg(flag(
            alloc,
            "csv",
            "Prints comma-separated fields: a header, and a row for each set of digits",
        ))
}

/// `explain FILE DIGITS [--zone NAME] [--endpoints FILE]`.
fn explain_command<'a>(alloc: Global) -> Result<Command<'a>, AllocError> {
    Command::new(alloc, "explain")
        .about("Says step by step why a call to these digits goes where it goes")
        .arg(file(alloc))?
        .arg(operand(
            alloc,
            "DIGITS",
            "What is dialled: 1 to 32 of 0 to 9, # and *",
        ))?
        .arg(named(
            alloc,
            "zone",
            "NAME",
            "The zone of the caller; `-` or without it the first local zone",
        ))?
        .arg(named(
            alloc,
            "endpoints",
            "FILE",
            "The endpoints that are registered: one RRQ line for each",
        ))
}

/// `check FILE [--print]`.
fn check_command<'a>(alloc: Global) -> Result<Command<'a>, AllocError> {
    Command::new(alloc, "check")
        .about(
            "Says whether a configuration is accepted, or names its first fault by line and kind",
        )
        .arg(file(alloc))?
        .arg(flag(
            alloc,
            "print",
            "Prints the canonical form of each command first",
        ))
}

// An argument is made where it is added: one that is made before has to be let go at each exit.

/// The file of a configuration.
fn file<'a>(alloc: Global) -> Arg<'a> {
    operand(
        alloc,
        "FILE",
        "The configuration: Cisco IOS gatekeeper command lines",
    )
}

/// A word that has to be given, without the name of an option.
fn operand<'a>(alloc: Global, name: &'a str, help: &'a str) -> Arg<'a> {
    Arg::new(alloc, name).help(help).required(true)
}

/// An option without a value.
fn flag<'a>(alloc: Global, name: &'a str, help: &'a str) -> Arg<'a> {
    Arg::new(alloc, name)
        .long(name)
        .help(help)
        .action(ArgAction::SetTrue)
}

/// An option with a value.
fn named<'a>(alloc: Global, name: &'a str, value: &'a str, help: &'a str) -> Arg<'a> {
    Arg::new(alloc, name)
        .long(name)
        .value_name(value)
        .help(help)
        .action(ArgAction::Set)
}

/// An option with a value that has to be given.
fn needed<'a>(alloc: Global, name: &'a str, value: &'a str, help: &'a str) -> Arg<'a> {
    named(alloc, name, value, help).required(true)
}
