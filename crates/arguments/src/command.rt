//! The program's words, which are its name and its arguments, read with clap.
ghost use Rattle.std.specs.Prelude.{◌≡◌, ◌++◌, ◌∷◌, [], ◌⊎◌, ℕ, List, codes, Some, false, IfOk, IfErr, IfSome, IsOkAnd, IsSome, MatchResult, option_map};
ghost use Rattle.clap.specs.Words.{HasKind, fault_of, app_of, first_of, kind_of, new_app, one_of, rule_of, rows_of, found_of, subcommand_rows_of, with_rule};
ghost use Rattle.clap.specs.Walk.{texts};
ghost use Rattle.clap.specs.declared.builder.command.Command.TheViews.{out-Command};
ghost use Rattle.arguments.specs.Command.{AsksFor, Given, GivesRequest, IsNumberIn, Request, SpellsRequest, audit_app, bare_app, dead_app, given_of, make_app, number_rule, program_app, request_of, text_rule};

use clap::error::ErrorKind;
use clap::{Arg, ArgAction, ArgMatches, Error};
use std::alloc::{AllocError, Global};

/// The highest number that a level may have.
const MAX_NUMBER: u16 = 10_000;

/// What the words ask for. Files are named by their paths.
#[derive(Clone, Copy, Debug, PartialEq, Eq)]
pub enum Command<'a> {
    /// A report on the levels and their answers.
    Audit { levels: &'a str, answers: &'a str },
    /// Answers made for the levels.
    Make { levels: &'a str },
    /// The map of the level with this number, from 1 to 10,000, with its dead squares.
    Dead { levels: &'a str, n: usize },
}

/// Reads the program's words, its name first. An error holds what clap prints, which can be
/// help or the version.
pub fn parse<'a>(alloc: Global, words: &'a [&'a str]) -> Result<Command<'a>, Error>
    ensures found { IfOk result (λ command. AsksFor (texts words.entry.now) (request_of command)) }
    ensures only { (request : Request) → AsksFor (texts words.entry.now) request
        → MatchResult result (λ command. request_of command ≡ request) (λ error. kind_of error ≡ ErrorKind.OutOfMemory) }
    ensures kinds { IfErr result (λ e. HasKind (fault_of program_app (texts words.entry.now)) e ⊎ (kind_of e ≡ ErrorKind.MissingSubcommand)) }
    ensures spelled { (request : Request) → SpellsRequest (texts words.entry.now) request
        → MatchResult result (λ command. request_of command ≡ request) (λ error. kind_of error ≡ ErrorKind.OutOfMemory) }
{
    let mut program = program_command(alloc)?;
    let matches = match program.try_get_matches_from_mut(words) {
        Ok(matches) => matches,
        Err(error) => {
            drop(program);
            return Err(error);
        }
    };
    let command = asked(&matches);
    drop(matches);
    let Some(command) = command else {
        let error = no_request(&mut program);
        drop(program);
        return Err(error);
    };
    drop(program);
    Ok(command)
}

/// Returns the error of words that ask for no command.
fn no_request(program: &mut clap::Command<'_>) -> Error
    ensures { (kind_of result ≡ ErrorKind.MissingSubcommand) ⊎ (kind_of result ≡ ErrorKind.OutOfMemory) }
{
    match program.error(ErrorKind::MissingSubcommand, "no such request") {
        Ok(error) => error,
        Err(error) => Error::from(error),
    }
}

/// Returns the command that the matches ask for.
fn asked<'a>(matches: &ArgMatches<'a>) -> Option<Command<'a>>
    ensures some { IfSome result (λ command. (given : Given)
        × (option_map given_of (subcommand_rows_of matches.now) ≡ Some given) × GivesRequest given (request_of command)) }
    ensures none { (given : Given) (request : Request)
        → option_map given_of (subcommand_rows_of matches.now) ≡ Some given → GivesRequest given request → IsSome result }
{
    match matches.subcommand() {
        Some((name, inner)) => asked_by(name, inner),
        None => None,
    }
}

/// Returns the command that the subcommand's matches ask for.
fn asked_by<'a>(name: &'a str, inner: &ArgMatches<'a>) -> Option<Command<'a>>
    ensures some { IfSome result (λ command. GivesRequest (given_of (name.entry.now, rows_of (found_of inner.now))) (request_of command)) }
    ensures none { (request : Request) → GivesRequest (given_of (name.entry.now, rows_of (found_of inner.now))) request → IsSome result }
{
    let levels = text_of(inner, "levels")?;
    match name {
        "audit" => {
            let answers = text_of(inner, "answers")?;
            Some(Command::Audit { levels, answers })
        }
        "make" => Some(Command::Make { levels }),
        "dead" => {
            let n = number_of(inner, "n")?;
            Some(Command::Dead { levels, n })
        }
        _ => None,
    }
}

/// Returns the text of an argument.
fn text_of<'a>(inner: &ArgMatches<'a>, id: &str) -> Option<&'a str>
    ensures { option_map (λ s. s.now) result ≡ first_of id.now (rows_of (found_of inner.now)) }
{
    inner.get_str(id)
}

/// Returns the number of an argument, from 1 to 10,000.
fn number_of(inner: &ArgMatches<'_>, id: &str) -> Option<usize>
    ensures some { IfSome result (λ n. (text : List ℕ) × (one_of id.now (rows_of (found_of inner.now)) ≡ Some text) × IsNumberIn text n) }
    ensures none { (text : List ℕ) (n : ℕ) → one_of id.now (rows_of (found_of inner.now)) ≡ Some text → IsNumberIn text n → IsSome result }
{
    let n = inner.get_one::<u16>(id)?;
    // For the proof: clap checks the range too, but none of its clauses says so.
    if n < 1 || n > MAX_NUMBER {
        return None;
    }
    Some(usize::from(n))
}

// The version. Man pages and packages take it from here.
const VERSION: &str = "0.3.0-dev";

const ABOUT: &str = "Audits Sokoban solutions and proofs that a level has none";

const NOTES: &str = "Exit status:
  0  all levels of an audit are solved or unsolvable; answers or a map are written
  1  a level of an audit is refused or missing
  2  an error: a usage error, a file that can't be read, faulty answers

Either text may be -, which names standard input; a file of that name is ./-

Examples:
  sokoaudit audit levels.xsb answers.txt
  sokoaudit make levels.xsb > answers.txt
  sokoaudit make levels.xsb | sokoaudit audit levels.xsb -
  sokoaudit dead levels.xsb 1";

fn program_command<'a>(alloc: Global) -> Result<clap::Command<'a>, AllocError>
    ensures { IfOk result (λ c. app_of c ≡ program_app) }
{
    let commands = with_next(Ok(Vec::new(alloc)), audit_command(alloc));
    let commands = with_next(commands, make_command(alloc));
    let commands = with_next(commands, dead_command(alloc))?;
    bare_command(alloc).subcommands(commands)
}

/// Returns the list with one value more, or the first error. It takes values of any type, because a proof over
/// `clap::Command` costs more.
fn with_next<C: Drop>(
    list: Result<Vec<C>, AllocError>,
    next: Result<C, AllocError>,
) -> Result<Vec<C>, AllocError>
    ensures { IfOk result (λ longer. IsOkAnd list (λ l. IsOkAnd next (λ n. longer.items ≡ l.items ++ n ∷ []))) }
{
    let mut list = list?;
    match list.push(next?) {
        Ok(()) => Ok(list),
        Err(_) => Err(AllocError),
    }
}

fn bare_command<'a>(alloc: Global) -> clap::Command<'a>
    ensures app { app_of result ≡ bare_app }
    ensures local { (out-Command result).has_globals ≡ false }
{
    named(alloc, "sokoaudit", ABOUT)
        .version(VERSION)
        .after_help(NOTES)
        .subcommand_required(true)
}

fn audit_command<'a>(alloc: Global) -> Result<clap::Command<'a>, AllocError>
    ensures app { IfOk result (λ c. app_of c ≡ audit_app) }
    ensures local { IfOk result (λ c. (out-Command c).has_globals ≡ false) }
{
    let about = "Report for each level whether it is solved, unsolvable, refused or missing";
    let help = "File of answers: a solution or a certificate for each level";
    let command = levels_command(alloc, "audit", about)?;
    command.arg(text_arg(alloc, "answers", "ANSWERS", help))
}

fn make_command<'a>(alloc: Global) -> Result<clap::Command<'a>, AllocError>
    ensures app { IfOk result (λ c. app_of c ≡ make_app) }
    ensures local { IfOk result (λ c. (out-Command c).has_globals ≡ false) }
{
    let about = "Write answers: a certificate for each level that is found unsolvable";
    levels_command(alloc, "make", about)
}

fn dead_command<'a>(alloc: Global) -> Result<clap::Command<'a>, AllocError>
    ensures app { IfOk result (λ c. app_of c ≡ dead_app) }
    ensures local { IfOk result (λ c. (out-Command c).has_globals ≡ false) }
{
    let about = "Write a map of one level, its dead squares marked x";
    let help = "Number of the level, from 1 to 10000";
    let command = levels_command(alloc, "dead", about)?;
    command.arg(number_arg(alloc, "n", "N", help))
}

/// Returns a command with one argument, the file of levels.
fn levels_command<'a>(
    alloc: Global,
    name: &'a str,
    about: &'a str,
) -> Result<clap::Command<'a>, AllocError>
    ensures app { IfOk result (λ c. app_of c ≡ with_rule (new_app name.entry.now) (text_rule (codes "levels"))) }
    ensures local { IfOk result (λ c. (out-Command c).has_globals ≡ false) }
{
    named(alloc, name, about).arg(levels_arg(alloc))
}

fn named<'a>(alloc: Global, name: &'a str, about: &'a str) -> clap::Command<'a>
    ensures app { app_of result ≡ new_app name.entry.now }
    ensures local { (out-Command result).has_globals ≡ false }
{
    clap::Command::new(alloc, name).about(about)
}

fn levels_arg<'a>(alloc: Global) -> Arg<'a>
    ensures rule { rule_of result ≡ text_rule (codes "levels") }
    ensures local { result.global ≡ false }
{
    text_arg(alloc, "levels", "LEVELS", "File of levels in XSB text")
}

fn text_arg<'a>(alloc: Global, id: &'a str, shown: &'a str, help: &'a str) -> Arg<'a>
    ensures rule { rule_of result ≡ text_rule id.entry.now }
    ensures local { result.global ≡ false }
{
    Arg::new(alloc, id)
        .value_name(shown)
        .help(help)
        .required(true)
        .action(ArgAction::Set)
}

fn number_arg<'a>(alloc: Global, id: &'a str, shown: &'a str, help: &'a str) -> Arg<'a>
    ensures rule { rule_of result ≡ number_rule id.entry.now }
    ensures local { result.global ≡ false }
{
    text_arg(alloc, id, shown, help).value_parser(clap::value_parser!(u16).range(
        1..=i64::from(MAX_NUMBER),
    ))
}
