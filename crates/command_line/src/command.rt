//! The words after the program's name: which command they are, with its numbers. `clap` reads them, and the command
//! line that it reads is written out in `specs/Commands.antt`.
ghost use Rattle.std.specs.Prelude.{◌≡◌, ◌↔◌, ◌++◌, ℕ, List, [], ◌∷◌, map, option_and_then, IfOk, IfSome, IsErrOf, IsSome, MatchResult, Some, None, false, true};
ghost use Rattle.clap.specs.Words.{app_of, found_of, kind_of, rows_of, rule_of, subcommand_rows_of, takes};
ghost use Rattle.clap.specs.declared.builder.command.Command.TheViews.{out-Command as fields_of};
ghost use Rattle.command_line.specs.Commands.{HasFitNumbers, HasLoadNumbers, HasNumbers, HasNumbersInRange, HasServeNumbers};
ghost use Rattle.command_line.specs.Commands.{IsFitInRange, IsLoadInRange, IsServeInRange, call_words, command_of, fault_by};
ghost use Rattle.command_line.specs.Commands.{connections_option, docs_option, documents_option, http_option, idle_option, load_workers_option};
ghost use Rattle.command_line.specs.Commands.{number_option, one_port_option, port_option, seed_option, words_option, workers_option};
ghost use Rattle.command_line.specs.Commands.{AreSubcommands, fit_form, fit_of, funnel_app, load_form, load_of, run_form, serve_form, serve_of, subcommand_as};
ghost use Rattle.command_line.specs.declared.command.CommandFault.TheVariants.{Memory};

use clap::builder::ValueParser;
use clap::error::ErrorKind;
use clap::{Arg, ArgAction, ArgMatches, value_parser};
use funnel_model::MOST_PASSES;
use load_gen::{MOST_DOCS, MOST_WORDS};
use std::alloc::{AllocError, AllocFailed, Global};

/// The last port that there is.
pub const MOST_PORT: u32 = 65_535;

/// A worker serves at most so many connections.
pub const MOST_CONNECTIONS: u64 = 1 << 32;

/// A connection waits for at most so many seconds.
pub const MOST_IDLE: u32 = 86_400;

/// A configuration is fitted for at most so many documents, as there may be columns.
pub const MOST_FITTED: u32 = 4_194_304;

/// What the program is to do.
#[derive(Clone, Copy, Debug, PartialEq, Eq)]
pub enum Command {
    /// Answers the lines of standard input on standard output.
    Run,
    /// Answers the lines of connections, or their requests over HTTP. They come by a gate for each worker.
    Serve(ServeCommand),
    /// Adds, deletes and finds made up documents, and prints a summary.
    Load(LoadCommand),
    /// Writes a configuration that is fitted to the add lines of standard input on standard output.
    Fit(FitCommand),
}

/// Where connections come from, and how many are served.
#[derive(Clone, Copy, Debug, PartialEq, Eq)]
pub struct ServeCommand {
    /// The port of the first worker, from 1 to 65,535. Each other worker has the next one, or the same.
    pub port: u32,
    /// The number of workers, from 1 to 64.
    pub workers: u32,
    /// How many connections each worker serves, from 1 to 4,294,967,296.
    pub connections: u64,
    /// For how many seconds a read or a write of a connection may wait, from 0 to 86,400. With 0 it waits as long as it takes.
    pub idle: u32,
    /// Whether all workers take connections at the one port.
    pub one_port: bool,
    /// Whether requests over HTTP are answered, and no lines.
    pub http: bool,
}

/// How a load is made up.
#[derive(Clone, Copy, Debug, PartialEq, Eq)]
pub struct LoadCommand {
    /// The number of documents, from 1 to 4,194,304.
    pub docs: u32,
    /// The number of workers that make it, from 1 to 64.
    pub workers: u32,
    /// The number of words in each document, from 0 to 1,000.
    pub words: u32,
    /// Where the generator of the documents starts.
    pub seed: u64,
}

/// What a configuration is fitted for.
#[derive(Clone, Copy, Debug, PartialEq, Eq)]
pub struct FitCommand {
    /// The number of documents that it is to have room for, from 1 to 4,194,304.
    pub documents: u32,
}

/// Why no command was read.
#[derive(Clone, Copy, Debug, PartialEq, Eq)]
pub enum CommandFault {
    /// The words are no command, or ask for help.
    Usage,
    /// Memory ran out.
    Memory,
}

impl From<AllocError> for CommandFault {
    ghost from_gives = { λ _ fault. fault ≡ Memory };

    fn from(_: AllocError) -> CommandFault {
        CommandFault::Memory
    }
}

impl<T: Drop> From<AllocFailed<T>> for CommandFault {
    ghost from_gives = { λ _ fault. fault ≡ Memory };

    fn from(_: AllocFailed<T>) -> CommandFault {
        CommandFault::Memory
    }
}

impl From<clap::Error> for CommandFault {
    ghost from_gives = { λ error fault. fault ≡ fault_by (kind_of error) };

    fn from(error: clap::Error) -> CommandFault {
        match error.kind() {
            ErrorKind::OutOfMemory => CommandFault::Memory,
            _ => CommandFault::Usage,
        }
    }
}

/// The command that the words are, which stand without the program's name. `Usage` comes where `clap` doesn't take them,
/// also where they ask for help or the version. Nothing is printed.
pub fn read_command(alloc: Global, words: &[&str]) -> Result<Command, CommandFault>
    ensures ok { IfOk result (λ command. command_of (map (λ word. word.now) words.now) ≡ Some command) }
    ensures in_range { IfOk result HasNumbersInRange }
    ensures usage { IsErrOf result CommandFault.Usage → command_of (map (λ word. word.now) words.now) ≡ None }
{
    let words = call_words(alloc, words)?;
    let matches = funnel_app(alloc)?.try_get_matches_from(words.as_slice())?;
    command_in(&matches).ok_or(CommandFault::Usage)
}

/// Words are a command exactly where `clap` takes them.
pub fn words_are_a_command_where_clap_takes_them()
    ensures { (words : List (List ℕ)) → IsSome (command_of words) ↔ (takes funnel_app (call_words words) ≡ true) }
{}

// The program's name, and the words after it.
pub(crate) fn call_words<'a>(alloc: Global, words: &[&'a str]) -> Result<Vec<&'a str>, AllocError>
    ensures { IfOk result (λ all. map (λ word. word.now) all.items ≡ call_words (map (λ word. word.now) words.now)) }
{
    let mut all = Vec::with_capacity(alloc, words.len() + 1)?;
    all.push("funnel")?;
    all.extend_from_slice(words)?;
    Ok(all)
}

pub(crate) fn funnel_app<'a>(alloc: Global) -> Result<clap::Command<'a>, AllocError>
    ensures { IfOk result (λ app. app_of app ≡ funnel_app) }
{
    let subcommands = subcommands(alloc)?;
    clap::Command::new(alloc, "funnel")
        .subcommand_required(true)
        .subcommands(subcommands)
}

// Each goes into the list as soon as it is made, so that this function holds no other one where a later one can't be made.
fn subcommands<'a>(alloc: Global) -> Result<Vec<clap::Command<'a>>, AllocError>
    ensures { IfOk result (λ all. AreSubcommands all.items (run_form ∷ serve_form ∷ load_form ∷ fit_form ∷ [])) }
{
    let first = vec![in alloc; clap::Command::new(alloc, "run")]?;
    let two = with_app(first, serve_app(alloc))?;
    let three = with_app(two, load_app(alloc))?;
    with_app(three, fit_app(alloc))
}

// The list with one more subcommand, if that was made.
fn with_app<'a>(
    apps: Vec<clap::Command<'a>>,
    app: Result<clap::Command<'a>, AllocError>,
) -> Result<Vec<clap::Command<'a>>, AllocError>
    ensures { IfOk result (λ more. MatchResult app.entry (λ one. more.items ≡ apps.entry.items ++ (one ∷ [])) (λ _. ⊥)) }
{
    let mut apps = apps;
    apps.push(app?)?;
    Ok(apps)
}

fn serve_app<'a>(alloc: Global) -> Result<clap::Command<'a>, AllocError>
    ensures app { IfOk result (λ app. (app_of app ≡ record { top = serve_form; subs = [] })) }
    ensures local { IfOk result (λ app. (fields_of app).has_globals ≡ false) }
{
    let options = vec![in alloc;
        port_option(alloc),
        workers_option(alloc),
        connections_option(alloc),
        idle_option(alloc),
        one_port_option(alloc),
        http_option(alloc),
    ]?;
    clap::Command::new(alloc, "serve").args(options)
}

fn port_option<'a>(alloc: Global) -> Arg<'a>
    ensures rule { rule_of result ≡ port_option }
    ensures local { result.global ≡ false }
{
    let numbers = value_parser!(u32).range(1..=i64::from(MOST_PORT));
    number_option(alloc, "port", numbers).required(true)
}

fn workers_option<'a>(alloc: Global) -> Arg<'a>
    ensures rule { rule_of result ≡ workers_option }
    ensures local { result.global ≡ false }
{
    let numbers = value_parser!(u32).range(1..=i64::from(MOST_PASSES));
    number_option(alloc, "workers", numbers).required(true)
}

fn connections_option<'a>(alloc: Global) -> Arg<'a>
    ensures rule { rule_of result ≡ connections_option }
    ensures local { result.global ≡ false }
{
    let numbers = value_parser!(u64).range(1..=MOST_CONNECTIONS as i64);
    number_option(alloc, "connections", numbers).default_value("4294967296")
}

fn idle_option<'a>(alloc: Global) -> Arg<'a>
    ensures rule { rule_of result ≡ idle_option }
    ensures local { result.global ≡ false }
{
    let numbers = value_parser!(u32).range(0..=i64::from(MOST_IDLE));
    number_option(alloc, "idle", numbers).default_value("0")
}

fn one_port_option<'a>(alloc: Global) -> Arg<'a>
    ensures rule { rule_of result ≡ one_port_option }
    ensures local { result.global ≡ false }
{
    Arg::new(alloc, "one-port")
        .long("one-port")
        .action(ArgAction::SetTrue)
}

fn http_option<'a>(alloc: Global) -> Arg<'a>
    ensures rule { rule_of result ≡ http_option }
    ensures local { result.global ≡ false }
{
    Arg::new(alloc, "http")
        .long("http")
        .action(ArgAction::SetTrue)
}

fn load_app<'a>(alloc: Global) -> Result<clap::Command<'a>, AllocError>
    ensures app { IfOk result (λ app. (app_of app ≡ record { top = load_form; subs = [] })) }
    ensures local { IfOk result (λ app. (fields_of app).has_globals ≡ false) }
{
    let options = vec![in alloc;
        docs_option(alloc),
        load_workers_option(alloc),
        words_option(alloc),
        seed_option(alloc),
    ]?;
    clap::Command::new(alloc, "load").args(options)
}

fn docs_option<'a>(alloc: Global) -> Arg<'a>
    ensures rule { rule_of result ≡ docs_option }
    ensures local { result.global ≡ false }
{
    let numbers = value_parser!(u32).range(1..=i64::from(MOST_DOCS));
    number_option(alloc, "docs", numbers).required(true)
}

fn load_workers_option<'a>(alloc: Global) -> Arg<'a>
    ensures rule { rule_of result ≡ load_workers_option }
    ensures local { result.global ≡ false }
{
    let numbers = value_parser!(u32).range(1..=i64::from(MOST_PASSES));
    number_option(alloc, "workers", numbers).default_value("1")
}

fn words_option<'a>(alloc: Global) -> Arg<'a>
    ensures rule { rule_of result ≡ words_option }
    ensures local { result.global ≡ false }
{
    let numbers = value_parser!(u32).range(0..=i64::from(MOST_WORDS));
    number_option(alloc, "words", numbers).default_value("80")
}

fn seed_option<'a>(alloc: Global) -> Arg<'a>
    ensures rule { rule_of result ≡ seed_option }
    ensures local { result.global ≡ false }
{
    number_option(alloc, "seed", value_parser!(u64)).default_value("0")
}

fn fit_app<'a>(alloc: Global) -> Result<clap::Command<'a>, AllocError>
    ensures app { IfOk result (λ app. (app_of app ≡ record { top = fit_form; subs = [] })) }
    ensures local { IfOk result (λ app. (fields_of app).has_globals ≡ false) }
{
    clap::Command::new(alloc, "fit").arg(documents_option(alloc))
}

fn documents_option<'a>(alloc: Global) -> Arg<'a>
    ensures rule { rule_of result ≡ documents_option }
    ensures local { result.global ≡ false }
{
    let numbers = value_parser!(u32).range(1..=i64::from(MOST_FITTED));
    number_option(alloc, "documents", numbers).required(true)
}

// `--name` with one value, which is one of these numbers.
fn number_option<'a>(alloc: Global, name: &'a str, numbers: ValueParser<'a>) -> Arg<'a>
    ensures rule { rule_of result ≡ number_option name.entry.now numbers.entry }
    ensures local { result.global ≡ false }
{
    Arg::new(alloc, name)
        .long(name)
        .action(ArgAction::Set)
        .value_parser(numbers)
}

fn command_in(matches: &ArgMatches) -> Option<Command>
    requires { IfSome (subcommand_rows_of matches.now) HasNumbers }
    ensures found { result ≡ option_and_then subcommand_as (subcommand_rows_of matches.now) }
    ensures in_range { IfSome result HasNumbersInRange }
{
    match matches.subcommand()? {
        ("run", _) => Some(Command::Run),
        ("serve", found) => Some(Command::Serve(serve_in(found))),
        ("load", found) => Some(Command::Load(load_in(found))),
        ("fit", found) => Some(Command::Fit(fit_in(found))),
        _ => None,
    }
}

fn serve_in(found: &ArgMatches) -> ServeCommand
    requires { HasServeNumbers (rows_of (found_of found.now)) }
    ensures serve { result ≡ serve_of (rows_of (found_of found.now)) }
    ensures in_range { IsServeInRange result }
{
    ServeCommand {
        port: found.get_one("port").unwrap(),
        workers: found.get_one("workers").unwrap(),
        connections: found.get_one("connections").unwrap(),
        idle: found.get_one("idle").unwrap(),
        one_port: found.get_flag("one-port"),
        http: found.get_flag("http"),
    }
}

fn load_in(found: &ArgMatches) -> LoadCommand
    requires { HasLoadNumbers (rows_of (found_of found.now)) }
    ensures load { result ≡ load_of (rows_of (found_of found.now)) }
    ensures in_range { IsLoadInRange result }
{
    LoadCommand {
        docs: found.get_one("docs").unwrap(),
        workers: found.get_one("workers").unwrap(),
        words: found.get_one("words").unwrap(),
        seed: found.get_one("seed").unwrap(),
    }
}

fn fit_in(found: &ArgMatches) -> FitCommand
    requires { HasFitNumbers (rows_of (found_of found.now)) }
    ensures fit { result ≡ fit_of (rows_of (found_of found.now)) }
    ensures in_range { IsFitInRange result }
{
    FitCommand {
        documents: found.get_one("documents").unwrap(),
    }
}
