//! The words of the command line of `sqlsh`, read by the library clap.
//!
//! `read_options` has the crate's one contract: what it answers is `options_of` the words, which is clap's reading of the
//! command `sqlsh [--budget N] [--bail]`. Begin at specs/CommandLine.antt; specs/Examples.antt has what some lines ask for.
#![tactic(auto)]

ghost use Rattle.std.specs.Prelude.{◌≡◌, ◌≤◌, true, codes, map, string_bytes, IfErr, IfOk, IfSome};
ghost use Rattle.clap.specs.Words.{found_of, kind_of, matches_of, one_text, rows_of, takes, IsUnsignedIn};
ghost use Rattle.shell_words.specs.CommandLine.{bail_of, budget_of, options_of, sqlsh, IsFlagText};

use clap::builder::ValueParser;
use clap::error::ErrorKind;
use clap::{Arg, ArgAction, ArgMatches, Command, Error};
use eng_value::DEFAULT_BUDGET;
use sql_meaning::Options;
use std::alloc::Global;

/// Why there are no options.
#[derive(Clone, Copy, PartialEq, Eq)]
pub enum WordsError {
    /// Clap does not take the words for this command.
    Usage,
    /// No memory was found.
    Memory,
}

impl From<Error> for WordsError {
    ghost use Rattle.std.specs.Prelude.{◌≡◌, ◌↔◌};
    ghost use Rattle.clap.specs.Words.{kind_of};
    ghost use Rattle.clap.specs.declared.error.kind.ErrorKind.{ErrorKind};
    ghost use Rattle.clap.specs.declared.error.kind.ErrorKind.TheVariants.{OutOfMemory};
    ghost use Rattle.shell_words.specs.declared.WordsError.{WordsError};
    ghost use Rattle.shell_words.specs.declared.WordsError.TheVariants.{Memory};

    ghost from_gives = { λ e r. (r ≡ Memory) ↔ (kind_of e ≡ OutOfMemory) };

    fn from(error: Error) -> WordsError {
        match error.kind() {
            ErrorKind::OutOfMemory => WordsError::Memory,
            _ => WordsError::Usage,
        }
    }
}

// Clap's matches of the words. A value that was found passed the parser of its argument.
fn parse<'a>(alloc: Global, words: &'a [String]) -> Result<ArgMatches<'a>, Error>
    ensures taken { IfOk result (λ m. takes sqlsh (map string_bytes words.entry.now) ≡ true) }
    ensures rows { IfOk result (λ m. rows_of (found_of m) ≡ matches_of sqlsh (map string_bytes words.entry.now)) }
    ensures budget { IfOk result (λ m. IfSome (one_text (found_of m) (codes "budget")) (IsUnsignedIn 1 DEFAULT_BUDGET)) }
    ensures bail { IfOk result (λ m. IfSome (one_text (found_of m) (codes "bail")) IsFlagText) }
    ensures refused { IfErr result (λ e. takes sqlsh (map string_bytes words.entry.now) ≡ true
        → kind_of e ≡ ErrorKind.OutOfMemory) }
{
    let budget = Arg::new(alloc, "budget")
        .long("budget")
        .action(ArgAction::Set)
        .value_parser(ValueParser::unsigned(1, DEFAULT_BUDGET));
    // The values of a flag are `bool`s anyway. That is said here, since clap's clauses speak of parsers that were given.
    let bail = Arg::new(alloc, "bail")
        .long("bail")
        .action(ArgAction::SetTrue)
        .value_parser(ValueParser::bool());
    let command = Command::new(alloc, "sqlsh")
        .disable_help_flag(true)
        .disable_version_flag(true)
        .arg(budget)?
        .arg(bail)?;
    command.try_get_matches_from(words)
}

// The value of `--budget`, or the default where it is absent.
fn budget_in(matches: &ArgMatches) -> u64
    requires { IfSome (one_text (found_of matches.now) (codes "budget")) (IsUnsignedIn 1 DEFAULT_BUDGET) }
    ensures value { result ≡ budget_of (one_text (found_of matches.now) (codes "budget")) }
    ensures range { (1 ≤ result) × (result ≤ DEFAULT_BUDGET) }
{
    matches.get_one("budget").unwrap_or(DEFAULT_BUDGET)
}

// Whether `--bail` is there.
fn bail_in(matches: &ArgMatches) -> bool
    requires { IfSome (one_text (found_of matches.now) (codes "bail")) IsFlagText }
    ensures { result ≡ bail_of (one_text (found_of matches.now) (codes "bail")) }
{
    matches.get_flag("bail")
}

/// What the words of a command line ask for, the program's name first, as clap reads them for the command
/// `sqlsh [--budget N] [--bail]`: N is a number of instructions from 1 to `DEFAULT_BUDGET`, also as `--budget=N`, each
/// option stands at most once, and their order is free. There is neither `--help` nor `--version`.
///
/// # Errors
///
/// `Usage` where clap refuses the words, and only there; `Memory` for want of memory.
pub fn read_options(alloc: Global, words: &[String]) -> Result<Options, WordsError>
    ensures read { IfOk result (λ options. options_of (map string_bytes words.now) ≡ Some options) }
    ensures refused { IfErr result (λ error. error ≡ WordsError.Usage → options_of (map string_bytes words.now) ≡ None) }
    ensures range { IfOk result (λ options. (1 ≤ options.budget) × (options.budget ≤ DEFAULT_BUDGET)) }
{
    let matches = parse(alloc, words)?;
    Ok(Options {
        budget: budget_in(&matches),
        bail: bail_in(&matches),
    })
}
