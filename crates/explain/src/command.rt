//! The command line.

ghost use Rattle.std.specs.Prelude.{◌≡◌, false, codes, option_map, IfOk};
ghost use Rattle.clap.specs.Matches.{found_of};
ghost use Rattle.clap.specs.Words.{app_of, rule_of, rows_of, first_of, one_of, matches_of};
ghost use Rattle.clap.specs.Words.{fault_of, FailsBy};
ghost use Rattle.audit_command.specs.Asking.{texts_of};
ghost use Rattle.explain.specs.Asking.{about_rule, text_rule, values_rule, store_rule, named_app};
ghost use Rattle.explain.specs.Asking.{explain_app, IsFlagIn, IsAskedIn, IsAskedBy};

use audit_command::{Asked as AuditAsked, asked_in as audit_in, with_arguments};
use clap::{Arg, ArgAction, ArgMatches, Command, Error};
use std::alloc::{AllocError, Global};

/// What the words ask for, as it was written: nothing is checked.
#[derive(Debug, Drop)]
pub struct Asked<'a> {
    /// What an audit of the reply is asked by: the query, and the directories of the blocks.
    pub audit: AuditAsked<'a>,
    /// The series that somebody asks about.
    pub about: Option<&'a str>,
    /// Whether the page is to be a text for a terminal.
    pub text: bool,
    /// What the values of the reply are said to mean.
    pub values: Option<&'a str>,
    /// The folder of a store, over which the reply is to be judged.
    pub store: Option<&'a str>,
}

const LINES: &str =
    r#"The reply is read from standard input, and the page is written to standard output: one file
of HTML without a script, which fetches nothing; the same bytes for the same input. With directories
the reply is judged first, as auditor does: they are its blocks, "block 0", "block 1" and so on, in
the order given. The page then carries each judgement, and names series that each interval rejects.

With --store DIR, in place of directories, the reply is judged as auditor --store does, over the
folder of a store that its server may be writing: head, blocks and changes. The page says of which
state of the store it is right, by event and mark. A block that is valid, numbered otherwise, is
judged for what is missing, and not for how few its intervals are.

--values doubles shows each value as the double for which it is kept, as Prometheus prints it. A
reply does not say what its values mean: the store's blocks do.

--about 'up{job="b"}' has the page say why that series is in the answer, or not. It is written as a
selector is, with = alone. --text writes the claim, the key, a strip of letters for each part and
that sentence.

Exit status: 0 the page says that no series is missing; 1 it does not, or the selector, the range,
the series or the meaning of values is refused; 2 a fault of the words; 3 a file or standard input
cannot be read, or it holds no reply, or a store is refused or changes, or the page cannot be
written; 4 no memory

Example: querier select up data/0001 | explain --selector up data/0001 >answer.html"#;

/// What `--version` tells behind the name.
const VERSION: &str = "0.1.0 (rattle-kit-13f)";

/// The option `--about SERIES`.
fn about<'a>(alloc: Global) -> Arg<'a>
    ensures rule { rule_of result ≡ about_rule }
    ensures global { result.global ≡ false }
{
    Arg::new(alloc, "about")
        .long("about")
        .value_name("SERIES")
        .help("A series to be told of, as up{job=\"b\"}")
}

/// The flag `--text`.
fn text<'a>(alloc: Global) -> Arg<'a>
    ensures rule { rule_of result ≡ text_rule }
    ensures global { result.global ≡ false }
{
    Arg::new(alloc, "text")
        .long("text")
        .action(ArgAction::SetTrue)
        .help("Writes a text of 80 columns for a terminal, and no HTML")
}

/// The option `--values doubles`.
fn values<'a>(alloc: Global) -> Arg<'a>
    ensures rule { rule_of result ≡ values_rule }
    ensures global { result.global ≡ false }
{
    Arg::new(alloc, "values")
        .long("values")
        .value_name("WHAT")
        .help("What values are, if not whole numbers: doubles")
}

/// The option `--store DIR`.
fn store<'a>(alloc: Global) -> Arg<'a>
    ensures rule { rule_of result ≡ store_rule }
    ensures global { result.global ≡ false }
{
    Arg::new(alloc, "store")
        .long("store")
        .value_name("DIR")
        .help("The folder of a store, as querier serve --data DIR keeps it")
}

/// The program, without its arguments.
fn explain<'a>(alloc: Global) -> Result<Command<'a>, AllocError>
    ensures { IfOk result (λ command. app_of command ≡ named_app) }
{
    let command = Command::new(alloc, "explain")
        .bin_name("explain")?
        .about("Shows an audited answer as a page")
        .after_help(LINES)
        .version(VERSION)
        .no_binary_name(true);
    Ok(command)
}

/// The program: `--selector S [--from N] [--to N] [--about SERIES] [--text] [--values doubles]
/// [--store DIR] [DIR]...`.
fn program<'a>(alloc: Global) -> Result<Command<'a>, AllocError>
    ensures { IfOk result (λ command. app_of command ≡ explain_app) }
{
    with_arguments(alloc, explain(alloc)?)?
        .arg(about(alloc))?
        .arg(text(alloc))?
        .arg(values(alloc))?
        .arg(store(alloc))
}

fn about_in<'a>(found: &ArgMatches<'a>) -> Option<&'a str>
    ensures { option_map (λ text. text.now) result
        ≡ first_of (codes "about") (rows_of (found_of found.now)) }
{
    found.get_str("about")
}

fn text_in(found: &ArgMatches<'_>) -> bool
    ensures { IsFlagIn (one_of (codes "text") (rows_of (found_of found.now))) result }
{
    found.get_flag("text")
}

fn values_in<'a>(found: &ArgMatches<'a>) -> Option<&'a str>
    ensures { option_map (λ text. text.now) result
        ≡ first_of (codes "values") (rows_of (found_of found.now)) }
{
    found.get_str("values")
}

fn store_in<'a>(found: &ArgMatches<'a>) -> Option<&'a str>
    ensures { option_map (λ text. text.now) result
        ≡ first_of (codes "store") (rows_of (found_of found.now)) }
{
    found.get_str("store")
}

fn asked_in<'a>(alloc: Global, found: &ArgMatches<'a>) -> Result<Asked<'a>, AllocError>
    ensures { IfOk result (λ asked. IsAskedIn (rows_of (found_of found.now)) asked) }
{
    let audit = audit_in(alloc, found)?;
    let about = about_in(found);
    let text = text_in(found);
    let values = values_in(found);
    let store = store_in(found);
    Ok(Asked {
        audit,
        about,
        text,
        values,
        store,
    })
}

fn matches_in<'a>(alloc: Global, words: &'a [String]) -> Result<ArgMatches<'a>, Error>
    ensures ok { IfOk result (λ found. rows_of (found_of found)
        ≡ matches_of explain_app (texts_of words.entry.now)) }
    ensures fails { FailsBy (fault_of explain_app (texts_of words.entry.now)) result }
{
    program(alloc)?.try_get_matches_from(words)
}

/// What the words after the program's name ask for, or what to print in place of it: help, the
/// version, or a fault of the words.
pub fn read_words<'a>(alloc: Global, words: &'a [String]) -> Result<Asked<'a>, Error>
    ensures ok { IfOk result (λ asked. IsAskedBy (texts_of words.entry.now) asked) }
    ensures fails { FailsBy (fault_of explain_app (texts_of words.entry.now)) result }
{
    let found = matches_in(alloc, words)?;
    Ok(asked_in(alloc, &found)?)
}
