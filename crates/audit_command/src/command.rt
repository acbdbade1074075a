//! The command line.

ghost use Rattle.std.specs.Prelude.{◌≡◌, false, [], codes, map, unwrap_or, IfOk};
ghost use Rattle.clap.specs.Matches.{found_of};
ghost use Rattle.clap.specs.Words.{app_of, rule_of, rows_of, one_of, first_of, all_of, matches_of};
ghost use Rattle.clap.specs.Words.{fault_of, FailsBy};
ghost use Rattle.audit_command.specs.Asking.{selector_rule, time_rule, directories_rule};
ghost use Rattle.audit_command.specs.Asking.{named_app, with_query, with_arguments, auditor_app};
ghost use Rattle.audit_command.specs.Asking.{texts_of};
ghost use Rattle.audit_command.specs.Asking.{IsTimeIn, IsAskedIn, IsAskedBy};

use clap::{Arg, ArgMatches, Command, Error, value_parser};
use labels::{MAX_TIME, MIN_TIME};
use std::alloc::{AllocError, Global};

/// What the words ask for: the query of the reply, a selector and a closed range of times in
/// milliseconds, and the directories of the blocks, in their order. All of it is as it was written:
/// nothing is checked.
#[derive(Debug, Drop)]
pub struct Asked<'a> {
    pub selector: &'a str,
    pub from: i64,
    pub to: i64,
    pub directories: Vec<&'a str>,
}

const FROM: &str =
    "The first time, in milliseconds; a negative one is written --from=-10 [default: -2^62]";

const TO: &str = "The last time, in milliseconds [default: 2^62 - 1]";

const LINES: &str =
    r#"The reply is read from standard input. The directories are its blocks, "block 0", "block 1"
and so on, in the order given; of each the files index, chunks/000001 and tombstones are read, and
the lists of the index are not looked at. For each part of the reply one line is printed, then one
for each directory that no part names, and last that of the rows of all:
  block 0: valid         the rows are those that the query selects, and the certificate shows it
  block 0: F5 at 1       the first flaw of what is said of the part: F1 to F8
  block 0: skipped       the part was skipped, and the query selects nothing of it
  block 0: F9            the part was skipped, and the query selects something of it
  block 0: refused I9    the files are those of no block: I1 to I10, I15, C1 to C8, T1 to T5
  head: skipped          the head, and blocks without a directory, are not looked at
  rows: valid            the rows of all are those of the parts; else F10

docs/AUDITING.md of the project explains each flaw.

With --store DIR in place of directories, a reply of querier serve --data DIR is judged, its head
and changes too: see auditor --store DIR --help. auditor --mark --help says how to have it judged
that a reply is not from before a write.

Exit status: 0 nothing is wrong; 1 a line names a flaw or a refusal, or the selector or the range is
refused; 2 a fault of the words; 3 a file or standard input cannot be read, or it holds no reply, or
the lines cannot be written; 4 no memory

Example: querier select 'up{job="a"}' data/0001 | auditor --selector 'up{job="a"}' data/0001"#;

/// What `--version` tells behind the name.
const VERSION: &str = "0.1.0 (rattle-kit-13f)";

/// The option `--selector S`, which must stand there.
fn selector<'a>(alloc: Global) -> Arg<'a>
    ensures rule { rule_of result ≡ selector_rule }
    ensures global { result.global ≡ false }
{
    Arg::new(alloc, "selector")
        .long("selector")
        .value_name("S")
        .required(true)
        .help("Which series were asked for, as up{job=\"a\"}")
}

/// An option `--NAME N` with a signed number of 64 bits.
fn time<'a>(alloc: Global, name: &'a str, help: &'a str) -> Arg<'a>
    ensures rule { rule_of result ≡ time_rule name.entry.now }
    ensures global { result.global ≡ false }
{
    Arg::new(alloc, name)
        .long(name)
        .value_name("N")
        .value_parser(value_parser!(i64))
        .help(help)
}

/// The directories, as many as there are.
fn directories<'a>(alloc: Global) -> Arg<'a>
    ensures rule { rule_of result ≡ directories_rule }
    ensures global { result.global ≡ false }
{
    Arg::new(alloc, "directories")
        .value_name("DIR")
        .num_args(..)
        .help("A directory with a block")
}

/// Adds what a query is asked by to a command: `--selector S`, which must be given, `--from N` and
/// `--to N`.
pub fn with_query<'a>(alloc: Global, command: Command<'a>) -> Result<Command<'a>, AllocError>
    ensures { IfOk result (λ added. app_of added ≡ with_query (app_of command.entry)) }
{
    command
        .arg(selector(alloc))?
        .arg(time(alloc, "from", FROM))?
        .arg(time(alloc, "to", TO))
}

/// Adds what an audit is asked by to a command: a query, as [`with_query`] does, and directories.
pub fn with_arguments<'a>(alloc: Global, command: Command<'a>) -> Result<Command<'a>, AllocError>
    ensures { IfOk result (λ added. app_of added ≡ with_arguments (app_of command.entry)) }
{
    with_query(alloc, command)?.arg(directories(alloc))
}

/// The program, without its arguments.
fn auditor<'a>(alloc: Global) -> Result<Command<'a>, AllocError>
    ensures { IfOk result (λ command. app_of command ≡ named_app) }
{
    let command = Command::new(alloc, "auditor")
        .bin_name("auditor")?
        .about("Audits a reply to a selector, without the store's index reader, search or merge")
        .after_help(LINES)
        .version(VERSION)
        .no_binary_name(true);
    Ok(command)
}

/// The program: `--selector S [--from N] [--to N] [DIR]...`.
fn program<'a>(alloc: Global) -> Result<Command<'a>, AllocError>
    ensures { IfOk result (λ command. app_of command ≡ auditor_app) }
{
    with_arguments(alloc, auditor(alloc)?)
}

/// The time that an option gives, or another where it is not used.
fn time_in(found: &ArgMatches<'_>, name: &str, other: i64) -> i64
    ensures { IsTimeIn (one_of name.now (rows_of (found_of found.now))) other result }
{
    match found.get_one(name) {
        Some(time) => time,
        None => other,
    }
}

fn text_in<'a>(found: &ArgMatches<'a>, name: &str) -> &'a str
    ensures { result.now ≡ unwrap_or (first_of name.now (rows_of (found_of found.now))) [] }
{
    match found.get_str(name) {
        Some(text) => text,
        None => "",
    }
}

fn directories_in<'a>(alloc: Global, found: &ArgMatches<'a>) -> Result<Vec<&'a str>, AllocError>
    ensures { IfOk result (λ texts. map (λ text. text.now) texts.items
        ≡ unwrap_or (all_of (codes "directories") (rows_of (found_of found.now))) []) }
{
    match found.get_strs("directories") {
        Some(texts) => Vec::from_slice(alloc, texts),
        None => Ok(Vec::new(alloc)),
    }
}

/// What the arguments give; they are those of [`with_arguments`], and maybe others.
pub fn asked_in<'a>(alloc: Global, found: &ArgMatches<'a>) -> Result<Asked<'a>, AllocError>
    ensures { IfOk result (λ asked. IsAskedIn (rows_of (found_of found.now)) asked) }
{
    let directories = directories_in(alloc, found)?;
    let selector = text_in(found, "selector");
    let from = time_in(found, "from", MIN_TIME);
    let to = time_in(found, "to", MAX_TIME);
    Ok(Asked {
        selector,
        from,
        to,
        directories,
    })
}

fn matches_in<'a>(alloc: Global, words: &'a [String]) -> Result<ArgMatches<'a>, Error>
    ensures ok { IfOk result (λ found. rows_of (found_of found)
        ≡ matches_of auditor_app (texts_of words.entry.now)) }
    ensures fails { FailsBy (fault_of auditor_app (texts_of words.entry.now)) result }
{
    program(alloc)?.try_get_matches_from(words)
}

/// What the words after the program's name ask for, or what to print in place of it: help, the
/// version, or a fault of the words.
pub fn read_words<'a>(alloc: Global, words: &'a [String]) -> Result<Asked<'a>, Error>
    ensures ok { IfOk result (λ asked. IsAskedBy (texts_of words.entry.now) asked) }
    ensures fails { FailsBy (fault_of auditor_app (texts_of words.entry.now)) result }
{
    let found = matches_in(alloc, words)?;
    Ok(asked_in(alloc, &found)?)
}
