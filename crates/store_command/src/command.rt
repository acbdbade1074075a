//! The command line.

ghost use Rattle.std.specs.Prelude.{◌≡◌, codes, false, option_map, unwrap_or, [], IfOk};
ghost use Rattle.std.specs.Prelude.{MatchResult};
ghost use Rattle.clap.specs.Matches.{found_of};
ghost use Rattle.clap.specs.Words.{app_of, rule_of, rows_of, first_of, matches_of};
ghost use Rattle.clap.specs.Words.{fault_of, FailsBy};
ghost use Rattle.audit_command.specs.Asking.{directories_of, named_app, texts_of};
ghost use Rattle.store_command.specs.Asking.{aim_of, app_for, audit_app, has_option, option_in};
ghost use Rattle.store_command.specs.Asking.{mark_app, mark_rule, since_rule, store_rule};
ghost use Rattle.store_command.specs.Asking.{IsAskedIn, IsTaskBy, IsTaskIn, NamesBoth, NamesOne};

use audit_command::{Asked as AuditAsked, asked_in as audit_in, with_query};
use clap::{Arg, ArgAction, ArgMatches, Command, Error};
use std::alloc::{AllocError, Global};

/// What words want of a store.
#[derive(Clone, Copy, Debug, PartialEq, Eq, Drop)]
pub enum Aim {
    /// That a reply is judged over it.
    Audit,
    /// Its mark.
    Mark,
}

/// What is asked of a store, as it was written: nothing is checked.
#[derive(Debug, Drop)]
pub struct Asked<'a> {
    /// The query of the reply.
    pub audit: AuditAsked<'a>,
    /// The folder of the store.
    pub store: &'a str,
    /// A mark that the reply is not from before.
    pub since: Option<&'a str>,
}

/// Directories are named beside a store.
#[derive(Clone, Copy, Debug, PartialEq, Eq, Drop)]
pub struct Beside;

/// Finds that directories are not named beside a store.
pub fn check_names(store: Option<&str>, audit: &AuditAsked<'_>) -> Result<(), Beside>
    ensures { MatchResult result
        (λ _. NamesOne (option_map (λ text. text.now) store.entry) (directories_of audit.now))
        (λ _. NamesBoth (option_map (λ text. text.now) store.entry) (directories_of audit.now)) }
{
    match store {
        None => Ok(()),
        Some(_) => {
            if audit.directories.as_slice().is_empty() {
                Ok(())
            } else {
                Err(Beside)
            }
        }
    }
}

/// What words ask for.
#[derive(Debug, Drop)]
pub enum Task<'a> {
    /// An audit.
    Audit(Asked<'a>),
    /// The mark of the store in this folder.
    Mark(&'a str),
}

const AUDIT: &str =
    r#"The reply is read from standard input, and judged over the folder of a store, as querier
serve --data DIR keeps it: its server may run. A state of the store is sought, after some of the
events in its journal, of which each part of the reply is right. One line is printed for each part,
in the order of the reply, and one for each that it does not name:
  block 0: valid         the rows are those that the query selects, and the certificate shows it
  block 1: valid, numbered otherwise
                         a block whose series had other numbers than its files now say
  head: F5 at 1          the first flaw of what is said of the part: F1 to F8
  block 2: skipped       the part was skipped, and the query selects nothing of it; else F9
  parts: F11             the reply does not say something of each part once, in order
  rows: valid            the rows of all are those of the parts; else F10
and last, where it is so and a mark of that state, or that it is so of none:
  at event 7 of 9, mark 5d3163ef:7
  at no event from 0 to 9, told of event 9, mark 5d3163ef:9
  or the reply is from before the head
The lines of a reply that is right of no state are those of the one that is told. The last line
stands there without --since: what was before the head is no longer told apart.

With --since MARK the state has to be the marked one or a later one. If only an earlier one is
right, it says "at event 6 of 9, before mark MARK: ask again", since a mark may be ahead of the
server. If the store has begun its journal anew since, any state will do, and if none is right it
says "rolled since MARK: ask again".

If the files of a block are those of none, that is all that is said: block 0: refused I9.

docs/AUDITING.md of the project explains each flaw.

Exit status: 0 the reply is right of a state; 1 it is right of none, or the selector or the range
is refused; 2 a fault of the words; 3 a file or standard input cannot be read, or it holds no reply,
or the journal is refused (J1 to J4, K1 to K3), or the folder changes, or is rolled since the mark,
or the reply is from before it, or the lines cannot be written; 4 no memory

Example: curl -sG --data-urlencode selector=up 127.0.0.1:8080/select | auditor --store kept
--selector up"#;

const MARK: &str =
    r#"The mark of a store says how far its journal goes: "mark 5d3163ef:9". Whoever has written,
and has been told so, takes a mark, asks, and audits the reply by --since: then the state that is
found has what was written.

Exit status: 0 the mark is printed; 2 a fault of the words; 3 the journal cannot be read or is
refused, or the mark cannot be written; 4 no memory"#;

/// What `--version` tells behind the name.
const VERSION: &str = "0.1.0 (rattle-kit-13f)";

/// The option that a word names: what stands before `=`, or all of it.
fn option_in(word: &str) -> &str
    ensures { result.now ≡ option_in word.now }
{
    match word.split_once('=') {
        Some((option, _)) => option,
        None => word,
    }
}

/// Whether the option of this name is among the words before `--`.
fn has_option(words: &[String], name: &str) -> bool
    ensures { result ≡ has_option name.now (texts_of words.now) }
{
    for word in words {
        if word.as_str() == "--" {
            return false;
        }
        if option_in(word.as_str()) == name {
            return true;
        }
    }
    false
}

/// What words want of a store, if they name one: `--mark`, or else `--store`.
pub fn aim_of(words: &[String]) -> Option<Aim>
    ensures { result ≡ aim_of (texts_of words.now) }
{
    if has_option(words, "--mark") {
        return Some(Aim::Mark);
    }
    if has_option(words, "--store") {
        return Some(Aim::Audit);
    }
    None
}

/// The option `--store DIR`, which must stand there.
fn store<'a>(alloc: Global) -> Arg<'a>
    ensures rule { rule_of result ≡ store_rule }
    ensures global { result.global ≡ false }
{
    Arg::new(alloc, "store")
        .long("store")
        .value_name("DIR")
        .required(true)
        .help("The folder of a store, as querier serve --data DIR keeps it")
}

/// The option `--since MARK`.
fn since<'a>(alloc: Global) -> Arg<'a>
    ensures rule { rule_of result ≡ since_rule }
    ensures global { result.global ≡ false }
{
    Arg::new(alloc, "since")
        .long("since")
        .value_name("MARK")
        .help("A mark of the store that the reply must not be from before")
}

/// The flag `--mark`.
fn mark<'a>(alloc: Global) -> Arg<'a>
    ensures rule { rule_of result ≡ mark_rule }
    ensures global { result.global ≡ false }
{
    Arg::new(alloc, "mark")
        .long("mark")
        .action(ArgAction::SetTrue)
        .help("Prints the mark of the store")
}

/// The program, without its arguments.
fn auditor<'a>(alloc: Global, about: &'a str, lines: &'a str) -> Result<Command<'a>, AllocError>
    ensures { IfOk result (λ command. app_of command ≡ named_app) }
{
    let command = Command::new(alloc, "auditor")
        .bin_name("auditor")?
        .about(about)
        .after_help(lines)
        .version(VERSION)
        .no_binary_name(true);
    Ok(command)
}

/// The program that judges: `--store DIR --selector S [--from N] [--to N] [--since MARK]`.
fn audit_program<'a>(alloc: Global) -> Result<Command<'a>, AllocError>
    ensures { IfOk result (λ command. app_of command ≡ audit_app) }
{
    let about = "Audits a reply to a selector over the folder of a kept store";
    with_query(alloc, auditor(alloc, about, AUDIT)?)?
        .arg(store(alloc))?
        .arg(since(alloc))
}

/// The program that prints a mark: `--store DIR --mark`.
fn mark_program<'a>(alloc: Global) -> Result<Command<'a>, AllocError>
    ensures { IfOk result (λ command. app_of command ≡ mark_app) }
{
    let about = "Prints the mark of a kept store";
    auditor(alloc, about, MARK)?
        .arg(store(alloc))?
        .arg(mark(alloc))
}

fn program<'a>(alloc: Global, aim: Aim) -> Result<Command<'a>, AllocError>
    ensures { IfOk result (λ command. app_of command ≡ app_for aim) }
{
    match aim {
        Aim::Audit => audit_program(alloc),
        Aim::Mark => mark_program(alloc),
    }
}

fn store_in<'a>(found: &ArgMatches<'a>) -> &'a str
    ensures { result.now
        ≡ unwrap_or (first_of (codes "store") (rows_of (found_of found.now))) [] }
{
    match found.get_str("store") {
        Some(text) => text,
        None => "",
    }
}

fn since_in<'a>(found: &ArgMatches<'a>) -> Option<&'a str>
    ensures { option_map (λ text. text.now) result
        ≡ first_of (codes "since") (rows_of (found_of found.now)) }
{
    found.get_str("since")
}

fn asked_in<'a>(alloc: Global, found: &ArgMatches<'a>) -> Result<Asked<'a>, AllocError>
    ensures { IfOk result (λ asked. IsAskedIn (rows_of (found_of found.now)) asked) }
{
    let audit = audit_in(alloc, found)?;
    let store = store_in(found);
    let since = since_in(found);
    Ok(Asked {
        audit,
        store,
        since,
    })
}

fn task_in<'a>(alloc: Global, aim: Aim, found: &ArgMatches<'a>) -> Result<Task<'a>, AllocError>
    ensures { IfOk result (λ task. IsTaskIn aim (rows_of (found_of found.now)) task) }
{
    match aim {
        Aim::Audit => Ok(Task::Audit(asked_in(alloc, found)?)),
        Aim::Mark => Ok(Task::Mark(store_in(found))),
    }
}

fn matches_in<'a>(alloc: Global, aim: Aim, words: &'a [String]) -> Result<ArgMatches<'a>, Error>
    ensures ok { IfOk result (λ found. rows_of (found_of found)
        ≡ matches_of (app_for aim) (texts_of words.entry.now)) }
    ensures fails { FailsBy (fault_of (app_for aim) (texts_of words.entry.now)) result }
{
    program(alloc, aim)?.try_get_matches_from(words)
}

/// What the words after the program's name ask for, or what to print in place of it: help, the
/// version, or a fault of the words.
pub fn read_words<'a>(alloc: Global, aim: Aim, words: &'a [String]) -> Result<Task<'a>, Error>
    ensures ok { IfOk result (λ task. IsTaskBy aim (texts_of words.entry.now) task) }
    ensures fails { FailsBy (fault_of (app_for aim) (texts_of words.entry.now)) result }
{
    let found = matches_in(alloc, aim, words)?;
    Ok(task_in(alloc, aim, &found)?)
}
