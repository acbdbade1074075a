//! The command line.

ghost use Rattle.std.specs.Prelude.{◌≡◌, ◌⊎◌, false, [], codes, map, option_map, unwrap_or};
ghost use Rattle.std.specs.Prelude.{IfOk, IfErr, IsOkAnd};
ghost use Rattle.commands.specs.ServingLines.{count_rule, port_rule, flag_rule, text_rule};
ghost use Rattle.commands.specs.ServingLines.{counts_app, serve_app, IsCountIn, IsFlagIn};
ghost use Rattle.commands.specs.ServingLines.{IsServingIn, IsReadingIn, IsFoundServe, has_both};
ghost use Rattle.commands.specs.Running.{IsTaken};
ghost use Rattle.clap.specs.Values.{kind_of};
ghost use Rattle.clap.specs.Matches.{found_of};
ghost use Rattle.clap.specs.Words.{app_of, new_app, rule_of, rows_of, one_of, first_of, all_of};
ghost use Rattle.clap.specs.Words.{subcommand_of, subcommand_rows_of, fault_of, FailsBy};
ghost use Rattle.clap.specs.Words.{AddsSubcommand};
ghost use Rattle.commands.specs.OptionRules.{directories_rule};
ghost use Rattle.commands.specs.Lines.{time_rule, selector_rule, blocks_rule, select_app};
ghost use Rattle.commands.specs.Lines.{backup_app, check_app, named_app, querier_app, path_rule};
ghost use Rattle.commands.specs.Lines.{journal_app};
ghost use Rattle.commands.specs.Lines.{IsKindFor, IsLineFault};
ghost use Rattle.commands.specs.Lines.{IsTimeIn, IsSelectionIn};
ghost use Rattle.commands.specs.Lines.{AreTakenByClap, AreRefusedByClap, IsFoundLine, IsLineOf};
ghost use Rattle.commands.specs.Lines.{texts_of};

use crate::help::{
    BACKUPS, CHECKS, COPY, CUT_AFTER, CUT_EVERY, DATA, EXAMPLE, FROM, GUARD, IDLE, JOIN_SAMPLES,
    JOURNAL_MB, JOURNALS, KEEP, KEEP_GB, PATH, PORT, PROMETHEUS_PORT, PROMETHEUS_WORKERS, QUIET,
    READ_ONLY, REPLY_MEMORY, REQUESTS, SERVES, SOURCE, STATUS_PORT, STATUSES, TO, VERSION, WORKERS,
};
use clap::builder::ValueParser;
use clap::error::ErrorKind;
use clap::{Arg, ArgAction, ArgMatches, Command, Error, value_parser};
use labels::{MAX_TIME, MIN_TIME};
use std::alloc::{AllocError, Global};

/// A selector, and a closed range of times in milliseconds, as they were written. Neither is
/// checked.
#[derive(Clone, Copy, Drop)]
pub struct Selection<'a> {
    pub selector: &'a str,
    pub from: i64,
    pub to: i64,
}

/// How a store is served, as it was written.
#[derive(Clone, Copy, Drop)]
pub struct Serving<'a> {
    /// The port of 127.0.0.1, or 0 for any that is free.
    pub port: u64,
    /// How many workers there are, each a thread.
    pub workers: u64,
    /// After how many connections a worker ends. The greatest number means never.
    pub requests: u64,
    /// For how many seconds a client may be silent, or 0 for ever.
    pub idle_seconds: u64,
    /// How many MB the replies under way may take together, or 0 for any number.
    pub reply_memory: u64,
    /// The port of 127.0.0.1 for what a Prometheus sends and asks, or 0 for none.
    pub prometheus_port: u64,
    /// How many workers serve that port, each a thread.
    pub prometheus_workers: u64,
    /// The port of 127.0.0.1 for those that ask for the state of the server, or 0 for none.
    pub status_port: u64,
    /// At multiples of how many milliseconds the server cuts by itself, or 0 for never.
    pub cut_every: u64,
    /// How many milliseconds behind the newest sample and the clock a cut of its own lies at least.
    pub cut_after: u64,
    /// Whether there is no `POST`.
    pub read_only: bool,
    /// The file with the token of each `POST`, if requests are guarded.
    pub guard: Option<&'a str>,
    /// The folder in which the store is kept, if it is kept. Then there are no directories.
    pub folder: Option<&'a str>,
    /// With how many MB of changes its journal is begun anew.
    pub journal_mb: u64,
    /// How long its samples are kept, if not for ever. The text is not checked.
    pub keep: Option<&'a str>,
    /// How many GB its blocks may have before the oldest samples leave, or 0 for any number.
    pub keep_gb: u64,
    /// How many samples a block may have that is joined of others.
    pub join_samples: u64,
}

/// What is read, as it was written.
#[derive(Drop)]
pub struct Reading<'a> {
    pub directories: Vec<&'a str>,
    /// Whether no progress is written to a terminal.
    pub quiet: bool,
}

/// What the words ask for.
#[derive(Drop)]
pub enum Line<'a> {
    /// The answer to `up{job="a"}` over six series that two batches bring.
    Demo,
    /// The answer to a selection over the blocks in these directories.
    Select(Selection<'a>, Reading<'a>),
    /// What the blocks in these directories are judged to be.
    Check(Reading<'a>),
    /// A server over the blocks in these directories, or of a store that is kept.
    Serve(Serving<'a>, Reading<'a>),
    /// What the journal at this path holds.
    Journal(&'a str),
    /// A copy of the store in the first folder, in the second.
    Backup(&'a str, &'a str),
}

/// The most milliseconds between cuts: the greatest time.
const LONGEST: u64 = 4_611_686_018_427_387_903;

/// An option `--NAME VALUE` with a text.
fn text<'a>(alloc: Global, name: &'a str, value: &'a str, help: &'a str) -> Arg<'a>
    ensures rule { rule_of result ≡ text_rule name.entry.now }
    ensures global { result.global ≡ false }
{
    Arg::new(alloc, name)
        .long(name)
        .value_name(value)
        .help(help)
}

/// An option `--NAME N` with a signed number of 64 bits.
fn time<'a>(alloc: Global, name: &'a str, help: &'a str) -> Arg<'a>
    ensures rule { rule_of result ≡ time_rule name.entry.now }
    ensures global { result.global ≡ false }
{
    text(alloc, name, "N", help).value_parser(value_parser!(i64))
}

fn selector<'a>(alloc: Global) -> Arg<'a>
    ensures rule { rule_of result ≡ selector_rule }
    ensures global { result.global ≡ false }
{
    Arg::new(alloc, "selector")
        .value_name("SELECTOR")
        .required(true)
        .help("Which series, as up{job=\"a\"}")
}

/// An option `--NAME VALUE` with a number from one to another.
fn count<'a>(
    alloc: Global,
    name: &'a str,
    value: &'a str,
    range: (u64, u64),
    help: &'a str,
) -> Arg<'a>
    ensures rule { rule_of result ≡ count_rule name.entry.now range.0 range.1 }
    ensures global { result.global ≡ false }
{
    let (least, most) = range;
    text(alloc, name, value, help).value_parser(ValueParser::unsigned(least, most))
}

/// The port, which must be given.
fn port<'a>(alloc: Global) -> Arg<'a>
    ensures rule { rule_of result ≡ port_rule }
    ensures global { result.global ≡ false }
{
    count(alloc, "port", "P", (0, 65_535), PORT).required(true)
}

/// An option `--NAME` without a value.
fn flag<'a>(alloc: Global, name: &'a str, help: &'a str) -> Arg<'a>
    ensures rule { rule_of result ≡ flag_rule name.entry.now }
    ensures global { result.global ≡ false }
{
    Arg::new(alloc, name)
        .long(name)
        .action(ArgAction::SetTrue)
        .help(help)
}

/// The directories of `select` and `serve`, as many as there are.
fn directories<'a>(alloc: Global) -> Arg<'a>
    ensures rule { rule_of result ≡ directories_rule }
    ensures global { result.global ≡ false }
{
    Arg::new(alloc, "directories")
        .value_name("DIR")
        .num_args(..)
        .help("A directory with a block, verified before anything is printed")
}

/// The directories of `check`, one or more.
fn blocks<'a>(alloc: Global) -> Arg<'a>
    ensures rule { rule_of result ≡ blocks_rule }
    ensures global { result.global ≡ false }
{
    Arg::new(alloc, "directories")
        .value_name("DIR")
        .num_args(1..)
        .required(true)
        .help("A directory with a block")
}

fn demo<'a>(alloc: Global) -> Command<'a>
    ensures { app_of result ≡ new_app (codes "demo") }
{
    Command::new(alloc, "demo")
        .about(
            "Commits two batches to an empty store and prints the audited answer to up{job=\"a\"}",
        )
        .after_help("Example: querier demo")
}

fn select<'a>(alloc: Global) -> Result<Command<'a>, AllocError>
    ensures { IfOk result (λ command. app_of command ≡ select_app) }
{
    Command::new(alloc, "select")
        .about("Prints the audited answer to a selector over blocks as one line of JSON")
        .after_help(EXAMPLE)
        .arg(time(alloc, "from", FROM))?
        .arg(time(alloc, "to", TO))?
        .arg(flag(alloc, "quiet", QUIET))?
        .arg(selector(alloc))?
        .arg(directories(alloc))
}

fn check<'a>(alloc: Global) -> Result<Command<'a>, AllocError>
    ensures { IfOk result (λ command. app_of command ≡ check_app) }
{
    Command::new(alloc, "check")
        .about("Verifies blocks completely: each checksum, each chunk and each list of postings")
        .after_help(CHECKS)
        .arg(flag(alloc, "quiet", QUIET))?
        .arg(blocks(alloc))
}

/// `serve`, without its options.
fn bare_serve<'a>(alloc: Global) -> Command<'a>
    ensures { app_of result ≡ new_app (codes "serve") }
{
    Command::new(alloc, "serve")
        .about("Serves a store over blocks to HTTP clients of this machine")
        .after_help(SERVES)
}

/// The options of `serve` with a number.
fn counts<'a>(alloc: Global) -> Result<Command<'a>, AllocError>
    ensures { IfOk result (λ command. app_of command ≡ counts_app) }
{
    bare_serve(alloc)
        .arg(port(alloc))?
        .arg(count(alloc, "workers", "W", (1, 64), WORKERS))?
        .arg(count(alloc, "requests", "N", (0, u64::MAX), REQUESTS))?
        .arg(count(alloc, "idle-seconds", "S", (0, u32::MAX as u64), IDLE))?
        .arg(count(alloc, "prometheus-port", "P", (0, 65535), PROMETHEUS_PORT))?
        .arg(count(
            alloc,
            "prometheus-workers",
            "W",
            (1, 64),
            PROMETHEUS_WORKERS,
        ))?
        .arg(count(alloc, "status-port", "P", (1, 65535), STATUS_PORT))?
        .arg(count(alloc, "cut-every", "MS", (1, LONGEST), CUT_EVERY))?
        .arg(count(alloc, "cut-after", "MS", (0, LONGEST), CUT_AFTER))?
        .arg(count(alloc, "journal-mb", "MB", (1, 1048576), JOURNAL_MB))
}

fn serve<'a>(alloc: Global) -> Result<Command<'a>, AllocError>
    ensures { IfOk result (λ command. app_of command ≡ serve_app) }
{
    counts(alloc)?
        .arg(text(alloc, "keep", "D", KEEP))?
        .arg(count(alloc, "keep-gb", "GB", (1, 1048576), KEEP_GB))?
        .arg(count(alloc, "join-samples", "N", (1, 67108864), JOIN_SAMPLES))?
        .arg(count(alloc, "reply-memory", "MB", (1, 1048576), REPLY_MEMORY))?
        .arg(flag(alloc, "read-only", READ_ONLY))?
        .arg(text(alloc, "guard", "FILE", GUARD))?
        .arg(text(alloc, "data", "DIR", DATA))?
        .arg(flag(alloc, "quiet", QUIET))?
        .arg(directories(alloc))
}

/// A path that must be given.
fn path<'a>(alloc: Global, name: &'a str, value: &'a str, help: &'a str) -> Arg<'a>
    ensures rule { rule_of result ≡ path_rule name.entry.now }
    ensures global { result.global ≡ false }
{
    Arg::new(alloc, name)
        .value_name(value)
        .required(true)
        .help(help)
}

fn journal<'a>(alloc: Global) -> Result<Command<'a>, AllocError>
    ensures { IfOk result (λ command. app_of command ≡ journal_app) }
{
    Command::new(alloc, "journal")
        .about("Lists the changes that a journal holds")
        .after_help(JOURNALS)
        .arg(path(alloc, "path", "PATH", PATH))
}

fn backup<'a>(alloc: Global) -> Result<Command<'a>, AllocError>
    ensures { IfOk result (λ command. app_of command ≡ backup_app) }
{
    Command::new(alloc, "backup")
        .about("Copies the store of a folder, beside its server")
        .after_help(BACKUPS)
        .arg(path(alloc, "data", "DIR", SOURCE))?
        .arg(path(alloc, "out", "OUT", COPY))
}

/// The program, without its subcommands.
fn named<'a>(alloc: Global) -> Result<Command<'a>, AllocError>
    ensures { IfOk result (λ command. app_of command ≡ named_app) }
{
    Command::new(alloc, "querier")
        .about("Answers selectors over series, with a certificate that shows each answer whole")
        .after_help(STATUSES)
        .version(VERSION)
        .no_binary_name(true)
        .subcommand_required(true)
        .bin_name("querier")
}

/// Adds a subcommand, if there was memory for it.
fn add<'a>(
    command: Command<'a>,
    other: Result<Command<'a>, AllocError>,
) -> Result<Command<'a>, AllocError>
    ensures { IfOk result (λ added. IsOkAnd other.entry
        (λ subcommand. AddsSubcommand command.entry subcommand added)) }
{
    match other {
        Ok(other) => command.subcommand(other),
        Err(error) => Err(error),
    }
}

fn querier<'a>(alloc: Global) -> Result<Command<'a>, AllocError>
    ensures { IfOk result (λ command. app_of command ≡ querier_app) }
{
    let command = named(alloc)?.subcommand(demo(alloc))?;
    let command = add(command, check(alloc))?;
    let command = add(command, select(alloc))?;
    let command = add(command, serve(alloc))?;
    let command = add(command, journal(alloc))?;
    add(command, backup(alloc))
}

/// The time that an option gives, or another if it is not used.
fn time_in(found: &ArgMatches<'_>, name: &str, other: i64) -> i64
    ensures { IsTimeIn (one_of name.now (rows_of (found_of found.now))) other result }
{
    match found.get_one(name) {
        Some(time) => time,
        None => other,
    }
}

/// The number that an option gives, or another if it is not used.
fn count_in(found: &ArgMatches<'_>, name: &str, other: u64) -> u64
    ensures { IsCountIn (one_of name.now (rows_of (found_of found.now))) other result }
{
    match found.get_one(name) {
        Some(count) => count,
        None => other,
    }
}

fn text_in<'a>(found: &ArgMatches<'a>, name: &str) -> &'a str
    ensures { result.now ≡ unwrap_or (first_of name.now (rows_of (found_of found.now))) [] }
{
    match found.get_str(name) {
        Some(text) => text,
        None => "",
    }
}

fn selection_in<'a>(found: &ArgMatches<'a>) -> Selection<'a>
    ensures { IsSelectionIn (rows_of (found_of found.now)) result.selector.now
        result.from result.to }
{
    let selector = text_in(found, "selector");
    let from = time_in(found, "from", MIN_TIME);
    let to = time_in(found, "to", MAX_TIME);
    Selection { selector, from, to }
}

/// Whether a flag is set.
fn flag_in(found: &ArgMatches<'_>, name: &str) -> bool
    ensures { IsFlagIn (one_of name.now (rows_of (found_of found.now))) result }
{
    found.get_flag(name)
}

/// The text that an option gives, if it is used.
fn given_in<'a>(found: &ArgMatches<'a>, name: &str) -> Option<&'a str>
    ensures { option_map (λ text. text.now) result
        ≡ first_of name.now (rows_of (found_of found.now)) }
{
    found.get_str(name)
}

fn serving_in<'a>(found: &ArgMatches<'a>) -> Serving<'a>
    ensures { IsServingIn (rows_of (found_of found.now)) result }
{
    let port = count_in(found, "port", 0);
    let workers = count_in(found, "workers", 4);
    let requests = count_in(found, "requests", u64::MAX);
    let idle_seconds = count_in(found, "idle-seconds", 30);
    let prometheus_port = count_in(found, "prometheus-port", 0);
    let prometheus_workers = count_in(found, "prometheus-workers", 4);
    let status_port = count_in(found, "status-port", 0);
    let cut_every = count_in(found, "cut-every", 0);
    let cut_after = count_in(found, "cut-after", cut_every - cut_every / 2);
    let journal_mb = count_in(found, "journal-mb", 8);
    let keep_gb = count_in(found, "keep-gb", 0);
    let join_samples = count_in(found, "join-samples", 33_554_432);
    let reply_memory = count_in(found, "reply-memory", 0);
    Serving {
        port,
        workers,
        requests,
        idle_seconds,
        reply_memory,
        prometheus_port,
        prometheus_workers,
        status_port,
        cut_every,
        cut_after,
        read_only: flag_in(found, "read-only"),
        guard: given_in(found, "guard"),
        folder: given_in(found, "data"),
        journal_mb,
        keep: given_in(found, "keep"),
        keep_gb,
        join_samples,
    }
}

fn directories_in<'a>(alloc: Global, found: &ArgMatches<'a>) -> Result<Vec<&'a str>, AllocError>
    ensures { IfOk result (λ texts. map (λ text. text.now) texts.items
        ≡ unwrap_or (all_of (codes "directories") (rows_of (found_of found.now))) []) }
{
    match found.get_strs("directories") {
        Some(texts) => Vec::from_slice(alloc, texts),
        None => Ok(Vec::new(alloc)),
    }
}

fn reading_in<'a>(alloc: Global, found: &ArgMatches<'a>) -> Result<Reading<'a>, AllocError>
    ensures { IfOk result (λ reading. IsReadingIn (rows_of (found_of found.now)) reading) }
{
    Ok(Reading {
        directories: directories_in(alloc, found)?,
        quiet: flag_in(found, "quiet"),
    })
}

/// Whether directories are given beside the folder of a store.
fn has_both(serving: Serving<'_>, reading: &Reading<'_>) -> bool
    ensures { result ≡ has_both serving.entry reading.now }
{
    serving.folder.is_some() && !reading.directories.is_empty()
}

/// What `serve` asks for, or none if directories are given beside the folder of a store.
fn serve_line<'a>(alloc: Global, found: &ArgMatches<'a>) -> Result<Option<Line<'a>>, AllocError>
    ensures { IfOk result (λ line. IsFoundServe (rows_of (found_of found.now)) line) }
{
    let reading = reading_in(alloc, found)?;
    let serving = serving_in(found);
    if has_both(serving, &reading) {
        return Ok(None);
    }
    Ok(Some(Line::Serve(serving, reading)))
}

/// What a found subcommand asks for, or none if there is no subcommand, or if `serve` is to serve
/// directories and the store of a folder.
fn line_in<'a>(alloc: Global, found: &ArgMatches<'a>) -> Result<Option<Line<'a>>, AllocError>
    ensures { IfOk result (λ line. IsFoundLine (subcommand_rows_of found.now) line) }
{
    if found.subcommand_matches("demo").is_some() {
        return Ok(Some(Line::Demo));
    }
    if let Some(arguments) = found.subcommand_matches("check") {
        return Ok(Some(Line::Check(reading_in(alloc, arguments)?)));
    }
    if let Some(arguments) = found.subcommand_matches("serve") {
        return serve_line(alloc, arguments);
    }
    if let Some(arguments) = found.subcommand_matches("journal") {
        return Ok(Some(Line::Journal(text_in(arguments, "path"))));
    }
    if let Some(arguments) = found.subcommand_matches("backup") {
        let (from, out) = (text_in(arguments, "data"), text_in(arguments, "out"));
        return Ok(Some(Line::Backup(from, out)));
    }
    let Some(arguments) = found.subcommand_matches("select") else {
        return Ok(None);
    };
    let reading = reading_in(alloc, arguments)?;
    Ok(Some(Line::Select(selection_in(arguments), reading)))
}

fn matches_in<'a>(alloc: Global, words: &'a [String]) -> Result<ArgMatches<'a>, Error>
    ensures ok { IfOk result (λ found.
        subcommand_rows_of found ≡ subcommand_of querier_app (texts_of words.entry.now)) }
    ensures err { IfErr result (λ e.
        AreTakenByClap (texts_of words.entry.now) → kind_of e ≡ ErrorKind.OutOfMemory) }
    ensures fails { FailsBy (fault_of querier_app (texts_of words.entry.now)) result }
{
    querier(alloc)?.try_get_matches_from(words)
}

/// The fault of words without a subcommand.
fn no_subcommand(alloc: Global) -> Result<Error, AllocError>
    ensures { IfOk result (λ e. kind_of e ≡ ErrorKind.MissingSubcommand) }
{
    querier(alloc)?.error(ErrorKind::MissingSubcommand, "a subcommand is missing")
}

/// The fault of words that name both directories and the folder of a store.
fn both_stores(alloc: Global) -> Result<Error, AllocError>
    ensures { IfOk result (λ e. kind_of e ≡ ErrorKind.ArgumentConflict) }
{
    querier(alloc)?.error(
        ErrorKind::ArgumentConflict,
        "the argument '--data <DIR>' cannot be used with '[DIR]...'",
    )
}

/// The fault of words by which a store that is not kept, or not cut, is to be kept for a time.
pub(crate) fn no_upkeep(alloc: Global) -> Result<Error, AllocError>
    ensures { IfOk result (λ e. kind_of e ≡ ErrorKind.MissingRequiredArgument) }
{
    querier(alloc)?.error(
        ErrorKind::MissingRequiredArgument,
        "the arguments '--keep <D>' and '--keep-gb <GB>' need '--data <DIR>' and \
         '--cut-every <MS>'",
    )
}

/// The fault of words that write no time for which samples are kept.
pub(crate) fn no_span(alloc: Global, text: &str) -> Result<Error, AllocError>
    ensures { IfOk result (λ e. kind_of e ≡ ErrorKind.ValueValidation) }
{
    let message = format!(in alloc;
        "invalid value '{text}' for '--keep <D>': it is no number, nor one with s, m, h or d"
    )?;
    querier(alloc)?.error(ErrorKind::ValueValidation, message.as_str())
}

/// The fault of words that ask for no line, though `clap` takes them.
fn no_line(alloc: Global, found: &ArgMatches<'_>) -> Result<Error, AllocError>
    ensures { IfOk result (λ e. IsKindFor (subcommand_rows_of found.now) (kind_of e)) }
{
    match found.subcommand_matches("serve") {
        Some(_) => both_stores(alloc),
        None => no_subcommand(alloc),
    }
}

/// What the words after the program's name ask for, or what to print in place of it: help, the
/// version, or a fault of the words.
pub fn read_line<'a>(alloc: Global, words: &'a [String]) -> Result<Line<'a>, Error>
    ensures ok { IfOk result (λ line. IsLineOf (texts_of words.entry.now) line) }
    ensures err { IfErr result (λ e.
        IsTaken (texts_of words.entry.now) → kind_of e ≡ ErrorKind.OutOfMemory) }
    ensures refused { IfErr result (λ e. AreTakenByClap (texts_of words.entry.now)
        → (kind_of e ≡ ErrorKind.OutOfMemory)
        ⊎ IsLineFault (texts_of words.entry.now) (kind_of e)) }
    ensures fails { AreRefusedByClap (texts_of words.entry.now)
        → FailsBy (fault_of querier_app (texts_of words.entry.now)) result }
{
    let found = matches_in(alloc, words)?;
    match line_in(alloc, &found)? {
        Some(line) => Ok(line),
        None => Err(no_line(alloc, &found)?),
    }
}
