//! Command lines over files in memory, and checks of changed directories.

use crate::directories::Directories;
use crate::report::Report;
use crate::spelling::{spell, words_of};
use audit_command as audit;
use commands::run::run;
use std::alloc::Global;
use std::net::{Net, TcpListener, TcpStream};
use std::str;
use std::sync::Wait;
use std::thread::Threads;
use std::time::Clock;

/// What a command line gives, or is to give.
#[derive(Drop)]
pub struct Told {
    status: u8,
    out: Vec<u8>,
    err: Vec<u8>,
}

/// What `auditor` gives for these words over these files, if it reads this.
fn audited_by(alloc: Global, files: &Directories, words: &[String], mut input: &[u8]) -> Told {
    let mut out = Vec::new(alloc);
    let mut err = Vec::new(alloc);
    let ending = audit::run(alloc, files, words, &mut input, &mut out, &mut err);
    Told {
        status: ending.status,
        out,
        err,
    }
}

/// What `querier` gives for the words of a line over these files, or `auditor` if the line begins
/// with its name.
pub fn told_by<
    Q: Wait + Threads + Net<Listener = TcpListener, Stream = TcpStream> + Clock + Eprint + Sync,
>(rt: &Q, alloc: Global, files: &Directories, line: &Line<'_>) -> Told {
    if let Some((program, words)) = line.words.split_first() {
        if program.as_str() == "auditor" {
            return audited_by(alloc, files, words, &line.input);
        }
    }
    let mut out = Vec::new(alloc);
    let mut err = Vec::new(alloc);
    let ending = run(rt, alloc, files, &line.words, &mut out, &mut err, false);
    Told {
        status: ending.status,
        out,
        err,
    }
}

/// What the lines of a case want, and whether they say all of it.
fn wanted_by(alloc: Global, lines: &[&str]) -> Option<(Told, bool)> {
    let mut told = Told {
        status: 0,
        out: Vec::new(alloc),
        err: Vec::new(alloc),
    };
    let mut whole = true;
    for line in lines.iter().skip(1) {
        let (mark, text) = line.split_once(' ')?;
        let text = spell(alloc, text)?;
        match mark {
            "|" | "|~" => told.out.extend_from_slice(&text).ok()?,
            "!" | "!~" => told.err.extend_from_slice(&text).ok()?,
            "<" => {}
            _ => told.status = str::from_utf8(&text).ok()?.parse().ok()?,
        }
        match mark {
            "|" => told.out.push(b'\n').ok()?,
            "!" => told.err.push(b'\n').ok()?,
            "?" | "<" => {}
            _ => whole = false,
        }
    }
    Some((told, whole))
}

/// What the lines of a case say that the program reads.
fn input_of(alloc: Global, lines: &[&str]) -> Option<Vec<u8>> {
    let mut input = Vec::new(alloc);
    for line in lines {
        if let Some(text) = line.strip_prefix("< ") {
            input.extend_from_slice(&spell(alloc, text)?).ok()?;
            input.push(b'\n').ok()?;
        }
    }
    Some(input)
}

/// Whether bytes are what is wanted, or have it somewhere. If nothing is wanted, there are no
/// bytes.
fn fits(came: &[u8], wanted: &[u8], whole: bool) -> bool {
    match (str::from_utf8(came), str::from_utf8(wanted)) {
        (Ok(came), Ok(wanted)) if !whole && !wanted.is_empty() => came.contains(wanted),
        _ => came == wanted,
    }
}

/// A command line, the files that it is tried over if they are its own, what the program reads, and
/// what it is to give.
#[derive(Drop)]
pub struct Line<'a> {
    text: &'a str,
    own: Option<Directories>,
    words: Vec<String>,
    input: Vec<u8>,
    wanted: Told,
    whole: bool,
}

impl Line<'_> {
    /// The files that it is tried over: its own, or else these.
    pub fn files<'b>(&'b self, shared: &'b Directories) -> &'b Directories {
        match &self.own {
            Some(own) => own,
            None => shared,
        }
    }

    /// Counts whether what it gave is what is wanted.
    pub fn judge(&self, report: &mut Report, came: &Told) {
        let passed = fits(&came.out, &self.wanted.out, self.whole)
            && fits(&came.err, &self.wanted.err, self.whole)
            && came.status == self.wanted.status;
        report.count(passed, self.text, &self.wanted.out, &came.out);
    }
}

/// The command line that these lines spell, and what it is to give.
pub fn line_of<'a>(alloc: Global, text: &'a str, lines: &[&'a str]) -> Option<Line<'a>> {
    let words = words_of(alloc, text)?;
    let (wanted, whole) = wanted_by(alloc, lines)?;
    Some(Line {
        text,
        own: None,
        words,
        input: input_of(alloc, lines)?,
        wanted,
        whole,
    })
}

/// The check of a directory after the changes of a line, and what it is to say.
pub fn check_of<'a>(
    alloc: Global,
    files: &Directories,
    directory: &str,
    line: &'a str,
) -> Option<Line<'a>> {
    let (changes, verdict) = line.split_once(" = ")?;
    let changes = words_of(alloc, changes)?;
    let own = files.with_changes(alloc, directory, &changes)?;
    let said = format!(in alloc; "it: {verdict}\n").ok()?;
    let wanted = Told {
        status: if verdict.starts_with("ok ") { 0 } else { 1 },
        out: said.into_bytes(),
        err: Vec::new(alloc),
    };
    Some(Line {
        text: line,
        own: Some(own),
        words: words_of(alloc, "check it")?,
        input: Vec::new(alloc),
        wanted,
        whole: true,
    })
}
