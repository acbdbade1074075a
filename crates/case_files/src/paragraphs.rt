//! The cases of a file, paragraph by paragraph.

use crate::directories::Directories;
use crate::lines::{Line, check_of, line_of};
use crate::report::Report;
use crate::sessions::Session;
use crate::steps::steps_of;
use std::alloc::Global;

/// A case, as it was read.
#[derive(Drop)]
pub enum Case<'a> {
    Line(Line<'a>),
    Session(Session<'a>),
}

/// The lines of a paragraph that are no comments.
fn lines_of(alloc: Global, paragraph: &str) -> Option<Vec<&str>> {
    let mut lines = Vec::new(alloc);
    let mut rest = paragraph;
    for _ in 0..=paragraph.len() {
        let (line, tail) = rest.split_once('\n').unwrap_or((rest, ""));
        if !line.is_empty() && !line.starts_with('#') {
            lines.push(line).ok()?;
        }
        rest = tail;
    }
    Some(lines)
}

/// Adds the checks of a directory, one a line.
fn push_checks<'a>(
    alloc: Global,
    directories: &Directories,
    cases: &mut Vec<Case<'a>>,
    directory: &str,
    lines: &[&'a str],
) -> Option<()> {
    for line in lines.iter().skip(1) {
        let check = check_of(alloc, directories, directory, line)?;
        cases.push(Case::Line(check)).ok()?;
    }
    Some(())
}

/// Adds the files or the cases of a paragraph. Returns nothing if it is not understood.
fn read_paragraph<'a>(
    alloc: Global,
    directories: &mut Directories,
    cases: &mut Vec<Case<'a>>,
    paragraph: &'a str,
) -> Option<()> {
    let lines = lines_of(alloc, paragraph)?;
    let Some(first) = lines.first() else {
        return Some(());
    };
    let first: &'a str = first;
    if first.starts_with("file ") {
        return directories.define(alloc, &lines);
    }
    if let Some(text) = first.strip_prefix("$ ") {
        let line = line_of(alloc, text, &lines)?;
        return cases.push(Case::Line(line)).ok();
    }
    if let Some(directory) = first.strip_prefix("check ") {
        return push_checks(alloc, directories, cases, directory, &lines);
    }
    let session = Session {
        names: first.strip_prefix("store")?,
        steps: steps_of(alloc, &lines)?,
    };
    cases.push(Case::Session(session)).ok()
}

/// The cases of a file. A paragraph that is not understood is reported.
pub fn cases_of<'a>(
    alloc: Global,
    directories: &mut Directories,
    report: &mut Report,
    text: &'a str,
) -> Vec<Case<'a>> {
    let mut cases = Vec::new(alloc);
    let mut rest = text;
    for _ in 0..=text.len() {
        let (paragraph, tail) = rest.split_once("\n\n").unwrap_or((rest, ""));
        if read_paragraph(alloc, directories, &mut cases, paragraph).is_none() {
            report.misread(paragraph);
        }
        rest = tail;
        if rest.is_empty() {
            break;
        }
    }
    cases
}
