//! The program `case_files`. It reads files of cases and does what each case asks. It prints each
//! case that goes otherwise, with what was wanted and what came.
//!
//! The words are the names of the files, in the order in which they are read. A file is read
//! paragraph by paragraph. A line that begins with `#` is a comment. A paragraph is of one kind,
//! which the first word of its first line says:
//!
//! - `file PATH PIECE..`: a file in memory. A piece is hexadecimal digits, `text:TEXT`,
//!   `like:PATH` (the bytes of another file), `@N` (what follows is put at byte N), `first:N` (what
//!   is behind the first N bytes is dropped) or `sum:A..B` (the CRC-32C of the bytes from A up to B
//!   is put at B). Further lines go on, or begin with `file` again.
//! - `check DIR`: each further line is a case: `index: @4 01 = refused I3` is what
//!   `querier check` says of the directory with its index changed so. Several files may be
//!   changed: `meta:`, `index:`, `chunks:`, `tombstones:`.
//! - `$ WORD..`: what `querier` gives for these words over the files in memory: `| LINE` is a line
//!   of standard output, `! LINE` one of standard error, `? N` the status, 0 if it is not given,
//!   and `|~ TEXT` and `!~ TEXT` are somewhere in the output. If the first word is `auditor`, the
//!   others are those of `auditor`, which reads the lines `< LINE`.
//! - `store DIR..`: a store over these blocks, and connections to it, each cut into pieces in three
//!   ways. `> GET TARGET`, `> POST PATH BODY` and `> select FROM TO SELECTOR` are requests,
//!   `>> TEXT` is one byte for byte. Then comes its reply: `< STATUS BODY`, or `<< TEXT` byte for
//!   byte, or `<~ TEXT`, which is somewhere in a reply of success, or `<-`, none. `x> ..` is a
//!   request of which one read fails, each in turn, and nothing comes. `x< ..` is a reply that is
//!   cut short at each of its bytes in turn.
//!
//! In texts `<CR>`, `<LF>` and `<FF>` (two hexadecimal digits) are bytes, and `<8 times>a<end>` is
//! `aaaaaaaa`. The last lines say how many cases of each file passed. A case of a connection counts
//! once for each way.
#![tactic(auto)]

mod directories;
mod edges;
mod lines;
mod paragraphs;
mod report;
mod sessions;
mod spelling;
mod steps;

use crate::directories::Directories;
use crate::lines::told_by;
use crate::paragraphs::{Case, cases_of};
use crate::report::Report;
use crate::sessions::try_session;
use std::process::ExitCode;
use std::{fs, io};

fn main(rt: HostRuntime) -> io::Result<ExitCode> {
    let alloc = rt.alloc();
    let names: Vec<String> = std::env::args(&rt)?.collect(alloc)?;
    let mut directories = Directories::new(alloc);
    let mut status = 0;
    for name in names.iter().skip(1) {
        let text = fs::read_to_string(&rt, name.as_str())?;
        let mut report = Report::new(alloc);
        let cases = cases_of(alloc, &mut directories, &mut report, text.as_str());
        for case in &cases {
            match case {
                Case::Line(line) => {
                    let told = told_by(&rt, alloc, line.files(&directories), line);
                    line.judge(&mut report, &told);
                }
                Case::Session(session) => {
                    try_session(&rt, alloc, &directories, &mut report, session);
                }
            }
        }
        if report.failed > 0 {
            status = 1;
        }
        let (told, passed) = (report.text.as_str(), report.passed);
        println!(rt; "{told}{name}: {passed} cases passed")?;
    }
    Ok(ExitCode::from(status))
}
