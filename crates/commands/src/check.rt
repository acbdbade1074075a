//! The lines of `check`.

ghost use Rattle.std.specs.Prelude.{◌≡◌, if◌then◌else◌, string_bytes, IfOk, IfErr};
ghost use Rattle.std.specs.Io.KnownBytes.{Appends};
ghost use Rattle.commands.specs.Checking.{judgement_line, IsJudgedAt, IsChecked, IsCheckFault};
ghost use Rattle.commands.specs.Checking.{IsCutAt};
ghost use Rattle.commands.specs.Reading.{IsReadingFault, IsDirectoryFault, paths_of};
ghost use Rattle.commands.specs.Selecting.{KeepsAt};

use crate::fault::Fault;
use crate::files::{ReadFiles, read_block};
use crate::judgement::{Judgement, judge};
use crate::sending::send;
use std::alloc::{AllocError, Global};
use std::io::Write;
use std::thread::Threads;

/// How a line that is done ends.
#[derive(Clone, Copy, Debug, PartialEq, Eq, Drop)]
pub enum Outcome {
    /// With what was asked for.
    Done,
    /// With a refusal among what was asked for.
    Refused,
}

impl Outcome {
    ghost use Rattle.commands.specs.declared.check.Outcome.TheVariants.{Refused};
    ghost use Rattle.commands.specs.Checking.{is_refused};

    /// The outcome, after a judgement more.
    fn after(self, judgement: &Judgement) -> Outcome
        ensures { result ≡ (if is_refused judgement.now then Refused else self) }
    {
        if judgement.is_refused() {
            Outcome::Refused
        } else {
            self
        }
    }
}

/// As `DIR: ok 6 series 6 samples`, and a line feed.
fn line_of(alloc: Global, directory: &str, judgement: &Judgement) -> Result<String, AllocError>
    ensures { IfOk result (λ line. string_bytes line ≡ judgement_line directory.now judgement.now) }
{
    format!(in alloc; "{directory}: {judgement}\n")
}

/// Reads and judges the block in a directory, and makes its line.
fn judge_at<T: Threads + Sync, F: ReadFiles>(
    rt: &T,
    alloc: Global,
    files: &F,
    directory: &str,
) -> Result<(Judgement, String), Fault>
    ensures judged { IfOk result (λ told. IsJudgedAt (F.may_read files.now) directory.now told.0) }
    ensures line { IfOk result (λ told. string_bytes told.1 ≡ judgement_line directory.now told.0) }
    ensures err { IfErr result (λ fault.
        IsReadingFault (F.may_read files.now) directory.now fault) }
{
    let block = read_block(rt, alloc, files, directory)?;
    let judgement = judge(rt, alloc, block)?;
    let line = line_of(alloc, directory, &judgement)?;
    Ok((judgement, line))
}

/// Verifies the block in a directory, and writes its line.
fn check_one<T: Threads + Sync, F: ReadFiles, W: Write>(
    rt: &T,
    alloc: Global,
    files: &F,
    directory: &str,
    out: &mut W,
) -> Result<Judgement, Fault>
    ensures judged { IfOk result (λ judgement.
        IsJudgedAt (F.may_read files.now) directory.now judgement) }
    ensures told { IfOk result (λ judgement. Appends (W.contents out.old) (W.contents out.new)
        (judgement_line directory.now judgement)) }
    ensures err { IfErr result (λ fault.
        IsDirectoryFault (F.may_read files.now) directory.now fault) }
    ensures kept { IfErr result (λ fault. KeepsAt fault (W.contents out.old) (W.contents out.new)) }
    ensures cut { IfErr result (λ fault. IsCutAt (F.may_read files.now) directory.now
        (W.contents out.old) (W.contents out.new) fault) }
{
    let (judgement, line) = judge_at(rt, alloc, files, directory)?;
    send(out, line.as_bytes())?;
    Ok(judgement)
}

/// Verifies the blocks in these directories, one after another, and writes a line for each.
pub fn check<T: Threads + Sync, F: ReadFiles, W: Write>(
    rt: &T,
    alloc: Global,
    files: &F,
    directories: &[&str],
    out: &mut W,
) -> Result<Outcome, Fault>
    ensures ok { IfOk result (λ outcome. IsChecked (F.may_read files.now) (paths_of directories.now)
        (W.contents out.old) (W.contents out.new) outcome) }
    ensures err { IfErr result (λ fault. IsCheckFault (F.may_read files.now)
        (paths_of directories.now) (W.contents out.old) (W.contents out.new) fault) }
{
    let mut outcome = Outcome::Done;
    for directory in directories {
        let judgement = check_one(rt, alloc, files, directory, out)?;
        outcome = outcome.after(&judgement);
    }
    Ok(outcome)
}
