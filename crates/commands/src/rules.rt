//! The rules of a server, as its options ask for them.

ghost use Rattle.std.specs.Prelude.{◌≡◌, Some, IfOk, IfErr};
ghost use Rattle.commands.specs.Guarding.{without_end, IsTokenAt, IsTokenFault, AreRulesOf};
ghost use Rattle.commands.specs.Guarding.{IsGuardFault};

use crate::command::Serving;
use crate::fault::Fault;
use crate::files::{ReadError, ReadFiles};
use guard::{Rules, Token};
use std::alloc::{AllocError, Global};

/// The most bytes of a token.
const MAX_TOKEN: usize = 4096;

/// The most bytes that are read of its file. A longer file leaves more than a token has.
const MAX_FILE: usize = MAX_TOKEN + 2;

/// The bytes without the end of a line behind them.
#[tactic(auto, using(crate::proofs::TokenTexts::line_ends))]
fn without_end(bytes: &[u8]) -> &[u8]
    ensures { result.now ≡ without_end bytes.now }
{
    let Some((last, front)) = bytes.split_last() else {
        return bytes;
    };
    if *last == b'\n' { front } else { bytes }
}

fn cannot_read(alloc: Global, path: &str) -> Result<Fault, AllocError>
    ensures { IfOk result (IsTokenFault path.now) }
{
    Ok(Fault::CannotRead(path.to_string(alloc)?))
}

/// The token that the file at a path holds. Only the owner of the file may read it.
fn token_at<F: ReadFiles>(alloc: Global, files: &F, path: &str) -> Result<Token, Fault>
    ensures ok { IfOk result (IsTokenAt (F.may_read files.now) path.now) }
    ensures err { IfErr result (IsTokenFault path.now) }
{
    let bytes = match files.read_secret(alloc, path, MAX_FILE) {
        Ok(bytes) => bytes,
        Err(ReadError::Unreadable) => return Err(cannot_read(alloc, path)?),
        Err(ReadError::Memory) => return Err(Fault::Memory),
    };
    let text = without_end(bytes.as_slice());
    if text.len() > MAX_TOKEN {
        return Err(cannot_read(alloc, path)?);
    }
    match Token::new(Vec::from_slice(alloc, text)?) {
        Some(token) => Ok(token),
        None => Err(cannot_read(alloc, path)?),
    }
}

/// The rules that the options of a server ask for.
pub(crate) fn rules_of<F: ReadFiles>(
    alloc: Global,
    files: &F,
    serving: Serving<'_>,
) -> Result<Rules, Fault>
    ensures ok { IfOk result (AreRulesOf (F.may_read files.now) serving.entry) }
    ensures err { IfErr result (IsGuardFault serving.entry) }
{
    let token = match serving.guard {
        Some(path) => Some(token_at(alloc, files, path)?),
        None => None,
    };
    Ok(Rules {
        read_only: serving.read_only,
        token,
    })
}
