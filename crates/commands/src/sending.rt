//! Texts that are written whole, or up to where the writer fails.

ghost use Rattle.std.specs.Prelude.{◌++◌, OnErr, OnOk, codes};
ghost use Rattle.std.specs.Io.KnownBytes.{Appends};
ghost use Rattle.answers.specs.Joined.{joined};
ghost use Rattle.answers.specs.Kept.{whole_of};
ghost use Rattle.commands.specs.Sending.{AppendsPrefix};

use answers::AnswerText;
use std::io::{self, ErrorKind, Write};

/// Writes a text whole. If the writer fails, a prefix of it was written.
fn write_text<W: Write>(out: &mut W, text: &[u8]) -> io::Result<()>
    ensures ok { OnOk result (Appends (W.contents out.old) (W.contents out.new) text.now) }
    ensures err { OnErr result (AppendsPrefix (W.contents out.old) (W.contents out.new) text.now) }
{
    let mut rest = text;
    for _ in 0..u64::MAX {
        if rest.is_empty() {
            return Ok(());
        }
        match out.write(rest) {
            Ok(0) => return Err(io::Error::from(ErrorKind::WriteZero)),
            Ok(count) => rest = &rest[count..],
            Err(error) if error.kind() == ErrorKind::Interrupted => {}
            Err(error) => return Err(error),
        }
    }
    Err(io::Error::from(ErrorKind::Interrupted))
}

/// Writes a text whole and passes it on. If the writer fails, a prefix of it was written.
pub fn send<W: Write>(out: &mut W, text: &[u8]) -> io::Result<()>
    ensures ok { OnOk result (Appends (W.contents out.old) (W.contents out.new) text.now) }
    ensures err { OnErr result (AppendsPrefix (W.contents out.old) (W.contents out.new) text.now) }
{
    write_text(out, text)?;
    out.flush()
}

/// Writes pieces whole, one after another. If the writer fails, a prefix of all together was
/// written.
fn write_pieces<W: Write>(out: &mut W, pieces: &[Vec<u8>]) -> io::Result<()>
    ensures ok { OnOk result (Appends (W.contents out.old) (W.contents out.new) (joined pieces.now)) }
    ensures err { OnErr result
        (AppendsPrefix (W.contents out.old) (W.contents out.new) (joined pieces.now)) }
{
    let mut rest = pieces;
    while let Some((first, later)) = rest.split_first() {
        write_text(out, first.as_slice())?;
        rest = later;
    }
    Ok(())
}

/// Writes two lists of pieces whole, one after the other. If the writer fails, a prefix of both
/// together was written.
fn write_both<W: Write>(out: &mut W, first: &[Vec<u8>], second: &[Vec<u8>]) -> io::Result<()>
    ensures ok { OnOk result (Appends (W.contents out.old) (W.contents out.new)
        (joined first.now ++ joined second.now)) }
    ensures err { OnErr result (AppendsPrefix (W.contents out.old) (W.contents out.new)
        (joined first.now ++ joined second.now)) }
{
    write_pieces(out, first)?;
    write_pieces(out, second)
}

/// Writes the text of an answer and a line feed whole, and passes them on. If the writer fails, a
/// prefix of them was written. What the answer has twice is written twice from its one place in
/// memory.
pub(crate) fn send_answer<W: Write>(out: &mut W, answer: &AnswerText) -> io::Result<()>
    ensures ok { OnOk result (Appends (W.contents out.old) (W.contents out.new)
        (whole_of answer.now ++ codes "\n")) }
    ensures err { OnErr result (AppendsPrefix (W.contents out.old) (W.contents out.new)
        (whole_of answer.now ++ codes "\n")) }
{
    write_both(out, answer.first(), answer.again())?;
    send(out, b"}\n")
}
