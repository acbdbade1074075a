//! What a reply is written to.

ghost use Rattle.std.specs.Prelude.{◌≡◌, ◌<◌, ◌≤◌, ◌++◌, ℕ, List, Option, length};
ghost use Rattle.std.specs.Prelude.{IfOk, OnOk, OnErr};
ghost use Rattle.std.specs.Io.KnownBytes.{WriteAppends, Appends};
ghost use Rattle.requests.specs.Edge.{HasGrown};
ghost use Rattle.answers.specs.Joined.{joined};
ghost use Rattle.answers.specs.Kept.{whole_of};
ghost use Rattle.query_http.specs.Reply.{text_of};
ghost use Rattle.query_http.specs.Writing.{AppendsFront};

use crate::reply::Reply;
use answers::AnswerText;
use requests::Fault;

/// What a reply is written to. It takes bytes in pieces of its own choice. The meaning of a writer
/// over memory says which bytes it has taken. The meaning of a socket says nothing of them. A call
/// that is given some bytes and takes none counts as failed.
pub trait Outlet {
    ghost output: { Self → Option (List ℕ) };

    ghost failed_writes: { Self → ℕ };

    /// Writes the first of the bytes, and returns how many.
    fn write(&mut self, buf: &[u8]) -> Result<usize, Fault>
        ensures bound { IfOk result (λ n. n ≤ length buf.now) }
        ensures bytes { WriteAppends (output self.old) (output self.new) result buf.now }
        ensures ok { IfOk result (λ n. 0 < n
            → failed_writes self.new ≡ failed_writes self.old) }
        ensures none { IfOk result (λ n. n ≡ 0 → 0 < length buf.now
            → HasGrown (failed_writes self.old) (failed_writes self.new)) }
        ensures err { OnErr result (HasGrown (failed_writes self.old) (failed_writes self.new)) };
}

/// Writes the whole text, or a prefix of it if the writer fails.
pub fn write_whole<W: Outlet>(writer: &mut W, text: &[u8]) -> Result<(), Fault>
    ensures ok { OnOk result (Appends (W.output writer.old) (W.output writer.new) text.now) }
    ensures counted { OnOk result (W.failed_writes writer.new ≡ W.failed_writes writer.old) }
    ensures err { OnErr result (AppendsFront (W.output writer.old) (W.output writer.new) text.now) }
    ensures failed { OnErr result
        (HasGrown (W.failed_writes writer.old) (W.failed_writes writer.new)) }
{
    let mut done = 0;
    while done < text.len() {
        let taken = writer.write(&text[done..])?;
        if taken == 0 {
            return Err(Fault);
        }
        done += taken;
    }
    Ok(())
}

/// Writes pieces, one after another, or a prefix of all together if the writer fails.
fn write_pieces<W: Outlet>(writer: &mut W, pieces: &[Vec<u8>]) -> Result<(), Fault>
    ensures ok { OnOk result
        (Appends (W.output writer.old) (W.output writer.new) (joined pieces.now)) }
    ensures counted { OnOk result (W.failed_writes writer.new ≡ W.failed_writes writer.old) }
    ensures err { OnErr result
        (AppendsFront (W.output writer.old) (W.output writer.new) (joined pieces.now)) }
    ensures failed { OnErr result
        (HasGrown (W.failed_writes writer.old) (W.failed_writes writer.new)) }
{
    let mut rest = pieces;
    while let Some((first, later)) = rest.split_first() {
        write_whole(writer, first.as_slice())?;
        rest = later;
    }
    Ok(())
}

/// Writes a text, and pieces behind it, or a prefix of all together if the writer fails.
fn write_before<W: Outlet>(writer: &mut W, text: &[u8], pieces: &[Vec<u8>]) -> Result<(), Fault>
    ensures ok { OnOk result
        (Appends (W.output writer.old) (W.output writer.new) (text.now ++ joined pieces.now)) }
    ensures counted { OnOk result (W.failed_writes writer.new ≡ W.failed_writes writer.old) }
    ensures err { OnErr result
        (AppendsFront (W.output writer.old) (W.output writer.new) (text.now ++ joined pieces.now)) }
    ensures failed { OnErr result
        (HasGrown (W.failed_writes writer.old) (W.failed_writes writer.new)) }
{
    write_whole(writer, text)?;
    write_pieces(writer, pieces)
}

/// Writes pieces, and a text behind them, or a prefix of all together if the writer fails.
fn write_behind<W: Outlet>(writer: &mut W, pieces: &[Vec<u8>], text: &[u8]) -> Result<(), Fault>
    ensures ok { OnOk result
        (Appends (W.output writer.old) (W.output writer.new) (joined pieces.now ++ text.now)) }
    ensures counted { OnOk result (W.failed_writes writer.new ≡ W.failed_writes writer.old) }
    ensures err { OnErr result
        (AppendsFront (W.output writer.old) (W.output writer.new) (joined pieces.now ++ text.now)) }
    ensures failed { OnErr result
        (HasGrown (W.failed_writes writer.old) (W.failed_writes writer.new)) }
{
    write_pieces(writer, pieces)?;
    write_whole(writer, text)
}

/// Writes a text, and that of an answer behind it, or a prefix of both together if the writer
/// fails. What the answer has twice is written twice from its one place in memory.
fn write_answer<W: Outlet>(writer: &mut W, head: &[u8], answer: &AnswerText) -> Result<(), Fault>
    ensures ok { OnOk result
        (Appends (W.output writer.old) (W.output writer.new) (head.now ++ whole_of answer.now)) }
    ensures counted { OnOk result (W.failed_writes writer.new ≡ W.failed_writes writer.old) }
    ensures err { OnErr result
        (AppendsFront (W.output writer.old) (W.output writer.new) (head.now ++ whole_of answer.now)) }
    ensures failed { OnErr result
        (HasGrown (W.failed_writes writer.old) (W.failed_writes writer.new)) }
{
    write_before(writer, head, answer.first())?;
    write_behind(writer, answer.again(), b"}")
}

/// Writes a whole reply, or a prefix of it if the writer fails.
pub(crate) fn write_reply<W: Outlet>(writer: &mut W, reply: &Reply) -> Result<(), Fault>
    ensures ok { OnOk result (Appends (W.output writer.old) (W.output writer.new)
        (text_of reply.now)) }
    ensures counted { OnOk result (W.failed_writes writer.new ≡ W.failed_writes writer.old) }
    ensures err { OnErr result (AppendsFront (W.output writer.old) (W.output writer.new)
        (text_of reply.now)) }
    ensures failed { OnErr result
        (HasGrown (W.failed_writes writer.old) (W.failed_writes writer.new)) }
{
    let head = reply.head.as_slice();
    match &reply.answer {
        Some(answer) => write_answer(writer, head, answer),
        None => write_whole(writer, head),
    }
}
