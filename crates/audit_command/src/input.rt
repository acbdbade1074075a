//! The reply on standard input.

ghost use Rattle.std.specs.Prelude.{◌≡◌, Some, IfOk, IfErr, IfSome};
ghost use Rattle.reply_reader.specs.Replies.{text_said, told_of};
ghost use Rattle.audit_command.specs.Auditing.{IsInputFault, IsTextFault, IsReplyIn, IsReplyFault};

use crate::fault::Fault;
use auditor::{Reply, ReplyError};
use std::alloc::Global;
use std::io::{ErrorKind, Read};

/// All that a reader gives. It fails as the reader does, or if memory runs out.
pub fn all_of<R: Read>(alloc: Global, input: &mut R) -> Result<Vec<u8>, Fault>
    ensures ok { IfOk result (λ text. IfSome (R.remaining input.old) (λ all. text.items ≡ all)) }
    ensures err { IfErr result (λ fault. IsInputFault fault) }
{
    let mut text = Vec::new(alloc);
    match input.read_to_end(&mut text) {
        Ok(_) => Ok(text),
        Err(error) if matches!(error.kind(), ErrorKind::OutOfMemory) => Err(Fault::Memory),
        Err(_) => Err(Fault::CannotReadInput),
    }
}

/// The reply that a text says.
pub fn reply_of(alloc: Global, text: &[u8]) -> Result<Reply, Fault>
    ensures ok { IfOk result (λ reply. text_said text.now ≡ Some (told_of reply)) }
    ensures err { IfErr result (λ fault. IsTextFault text.now fault) }
{
    match Reply::read(alloc, text) {
        Ok(reply) => Ok(reply),
        Err(ReplyError::BadReply) => Err(Fault::BadReply),
        Err(ReplyError::Memory) => Err(Fault::Memory),
    }
}

/// The reply that a reader gives, which is read to its end.
pub fn reply_in<R: Read>(alloc: Global, input: &mut R) -> Result<Reply, Fault>
    ensures ok { IfOk result (λ reply. IsReplyIn (R.remaining input.old) reply) }
    ensures err { IfErr result (λ fault. IsReplyFault (R.remaining input.old) fault) }
{
    let text = all_of(alloc, input)?;
    reply_of(alloc, text.as_slice())
}
