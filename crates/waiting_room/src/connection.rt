//! One connection, from its first byte to its last.

ghost use Rattle.std.specs.Prelude.{◌≡◌, ◌++◌, IfOk};
ghost use Rattle.waiting_room.specs.Attending.{Attends, Replies};

use crate::handing::{Line, Meaning, Reply};
use crate::purse::Purse;
use crate::reading::{Busy, receive};
use crate::socket::Limits;
use crate::source::Source;
use std::alloc::Global;
use std::io::Write;
use std::sync::Wait;

/// How connections are attended.
#[derive(Clone, Copy)]
pub struct Terms {
    /// The most bytes of a request's body.
    pub most: u32,
    /// How many connections wait beside the workers.
    pub places: u32,
    /// The most bytes of all that wait, together.
    pub together: u64,
    /// What is written if a request cannot be taken: the whole text of a 503.
    pub busy: &'static str,
    pub limits: Limits,
}

/// How a connection ended.
#[derive(Drop)]
pub enum Outcome {
    /// This reply was written, whole.
    Replied(Reply),
    /// The 503 was written, whole.
    Busy(Busy),
    /// The client did not take the reply, or the 503.
    WriteFault,
}

/// The reply to what comes on a connection. What was claimed is given back at every end.
fn reply_to<S: Source, P: Purse, M: Meaning>(
    rt: &impl Wait,
    alloc: Global,
    source: &mut S,
    purse: &mut P,
    line: &Line<M>,
    most: u32,
) -> Result<Reply, Busy>
    requires { P.held purse.old ≡ 0 }
    ensures back { P.held purse.new ≡ 0 }
    ensures replies { IfOk result (λ reply.
        Replies M.made most (S.input source.old)
        (reply.head.items ++ reply.body.items)) }
{
    let came = match receive(alloc, source, purse, most) {
        Ok(came) => came,
        Err(why) => {
            purse.give_back();
            return Err(why);
        }
    };
    let made = line.ask(rt, alloc, came);
    purse.give_back();
    match made {
        Some(reply) => Ok(reply),
        None => Err(Busy::NoReply),
    }
}

/// Reads what comes on a connection, has a worker make the reply to it and writes that; or writes
/// the 503. What was claimed is given back at every end, and before anything is written.
pub fn attend<S: Source, P: Purse, O: Write, M: Meaning>(
    rt: &impl Wait,
    alloc: Global,
    source: &mut S,
    writer: &mut O,
    purse: &mut P,
    line: &Line<M>,
    terms: Terms,
) -> Outcome
    requires { P.held purse.old ≡ 0 }
    ensures back { P.held purse.new ≡ 0 }
    ensures attends { Attends M.made terms.most terms.busy.now
        (S.input source.old) (O.contents writer.old) (O.contents writer.new) result }
{
    match reply_to(rt, alloc, source, purse, line, terms.most) {
        Ok(reply) => match reply.write_to(writer) {
            Ok(()) => Outcome::Replied(reply),
            Err(_) => Outcome::WriteFault,
        },
        Err(why) => match writer.write_all(terms.busy.as_bytes()) {
            Ok(()) => Outcome::Busy(why),
            Err(_) => Outcome::WriteFault,
        },
    }
}
