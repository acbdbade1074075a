//! What came on a connection goes to a worker, and the reply to it comes back.

ghost use Rattle.std.specs.Prelude.{◌≡◌, ℕ, List, ◌++◌, IfOk, IfSome, OnOk};
ghost use Rattle.std.specs.Arc.{arc_value};
ghost use Rattle.std.specs.Io.KnownBytes.{Appends};
ghost use Rattle.waiting_room.specs.declared.reading.End.{End};

use crate::reading::{Came, End};
use crossbeam_channel::{Sender, bounded};
use std::alloc::{AllocError, Global};
use std::io::{self, Write};
use std::marker::{Brand, PhantomData};
use std::sync::{Arc, Wait};

/// Which texts reply to which bytes.
pub trait Meaning {
    /// This text replies to these bytes, which ended so.
    ghost made: { List ℕ → End → List ℕ → Type 0 };
}

impl Meaning for Brand {
    ghost use Rattle.std.specs.Prelude.{⊤};

    ghost made = { λ bytes end text. ⊤ };
}

/// A reply: the bytes of its head, then those of its body. Either may be empty.
#[derive(Drop)]
pub struct Reply {
    /// What its head says, for whoever counts.
    pub status: u16,
    pub head: Vec<u8>,
    pub body: Vec<u8>,
}

impl Reply {
    /// Writes the whole reply.
    pub(crate) fn write_to<O: Write>(&self, out: &mut O) -> io::Result<()>
        ensures { OnOk result (Appends (O.contents out.old) (O.contents out.new)
            (self.now.head.items ++ self.now.body.items)) }
    {
        out.write_all(self.head.as_slice())?;
        out.write_all(self.body.as_slice())
    }
}

/// What makes replies.
pub trait Work<M: Meaning> {
    // What the work takes, as that threads may share what starts them.
    ghost is_ready: { Type 0 };

    /// The reply to what came. An error is that there is no memory.
    fn reply(&mut self, bytes: &[u8], end: End) -> Result<Reply, AllocError>
        requires ready { is_ready }
        ensures { IfOk result (λ reply.
            M.made bytes.now end (reply.head.items ++ reply.body.items)) };
}

/// A reply, with what it was made for.
#[derive(Drop)]
struct Made<M: Meaning> {
    came: Arc<Came>,
    reply: Reply,
    of: PhantomData<M>,
    ghost made: { ∥ M.made (arc_value came).bytes.items (arc_value came).end
        (reply.head.items ++ reply.body.items) ∥₁ },
}

impl<M: Meaning> Made<M> {
    fn new(came: Arc<Came>, reply: Reply) -> Made<M>
        requires { M.made (arc_value came).bytes.items (arc_value came).end
            (reply.head.items ++ reply.body.items) }
    {
        Made {
            came,
            reply,
            of: PhantomData,
        }
    }
}

/// What came on a connection, with the one place that the reply to it can go to.
#[derive(Drop)]
pub struct Asked<M: Meaning> {
    came: Arc<Came>,
    slot: Sender<Made<M>, Global>,
}

/// Has the reply made to what was asked, and leaves it in the slot that came with it.
pub fn answer<M: Meaning, W: Work<M>>(rt: &impl Wait, work: &mut W, asked: Asked<M>)
    requires ready { W.is_ready }
{
    let Asked { came, slot } = asked;
    if let Ok(reply) = work.reply(came.bytes.as_slice(), came.end) {
        let _ = slot.send(rt, Made::new(came, reply));
    }
}

/// The reply in what a worker made, if it was made for what came here.
fn own<M: Meaning>(mine: &Came, made: Made<M>) -> Option<Reply>
    ensures { IfSome result (λ reply. ∥ M.made mine.now.bytes.items mine.now.end
        (reply.head.items ++ reply.body.items) ∥₁) }
{
    let Made { came, reply, of: _ } = made;
    if came.end == mine.end && came.bytes.as_slice() == mine.bytes.as_slice() {
        Some(reply)
    } else {
        None
    }
}

/// Where what came on connections is handed over to workers.
#[derive(Drop)]
pub struct Line<M: Meaning> {
    queue: Sender<Asked<M>, Global>,
}

impl<M: Meaning> Line<M> {
    pub fn new(queue: Sender<Asked<M>, Global>) -> Line<M> {
        Line { queue }
    }

    /// Hands over what came and waits for the reply: none if no worker made one, or if there is no
    /// memory. What it gives was made for these very bytes, which ended so.
    pub fn ask(&self, rt: &impl Wait, alloc: Global, came: Came) -> Option<Reply>
        ensures { IfSome result (λ reply. ∥ M.made came.bytes.items came.end
            (reply.head.items ++ reply.body.items) ∥₁) }
    {
        let mine = Arc::new(alloc, came).ok()?;
        let theirs = Arc::try_clone(&mine).ok()?;
        let (slot, replies) = bounded::<Made<M>, Global>(alloc, 1).ok()?;
        let asked = Asked { came: theirs, slot };
        if self.queue.send(rt, asked).is_err() {
            return None;
        }
        match replies.recv(rt) {
            Ok(made) => own(&mine, made),
            Err(_) => None,
        }
    }
}
