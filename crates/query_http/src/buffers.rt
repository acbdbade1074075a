//! Room that is kept from connection to connection.

ghost use Rattle.std.specs.Prelude.{◌≡◌, ◌<◌, ◌≤◌, [], vec_capacity, IsFalse, IfSome, true, false};
ghost use Rattle.std.specs.Prelude.{is_some};
ghost use Rattle.reply_room.specs.Holding.{whole_of};
ghost use Rattle.query_http.specs.Bounds.{IsBounded, is_bounded, HoldsNothing};

use crate::note::Note;
use crate::reply::Reply;
use answers::{AnswerText, Rooms};
use reply_room::Holder;
use selector_cache::KeptSelectors;
use std::alloc::Global;
use std::mem;
use std::sync::Wait;
use std::time::Clock;

/// The most bytes of room that each buffer keeps between two connections: 1 MiB.
pub const MOST_KEPT: usize = 1_048_576;

/// A worker's buffers: for the bytes of a request, for the first bytes of a reply, for the rows of
/// an answer and for the rest of it. With them are kept what its last selectors were read as, and
/// what was noted of the last connection.
///
/// Each connection clears the buffers first, so what they hold between two connections is only
/// room. No answer depends on the selectors that are kept. No clause speaks of that room or of
/// these selectors. If a connection left a buffer larger than [`MOST_KEPT`], its memory is given
/// back to the system.
///
/// Buffers that a [`Holder`] shares ([`Buffers::sharing`]) bound the memory of replies: the reply
/// to a query takes bytes of the holder's room before it is made, and each connection gives back
/// what it took.
#[derive(Drop)]
pub struct Buffers {
    pub(crate) request: Vec<u8>,
    pub(crate) head: Vec<u8>,
    pub(crate) rows: Vec<u8>,
    pub(crate) answer: Vec<u8>,
    pub(crate) selectors: KeptSelectors,
    pub(crate) note: Note,
    pub(crate) room: Option<Holder>,
}

/// Gives the memory of a buffer back if it is more than is kept.
fn trim(buf: &mut Vec<u8>)
    ensures { vec_capacity buf.new ≤ MOST_KEPT }
{
    if buf.capacity() > MOST_KEPT {
        buf.clear();
        buf.shrink_to_fit();
    }
}

/// Keeps the room of some bytes in place of a buffer's, if it is more and no more than is kept.
fn keep(buf: &mut Vec<u8>, bytes: Vec<u8>)
    ensures { vec_capacity buf.old ≤ MOST_KEPT → vec_capacity buf.new ≤ MOST_KEPT }
{
    if buf.capacity() < bytes.capacity() && bytes.capacity() <= MOST_KEPT {
        *buf = bytes;
    }
}

impl Buffers {
    /// Buffers without memory. The memory of replies is not bounded.
    pub fn new(alloc: Global) -> Buffers
        ensures bounded { IsBounded result }
        ensures room { is_bounded result ≡ false }
    {
        Buffers::with(alloc, None)
    }

    /// Buffers without memory. Replies that are made with them share the holder's room.
    pub fn sharing(alloc: Global, holder: Holder) -> Buffers
        ensures bounded { IsBounded result }
        ensures room { is_bounded result ≡ true }
    {
        Buffers::with(alloc, Some(holder))
    }

    fn with(alloc: Global, room: Option<Holder>) -> Buffers
        ensures bounded { IsBounded result }
        ensures room { result.room ≡ room }
    {
        Buffers {
            request: Vec::new(alloc),
            head: Vec::new(alloc),
            rows: Vec::new(alloc),
            answer: Vec::new(alloc),
            selectors: KeptSelectors::new(alloc),
            note: Note::none(),
            room,
        }
    }

    /// How many bytes the room has that replies share, if they do.
    pub(crate) fn whole_room(&self) -> Option<u64>
        ensures { is_some result ≡ is_bounded self.now }
    {
        match &self.room {
            Some(holder) => Some(holder.whole()),
            None => None,
        }
    }

    /// Takes so many bytes of the room that replies share, if they do, and says whether there was
    /// room.
    pub(crate) fn take_room<R: Wait + Clock>(&mut self, rt: &R, bytes: u64) -> bool
        ensures longer { IfSome self.old.room (λ holder. whole_of holder < bytes → IsFalse result) }
        ensures bounded { IsFalse result → is_bounded self.old ≡ true }
        ensures room { is_bounded self.new ≡ is_bounded self.old }
    {
        match &mut self.room {
            Some(holder) => holder.take(rt, bytes),
            None => true,
        }
    }

    /// Gives back what is held of the room that replies share.
    pub(crate) fn give_room(&mut self, rt: &impl Wait)
        ensures none { HoldsNothing self.new }
        ensures room { is_bounded self.new ≡ is_bounded self.old }
        ensures bounded { IsBounded self.old → IsBounded self.new }
        ensures note { self.new.note ≡ self.old.note }
    {
        if let Some(holder) = &mut self.room {
            holder.give_back(rt);
        }
    }

    /// What was noted of the last connection.
    pub fn note(&self) -> Note
        ensures { result ≡ self.now.note }
    {
        self.note
    }

    /// Gives back the memory that is more than is kept.
    pub(crate) fn trim_all(&mut self)
        ensures bounded { IsBounded self.new }
        ensures room { self.new.room ≡ self.old.room }
    {
        trim(&mut self.request);
        trim(&mut self.head);
        trim(&mut self.rows);
        trim(&mut self.answer);
    }

    /// Lends the buffer of a reply's first bytes, empty.
    pub(crate) fn take_head(&mut self, alloc: Global) -> Vec<u8>
        ensures empty { result.items ≡ [] }
        ensures room { self.new.room ≡ self.old.room }
    {
        let mut head = mem::replace(&mut self.head, Vec::new(alloc));
        head.clear();
        head
    }

    /// Lends the buffers of an answer.
    pub(crate) fn take_rooms(&mut self, alloc: Global) -> Rooms
        ensures { self.new.room ≡ self.old.room }
    {
        Rooms {
            text: mem::replace(&mut self.answer, Vec::new(alloc)),
            rows: mem::replace(&mut self.rows, Vec::new(alloc)),
        }
    }

    /// Takes back what an answer was written in, if that is more than there is and no more than is
    /// kept.
    pub(crate) fn give_answer(&mut self, answer: AnswerText)
        ensures bounded { IsBounded self.old → IsBounded self.new }
        ensures note { self.new.note ≡ self.old.note }
        ensures room { self.new.room ≡ self.old.room }
    {
        let mut pieces = answer.into_pieces();
        if !pieces.is_empty() {
            keep(&mut self.answer, pieces.swap_remove(0));
        }
        for piece in pieces {
            keep(&mut self.rows, piece);
        }
    }

    /// Takes back what a reply was made in, if that is more than there is and no more than is kept.
    pub(crate) fn give_reply(&mut self, reply: Reply)
        requires { IsBounded self.old }
        ensures bounded { IsBounded self.new }
        ensures note { self.new.note ≡ self.old.note }
        ensures room { self.new.room ≡ self.old.room }
    {
        keep(&mut self.head, reply.head);
        if let Some(answer) = reply.answer {
            self.give_answer(answer);
        }
    }
}
