//! What the bytes of one connection do to a store, and the reply to them.

ghost use Rattle.std.specs.Prelude.{◌≡◌, [], IfOk, IfErr, OnErr, IsErrOf};
ghost use Rattle.snapshots.specs.Keeping.{PublishesHeld};
ghost use Rattle.remote_requests.specs.Meaning.{IsLost};
ghost use Rattle.remote_http.specs.Fitting.{IsFit};
ghost use Rattle.remote_http.specs.Reply.{text_of};
ghost use Rattle.remote_http.specs.Serving.{HasFront, IsAskedReply, IsBarred, IsReply, IsSilent};
ghost use Rattle.remote_http.specs.Workers.{worker, IsIdle};
ghost use Rattle.remote_http.specs.Writing.{IsReplyOfRefusal};

use crate::list::list;
use crate::paging::{home, page};
use crate::read::read;
use crate::reply::{Reply, build_reply, refusal_reply};
use crate::write::write;
use guard::Rules;
use keeper::Keeper;
use remote_requests::{Asked, Came, ReadError, Refusal, answer as asked_by};
use snapshots::{Committer, OpenNaming, Pass, Seat};
use std::alloc::{AllocError, Global};
use std::sync::Wait;
use std::thread::Threads;

/// The first time of the clock at which a write is taken, in milliseconds: the first day of 2025,
/// before this program was made. A clock that is behind it is wrong. It would cause samples to be
/// left out as too far ahead of the clock.
pub const EARLIEST: i64 = 1_735_689_600_000;

/// Why there is no reply.
#[derive(Clone, Copy, Debug, PartialEq, Eq, Drop)]
pub enum Silence {
    /// The client closed before its first byte. Nothing changed.
    Closed,
    /// The client fell silent, or a read failed. Nothing changed.
    Lost,
    /// There is no memory. What a write published before that stays published.
    Memory,
}

/// Does what is asked.
fn act<J: OpenNaming, C: Wait + Drop, K: Keeper + Drop>(
    rt: &(impl Wait + Threads + Sync),
    alloc: Global,
    version: &str,
    now: i64,
    asked: Asked,
    pass: &mut Pass<J>,
    seat: &mut Seat<J>,
    committer: &Committer<J, C, K>,
) -> Result<Reply, AllocError>
    requires { IsFit asked }
    ensures reply { IfOk result (λ r. IsAskedReply version.now now J.opening K.idle asked
        (worker pass.old seat.old) (worker pass.new seat.new) r.status (text_of r)) }
    ensures front { OnErr result (HasFront J.opening asked
        (worker pass.old seat.old) (worker pass.new seat.new)) }
    ensures held { PublishesHeld K.holds K.stays J.before seat.old seat.new }
{
    match asked {
        Asked::Write(received) => write(rt, alloc, received, EARLIEST, now, pass, seat, committer),
        Asked::Read(readings) => read(rt, alloc, readings.as_slice(), pass),
        Asked::BuildInfo => build_reply(alloc, version),
        Asked::List(listing) => list(alloc, &listing, pass),
        Asked::Home => home(alloc),
        Asked::Page(question) => page(rt, alloc, &question, pass),
    }
}

/// The reply of a refusal, or that there is no memory for it.
fn turn_away(alloc: Global, refusal: &Refusal) -> Result<Reply, Silence>
    ensures refused { IfOk result (λ r. IsReplyOfRefusal refusal.now r.status (text_of r)) }
    ensures memory { IfErr result (λ s. s ≡ Silence.Memory) }
{
    match refusal_reply(alloc, refusal) {
        Ok(reply) => Ok(reply),
        Err(_) => Err(Silence::Memory),
    }
}

/// Does what is asked, or says that there is no memory.
fn do_asked<J: OpenNaming, C: Wait + Drop, K: Keeper + Drop>(
    rt: &(impl Wait + Threads + Sync),
    alloc: Global,
    version: &str,
    now: i64,
    asked: Asked,
    pass: &mut Pass<J>,
    seat: &mut Seat<J>,
    committer: &Committer<J, C, K>,
) -> Result<Reply, Silence>
    requires { IsFit asked }
    ensures reply { IfOk result (λ r. IsAskedReply version.now now J.opening K.idle asked
        (worker pass.old seat.old) (worker pass.new seat.new) r.status (text_of r)) }
    ensures front { OnErr result (HasFront J.opening asked
        (worker pass.old seat.old) (worker pass.new seat.new)) }
    ensures memory { IfErr result (λ s. s ≡ Silence.Memory) }
    ensures held { PublishesHeld K.holds K.stays J.before seat.old seat.new }
{
    match act(rt, alloc, version, now, asked, pass, seat, committer) {
        Ok(reply) => Ok(reply),
        Err(_) => Err(Silence::Memory),
    }
}

/// The reply to the bytes that came, or why there is none.
fn reply_to<J: OpenNaming, C: Wait + Drop, K: Keeper + Drop>(
    rt: &(impl Wait + Threads + Sync),
    alloc: Global,
    rules: &Rules,
    version: &str,
    now: i64,
    came: Came<'_>,
    pass: &mut Pass<J>,
    seat: &mut Seat<J>,
    committer: &Committer<J, C, K>,
) -> Result<Reply, Silence>
    ensures reply { IfOk result (λ r. IsReply rules.now version.now now came.entry J.opening K.idle
        (worker pass.old seat.old) (worker pass.new seat.new) r.status (text_of r)) }
    ensures held { PublishesHeld K.holds K.stays J.before seat.old seat.new }
    ensures silent { OnErr result (IsSilent rules.now now came.entry J.opening
        (worker pass.old seat.old) (worker pass.new seat.new)) }
    ensures closed { IsErrOf result Silence.Closed → came.entry.bytes.now ≡ [] }
    ensures unasked { IsErrOf result Silence.Closed
        → worker pass.new seat.new ≡ worker pass.old seat.old }
    ensures lost { IsErrOf result Silence.Lost → IsLost came.entry.end }
    ensures unread { IsErrOf result Silence.Lost
        → worker pass.new seat.new ≡ worker pass.old seat.old }
{
    match asked_by(alloc, rules, now, came) {
        Ok(asked) => do_asked(rt, alloc, version, now, asked, pass, seat, committer),
        Err(ReadError::Refused(refusal)) => turn_away(alloc, &refusal),
        Err(ReadError::Closed) => Err(Silence::Closed),
        Err(ReadError::Lost) => Err(Silence::Lost),
        Err(ReadError::Memory) => Err(Silence::Memory),
    }
}

/// Does what the bytes of one connection ask under rules, at a time of the clock in milliseconds,
/// and gives the reply that reports it, or why there is none.
///
/// A refusal is that of the first failing check of the bytes, and changes nothing. A write is cut,
/// in its order, into parts of at most 4,096 samples. Each part is sifted, and is one event if
/// anything of it joins. The pass learns each receipt, so what a reply reports is kept by then. The
/// reply is 200 exactly if nothing was left out, and else 400 with the counts. It is 503 if a part
/// is not kept or the clock is before [`EARLIEST`]. The parts before one that is not kept stay in
/// the store, also if memory is the cause and there is no reply. The sender repeats all parts. What
/// stayed in the store counts then as held. A read takes the pass's next snapshot, one for all its
/// queries. Each query is answered from it as by [`answers::ask_by`]. A listing takes the next
/// snapshot too, and reports of it exactly the names, values or label sets of the series that
/// answer one of its queries (`specs/Listing.antt`).
///
/// The version is reported as it is. A request that the rules do not admit changes nothing
/// (`barred`). It waits as [`Committer::sift`] does, and takes memory for the rows and for one
/// answer beside the reply.
pub fn answer<J: OpenNaming, C: Wait + Drop, K: Keeper + Drop>(
    rt: &(impl Wait + Threads + Sync),
    alloc: Global,
    rules: &Rules,
    version: &str,
    now: i64,
    came: Came<'_>,
    pass: &mut Pass<J>,
    seat: &mut Seat<J>,
    committer: &Committer<J, C, K>,
) -> Result<Reply, Silence>
    ensures reply { IfOk result (λ r. IsReply rules.now version.now now came.entry J.opening K.idle
        (worker pass.old seat.old) (worker pass.new seat.new) r.status (text_of r)) }
    ensures held { PublishesHeld K.holds K.stays J.before seat.old seat.new }
    ensures silent { OnErr result (IsSilent rules.now now came.entry J.opening
        (worker pass.old seat.old) (worker pass.new seat.new)) }
    ensures closed { IsErrOf result Silence.Closed → came.entry.bytes.now ≡ [] }
    ensures unasked { IsErrOf result Silence.Closed
        → worker pass.new seat.new ≡ worker pass.old seat.old }
    ensures lost { IsErrOf result Silence.Lost → IsLost came.entry.end }
    ensures unread { IsErrOf result Silence.Lost
        → worker pass.new seat.new ≡ worker pass.old seat.old }
    ensures barred { IsBarred rules.now came.entry.bytes.now
        → IsIdle (worker pass.old seat.old) (worker pass.new seat.new) }
{
    reply_to(rt, alloc, rules, version, now, came, pass, seat, committer)
}
