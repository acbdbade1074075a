//! Serving one connection: a request is read, done and replied to.

ghost use Rattle.std.specs.Prelude.{◌≡◌, [], Some, None, false};
ghost use Rattle.std.specs.Prelude.{IfOk, IfErr, IfSome, OnErr, IsErrOf};
ghost use Rattle.requests.specs.Edge.{HasGrown};
ghost use Rattle.requests.specs.Admitting.{MeansUnder, IsBarred};
ghost use Rattle.requests.specs.Fitting.{IsFit};
ghost use Rattle.requests.specs.Reading.{Means};
ghost use Rattle.requests.specs.declared.status.Status.{Status};
ghost use Rattle.snapshots.specs.Keeping.{AreHeld, PublishesHeld};
ghost use Rattle.query_http.specs.Bounds.{IsBounded, is_bounded, HoldsNothing};
ghost use Rattle.query_http.specs.Reply.{text_of};
ghost use Rattle.query_http.specs.Serving.{worker, IsIdle, IsReplyOfRefusal, IsSilent, Serves};
ghost use Rattle.query_http.specs.Serving.{IsRequestReply, IsReply};

use crate::actions::{act, refusal_reply};
use crate::buffers::Buffers;
use crate::note::Note;
use crate::outlet::{Outlet, write_reply};
use crate::reply::Reply;
use guard::Rules;
use keeper::Keeper;
use requests::{Inlet, ReadError, Refusal, Request, Status, path_in, read_admitted_into};
use snapshots::{Committer, OpenNaming, Pass, Seat};
use std::alloc::Global;
use std::sync::Wait;
use std::thread::Threads;
use std::time::Clock;

/// How a connection was served.
#[derive(Clone, Copy, Debug, PartialEq, Eq, Drop)]
pub enum Served {
    /// The whole reply was written. It has this status.
    Replied(Status),
    /// The input ends before its first byte.
    Closed,
    /// The reader failed. Nothing was written, and nothing changed.
    ReadFault,
    /// The writer failed: it took a prefix of the reply. An event that was accepted stays accepted.
    WriteFault,
    /// There is no memory. Nothing was written, and nothing was published.
    NoMemory,
}

/// The reply of a refusal, or that there is no memory for it.
fn turn_away(alloc: Global, refusal: &Refusal) -> Result<Reply, Served>
    ensures refusal { IfOk result (λ r. IsReplyOfRefusal refusal.now r.status (text_of r)) }
    ensures memory { IfErr result (λ s. s ≡ Served.NoMemory) }
{
    match refusal_reply(alloc, refusal) {
        Ok(reply) => Ok(reply),
        Err(_) => Err(Served::NoMemory),
    }
}

/// Does what a request asks, unless there is no memory.
fn do_asked<J: OpenNaming, C: Wait + Drop, K: Keeper + Drop>(
    rt: &(impl Wait + Threads + Clock + Sync),
    alloc: Global,
    buffers: &mut Buffers,
    request: Request,
    pass: &mut Pass<J>,
    seat: &mut Seat<J>,
    committer: &Committer<J, C, K>,
) -> Result<Reply, Served>
    requires { IsFit request }
    ensures reply { IfOk result (λ r. IsRequestReply J.opening K.idle (is_bounded buffers.old)
        (AreHeld K.holds K.stays J.before)
        request (worker pass.old seat.old) (worker pass.new seat.new) r.status (text_of r)) }
    ensures held { PublishesHeld K.holds K.stays J.before seat.old seat.new }
    ensures memory { IfErr result (λ s. s ≡ Served.NoMemory) }
    ensures idle { OnErr result (IsIdle (worker pass.old seat.old) (worker pass.new seat.new)) }
    ensures room { is_bounded buffers.new ≡ is_bounded buffers.old }
{
    match act(rt, alloc, buffers, request, pass, seat, committer) {
        Ok(reply) => Ok(reply),
        Err(_) => Err(Served::NoMemory),
    }
}

/// Reads a request and does what it asks: the reply, or why there is none.
fn reply_to<J: OpenNaming, C: Wait + Drop, K: Keeper + Drop, R: Inlet>(
    rt: &(impl Wait + Threads + Clock + Sync),
    alloc: Global,
    rules: &Rules,
    buffers: &mut Buffers,
    reader: &mut R,
    pass: &mut Pass<J>,
    seat: &mut Seat<J>,
    committer: &Committer<J, C, K>,
) -> Result<Reply, Served>
    ensures reply { IfOk result (λ r. IsReply (MeansUnder rules.now) J.opening K.idle
        (is_bounded buffers.old) (AreHeld K.holds K.stays J.before) (R.input reader.old)
        (worker pass.old seat.old) (worker pass.new seat.new) r.status (text_of r)) }
    ensures held { PublishesHeld K.holds K.stays J.before seat.old seat.new }
    ensures silent { IfErr result IsSilent }
    ensures idle { OnErr result (IsIdle (worker pass.old seat.old) (worker pass.new seat.new)) }
    ensures closed { IsErrOf result Served.Closed
        → IfSome (R.input reader.old) (λ bytes. bytes ≡ []) }
    ensures unasked { IsErrOf result Served.Closed
        → worker pass.new seat.new ≡ worker pass.old seat.old }
    ensures unread { IsErrOf result Served.ReadFault
        → worker pass.new seat.new ≡ worker pass.old seat.old }
    ensures reads { IsErrOf result Served.ReadFault
        → HasGrown (R.failed_reads reader.old) (R.failed_reads reader.new) }
    ensures room { is_bounded buffers.new ≡ is_bounded buffers.old }
{
    let asked = read_admitted_into(
        alloc,
        rules,
        reader,
        &mut buffers.request,
        &mut buffers.selectors,
    );
    match asked {
        Ok(request) => {
            buffers.note = Note::asked(&request);
            do_asked(rt, alloc, buffers, request, pass, seat, committer)
        }
        Err(ReadError::Refused(refusal)) => {
            buffers.note = Note::refused(path_in(buffers.request.as_slice()), &refusal);
            turn_away(alloc, &refusal)
        }
        Err(ReadError::Closed) => Err(Served::Closed),
        Err(ReadError::Fault) => Err(Served::ReadFault),
        Err(ReadError::Memory) => Err(Served::NoMemory),
    }
}

/// Reads one request, does what it asks and writes the reply.
#[tactic(auto, using(crate::proofs::Replying::silent_served))]
fn serve_next<J: OpenNaming, C: Wait + Drop, K: Keeper + Drop, R: Inlet, W: Outlet>(
    rt: &(impl Wait + Threads + Clock + Sync),
    alloc: Global,
    rules: &Rules,
    buffers: &mut Buffers,
    reader: &mut R,
    writer: &mut W,
    pass: &mut Pass<J>,
    seat: &mut Seat<J>,
    committer: &Committer<J, C, K>,
) -> Served
    ensures serves { Serves (MeansUnder rules.now) J.opening K.idle
        (is_bounded buffers.old) (AreHeld K.holds K.stays J.before)
        (R.input reader.old) (worker pass.old seat.old) (worker pass.new seat.new)
        (W.output writer.old) (W.output writer.new) result }
    ensures held { PublishesHeld K.holds K.stays J.before seat.old seat.new }
    ensures silent { IsSilent result → writer.new ≡ writer.old }
    ensures reads { result ≡ Served.ReadFault
        → HasGrown (R.failed_reads reader.old) (R.failed_reads reader.new) }
    ensures writes { result ≡ Served.WriteFault
        → HasGrown (W.failed_writes writer.old) (W.failed_writes writer.new) }
    ensures bounded { IsBounded buffers.new }
    ensures noted { (status : Status) → result ≡ Served.Replied status
        → buffers.new.note.status ≡ Some status }
    ensures unnoted { IsSilent result → buffers.new.note.status ≡ None }
    ensures given { HoldsNothing buffers.new }
    ensures room { is_bounded buffers.new ≡ is_bounded buffers.old }
{
    buffers.note = Note::none();
    let made = reply_to(rt, alloc, rules, buffers, reader, pass, seat, committer);
    buffers.trim_all();
    let reply = match made {
        Ok(reply) => reply,
        Err(served) => {
            buffers.note.status = None;
            buffers.give_room(rt);
            return served;
        }
    };
    buffers.note.status = Some(reply.status);
    let served = match write_reply(writer, &reply) {
        Ok(()) => Served::Replied(reply.status),
        Err(_) => Served::WriteFault,
    };
    buffers.give_reply(reply);
    buffers.give_room(rt);
    served
}

/// Serves one connection: one request is read, done and replied to.
///
/// The whole reply is made before its first byte is written, and the reply to a change before the
/// change is published. Several threads make the rows and the text of a long answer. The pass
/// learns the receipt of a change before the reply is written. It reads as [`read_admitted_into`]
/// does, so a request that the rules do not admit is refused and changes nothing (`barred`). It
/// waits as [`Committer::commit`] does. What the buffers held before plays no part, but for the
/// room that they share with others ([`Buffers::sharing`]), if they do: before the reply to a query
/// is made, it waits until this has room for the reply, and replies with `H13` if it has none.
/// Nothing is held of that room at the end, however the connection ends (`given`). At most
/// [`MOST_KEPT`](crate::MOST_KEPT) bytes of each buffer are kept. The buffers note the status of
/// the reply (`noted`), and none if no reply was made (`unnoted`).
pub fn serve_one_with<J: OpenNaming, C: Wait + Drop, K: Keeper + Drop, R: Inlet, W: Outlet>(
    rt: &(impl Wait + Threads + Clock + Sync),
    alloc: Global,
    rules: &Rules,
    buffers: &mut Buffers,
    reader: &mut R,
    writer: &mut W,
    pass: &mut Pass<J>,
    seat: &mut Seat<J>,
    committer: &Committer<J, C, K>,
) -> Served
    ensures serves { Serves (MeansUnder rules.now) J.opening K.idle
        (is_bounded buffers.old) (AreHeld K.holds K.stays J.before)
        (R.input reader.old) (worker pass.old seat.old) (worker pass.new seat.new)
        (W.output writer.old) (W.output writer.new) result }
    ensures held { PublishesHeld K.holds K.stays J.before seat.old seat.new }
    ensures silent { IsSilent result → writer.new ≡ writer.old }
    ensures reads { result ≡ Served.ReadFault
        → HasGrown (R.failed_reads reader.old) (R.failed_reads reader.new) }
    ensures writes { result ≡ Served.WriteFault
        → HasGrown (W.failed_writes writer.old) (W.failed_writes writer.new) }
    ensures bounded { IsBounded buffers.new }
    ensures noted { (status : Status) → result ≡ Served.Replied status
        → buffers.new.note.status ≡ Some status }
    ensures unnoted { IsSilent result → buffers.new.note.status ≡ None }
    ensures given { HoldsNothing buffers.new }
    ensures room { is_bounded buffers.new ≡ is_bounded buffers.old }
    ensures barred { IfSome (R.input reader.old) (λ bytes. IsBarred rules.now bytes
        → IsIdle (worker pass.old seat.old) (worker pass.new seat.new)) }
{
    serve_next(
        rt, alloc, rules, buffers, reader, writer, pass, seat, committer,
    )
}

/// Serves one connection as [`serve_one_with`] does, with buffers of its own and under no
/// rules. The memory of its reply is not bounded, so `H13` never comes.
pub fn serve_one<J: OpenNaming, C: Wait + Drop, K: Keeper + Drop, R: Inlet, W: Outlet>(
    rt: &(impl Wait + Threads + Clock + Sync),
    alloc: Global,
    reader: &mut R,
    writer: &mut W,
    pass: &mut Pass<J>,
    seat: &mut Seat<J>,
    committer: &Committer<J, C, K>,
) -> Served
    ensures serves { Serves Means J.opening K.idle false (AreHeld K.holds K.stays J.before)
        (R.input reader.old) (worker pass.old seat.old) (worker pass.new seat.new)
        (W.output writer.old) (W.output writer.new) result }
    ensures held { PublishesHeld K.holds K.stays J.before seat.old seat.new }
    ensures silent { IsSilent result → writer.new ≡ writer.old }
    ensures reads { result ≡ Served.ReadFault
        → HasGrown (R.failed_reads reader.old) (R.failed_reads reader.new) }
    ensures writes { result ≡ Served.WriteFault
        → HasGrown (W.failed_writes writer.old) (W.failed_writes writer.new) }
{
    let mut buffers = Buffers::new(alloc);
    serve_one_with(
        rt,
        alloc,
        &Rules::none(),
        &mut buffers,
        reader,
        writer,
        pass,
        seat,
        committer,
    )
}
