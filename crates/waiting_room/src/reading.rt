//! A connection's bytes, read until they show where its request ends.

ghost use Rattle.std.specs.Prelude.{◌≡◌, ◌<◌, ◌≤◌, ◌+◌, ℕ, [], length, vec_len};
ghost use Rattle.std.specs.Prelude.{IfOk, IfNone, IfSome, OnOk};
ghost use Rattle.std.specs.Io.KnownBytes.{Consumes};
ghost use Rattle.httparse.specs.Grammar.{RequestHead};
ghost use Rattle.waiting_room.specs.Fields.{IsHeadIn};
ghost use Rattle.waiting_room.specs.Framing.{BeginsWithHead};
ghost use Rattle.waiting_room.specs.Coming.{IsReadInto, IsStop, HeadEnds, IsTold, IsHanded, end_of};

use crate::frame::{Frame, Look, frame_in, look_at};
use crate::purse::Purse;
use crate::source::{Missed, Source};
use std::alloc::Global;

/// The most bytes of a head.
const MAX_HEAD: usize = 8192;

/// How what came on a connection ended.
#[derive(Clone, Copy, Debug, PartialEq, Eq, Drop)]
pub enum End {
    /// With one whole request, and nothing behind it.
    Whole,
    /// With bytes that show no end of a request, whatever follows: no head of at most 64 fields and
    /// 8,192 bytes, or one that tells no length, or one above the limit.
    Astray,
    /// The client ended its side before its first byte.
    Closed,
    /// The client ended its side inside a request.
    CutShort,
    /// The client was silent for too long.
    Silent,
    /// The time for a request was over.
    Late,
    /// The connection failed.
    Failed,
}

/// What came on a connection, and how it ended.
#[derive(Drop)]
pub struct Came {
    pub bytes: Vec<u8>,
    pub end: End,
}

/// Why a connection gets a 503.
#[derive(Clone, Copy, Debug, PartialEq, Eq, Drop)]
pub enum Busy {
    /// The budget of all that wait together has no room for what came.
    NoRoom,
    /// There is no memory.
    Memory,
    /// No worker made a reply.
    NoReply,
}

fn end_of(missed: Missed) -> End
    ensures { result ≡ end_of missed }
{
    match missed {
        Missed::Silent => End::Silent,
        Missed::Late => End::Late,
        Missed::Failed => End::Failed,
    }
}

/// Reads at most so many bytes to the end of the buffer, and pays for them before they are kept. An
/// end says that none came.
fn read_piece<S: Source, P: Purse>(
    source: &mut S,
    purse: &mut P,
    buf: &mut Vec<u8>,
    most: usize,
) -> Result<Option<End>, Busy>
    requires { 0 < most }
    ensures within { OnOk result (vec_len buf.new ≤ vec_len buf.old + most) }
    ensures more { IfOk result (λ e. IfNone e (vec_len buf.old < vec_len buf.new)) }
    ensures bytes { OnOk result
        (IsReadInto (S.input source.old) (S.input source.new) buf.old.items buf.new.items) }
    ensures same { IfOk result (λ e. IfSome e (λ _. buf.new.items ≡ buf.old.items)) }
    ensures stop { IfOk result (λ e. IfSome e (IsStop buf.new.items)) }
    ensures told { IfOk result (λ e. IfSome e
        (IsTold (S.input source.new) (S.missed source.new))) }
    ensures paid { OnOk result
        (P.held purse.new + vec_len buf.old ≡ P.held purse.old + vec_len buf.new) }
{
    let mut piece = [0u8; 8192];
    let limit = most.min(8192);
    let n = match source.read(&mut piece[..limit]) {
        Ok(0) => {
            return Ok(Some(if buf.is_empty() {
                End::Closed
            } else {
                End::CutShort
            }));
        }
        Ok(n) => n,
        Err(missed) => return Ok(Some(end_of(missed))),
    };
    if !purse.claim(n as u64) {
        return Err(Busy::NoRoom);
    }
    match buf.extend_from_slice(&piece[..n]) {
        Ok(()) => Ok(None),
        Err(_) => Err(Busy::Memory),
    }
}

/// Reads into an empty buffer until a head has come, or an end. What follows the head may have come
/// with it.
fn read_head<S: Source, P: Purse>(
    source: &mut S,
    purse: &mut P,
    buf: &mut Vec<u8>,
) -> Result<Option<End>, Busy>
    requires { buf.old.items ≡ [] }
    ensures head { IfOk result (λ e. IfNone e (BeginsWithHead buf.new.items)) }
    ensures some { IfOk result (λ e. IfNone e (0 < vec_len buf.new)) }
    ensures short { OnOk result (vec_len buf.new ≤ 8192) }
    ensures taken { OnOk result
        (Consumes (S.input source.old) (S.input source.new) buf.new.items) }
    ensures comes { IfOk result (λ e. IfSome e (HeadEnds buf.new.items)) }
    ensures told { IfOk result (λ e. IfSome e
        (IsTold (S.input source.new) (S.missed source.new))) }
    ensures paid { OnOk result (P.held purse.new ≡ P.held purse.old + vec_len buf.new) }
{
    while buf.len() < MAX_HEAD {
        let most = MAX_HEAD - buf.len();
        if let Some(end) = read_piece(source, purse, buf, most)? {
            return Ok(Some(end));
        }
        match look_at(buf.as_slice()) {
            Look::Whole => return Ok(None),
            Look::Never => return Ok(Some(End::Astray)),
            Look::More => {}
        }
    }
    Ok(Some(End::Astray))
}

/// Reads until the buffer has so many bytes, or an end has come.
fn read_body<S: Source, P: Purse>(
    source: &mut S,
    purse: &mut P,
    buf: &mut Vec<u8>,
    whole: usize,
) -> Result<Option<End>, Busy>
    requires paid { vec_len buf.old ≤ P.held purse.old }
    ensures whole { IfOk result (λ e. IfNone e (whole ≤ vec_len buf.new)) }
    ensures bytes { OnOk result
        (IsReadInto (S.input source.old) (S.input source.new) buf.old.items buf.new.items) }
    ensures short { IfOk result (λ e. IfSome e (λ _. vec_len buf.new < whole)) }
    ensures stop { IfOk result (λ e. IfSome e (IsStop buf.new.items)) }
    ensures told { IfOk result (λ e. IfSome e
        (IsTold (S.input source.new) (S.missed source.new))) }
    ensures paid { OnOk result (vec_len buf.new ≤ P.held purse.new) }
{
    while buf.len() < whole {
        let most = whole - buf.len();
        if let Some(end) = read_piece(source, purse, buf, most)? {
            return Ok(Some(end));
        }
    }
    Ok(None)
}

fn frame_of(buf: &[u8], most: u32) -> Frame
    requires { BeginsWithHead buf.now }
    ensures { (h : RequestHead) × IsHeadIn most buf.now result h }
{
    frame_in(buf, most).unwrap()
}

/// Reads until the bytes show where the request ends: its head, and its body of at most so many
/// bytes if the head tells its length.
///
/// At [`End::Whole`] it is the request that stands at the front of the input, whole, and nothing
/// behind it; what came behind it is dropped. At any other end it is all that was read, and no
/// more was read once it showed that no request comes. Each byte is paid for before it is kept. The
/// buffer may hold up to twice the bytes that are paid for, and three times while it grows.
pub fn receive<S: Source, P: Purse>(
    alloc: Global,
    source: &mut S,
    purse: &mut P,
    most: u32,
) -> Result<Came, Busy>
    requires { P.held purse.old ≡ 0 }
    ensures handed { IfOk result (λ came. IsHanded most (S.input source.old) (S.input source.new)
        (S.missed source.new) came.bytes.items came.end) }
    ensures paid { IfOk result (λ came. vec_len came.bytes ≤ P.held purse.new) }
{
    let mut bytes = Vec::new(alloc);
    if let Some(end) = read_head(source, purse, &mut bytes)? {
        return Ok(Came { bytes, end });
    }
    let frame = frame_of(bytes.as_slice(), most);
    let Ok(length) = frame.length else {
        return Ok(Came {
            bytes,
            end: End::Astray,
        });
    };
    let whole = frame.end + length as usize;
    if let Some(end) = read_body(source, purse, &mut bytes, whole)? {
        return Ok(Came { bytes, end });
    }
    bytes.truncate(whole);
    Ok(Came {
        bytes,
        end: End::Whole,
    })
}
