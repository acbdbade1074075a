//! One worker: it serves one connection after another.

ghost use Rattle.std.specs.Prelude.{◌≡◌, ◌<◌, ◌≤◌};
ghost use Rattle.snapshots.specs.Keeping.{AreHeld, PublishesHeld};
ghost use Rattle.query_http.specs.Bounds.{is_bounded};
ghost use Rattle.query_http.specs.Serving.{worker};
ghost use Rattle.server.specs.Sessions.{IsOver};
ghost use Rattle.server.specs.Working.{Works, IsFarther};

use crate::connections::Connections;
use guard::Rules;
use keeper::Keeper;
use query_http::{Buffers, serve_one_with};
use snapshots::{Committer, OpenNaming, Pass, Seat};
use std::alloc::Global;
use std::sync::Wait;
use std::thread::Threads;
use std::time::Clock;

/// What a worker has done when it ends. Only [`work`] makes one.
#[derive(Clone, Copy)]
pub struct Shift<'a> {
    served: u64,
    rules: &'a Rules,
}

impl<'a> Shift<'a> {
    /// How many connections the worker served.
    pub fn served(&self) -> u64
        ensures { result ≡ self.now.served }
    {
        self.served
    }

    /// Under which rules it worked.
    pub fn rules(&self) -> &'a Rules
        ensures { result.now ≡ self.now.rules.now }
    {
        self.rules
    }
}

/// Serves connections one after another, at most `most` of them. It serves fewer only if no more
/// will come.
///
/// Each is served by [`serve_one_with`] under these rules, with the pass and the seat as the
/// connection before left them, and in the same buffers. Whether the memory for replies is bounded
/// is for the buffers to say.
pub fn work<'a, J: OpenNaming, C: Wait + Drop, K: Keeper + Drop, A: Connections>(
    rt: &(impl Wait + Threads + Clock + Sync),
    alloc: Global,
    rules: &'a Rules,
    buffers: &mut Buffers,
    connections: &mut A,
    pass: &mut Pass<J>,
    seat: &mut Seat<J>,
    committer: &Committer<J, C, K>,
    most: u64,
) -> Shift<'a>
    ensures works { Works rules.now J.opening K.idle (is_bounded buffers.old)
        (AreHeld K.holds K.stays J.before)
        (worker pass.old seat.old) (worker pass.new seat.new)
        (A.coming connections.old) (A.coming connections.new)
        (A.past connections.old) (A.past connections.new) result.served }
    ensures farther { IsFarther (worker pass.old seat.old) (worker pass.new seat.new)
        result.served }
    // A keeper holds what got a reply of success.
    ensures held { PublishesHeld K.holds K.stays J.before seat.old seat.new }
    ensures few { result.served ≤ most }
    ensures over { result.served < most → IsOver (A.coming connections.new) }
    ensures ruled { result.rules.now ≡ rules.now }
{
    for done in 0..most {
        let Some((mut reader, mut writer)) = connections.accept() else {
            return Shift {
                served: done,
                rules,
            };
        };
        let served = serve_one_with(
            rt,
            alloc,
            rules,
            buffers,
            &mut reader,
            &mut writer,
            pass,
            seat,
            committer,
        );
        connections.close(reader, writer, served, buffers.note());
    }
    Shift {
        served: most,
        rules,
    }
}
