//! The reply that no client can cause.

use requests::Refusal;

/// The reply if the store lends no snapshot.
const UNAVAILABLE: &[u8] =
    b"HTTP/1.1 503 Service Unavailable\r\nContent-Type: application/json\r\nContent-Length: 17\r\nConnection: close\r\n\r\n{\"refused\":\"H10\"}";

#[test]
fn a_store_that_lends_no_snapshot_is_replied_to(rt: HostRuntime) {
    let reply = Refusal::Unavailable.reply(rt.alloc()).ok();
    assert!(rt; reply.expect(&rt, "there is memory").as_slice() == UNAVAILABLE);
}
