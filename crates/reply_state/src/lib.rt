//! The state of a kept store of which a reply is right.
//!
//! [`find_reply`] searches the states that the events of a journal lead to, from the head that the
//! journal begins with, for the newest of which a reply is right: all that it says of parts, and
//! its rows. If it finds none, there is none.
//!
//! It stands on `whole_audit` for what is right of one state, on `kept_world` for the states, and
//! on `state_search`, which looks at few of them.
#![tactic(auto)]

mod searching;
mod told;

pub use searching::{find_parts, find_reply};
