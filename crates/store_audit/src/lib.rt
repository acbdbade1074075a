//! A reply judged over a kept store.
//!
//! [`judge_store`] takes what the journal of a store says and its blocks, and a reply to a query.
//! It finds the newest state of the store of which all that the reply says of parts is right, and
//! gives the lines of the reply over that state; if there is none, those over the last state. The
//! reply is right of the store if a state was found and no line has a flaw. States before a mark do
//! not count: if the reply is right of such a state alone, the report says of which.
//!
//! It stands on `reply_state` for the search, on `kept_world` for the states and on `whole_audit`
//! for the lines.
#![tactic(auto)]

mod copies;
mod judging;

pub use judging::{StateReport, StoreJudgement, judge_store};
