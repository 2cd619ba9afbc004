//! Replies as they are printed.
#![tactic(auto)]

mod replies;

pub use replies::reply_text;
