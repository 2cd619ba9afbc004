//! A server of statements: an engine, the binary log of its commits behind it, and replies in front.
#![tactic(auto)]

mod server;

pub use server::Server;
