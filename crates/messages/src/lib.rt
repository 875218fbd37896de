// SEND (requests.rt) and REPLY (replies.rt), on a checked machine (document 01, "The commands, checks in order").
#![tactic(auto)]

mod replies;
mod requests;

pub use replies::reply;
pub use requests::send;
