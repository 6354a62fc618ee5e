// Lists of calls, given to a token stream one after the other.
#![tactic(auto)]

pub mod call;
pub mod session;
pub mod walk;
