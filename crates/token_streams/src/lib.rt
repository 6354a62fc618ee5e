// Streams of tokens.
#![tactic(auto)]

pub mod token_stream;
