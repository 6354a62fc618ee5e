// Streams of symbols: what they mean, and the marks that keep a place.
#![tactic(auto)]

pub mod int_stream;
pub mod mark;
