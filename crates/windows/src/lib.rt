// The tokens that a stream holds: a window of places, and a buffer that fills one from a source.
#![tactic(auto)]

pub mod buffer;
pub mod window;
