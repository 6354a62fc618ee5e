// The stream of the characters of a text.
#![tactic(auto)]

pub mod input_stream;
