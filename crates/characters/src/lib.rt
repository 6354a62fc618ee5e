// Characters: what a text is, whatever units it is written in.
#![tactic(auto)]

pub mod char_stream;
