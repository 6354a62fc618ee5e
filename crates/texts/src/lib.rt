// The kinds of texts, each over the caller's units: nothing is copied, and a part of a text is a text.
#![tactic(auto)]

pub mod units;
pub mod utf8_text;
