// Call scripts: a text into lines, words and numbers, and an answer into text.
#![tactic(auto)]

pub mod answers;
pub mod line;
pub mod numerals;
pub mod reading;
pub mod words;
