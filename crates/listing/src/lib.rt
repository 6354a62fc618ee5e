// The listing of a sheet's tokens, as text.
#![tactic(auto)]

pub mod lines;
pub mod sheet;
