// The lexer of schedule sheets.
#![tactic(auto)]

pub mod class;
pub mod sheet_lexer;
