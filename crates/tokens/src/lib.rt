// Tokens, where they come from, and their texts.
#![tactic(auto)]

pub mod list_source;
pub mod token;
pub mod token_factory;
pub mod token_source;
