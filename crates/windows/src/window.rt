// A window has places for tokens, and holds those of a row of indexes.
use std::marker::Model;
use tokens::token::Token;

pub mod ring;

// The token of an index stands in the place of its remainder, so that a window that slides along moves no token. Held
// are the tokens from `start` on and below `end`, and `capacity` of the places are admitted.
#[derive(Drop)]
pub struct Window {
    places: [Token; 2048],
    capacity: usize,
    start: usize,
    end: usize,
}

// Clauses see the tokens that are held.
impl Model for Window {
    ghost use Rattle.windows.specs.Windows.{View};

    ghost Value = { View };

    ghost use Rattle.windows.specs.Places.{view_of, Kept};

    ghost view = { view_of };

    ghost invariant = { Kept };
}
