// A token source of either kind.
ghost use Rattle.run_calls.specs.declared.source.AnySource.TheVariants.{List, Sheet};

use crate::text::AnyText;
use lexer::sheet_lexer::SheetLexer;
use refusals::Refusal;
use tokens::list_source::ListSource;
use tokens::token::Token;
use tokens::token_source::TokenSource;

#[derive(Drop)]
pub enum AnySource<'a> {
    List(ListSource<'a>),
    Sheet(SheetLexer<AnyText<'a>>),
}

// Each method asks the source of the kind at hand: an enum has no shorter form for that, and a `dyn` value would have to
// be lent, while a stream owns its source and hands it out when it is closed.
impl<'a> TokenSource for AnySource<'a> {
    ghost coming = { elim [
      | List s ↦ ⟦<ListSource<'a> as TokenSource>⟧.coming s
      | Sheet s ↦ ⟦<SheetLexer<AnyText<'a>> as TokenSource>⟧.coming s
    ] };

    ghost text = { elim [
      | List s ↦ ⟦<ListSource<'a> as TokenSource>⟧.text s
      | Sheet s ↦ ⟦<SheetLexer<AnyText<'a>> as TokenSource>⟧.text s
    ] };

    ghost lawful = { elim [
      | List s ↦ ⟦<ListSource<'a> as TokenSource>⟧.lawful s
      | Sheet s ↦ ⟦<SheetLexer<AnyText<'a>> as TokenSource>⟧.lawful s
    ] };

    fn next_token(&mut self) -> Token {
        match self {
            AnySource::List(source) => source.next_token(),
            AnySource::Sheet(source) => source.next_token(),
        }
    }

    fn text_len(&self, token: &Token) -> usize {
        match self {
            AnySource::List(source) => source.text_len(token),
            AnySource::Sheet(source) => source.text_len(token),
        }
    }

    fn write_text(&self, token: &Token, out: &mut [u8]) -> Result<usize, Refusal> {
        match self {
            AnySource::List(source) => source.write_text(token, out),
            AnySource::Sheet(source) => source.write_text(token, out),
        }
    }
}
