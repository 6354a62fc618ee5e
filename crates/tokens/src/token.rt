// The symbols that a parser works on.
ghost use Rattle.std.specs.Prelude.{◌≡◌};
ghost use Rattle.tokens.specs.Tokens.{is_eof, with_index};

// The type of the EOF, as the interface numbers it.
pub const TOKEN_EOF: i32 = -1;

// The channel of tokens that hide from nobody.
pub const TOKEN_DEFAULT_CHANNEL: i32 = 0;

// The index of a token that no stream holds, as the interface numbers it.
pub const UNSTAMPED: i32 = -1;

// `start` and `stop` are positions of the input, `stop` inclusive.
#[derive(Clone, Copy, PartialEq, Eq, Debug)]
pub struct Token {
    pub token_type: i32,
    pub channel: i32,
    pub start: i32,
    pub stop: i32,
    pub line: i32,
    pub column: i32,
    pub index: i32,
}

impl Token {
    pub fn is_eof(&self) -> bool
        ensures value { result ≡ is_eof self.now }
    {
        self.token_type == TOKEN_EOF
    }

    // Gives the token its place in a stream.
    pub fn set_token_index(&mut self, index: i32)
        ensures after { self.new ≡ with_index index self.old }
    {
        self.index = index;
    }
}
