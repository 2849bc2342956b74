//! Which return flags an ask has.

ghost use Rattle.std.specs.Prelude.{◌≡◌};
ghost use Rattle.mc_types.specs.Wanted.{wanted_of, wanting};

use crate::Token;

/// Which of the return flags `c f k s t v` an ask has.
#[derive(Clone, Copy)]
pub struct Wanted {
    pub cas: bool,
    pub flags: bool,
    pub key: bool,
    pub size: bool,
    pub ttl: bool,
    pub value: bool,
}

impl Wanted {
    fn with(self, token: &Token) -> Wanted
        ensures { result ≡ wanting self token.now }
    {
        let mut wanted = self;
        match token {
            Token::Cas => wanted.cas = true,
            Token::Flags => wanted.flags = true,
            Token::Key => wanted.key = true,
            Token::Size => wanted.size = true,
            Token::Ttl => wanted.ttl = true,
            Token::Value => wanted.value = true,
            Token::Opaque(_) => {}
        }
        wanted
    }

    /// Which of the return flags `c f k s t v` stand among these, each in its own field. It takes no memory.
    ///
    /// Source: memcached's protocol.txt, "Meta Commands".
    pub fn among(tokens: &[Token]) -> Wanted
        ensures { result ≡ wanted_of tokens.now }
    {
        let mut wanted = Wanted {
            cas: false,
            flags: false,
            key: false,
            size: false,
            ttl: false,
            value: false,
        };
        let mut rest = tokens;
        while let [token, more @ ..] = rest {
            wanted = wanted.with(token);
            rest = more;
        }
        wanted
    }
}
