ghost use Rattle.std.specs.Prelude.{◌≡◌, ◌≤◌, ◌≤ℤ◌};
ghost use Rattle.alphabet.specs.Bounds.{last_kind, least_value, greatest_value};

use super::bounds::{
    GREATEST_VALUE, LARGEST_NUMBER, LAST_KIND, LEAST_VALUE, OFFSET, VALUES_PER_KIND,
};
use std::error::Error;
use std::fmt;

// A relay event: a kind and a signed value. No token lacks these bounds.
#[derive(Clone, Copy, PartialEq, Eq, Debug)]
pub struct Token {
    kind: u8,
    value: i16,
    ghost listed: { kind ≤ last_kind },
    ghost lowest: { least_value ≤ℤ value },
    ghost highest: { value ≤ℤ greatest_value },
}

impl Token {
    ghost use Rattle.std.specs.Option.{option_map};
    ghost use Rattle.alphabet.specs.TokenClasses.{parts, parts_of};

    // The token of a kind and a value: there is one exactly if both are in bounds, and it has just these.
    pub fn new(kind: u8, value: i16) -> Option<Token>
        ensures { option_map parts result ≡ parts_of kind value }
    {
        if kind <= LAST_KIND && value >= LEAST_VALUE && value <= GREATEST_VALUE {
            Some(Token { kind, value })
        } else {
            None
        }
    }

    // The kind.
    pub fn kind(&self) -> u8
        ensures { result ≡ self.now.kind }
    {
        self.kind
    }

    // The value.
    pub fn value(&self) -> i16
        ensures { result ≡ self.now.value }
    {
        self.value
    }
}

// A number above the largest, which is no token's.
#[derive(Clone, Copy, PartialEq, Eq, Debug)]
pub struct NoToken(pub u32);

impl fmt::Display for NoToken {
    fn fmt<W: fmt::Write>(&self, f: &mut fmt::Formatter<W>) -> fmt::Result {
        write!(f, "no token has the number {}", self.0)
    }
}

impl Error for NoToken {}

// The token that has a number: there is one exactly if the number is at most the largest.
impl TryFrom<u32> for Token {
    type Error = NoToken;

    ghost use Rattle.alphabet.specs.TokenClasses.{Numbers};

    ghost try_from_gives = { Numbers };

    fn try_from(number: u32) -> Result<Token, NoToken> {
        if number > LARGEST_NUMBER {
            return Err(NoToken(number));
        }
        let kind = (number / VALUES_PER_KIND) as u8;
        let value = ((number % VALUES_PER_KIND) as i32 - OFFSET) as i16;
        Ok(Token { kind, value })
    }
}

// A token's number: the kind times the values of a kind, plus the value, plus the offset.
impl From<Token> for u32 {
    ghost use Rattle.alphabet.specs.TokenClasses.{token_number};

    ghost from_gives = { λ token number. number ≡ token_number token };

    fn from(token: Token) -> u32 {
        token.kind as u32 * VALUES_PER_KIND + (token.value as i32 + OFFSET) as u32
    }
}
