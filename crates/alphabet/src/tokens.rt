ghost use Rattle.alphabet.specs.TokenClasses.{token_meaning};
ghost use Rattle.alphabet.specs.Numbers.{number_within};
ghost use Rattle.alphabet.specs.TokensAlphabetLemmas.{full, none};

use super::bounds::LAST_KIND;
use super::{Alphabet, Token};

// The relay events as an alphabet: a class for each kind, a class for each kind with a value below 0, and one of all.
#[derive(Clone, Copy)]
pub struct Tokens;

// The classes stay numbers, as those of bytes do.
impl Tokens {
    // The classes below this are each one kind, whatever the value.
    pub const BELOW_ZERO: u32 = LAST_KIND as u32 + 1;

    // Any token. The classes from BELOW_ZERO to here are each one kind with a value below 0.
    pub const ANY: u32 = 2 * Tokens::BELOW_ZERO;

    // How many classes there are.
    pub const CLASSES: u32 = Tokens::ANY + 1;
}

impl Alphabet for Tokens {
    type Symbol = Token;

    ghost meaning = { λ _. token_meaning };

    ghost lawful = { λ a. record { inhabited = full; bounded = none; small = λ c s h. number_within s } };

    fn class_count(&self) -> u32 {
        Tokens::CLASSES
    }

    fn belongs(&self, class: u32, symbol: &Token) -> bool {
        let kind = symbol.kind() as u32;
        if class < Tokens::BELOW_ZERO {
            kind == class
        } else if class < Tokens::ANY {
            kind == class - Tokens::BELOW_ZERO && symbol.value() < 0
        } else {
            class == Tokens::ANY
        }
    }

    fn number(&self, symbol: &Token) -> u32 {
        u32::from(*symbol)
    }
}
