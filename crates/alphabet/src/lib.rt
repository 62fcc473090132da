#![tactic(auto)]

ghost use Rattle.std.specs.Prelude.{◌≡◌};
ghost use Rattle.alphabet.specs.Meaning.{Meaning, Lawful};

pub mod bounds;
mod bytes;
pub mod item;
mod laws;
#[cfg(test)]
mod tests;
mod token;
mod tokens;

pub use bytes::Bytes;
pub use laws::numbers_are_tokens;
pub use token::{NoToken, Token};
pub use tokens::Tokens;

// An alphabet: a symbol type, a count of classes, which symbols belong to a class, and a number for each symbol.
// Each answer is a function of the alphabet's value and of what is asked: asking alters nothing, and asking again gives the same answer.
pub trait Alphabet {
    type Symbol;

    // What the alphabet fixes: the count, which symbols belong to a class, and the numbers.
    ghost meaning: { Self → Meaning Self.Symbol };

    // How many classes there are.
    fn class_count(&self) -> u32
        ensures { result ≡ (meaning self.now).classes };

    // Whether a symbol belongs to a class; to a class at or above the count none does.
    fn belongs(&self, class: u32, symbol: &Self::Symbol) -> bool
        ensures { result ≡ (meaning self.now).belongs class symbol.now };

    // A symbol's number. By the law it is at most `bounds::LARGEST_NUMBER` for a symbol that belongs to some class.
    fn number(&self, symbol: &Self::Symbol) -> u32
        ensures { result ≡ (meaning self.now).number symbol.now };

    // Every class below the count has a symbol, any other none, and numbers are at most the largest.
    ghost lawful: { (a : Self) → Lawful (meaning a) };
}
