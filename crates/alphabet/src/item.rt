// The items that the code of a walk lists, as numbers: a branch taken, a symbol read, or the mark at the end of a greedy code.
// They stay numbers: a sink may be handed any number, and has to refuse what it does not expect.

ghost use Rattle.std.specs.Prelude.{◌≡◌, ◌≤◌, IfSome};
ghost use Rattle.alphabet.specs.Items.{first_read, last_read};
ghost use Rattle.alphabet.specs.Meaning.{read_of};

use super::Alphabet;
use super::bounds::LARGEST_NUMBER;

// The first branch of a choice or star was taken.
pub const FIRST: u32 = 0;

// The second branch was taken.
pub const SECOND: u32 = 1;

// The item for reading a symbol is this plus the symbol's number.
pub const FIRST_READ: u32 = 2;

// The greatest item that a read can have.
pub const LAST_READ: u32 = FIRST_READ + LARGEST_NUMBER;

// The mark at the end of a greedy code, 65,538: the item after the last read item.
pub const END_MARK: u32 = LAST_READ + 1;

// The item of a read of a class at a symbol, if the symbol belongs to the class. By the alphabet's law it is at most the last read item.
pub fn read_item<A: Alphabet>(alphabet: &A, class: u32, symbol: &A::Symbol) -> Option<u32>
    ensures item { result ≡ read_of (A.meaning alphabet.now) class symbol.now }
    ensures range { IfSome result (λ i. (first_read ≤ i) × (i ≤ last_read)) }
{
    if alphabet.belongs(class, symbol) {
        Some(FIRST_READ + alphabet.number(symbol))
    } else {
        None
    }
}
