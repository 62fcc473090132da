// The theorems of walks, each the contract of a function, for every alphabet. A pattern is any expression; L is the alphabet.
ghost use Rattle.walk.specs.Theorems.{LiveListed, GreedyOne, SharedGrows, SharedCertain, SharedComputed, DeadExactly, SomeAccepted, TreeCounted, Order, WalksPart, CodeFixes, ChoicesFix, BytesFix};

use alphabet::Alphabet;

// The computed list is exactly that of the live walks, each once, in order; the code of none begins the code of another.
pub fn live_walks_are_listed<L: Alphabet>()
    ensures { (a : L) → LiveListed (L.Alphabet.meaning a) }
{}

// An input is accepted exactly when it has a greedy code, and it has no two.
pub fn greedy_code_is_one<L: Alphabet>()
    ensures { (a : L) → GreedyOne (L.Alphabet.meaning a) }
{}

// What the live walks share only grows as symbols are read, begins the greedy code of every accepted input that begins with these symbols, and is what is
// computed.
pub fn shared_beginning_is_certain<L: Alphabet>()
    ensures grows { (a : L) → SharedGrows (L.Alphabet.meaning a) }
    ensures certain { (a : L) → SharedCertain (L.Alphabet.meaning a) }
    ensures computed { (a : L) → SharedComputed (L.Alphabet.meaning a) }
{}

// For a pattern within the alphabet's classes: no walk is live exactly where no accepted input begins so, and some input is accepted.
pub fn dead_is_exact<L: Alphabet>()
    ensures dead { (a : L) → DeadExactly (L.Alphabet.meaning a) }
    ensures alive { (a : L) → SomeAccepted (L.Alphabet.meaning a) }
{}

// The computed count is that of the tree, and the tree has no other.
pub fn tree_is_counted<L: Alphabet>()
    ensures { (a : L) → TreeCounted (L.Alphabet.meaning a) }
{}

// Of two walks over the same symbols from one point one is earlier, or they are the same walk; and the order is one.
pub fn walks_are_ordered<L: Alphabet>()
    ensures part { (a : L) → WalksPart (L.Alphabet.meaning a) }
    ensures order { Order }
{}

// Of the walks over some symbols from one point, each is fixed by its code, by its choices (and those of no walk begin those of another), and by the bytes
// that file the choices.
pub fn walk_is_fixed<L: Alphabet>()
    ensures code { (a : L) → CodeFixes (L.Alphabet.meaning a) }
    ensures choices { (a : L) → ChoicesFix (L.Alphabet.meaning a) }
    ensures bytes { (a : L) → BytesFix (L.Alphabet.meaning a) }
{}
