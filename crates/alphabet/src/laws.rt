// Laws of alphabets, each the contract of a function.
ghost use Rattle.alphabet.specs.TokenClasses.{NumbersAreTokens};

// Each number up to the largest is exactly one token's, and no token has another.
pub fn numbers_are_tokens()
    ensures { NumbersAreTokens }
{}
