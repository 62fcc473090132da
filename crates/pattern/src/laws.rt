// Laws of pattern files, each the contract of a function.
ghost use Rattle.pattern.specs.Laws.{ReadsBack};

// Decoding what an expression within the limits writes gives that expression back.
pub fn files_read_back()
    ensures { ReadsBack }
{}
