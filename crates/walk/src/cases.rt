// Worked cases.
ghost use Rattle.walk.specs.Cases.{WorkedCases};

// The worked cases over bytes, each computed from the definitions.
pub fn worked_cases()
    ensures { WorkedCases }
{}
