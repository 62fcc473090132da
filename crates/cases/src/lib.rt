// The worked cases, as one result about the definitions that the contracts of the kit use.
#![tactic(auto)]

ghost use Rattle.cases.specs.Cases.{Worked};

// Files decoded, inputs read, choices filed, texts written and bits replayed come out as worked out by hand.
pub fn worked_cases_stand()
    ensures { Worked }
{}
