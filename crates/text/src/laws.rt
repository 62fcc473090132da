// Laws of the sink of text, each the contract of a function.
ghost use Rattle.text.specs.Laws.{TextsEnd, AddsText};

use pattern::Pattern;

// In this pattern, as in every one, the way past texts ends at a point that is no text.
pub fn texts_end(pattern: &Pattern)
    ensures { TextsEnd pattern.now }
{}

// What items add to the stock of a sink of text is their text.
pub fn adds_text()
    ensures { AddsText }
{}
