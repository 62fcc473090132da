// Why a symbol is not read.
use fault::Cause;

#[derive(Clone, Copy, PartialEq, Eq, Debug)]
pub enum Stop {
    // No live walk would be left.
    Dead,
    // The tree would count more than it may.
    TreeFull,
}

// The cause for which a symbol is refused that a reader does not read.
impl From<Stop> for Cause {
    ghost use Rattle.std.specs.Prelude.{◌≡◌};
    ghost use Rattle.reader.specs.Causes.{cause_of};

    ghost from_gives = { λ stop cause. cause ≡ cause_of stop };

    fn from(stop: Stop) -> Cause {
        match stop {
            Stop::Dead => Cause::DeadSymbol,
            Stop::TreeFull => Cause::TreeFull,
        }
    }
}
