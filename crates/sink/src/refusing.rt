// A sink's refusals.
ghost use Rattle.std.specs.Prelude.{◌≡◌};
ghost use Rattle.sink.specs.Meaning.{sink_fault};

use fault::{Cause, Fault};

// A sink's own fault: its place is 0, whoever called the sink knows the place of the item.
pub fn refused(cause: Cause) -> Fault
    ensures { result ≡ sink_fault cause }
{
    Fault::new(cause, 0)
}
