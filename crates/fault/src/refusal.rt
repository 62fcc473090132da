// A refusal: its cause and its place.
ghost use Rattle.std.specs.Prelude.{◌≡◌, Some};
ghost use Rattle.fault.specs.Causes.{number, layer};
ghost use Rattle.fault.specs.Telling.{told};

use crate::cause::Cause;
use crate::layer::Layer;
use std::fmt;

#[derive(Clone, Copy, Debug, PartialEq, Eq)]
pub struct Fault {
    pub cause: Cause,
    // An offset in a pattern file, or a count of symbols.
    pub place: u64,
}

impl Fault {
    // A refusal for this cause at this place.
    pub fn new(cause: Cause, place: u64) -> Fault
        ensures { result ≡ record { cause = cause; place = place } }
    {
        Fault { cause, place }
    }

    // The same refusal at another place: whoever calls a sink knows the place, and the sink does not.
    pub fn at(self, place: u64) -> Fault
        ensures { result ≡ record { cause = self.cause; place = place } }
    {
        Fault { place, ..self }
    }

    // The number of its cause.
    pub fn number(&self) -> u8
        ensures { result ≡ number self.now.cause }
    {
        self.cause.number()
    }

    // The layer that refuses for its cause.
    pub fn layer(&self) -> Layer
        ensures { result ≡ layer self.now.cause }
    {
        self.cause.layer()
    }
}

// The one line by which every program tells a refusal.
impl fmt::Display for Fault {
    ghost output = { λ f. Some (told f) };

    fn fmt<W: fmt::Write>(&self, f: &mut fmt::Formatter<W>) -> fmt::Result {
        let number = self.number();
        let layer = self.layer().number();
        let place = self.place;
        let words = self.cause.words();
        write!(
            f,
            "refused number={number} layer={layer} place={place}: {words}"
        )
    }
}
