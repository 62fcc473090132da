// The layers that refuse.
ghost use Rattle.std.specs.Prelude.{◌≡◌};
ghost use Rattle.fault.specs.Causes.{layer_number};

// Where a refusal comes from.
#[derive(Clone, Copy, Debug, PartialEq, Eq)]
pub enum Layer {
    // the reader of pattern files
    Pattern,
    // a run, or a replay of filed bits
    Reading,
    // a sink: what takes the items of a reading
    Sink,
}

impl Layer {
    // The layer's number, from 1 to 3. A method, as the number of a cause is.
    pub fn number(self) -> u8
        ensures { result ≡ layer_number self }
    {
        match self {
            Layer::Pattern => 1,
            Layer::Reading => 2,
            Layer::Sink => 3,
        }
    }
}
