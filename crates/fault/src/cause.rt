// The causes of a refusal, one case for each number.
ghost use Rattle.std.specs.Prelude.{◌≡◌};
ghost use Rattle.fault.specs.Causes.{number, layer, words};

use crate::layer::Layer;

#[derive(Clone, Copy, Debug, PartialEq, Eq)]
pub enum Cause {
    // a number of a pattern file is unreadable or above 65,535
    UnreadableNumber,
    // an unknown operation, a text cut short, an expression missing, or a final count that is not one
    Malformed,
    // a limit of patterns is passed
    PatternLimit,
    // the pattern reads a class that the alphabet does not have
    UnknownClass,
    // no live walk would be left after the symbol
    DeadSymbol,
    // finished on an input that is not accepted
    NotAccepted,
    // the tree of undecided items would count above its limit
    TreeFull,
    // as many symbols are read already as a run may read
    LengthLimit,
    // the sink does not expect the item
    NotExpected,
    // a channel's stock would pass its limit
    ChannelFull,
    // the bits are no allowed walk
    NotAWalk,
    // the sink has no such channel
    NoChannel,
    // the buffer is shorter than the stock
    ShortBuffer,
}

impl Cause {
    // The cause's number, from 1 to 13. Number, layer and words stay methods: their names say what is asked for, where a conversion to u8 would not.
    pub fn number(self) -> u8
        ensures { result ≡ number self }
    {
        match self {
            Cause::UnreadableNumber => 1,
            Cause::Malformed => 2,
            Cause::PatternLimit => 3,
            Cause::UnknownClass => 4,
            Cause::DeadSymbol => 5,
            Cause::NotAccepted => 6,
            Cause::TreeFull => 7,
            Cause::LengthLimit => 8,
            Cause::NotExpected => 9,
            Cause::ChannelFull => 10,
            Cause::NotAWalk => 11,
            Cause::NoChannel => 12,
            Cause::ShortBuffer => 13,
        }
    }

    // The layer that refuses for this cause.
    pub fn layer(self) -> Layer
        ensures { result ≡ layer self }
    {
        match self {
            Cause::UnreadableNumber | Cause::Malformed | Cause::PatternLimit => Layer::Pattern,
            Cause::NotExpected | Cause::ChannelFull | Cause::NoChannel | Cause::ShortBuffer =>
                Layer::Sink,
            _ => Layer::Reading,
        }
    }

    // The cause in words.
    pub fn words(self) -> &'static str
        ensures { result.now ≡ words self }
    {
        match self {
            Cause::UnreadableNumber => "a number is unreadable or above 65,535",
            Cause::Malformed =>
                "an operation is unknown, a text is cut, an expression is missing, or the final count of expressions is not one",
            Cause::PatternLimit => "a limit of patterns is passed",
            Cause::UnknownClass => "the pattern reads a class that the alphabet does not have",
            Cause::DeadSymbol => "dead symbol: no live walk would be left",
            Cause::NotAccepted => "the input is not accepted",
            Cause::TreeFull => "the tree of undecided items would count above its limit",
            Cause::LengthLimit => "4,294,967,295 symbols are read already",
            Cause::NotExpected => "the item is not expected",
            Cause::ChannelFull => "a channel is full",
            Cause::NotAWalk => "the bits are no allowed walk",
            Cause::NoChannel => "there is no such channel",
            Cause::ShortBuffer => "the buffer is shorter than the stock",
        }
    }
}
