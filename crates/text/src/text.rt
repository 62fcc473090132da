// The sink of text.
ghost use Rattle.std.specs.Prelude.{◌≡◌};
ghost use Rattle.sink.specs.Meaning.{nothing};
ghost use Rattle.text.specs.Planning.{Planned};
ghost use Rattle.text.specs.TextMeaning.{text_meaning};
ghost use Rattle.text.specs.TextState.{start_of, text_position, text_stock};

use crate::manner::Manner;
use crate::moving::{Move, move_at};
use crate::passing::Texts;
use fault::{Cause, Fault};
use pattern::Pattern;
use sink::{STOCK_BYTES, Sink, Stock, refused};

// Writes the text of the walk that the items take through a pattern, in channel 0.
#[derive(Drop)]
pub struct Text<'p> {
    pattern: &'p Pattern,
    manner: Manner,
    // None after the end mark.
    point: Option<u8>,
    stock: Stock,
}

// What to do on an item that is to be taken: add the texts that are passed, and make the move of the point past them.
#[derive(Drop)]
pub(crate) struct Plan<'p> {
    pub texts: Texts<'p>,
    pub then: Move,
}

impl<'p> Text<'p> {
    // A fresh sink: at the pattern's entry, nothing in stock.
    pub fn new(pattern: &'p Pattern, manner: Manner) -> Text<'p>
        ensures position { text_position result ≡ start_of pattern.now manner }
        ensures stock { text_stock result ≡ nothing }
    {
        Text {
            pattern,
            manner,
            point: Some(pattern.entry()),
            stock: Stock::new(),
        }
    }

    // What to do on the item, or why it is refused.
    fn plan(&self, item: u32) -> Result<Plan<'p>, Fault>
        ensures { Planned self.now item result }
    {
        let from = self.point.ok_or(refused(Cause::NotExpected))?;
        let texts = Texts {
            pattern: self.pattern,
            at: from,
        };
        let passage = texts.pass();
        let then = move_at(self.manner, passage.kind, item).ok_or(refused(Cause::NotExpected))?;
        let long = passage.bytes;
        let more = then.tail.len();
        let room = STOCK_BYTES - self.stock.len();
        if long > room || more > room - long {
            return Err(refused(Cause::ChannelFull));
        }
        Ok(Plan { texts, then })
    }
}

impl<'p> Sink for Text<'p> {
    ghost meaning = { text_meaning };

    ghost position = { text_position };

    ghost stock = { text_stock };

    fn would(&self, item: u32) -> Result<(), Fault> {
        self.plan(item)?;
        Ok(())
    }

    fn take(&mut self, item: u32) -> Result<(), Fault> {
        let Plan { texts, then } = self.plan(item)?;
        texts.append_to(&mut self.stock);
        self.stock.append(&then.tail).unwrap();
        self.point = then.next;
        Ok(())
    }

    fn pour(&mut self, channel: u32, buffer: &mut [u8]) -> Result<usize, Fault> {
        self.stock.pour_channel(channel, buffer)
    }
}
