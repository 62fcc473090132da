// Laws of sinks, each the contract of a function.
ghost use Rattle.std.specs.Prelude.{◌≡◌, is_ok, if◌then◌else◌};
ghost use Rattle.sink.specs.Meaning.{take_answer, grown};
ghost use Rattle.sink.specs.Laws.{ExactAnswers, OrderFree, BitsFileChoices};

use crate::Sink;
use fault::Fault;

// What a sink told that taking an item would answer, and what taking it then answered.
#[derive(Drop)]
pub struct Asked {
    pub told: Result<(), Fault>,
    pub done: Result<(), Fault>,
}

// Asks the sink about the item and then takes it: what is told is what is done.
pub fn ask_and_take<S: Sink>(sink: &mut S, item: u32) -> Asked
    ensures same { result.told ≡ result.done }
    ensures answer { result.done ≡ take_answer S.meaning (S.position sink.old) (S.stock sink.old) item }
    ensures moved { S.position sink.new ≡ (if is_ok result.done then S.meaning.next (S.position sink.old) item else S.position sink.old) }
    ensures stocked { S.stock sink.new ≡ (if is_ok result.done then grown S.meaning (S.position sink.old) (S.stock sink.old) item else S.stock sink.old) }
{
    let told = sink.would(item);
    Asked {
        told,
        done: sink.take(item),
    }
}

// An item is refused with 9 exactly when it is not expected, and with 10 exactly when it is and some channel would pass its limit;
// a pour with 12 exactly when there is no such channel, and with 13 exactly when there is and the buffer is shorter than the stock.
pub fn answers_are_exact<S: Sink>()
    ensures { ExactAnswers S.Sink.meaning }
{}

// The order of two sinks in a pair matters only to the numbers of their channels.
pub fn order_is_free<S: Sink, T: Sink>()
    ensures { OrderFree S.Sink.meaning T.Sink.meaning }
{}

// The bits of a code are its choices, packed.
pub fn bits_file_choices()
    ensures { BitsFileChoices }
{}
