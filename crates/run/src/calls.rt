// The calls between the opening of a run and its finish, and their answers.
use fault::Fault;

// A feed of a piece to the run, or a pour of a channel of the sink.
#[derive(Drop)]
pub enum Call<'a, S> {
    Feed(&'a [S]),
    Pour(u32),
}

// What a call answered: a feed how many items it handed over, a pour how many bytes it poured.
#[derive(Clone, Copy)]
pub enum Answer {
    Fed(Result<u64, Fault>),
    Poured(Result<usize, Fault>),
}
