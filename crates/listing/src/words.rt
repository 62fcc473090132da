// What the words of a list of calls stand for.
ghost use Rattle.std.specs.Prelude.{◌≡◌, false, length, IfOk};

use alphabet::Token;
use anyhow::Context;
use run::Call;
use std::alloc::{AllocError, Global};
use tables::word_bytes;

// Symbols that a word can name.
pub trait Named: Sized {
    // The piece that a word stands for.
    fn piece(heap: Global, word: &str) -> anyhow::Result<Vec<Self>>;
}

// WORD or N*WORD: the bytes of the word, or those so many times.
impl Named for u8 {
    fn piece(heap: Global, word: &str) -> anyhow::Result<Vec<u8>> {
        word_bytes(heap, word)
    }
}

// KIND:VALUE, more of them parted by commas.
impl Named for Token {
    fn piece(heap: Global, word: &str) -> anyhow::Result<Vec<Token>> {
        word.split(",").map(token_of).try_collect(heap)
    }
}

fn token_of(word: &str) -> anyhow::Result<Token> {
    let (kind, value) = word.split_once(":").context("a token without :")?;
    Token::new(kind.parse::<u8>()?, value.parse::<i16>()?).context("no token has these")
}

// A call with the symbols that it feeds.
#[derive(Drop)]
pub enum Step<S> {
    Feed(Vec<S>),
    Pour(u32),
}

// The step of a word: `>N` pours channel N, any other feeds its piece.
fn step_of<S: Named>(heap: Global, word: &str) -> anyhow::Result<Step<S>> {
    match word.strip_prefix(">") {
        Some(channel) => Ok(Step::Pour(channel.parse::<u32>()?)),
        None => Ok(Step::Feed(S::piece(heap, word)?)),
    }
}

// The step of each word.
pub fn steps_of<S: Named + Drop>(heap: Global, words: &str) -> anyhow::Result<Vec<Step<S>>> {
    words
        .split_whitespace()
        .map(|word| step_of(heap, word))
        .try_collect(heap)
}

// The call of each step.
pub fn calls_of<S: Drop>(heap: Global, steps: &[Step<S>]) -> Result<Vec<Call<'_, S>>, AllocError>
    ensures { IfOk result (λ calls. length calls.items ≡ length steps.now) }
{
    steps
        .iter()
        .map(|step| match step {
            Step::Feed(piece) => Call::Feed(piece.as_slice()),
            Step::Pour(channel) => Call::Pour(*channel),
        })
        .collect(heap)
}

// The words ahead of a `.` that stands alone at the end, which is the finish, and whether there was one.
pub fn without_finish(words: &str) -> (&str, bool)
    ensures none { result.1 ≡ false → result.0.now ≡ words.now }
{
    match words.trim_end().strip_suffix(" .") {
        Some(words) => (words, true),
        None => (words, false),
    }
}
