// The symbols of an input, as they arrive.
use crate::symbols::Splitter;
use crate::words::about;
use either::{Either, Left, Right};
use std::alloc::{AllocError, Global};
use std::fs;
use std::io::Read;
use std::rt::Files;

// How many bytes are taken from an input at once.
const CHUNK: usize = 4096;

// A file or standard input.
pub(crate) type Reader<R> = Either<<R as Files>::File, <R as Input>::Reader>;

// The file of this name; - is standard input.
pub(crate) fn open<R: Files + Input>(rt: &R, name: &str) -> anyhow::Result<Reader<R>> {
    if name == "-" {
        return Ok(Right(rt.reader()));
    }
    let file = fs::open(rt, name).map_err(|error| about(name, error))?;
    Ok(Left(file))
}

// The symbols of an input.
#[derive(Drop)]
pub(crate) struct Source<I, S> {
    input: I,
    splitter: S,
    // What is read into.
    buffer: Vec<u8>,
}

impl<I: Read + Drop, S: Splitter> Source<I, S> {
    pub(crate) fn new(heap: Global, input: I, splitter: S) -> Result<Source<I, S>, AllocError> {
        Ok(Source {
            input,
            splitter,
            buffer: vec![in heap; 0; CHUNK]?,
        })
    }

    // Adds the symbols that have arrived; false at the end of the input.
    pub(crate) fn fill(&mut self, symbols: &mut Vec<S::Symbol>) -> anyhow::Result<bool> {
        let count = self.input.read(self.buffer.as_mut_slice())?;
        if count > 0 {
            self.splitter.split(&self.buffer[..count], symbols)?;
            return Ok(true);
        }
        let before = symbols.len();
        self.splitter.end(symbols)?;
        Ok(symbols.len() > before)
    }
}
