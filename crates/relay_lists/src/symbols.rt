// How the bytes of an input are read as symbols, and how symbols are told.
use crate::source::Source;
use crate::words::about;
use alphabet::{Alphabet, Bytes, Token, Tokens};
use anyhow::anyhow;
use console::Quoted;
use std::alloc::Global;
use std::io;
use std::io::Read;

// The longest line of a list of events.
const LINE: usize = 32;

// The most bytes of a line that are shown.
const SHOWN: usize = 40;

// What bytes that arrive one after another become.
pub(crate) trait Splitter: Drop {
    type Symbol;

    // Adds the symbols that the next bytes complete.
    fn split(&mut self, bytes: &[u8], symbols: &mut Vec<Self::Symbol>) -> anyhow::Result<()>;

    // Adds the symbol that the end of the input completes, if there is one.
    fn end(&mut self, symbols: &mut Vec<Self::Symbol>) -> anyhow::Result<()>;
}

// An alphabet in which an input can be read and told.
pub(crate) trait Readable: Alphabet {
    type Splitter: Splitter<Symbol = Self::Symbol>;

    // Before the first byte.
    fn splitter(heap: Global) -> Self::Splitter;

    // All symbols of the input of this name.
    fn all<I: Read + Drop>(heap: Global, name: &str, input: I) -> anyhow::Result<Vec<Self::Symbol>>;

    // Whether a line of the input ends with the symbol.
    fn ends_line(symbol: &Self::Symbol) -> bool;

    // Prints the line that begins with the symbols.
    fn print_line(rt: &impl Print, symbols: &[Self::Symbol]) -> io::Result<()>;
}

// Each byte is a symbol.
#[derive(Drop)]
pub(crate) struct EachByte;

impl Splitter for EachByte {
    type Symbol = u8;

    fn split(&mut self, bytes: &[u8], symbols: &mut Vec<u8>) -> anyhow::Result<()> {
        Ok(symbols.extend_from_slice(bytes)?)
    }

    fn end(&mut self, _symbols: &mut Vec<u8>) -> anyhow::Result<()> {
        Ok(())
    }
}

impl Readable for Bytes {
    type Splitter = EachByte;

    fn splitter(_heap: Global) -> EachByte {
        EachByte
    }

    fn all<I: Read + Drop>(heap: Global, name: &str, mut input: I) -> anyhow::Result<Vec<u8>> {
        let mut bytes = Vec::new(heap);
        input
            .read_to_end(&mut bytes)
            .map_err(|error| about(name, error))?;
        Ok(bytes)
    }

    fn ends_line(symbol: &u8) -> bool {
        *symbol == b'\n'
    }

    fn print_line(rt: &impl Print, symbols: &[u8]) -> io::Result<()> {
        if symbols.is_empty() {
            return print!(rt; "the end");
        }
        let shown = &symbols[..symbols.len().min(SHOWN)];
        let len = shown.iter().position(|byte| *byte == b'\n');
        print!(rt; "{}", Quoted(&shown[..len.unwrap_or(shown.len())]))
    }
}

// Each line is an event.
#[derive(Drop)]
pub(crate) struct EachLine {
    // The line that is not complete yet, and how many are.
    line: Vec<u8>,
    complete: u64,
}

// The event of a line: a kind and a value, with space between.
fn event_of(line: &[u8]) -> Option<Token> {
    let mut words = std::str::from_utf8(line).ok()?.split_whitespace();
    let (kind, value) = (words.next()?, words.next()?);
    if words.next().is_some() {
        return None;
    }
    Token::new(kind.parse::<u8>().ok()?, value.parse::<i16>().ok()?)
}

impl EachLine {
    // The event of the line at hand, which is complete.
    fn end_line(&mut self) -> anyhow::Result<Token> {
        self.complete = self.complete.saturating_add(1);
        let token = event_of(&self.line).ok_or_else(|| self.unreadable())?;
        self.line.clear();
        Ok(token)
    }

    // One byte more of the line at hand.
    fn lengthen(&mut self, byte: u8) -> anyhow::Result<()> {
        if self.line.len() >= LINE {
            self.complete = self.complete.saturating_add(1);
            return Err(self.unreadable());
        }
        Ok(self.line.push(byte)?)
    }

    // Says that the last line is no event.
    fn unreadable(&self) -> anyhow::Error {
        let number = self.complete;
        anyhow!(
            "line {number} is no event: a kind from 0 to 15, a space, a value from -2048 to 2047"
        )
    }
}

impl Splitter for EachLine {
    type Symbol = Token;

    fn split(&mut self, bytes: &[u8], symbols: &mut Vec<Token>) -> anyhow::Result<()> {
        for byte in bytes {
            if *byte == b'\n' {
                symbols.push(self.end_line()?)?;
            } else {
                self.lengthen(*byte)?;
            }
        }
        Ok(())
    }

    // The last line may lack its end.
    fn end(&mut self, symbols: &mut Vec<Token>) -> anyhow::Result<()> {
        if !self.line.is_empty() {
            symbols.push(self.end_line()?)?;
        }
        Ok(())
    }
}

impl Readable for Tokens {
    type Splitter = EachLine;

    fn splitter(heap: Global) -> EachLine {
        EachLine {
            line: Vec::new(heap),
            complete: 0,
        }
    }

    fn all<I: Read + Drop>(heap: Global, _name: &str, input: I) -> anyhow::Result<Vec<Token>> {
        let mut events = Vec::new(heap);
        let mut source = Source::new(heap, input, Tokens::splitter(heap))?;
        // Nothing bounds an input: this is the language's loop to its end.
        for _ in 0..u64::MAX {
            if !source.fill(&mut events)? {
                break;
            }
        }
        Ok(events)
    }

    fn ends_line(_symbol: &Token) -> bool {
        true
    }

    fn print_line(rt: &impl Print, symbols: &[Token]) -> io::Result<()> {
        match symbols.first() {
            Some(token) => {
                let (kind, value) = (token.kind(), token.value());
                print!(rt; "kind {kind} value {value}")
            }
            None => print!(rt; "the end"),
        }
    }
}
