// An input read by a pattern, as it arrives.
use crate::list::List;
use crate::out::{Outlets, Place};
use crate::source::{Source, open};
use crate::stop::Stop;
use crate::symbols::{Readable, Splitter};
use console::{Failure, bits_and_text};
use run::{Finished, Run};
use sink::Sink;
use std::io::{Read, Write};
use std::rt::Files;

// How many symbols are fed at once. The stocks are poured after each such piece.
const PIECE: usize = 64;

// After how many symbols, or a chunk more, a reading tells how far it is.
const STRIDE: u64 = 1 << 20;

// What was fed so far.
#[derive(Clone, Copy)]
struct Fed {
    symbols: u64,
    items: u64,
}

impl Fed {
    // Counts a chunk; true where another stride of symbols is complete.
    fn count(&mut self, symbols: usize, items: u64) -> bool {
        let before = self.symbols / STRIDE;
        self.symbols = self.symbols.saturating_add(symbols as u64);
        self.items = self.items.saturating_add(items);
        self.symbols / STRIDE > before
    }
}

// Feeds symbols piece by piece, and pours after each piece; answers how many items were handed over.
fn feed_pieces<A: Readable, K: Sink, W: Write + Drop>(
    run: &mut Run<'_, A>,
    sink: &mut K,
    symbols: &[A::Symbol],
    outlets: &mut Outlets<W>,
) -> Result<u64, Stop> {
    let mut items: u64 = 0;
    for piece in symbols.chunks(PIECE) {
        let answer = run.feed(sink, piece);
        outlets.pour(sink)?;
        items = items.saturating_add(answer?);
    }
    Ok(items)
}

impl<R: Files + Input + Print + Eprint + AllocGlobal, A: Readable> List<'_, R, A>
where
    A::Symbol: Drop,
{
    // Feeds the whole input chunk by chunk.
    fn feed_all<I: Read + Drop, K: Sink, W: Write + Drop>(
        &self,
        run: &mut Run<'_, A>,
        sink: &mut K,
        source: &mut Source<I, A::Splitter>,
        outlets: &mut Outlets<W>,
    ) -> Result<(), Stop> {
        let rt = self.rt;
        let mut chunk = Vec::new(rt.alloc());
        let mut fed = Fed {
            symbols: 0,
            items: 0,
        };
        // Nothing bounds an input: this is the language's loop to its end.
        for _ in 0..u64::MAX {
            chunk.clear();
            if !source.fill(&mut chunk).map_err(Stop::Unreadable)? {
                break;
            }
            let items = feed_pieces(run, sink, &chunk, outlets)?;
            if fed.count(chunk.len(), items) {
                let symbols = fed.symbols;
                eprintln!(rt; "{symbols} symbols so far")?;
            }
            outlets.flush()?;
        }
        let (symbols, items, live) = (fed.symbols, fed.items, run.live_walks());
        self.tell(format_args!(
            "fed {symbols} symbols: {items} items handed over, {live} live walks"
        ))?;
        Ok(())
    }

    // Opens a run, feeds the input, finishes, and pours what is left.
    // Not inlined, so that a run takes stack only while it reads.
    #[inline(never)]
    pub(crate) fn read_into<W: Write + Drop>(
        &self,
        outlets: &mut Outlets<W>,
    ) -> Result<Finished, Stop> {
        let heap = self.rt.alloc();
        let mut source = Source::new(heap, open(self.rt, self.input)?, A::splitter(heap))?;
        let mut pair = bits_and_text(self.pattern, self.manner);
        let (mut run, opened) = Run::open(self.pattern, self.alphabet, &mut pair);
        let live = run.live_walks();
        self.tell(format_args!("opened: {opened} items handed over, {live} live walks"))?;
        let ended = match self.feed_all(&mut run, &mut pair, &mut source, outlets) {
            Ok(()) => run.finish(&mut pair).map_err(Stop::Refused),
            Err(Stop::Other(error)) => return Err(Stop::Other(error)),
            Err(stop) => Err(stop),
        };
        outlets.pour(&mut pair)?;
        outlets.flush()?;
        ended
    }

    // Tells how a reading ended, and what it left behind.
    pub(crate) fn tell_end<W: Write + Drop>(
        &self,
        ended: Result<Finished, Stop>,
        outlets: &Outlets<W>,
    ) -> Result<(), Failure> {
        let (rows, choices) = (outlets.row_count(), outlets.choice_count());
        match ended {
            Ok(finished) => {
                let (items, symbols) = (finished.items, finished.symbols);
                self.tell(format_args!("finished: {items} items, {symbols} symbols"))?;
                self.tell(format_args!(
                    "written: {rows} bytes of rows, {choices} bytes of choices"
                ))?;
                return Ok(());
            }
            Err(Stop::Refused(fault)) => self.tell(fault)?,
            Err(Stop::Unreadable(error)) => self.tell(format_args!("unreadable: {error}"))?,
            Err(Stop::Other(error)) => return Err(error.into()),
        }
        self.tell(format_args!(
            "left behind: {rows} bytes of rows, {choices} bytes of choices, up to where the reading stopped; the choices are not ended"
        ))?;
        Err(Failure::Refused)
    }

    // The command: where rows go (- is standard output) and where choices go.
    pub(crate) fn read(&self, rows: &str, choices: &str) -> Result<(), Failure> {
        let rows = Place::open(self.rt, rows)?;
        let choices = Place::open(self.rt, choices)?;
        let mut outlets = Outlets::new(self.rt.alloc(), rows, choices)?;
        let ended = self.read_into(&mut outlets);
        self.tell_end(ended, &outlets)
    }
}
