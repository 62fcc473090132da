// Filed choices read again.
use crate::list::List;
use crate::out::{Outlets, Place};
use crate::source::open;
use crate::stop::Stop;
use crate::symbols::Readable;
use crate::words::bytes_of;
use console::{Failure, bits_and_text};
use fault::{Cause, Fault};
use replay::Playback;
use sink::Sink;
use std::io::Write;
use std::rt::Files;

// What a replay came to: how many items and symbols.
#[derive(Clone, Copy)]
pub(crate) struct Replayed {
    pub(crate) items: u64,
    pub(crate) symbols: usize,
}

// Plays to the end or to a refusal; answers how many items were handed over. A full stock is poured, and the item taken then.
fn play<A: Readable, K: Sink, W: Write + Drop>(
    playback: &mut Playback<'_, A>,
    sink: &mut K,
    outlets: &mut Outlets<W>,
) -> Result<u64, Stop> {
    let mut items: u64 = 0;
    // Symbols and choices bound the items, but no number does: this is the language's loop to an end.
    for _ in 0..u64::MAX {
        match playback.next(sink) {
            Ok(Some(_)) => items = items.saturating_add(1),
            Ok(None) => break,
            Err(fault) => {
                if fault.cause != Cause::ChannelFull || outlets.pour(sink)? == 0 {
                    return Err(Stop::Refused(fault));
                }
                outlets.flush()?;
            }
        }
    }
    Ok(items)
}

impl<R: Files + Input + Print + Eprint + AllocGlobal, A: Readable> List<'_, R, A>
where
    A::Symbol: Drop,
{
    // Replays the choices over the input, and writes the rows.
    // Not inlined, so that it takes no stack beside a reading.
    #[inline(never)]
    pub(crate) fn replay_into<W: Write + Drop>(
        &self,
        choices: &[u8],
        outlets: &mut Outlets<W>,
    ) -> Result<Replayed, Stop> {
        let symbols = A::all(self.rt.alloc(), self.input, open(self.rt, self.input)?)?;
        let mut pair = bits_and_text(self.pattern, self.manner);
        let mut playback = Playback::open(self.pattern, self.alphabet, choices, &symbols)?;
        let played = match play(&mut playback, &mut pair, outlets) {
            Err(Stop::Other(error)) => return Err(Stop::Other(error)),
            played => played,
        };
        outlets.pour(&mut pair)?;
        outlets.flush()?;
        Ok(Replayed {
            items: played?,
            symbols: playback.read(),
        })
    }

    // Tells what a replay came to, and what it left behind.
    pub(crate) fn tell_replay<W: Write + Drop>(
        &self,
        ended: Result<Replayed, Stop>,
        outlets: &Outlets<W>,
    ) -> Result<(), Failure> {
        let rows = outlets.row_count();
        match ended {
            Ok(replayed) => {
                let (items, symbols) = (replayed.items, replayed.symbols);
                self.tell(format_args!(
                    "replayed: {items} items, {symbols} symbols, {rows} bytes of rows"
                ))?;
                Ok(())
            }
            Err(Stop::Refused(fault)) => {
                self.tell(fault)?;
                self.tell(format_args!(
                    "left behind: {rows} bytes of rows, up to where the replay stopped"
                ))?;
                Err(Failure::Refused)
            }
            Err(Stop::Unreadable(error) | Stop::Other(error)) => Err(error.into()),
        }
    }

    // The command: the filed choices, and where rows go (- is standard output).
    pub(crate) fn replay(&self, choices: &str, rows: &str) -> Result<(), Failure> {
        let filed = bytes_of(self.rt, choices)?;
        let rows = Place::open(self.rt, rows)?;
        let mut outlets = Outlets::new(self.rt.alloc(), rows, Place::Nowhere)?;
        let ended = self.replay_into(&filed, &mut outlets);
        self.tell_replay(ended, &outlets)
    }
}
