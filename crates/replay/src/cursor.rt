// How far a replay has come, and its next item.
ghost use Rattle.std.specs.Prelude.{◌≡◌, ◌≤◌, true, false, ◌↔◌, length, drop, replicate, if◌then◌else◌, Some};
ghost use Rattle.std.specs.Option.{unwrap_or};
ghost use Rattle.fault.specs.declared.cause.Cause.TheVariants.{NotAWalk};
ghost use Rattle.alphabet.specs.Items.{first_branch, second_branch};
ghost use Rattle.pattern.specs.Patterns.{points_of};
ghost use Rattle.point_set.specs.Members.{members, point_count};
ghost use Rattle.walk.specs.Graphs.{graph_of};
ghost use Rattle.replay.specs.Bits.{bits_of, Filling};
ghost use Rattle.replay.specs.Unread.{unread, bytes_in};
ghost use Rattle.replay.specs.Outcome.{placed};
ghost use Rattle.replay.specs.Stepping.{next_item, Hands};

use crate::bits::FiledBits;
use crate::played::Played;
use alphabet::Alphabet;
use alphabet::item::{END_MARK, FIRST, SECOND, read_item};
use fault::{Cause, Fault};
use pattern::Step;
use point_set::PointSet;
use sink::Sink;
use walk::Grammar;

// Where a replay stands.
#[derive(Drop)]
pub(crate) struct Cursor<'f> {
    bits: FiledBits<'f>,
    // The points met since the last read.
    met: PointSet,
    // The point at hand; none once the end mark is handed over.
    pub(crate) at: Option<u8>,
    // How many symbols are read.
    pub(crate) read: usize,
}

// The bits are no allowed walk: found after `read` symbols.
fn broken(read: usize) -> Fault
    ensures { result ≡ placed NotAWalk read }
{
    Fault::new(Cause::NotAWalk, read as u64)
}

// The item of a bit.
fn branch_item(bit: bool) -> u32
    ensures { result ≡ (if bit then second_branch else first_branch) }
{
    if bit { SECOND } else { FIRST }
}

// The branch that a bit takes.
fn branch(bit: bool, first: u8, second: u8) -> u8
    ensures { result ≡ (if bit then second else first) }
{
    if bit { second } else { first }
}

// The item of reading the symbol after the first `read`, if there is one and it belongs to the class.
fn next_item<L: Alphabet>(
    alphabet: &L,
    class: u16,
    symbols: &[L::Symbol],
    read: usize,
) -> Result<u32, Fault>
    ensures { result ≡ next_item (L.meaning alphabet.now) class (drop read symbols.now) read }
{
    let symbol = symbols.get(read).ok_or(broken(read))?;
    read_item(alphabet, u32::from(class), symbol).ok_or(broken(read))
}

// Hands an item over after so many symbols. A refusal keeps its cause; its place is their count.
fn hand<S: Sink>(sink: &mut S, item: u32, after: usize) -> Result<(), Fault>
    ensures { Hands S.meaning (S.position sink.old) (S.stock sink.old) item after result (S.position sink.new) (S.stock sink.new) }
{
    sink.take(item).map_err(|fault| fault.at(after as u64))
}

impl<'f> Cursor<'f> {
    ghost use Rattle.replay.specs.Playing.{stand, Plays, Steps};

    // A cursor that has read nothing, at this point.
    pub(crate) fn new(filed: &'f [u8], point: u8) -> Cursor<'f>
        ensures bits { unread result.bits ≡ bits_of filed.now }
        ensures bytes { bytes_in result.bits ≡ filed.now }
        ensures met { members result.met ≡ replicate point_count false }
        ensures at { result.at ≡ Some point }
        ensures read { result.read ≡ 0 }
    {
        Cursor {
            bits: FiledBits::new(filed),
            met: PointSet::new(),
            at: Some(point),
            read: 0,
        }
    }

    // Whether nothing is left at the end point: no symbol of the count, and no bits but the filling of the last byte.
    fn has_nothing_left(&self, count: usize) -> bool
        ensures { (result ≡ true) ↔ ((count ≤ self.now.read) × Filling (unread self.now.bits)) }
    {
        self.read >= count && self.bits.is_filling()
    }

    // Works the point at hand; none where it is passed freely. The item is handed over before anything changes.
    #[inline(always)]
    fn step<L: Alphabet, S: Sink>(
        &mut self,
        here: u8,
        grammar: &Grammar<'_, L>,
        symbols: &[L::Symbol],
        sink: &mut S,
    ) -> Result<Option<Played>, Fault>
        requires at { self.old.at ≡ Some here }
        requires here { here ≤ length (points_of grammar.now.pattern.now) }
        ensures steps { Steps (L.Alphabet.meaning grammar.now.alphabet.now) (graph_of grammar.now.pattern.now) S.Sink.meaning (stand grammar.now.pattern.now self.old symbols.now) (S.Sink.position sink.old) (S.Sink.stock sink.old) result (stand grammar.now.pattern.now self.new symbols.now) (S.Sink.position sink.new) (S.Sink.stock sink.new) }
        ensures here { unwrap_or self.new.at 0 ≤ length (points_of grammar.now.pattern.now) }
        ensures bytes { bytes_in self.new.bits ≡ bytes_in self.old.bits }
    {
        let read = self.read;
        if self.met.contains(here) {
            return Err(broken(read));
        }
        match grammar.pattern.step(here) {
            Step::Pass { next } => {
                self.met.insert(here);
                self.at = Some(next);
                Ok(None)
            }
            Step::Fork { first, second } => {
                let mut bits = self.bits;
                let Some(bit) = bits.next() else {
                    return Err(broken(read));
                };
                hand(sink, branch_item(bit), read)?;
                self.bits = bits;
                self.met.insert(here);
                self.at = Some(branch(bit, first, second));
                Ok(Some(Played::Branch {
                    point: here,
                    second: bit,
                }))
            }
            Step::Read { class, next } => {
                let item = next_item(grammar.alphabet, class, symbols, read)?;
                hand(sink, item, read)?;
                self.met.clear();
                self.read = read + 1;
                self.at = Some(next);
                Ok(Some(Played::Read { point: here }))
            }
            Step::End => {
                if !self.has_nothing_left(symbols.len()) {
                    return Err(broken(read));
                }
                hand(sink, END_MARK, read)?;
                self.at = None;
                Ok(Some(Played::End))
            }
        }
    }

    // Works points up to the next item, and tells what that was; none once the end mark is handed over.
    #[inline(always)]
    pub(crate) fn play_on<L: Alphabet, S: Sink>(
        &mut self,
        grammar: &Grammar<'_, L>,
        symbols: &[L::Symbol],
        sink: &mut S,
    ) -> Result<Option<Played>, Fault>
        requires here { unwrap_or self.old.at 0 ≤ length (points_of grammar.now.pattern.now) }
        ensures plays { Plays (L.Alphabet.meaning grammar.now.alphabet.now) (graph_of grammar.now.pattern.now) S.Sink.meaning (stand grammar.now.pattern.now self.old symbols.now) (S.Sink.position sink.old) (S.Sink.stock sink.old) result (stand grammar.now.pattern.now self.new symbols.now) (S.Sink.position sink.new) (S.Sink.stock sink.new) }
        ensures here { unwrap_or self.new.at 0 ≤ length (points_of grammar.now.pattern.now) }
        ensures bytes { bytes_in self.new.bits ≡ bytes_in self.old.bits }
    {
        while let Some(here) = self.at {
            if let Some(played) = self.step(here, grammar, symbols, sink)? {
                return Ok(Some(played));
            }
        }
        Ok(None)
    }
}
