// Why the rows of a reading came out as they did: each choice of the greedy walk, in order.
use crate::list::List;
use crate::out::{Outlets, Place};
use crate::source::open;
use crate::symbols::Readable;
use console::{Failure, Quoted, pour_behind, told};
use pattern::{Pattern, Point};
use replay::{Playback, Played};
use sink::STOCK_BYTES;
use std::alloc::Global;
use std::io;
use std::rt::Files;
use text::Text;

// Where in an input: after so many symbols, in which line and column, each from 1.
#[derive(Clone, Copy)]
struct Position {
    read: usize,
    line: u64,
    column: u64,
}

impl Position {
    // Goes past the next of the symbols, if there is one.
    fn pass_in<A: Readable>(&mut self, symbols: &[A::Symbol]) {
        let Some(symbol) = symbols.get(self.read) else {
            return;
        };
        self.read = self.read.saturating_add(1);
        if A::ends_line(symbol) {
            self.line = self.line.saturating_add(1);
            self.column = 1;
        } else {
            self.column = self.column.saturating_add(1);
        }
    }
}

// A choice: the point and the branch.
#[derive(Clone, Copy, PartialEq, Eq)]
struct Choice {
    point: u8,
    second: bool,
}

// Like choices in a row: how many choices came before, how many these are, where the first and the last was taken,
// and what was written up to the next choice.
#[derive(Drop)]
struct Group {
    choice: Option<Choice>,
    before: u64,
    count: u64,
    first: Position,
    last: Position,
    text: Vec<u8>,
}

// The branch in words.
fn branch_words(pattern: &Pattern, choice: Choice) -> &'static str {
    match (pattern.point(choice.point), choice.second) {
        (Some(Point::Star { .. }), false) => "star: another round",
        (Some(Point::Star { .. }), true) => "star: on",
        (_, false) => "choice: first branch",
        (_, true) => "choice: second branch",
    }
}

impl Group {
    fn new(heap: Global) -> Group {
        let start = Position {
            read: 0,
            line: 1,
            column: 1,
        };
        Group {
            choice: None,
            before: 0,
            count: 0,
            first: start,
            last: start,
            text: Vec::new(heap),
        }
    }

    // One more of the same choice, taken there; false where it is another choice.
    fn goes_on(&mut self, choice: Choice, place: Position) -> bool {
        if self.choice != Some(choice) {
            return false;
        }
        self.count = self.count.saturating_add(1);
        self.last = place;
        true
    }

    // Begins with this choice, taken there.
    fn begin(&mut self, choice: Choice, place: Position) {
        self.before = self.before.saturating_add(self.count);
        self.choice = Some(choice);
        self.count = 1;
        self.first = place;
        self.last = place;
        self.text.clear();
    }

    // Prints where the choices were taken, which they are, counted from 1, and which point and branch.
    fn print_choice(&self, rt: &impl Print, pattern: &Pattern, choice: Choice) -> io::Result<()> {
        let first = self.before.saturating_add(1);
        let last = self.before.saturating_add(self.count);
        let (line, column) = (self.first.line, self.first.column);
        print!(rt; "{line}:{column}")?;
        if self.count == 1 {
            print!(rt; " choice {first}")?;
        } else {
            let (line, column) = (self.last.line, self.last.column);
            print!(rt; " to {line}:{column} choices {first} to {last}")?;
        }
        let (point, words) = (choice.point, branch_words(pattern, choice));
        print!(rt; " at point {point}, {words}")
    }

    // Prints the choices, the line ahead of the first, and what was written.
    fn print<A: Readable>(
        &self,
        rt: &impl Print,
        pattern: &Pattern,
        symbols: &[A::Symbol],
    ) -> io::Result<()> {
        if let Some(choice) = self.choice {
            self.print_choice(rt, pattern, choice)?;
            if let Some(rest) = symbols.get(self.first.read..) {
                print!(rt; ", before ")?;
                A::print_line(rt, rest)?;
            }
            println!(rt; "")?;
        }
        if self.text.is_empty() {
            return Ok(());
        }
        println!(rt; "    writes {}", Quoted(&self.text))
    }
}

impl<R: Files + Input + Print + Eprint + AllocGlobal, A: Readable> List<'_, R, A>
where
    A::Symbol: Drop,
{
    // Follows the choices over the symbols, and prints each.
    fn follow(&self, choices: &[u8], symbols: &[A::Symbol]) -> Result<(), Failure> {
        let (rt, pattern) = (self.rt, self.pattern);
        let mut sink = Text::new(pattern, self.manner);
        let mut playback = told(rt, Playback::open(pattern, self.alphabet, choices, symbols))?;
        let mut buffer = vec![in rt.alloc(); 0u8; STOCK_BYTES]?;
        let mut group = Group::new(rt.alloc());
        let mut place = group.first;
        // Symbols and choices bound the items, but no number does: this is the language's loop to an end.
        for _ in 0..u64::MAX {
            let Some(played) = told(rt, playback.next(&mut sink))? else {
                break;
            };
            pour_behind(&mut sink, 0, &mut buffer, &mut group.text)?;
            match played {
                Played::Branch { point, second } => {
                    let choice = Choice { point, second };
                    if !group.goes_on(choice, place) {
                        group.print::<A>(rt, pattern, symbols)?;
                        group.begin(choice, place);
                    }
                }
                Played::Read { point: _ } => place.pass_in::<A>(symbols),
                Played::End => {}
            }
        }
        group.print::<A>(rt, pattern, symbols)?;
        let (count, read) = (group.before.saturating_add(group.count), place.read);
        println!(rt; "{count} choices over {read} symbols")?;
        Ok(())
    }

    // The command.
    pub(crate) fn explain(&self) -> Result<(), Failure> {
        let heap = self.rt.alloc();
        let mut outlets: Outlets<R::File> = Outlets::new(heap, Place::Nowhere, Place::Memory)?;
        let ended = self.read_into(&mut outlets);
        self.tell_end(ended, &outlets)?;
        let symbols = A::all(heap, self.input, open(self.rt, self.input)?)?;
        self.follow(outlets.choices(), &symbols)
    }
}
