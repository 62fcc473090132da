// The reader of pattern files.
ghost use Rattle.std.specs.Prelude.{ℕ, List};
ghost use Rattle.pattern.specs.Expressions.{Expr};
ghost use Rattle.pattern.specs.Files.{effect, decoded, given, reading, texting};
ghost use Rattle.pattern.specs.Numbers.{number};
ghost use Rattle.pattern.specs.Drafts.{Holds};
ghost use Rattle.pattern.specs.Loading.{Taken, Works};
ghost use Rattle.pattern.specs.Patterns.{Loaded};

use super::Pattern;
use super::draft::Draft;
use crate::limits::FILE_BYTES;
use crate::number::read_number;
use crate::operation::Operation;
use fault::{Cause, Fault};

// A file while it is read: what stands, the bytes that are still unread, and the place of the operation that is worked.
#[derive(Drop)]
struct Loader<'a> {
    draft: Draft,
    rest: &'a [u8],
    place: u64,
}

impl Loader<'_> {
    // Takes the next number.
    fn number(&mut self) -> Option<u16>
        ensures { Taken (number self.old.rest.now) self.old self.new result }
    {
        let number = read_number(self.rest, 0)?;
        self.rest = &self.rest[number.next..];
        Some(number.value)
    }

    // A read: its class comes next.
    fn read(&mut self, keep: bool) -> Result<(), Fault>
        ensures { (n : ℕ) (es : List Expr) → Holds self.old.draft es → Works n (given (number self.old.rest.now) (reading keep n es)) self.old self.new result }
    {
        let Some(class) = self.number() else {
            return Err(Fault::new(Cause::UnreadableNumber, self.place));
        };
        self.draft.read(self.place, keep, class)
    }

    // A text: its length and its bytes come next.
    fn text(&mut self) -> Result<(), Fault>
        ensures { (n : ℕ) (es : List Expr) → Holds self.old.draft es → Works n (given (number self.old.rest.now) (texting n self.old.rest.now es)) self.old self.new result }
    {
        let Some(length) = self.number() else {
            return Err(Fault::new(Cause::UnreadableNumber, self.place));
        };
        let Some((bytes, rest)) = self.rest.split_at_checked(usize::from(length)) else {
            return Err(Fault::new(Cause::Malformed, self.place));
        };
        self.rest = rest;
        self.draft.text(self.place, bytes)
    }

    // Works the next operation.
    fn operate(&mut self) -> Result<(), Fault>
        ensures { (es : List Expr) → Holds self.old.draft es → Works 0 (effect self.old.rest.now es) self.old self.new result }
    {
        let Some(code) = self.number() else {
            return Err(Fault::new(Cause::UnreadableNumber, self.place));
        };
        let Ok(operation) = Operation::try_from(code) else {
            return Err(Fault::new(Cause::Malformed, self.place));
        };
        match operation {
            Operation::Empty => self.draft.empty(self.place),
            Operation::Drops => self.read(false),
            Operation::Keeps => self.read(true),
            Operation::Text => self.text(),
            Operation::Sequence => self.draft.sequence(self.place),
            Operation::Choice => self.draft.choice(self.place),
            Operation::Star => self.draft.star(self.place),
        }
    }
}

impl Pattern {
    // Replaces the pattern by that of the file, or refuses the file and leaves the pattern as it was.
    pub fn load(&mut self, file: &[u8]) -> Result<(), Fault>
        ensures { Loaded (decoded file.now) result self.old self.new }
    {
        if file.len() > FILE_BYTES {
            return Err(Fault::new(Cause::PatternLimit, 0));
        }
        let mut loader = Loader {
            draft: Draft::new(),
            rest: file,
            place: 0,
        };
        while !loader.rest.is_empty() {
            loader.place = (file.len() - loader.rest.len()) as u64;
            loader.operate()?;
        }
        *self = loader.draft.into_pattern(file.len() as u64)?;
        Ok(())
    }
}
