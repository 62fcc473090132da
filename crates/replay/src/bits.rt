// The bits of filed bytes, the highest bit of a byte first.
ghost use Rattle.std.specs.Prelude.{⊤, ◌≡◌, ◌≤◌, true, false, ◌↔◌, length};
ghost use Rattle.std.specs.Iterator.{YieldsFirst, item_count, MakesProgress};
ghost use Rattle.std.specs.List.{All};
ghost use Rattle.replay.specs.Bits.{bits_of, most_filling};

// The most bits that a byte is filled with.
const MOST_FILLING: usize = 7;

// Reads filed bytes bit by bit.
#[derive(Clone, Copy)]
pub(crate) struct FiledBits<'f> {
    bytes: &'f [u8],
    next: usize,
    // What is left of the byte before `next`, moved up, and how many bits that are.
    current: u8,
    left: u8,
}

impl<'f> FiledBits<'f> {
    ghost use Rattle.replay.specs.Unread.{unread, bytes_in};

    #[tactic(auto, unfolding(crate::specs::Bits::highest))]
    pub(crate) fn new(bytes: &'f [u8]) -> FiledBits<'f>
        ensures bits { unread result ≡ bits_of bytes.now }
        ensures bytes { bytes_in result ≡ bytes.now }
    {
        FiledBits {
            bytes,
            next: 0,
            current: 0,
            left: 0,
        }
    }

    // Whether fewer than eight bits are left, and no 1 among them.
    pub(crate) fn is_filling(mut self) -> bool
        ensures { (result ≡ true) ↔ ((length (unread self.entry) ≤ most_filling) × All (λ b. b ≡ false) (unread self.entry)) }
    {
        self.take(MOST_FILLING + 1).count() <= MOST_FILLING && self.all(|bit| !bit)
    }
}

impl<'f> Iterator for FiledBits<'f> {
    ghost use Rattle.replay.specs.Unread.{unread, bytes_in};

    type Item = bool;

    ghost next_gives = { YieldsFirst unread };

    ghost remaining = { item_count unread };

    fn next(&mut self) -> Option<bool>
        ensures steps { YieldsFirst unread self.old result self.new }
        ensures goes { MakesProgress (λ _. ⊤) (item_count unread) self.old result self.new }
        ensures bytes { bytes_in self.new ≡ bytes_in self.old }
    {
        if self.left == 0 {
            self.current = *self.bytes.get(self.next)?;
            self.next += 1;
            self.left = 8;
        }
        let bit = self.current > 127;
        self.current = self.current % 128 * 2;
        self.left -= 1;
        Some(bit)
    }
}
