// A set of point numbers from 0 to 255: a bit for each, in four words.
ghost use Rattle.std.specs.Prelude.{◌≡◌, length, true, false, replicate, slice_index_or, slice_set};

const WORDS: usize = 4;

#[derive(Clone, Copy)]
pub struct PointSet {
    words: [u64; WORDS],
    // Where clauses speak of a set, the type of its words does not tell their number.
    ghost whole: { length words ≡ 4 },
}

impl PointSet {
    ghost use Rattle.point_set.specs.Flags.{tally};
    ghost use Rattle.point_set.specs.Members.{members, point_count};

    // The set of no point.
    pub fn new() -> PointSet
        ensures { members result ≡ replicate point_count false }
    {
        PointSet { words: [0; WORDS] }
    }

    // Takes every point out.
    pub fn clear(&mut self)
        ensures { members self.new ≡ replicate point_count false }
    {
        self.words = [0; WORDS];
    }

    // Whether the point is in the set.
    pub fn contains(&self, point: u8) -> bool
        ensures { result ≡ slice_index_or (members self.now) point false }
    {
        let word = self.words[(point / 64) as usize];
        (word >> (point % 64)) & 1 == 1
    }

    // Puts the point in; the others stand.
    pub fn insert(&mut self, point: u8)
        ensures { members self.new ≡ slice_set (members self.old) point true }
    {
        let at = (point / 64) as usize;
        self.words[at] |= 1 << (point % 64);
    }

    // How many points it has: a count of ones.
    pub fn count(&self) -> u32
        ensures { result ≡ tally (members self.now) }
    {
        let mut n = 0;
        for word in &self.words {
            n += word.count_ones();
        }
        n
    }
}
