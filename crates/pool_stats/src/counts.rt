//! The counts of a journal, also as eight words.

/// The counts of a journal.
#[derive(Clone, Copy, Debug, PartialEq, Eq)]
pub struct Counts {
    /// The number of entries.
    pub steps: u64,
    /// The number of objects that are idle or under an idle test.
    pub idle: u64,
    /// The number of lent objects.
    pub lent: u64,
    /// The number of objects that are being made, activated, returned or destroyed.
    pub reserved: u64,
    /// The number of objects that were to be made, including those whose making failed.
    pub created: u64,
    /// The number of places that were freed after the object was destroyed or could not be made.
    pub destroyed: u64,
    /// The number of idle objects that an eviction run was to destroy, for their idle time or for a failed test.
    pub evicted: u64,
    /// The number of abandoned objects that were reclaimed.
    pub reclaimed: u64,
}

impl Counts {
    ghost use Rattle.std.specs.Prelude.{◌≡◌};
    ghost use Rattle.pool_stats.specs.Words.{words_of};

    /// Returns the eight numbers, in the order of the fields.
    pub fn to_words(&self) -> [u64; 8]
        ensures { result ≡ words_of self.now }
    {
        [
            self.steps,
            self.idle,
            self.lent,
            self.reserved,
            self.created,
            self.destroyed,
            self.evicted,
            self.reclaimed,
        ]
    }

    /// Returns the counts with these numbers, given in the order of the fields.
    pub fn from_words(words: [u64; 8]) -> Counts
        ensures { words_of result ≡ words }
    {
        Counts {
            steps: words[0],
            idle: words[1],
            lent: words[2],
            reserved: words[3],
            created: words[4],
            destroyed: words[5],
            evicted: words[6],
            reclaimed: words[7],
        }
    }
}
