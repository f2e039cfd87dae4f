//! The sizes of a room.

/// The sizes of a room.
#[derive(Clone, Copy, Debug, PartialEq, Eq)]
pub struct Config {
    /// Threads, and so passes: 1 to 64.
    pub threads: u32,
    /// Slots for global and weak global references: 1 to 65,536.
    pub slots: u32,
    /// Objects: 1 to 65,535.
    pub objects: u32,
    /// Words of array space: 0 to 1,048,576.
    pub words: u32,
    /// Places for local references of each thread: 16 to 4,096.
    pub locals: u32,
}

impl Config {
    /// The most threads of a room.
    pub const MOST_THREADS: u32 = 64;

    /// The most slots of a room.
    pub const MOST_SLOTS: u32 = 65_536;

    /// The most objects of a room.
    pub const MOST_OBJECTS: u32 = 65_535;

    /// The most words of a room's array space.
    pub const MOST_WORDS: u32 = 1_048_576;

    /// The fewest places for local references of a thread.
    pub const LEAST_LOCALS: u32 = 16;

    /// The most places for local references of a thread.
    pub const MOST_LOCALS: u32 = 4_096;

    /// The least sizes of a room: one thread, one slot, one object and no array space. Its row has 20 words.
    pub const LEAST: Config = Config {
        threads: 1,
        slots: 1,
        objects: 1,
        words: 0,
        locals: Self::LEAST_LOCALS,
    };

    ghost use Rattle.std.specs.Prelude.{◌≡◌, true};
    ghost use Rattle.jr_word.specs.Config.{in_limits, row_words};

    /// Whether the sizes are within the limits.
    pub fn in_limits(&self) -> bool
        ensures { result ≡ in_limits self.now }
    {
        (1..=Self::MOST_THREADS).contains(&self.threads)
            && (1..=Self::MOST_SLOTS).contains(&self.slots)
            && (1..=Self::MOST_OBJECTS).contains(&self.objects)
            && self.words <= Self::MOST_WORDS
            && (Self::LEAST_LOCALS..=Self::MOST_LOCALS).contains(&self.locals)
    }

    /// How many words the row of a room has: the gate, the top, a word for each slot, for each place of each thread and for each object's header, and the element words.
    /// The sizes have to be within the limits.
    pub fn row_words(&self) -> usize
        requires { in_limits self.now ≡ true }
        ensures { result ≡ row_words self.now }
    {
        let locals = self.threads as usize * self.locals as usize;
        2 + self.slots as usize + locals + self.objects as usize + self.words as usize
    }
}
