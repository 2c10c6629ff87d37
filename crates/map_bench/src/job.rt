//! What is asked for.

ghost use Rattle.std.specs.Prelude.{◌≡◌, ◌+◌, ◌*◌, ◌≤◌, ◌^◌};

/// How many pairs have the same key where pairs are merged. bench/map.cpp has the same.
pub const PAIRS_OF_KEY: u32 = 7;

/// By which call pairs are stored.
#[derive(Clone, Copy, Debug, PartialEq, Eq)]
pub enum Call {
    /// Each pair has a key of its own.
    Insert,
    /// Pairs of the same key are summed up.
    Merge,
}

impl Call {
    /// How many keys so many pairs have.
    pub fn keys_of(self, count: u32) -> u32
        ensures some { 1 ≤ count → 1 ≤ result }
        ensures most { result ≤ count }
    {
        match self {
            Call::Insert => count,
            Call::Merge => count.div_ceil(PAIRS_OF_KEY),
        }
    }
}

/// How far a run goes.
#[derive(Clone, Copy, Debug, PartialEq, Eq)]
pub enum Stage {
    Dealt,
    Stored,
    Found,
}

/// Which map it is.
#[derive(Clone, Copy, Debug, PartialEq, Eq)]
pub enum Which {
    Ranked,
    Std,
}

/// What a run does, of a size that a map can have.
#[derive(Clone, Copy, Debug)]
pub struct Job {
    pub which: Which,
    pub call: Call,
    pub stage: Stage,
    /// How many pairs are stored.
    pub count: u32,
    pub ranks: u32,
    /// How many buckets each rank has.
    pub per_rank: u32,
    ghost ranked: { (1 ≤ ranks) × (ranks ≤ 64) },
    ghost some: { 1 ≤ per_rank },
    ghost few: { ranks * per_rank * 3 ≤ 2 ^ 27 },
}

impl Job {
    /// What three words ask for: a mode, a count of pairs and a number of ranks. `None` where one of them is no such
    /// thing, or the map would have more than 2^27 words.
    pub fn of_words(mode: &str, count: &str, ranks: &str) -> Option<Job> {
        let (which, mode) = match mode.strip_prefix("std-") {
            Some(mode) => (Which::Std, mode),
            None => (Which::Ranked, mode),
        };
        let (call, stage) = match mode {
            "keys" => (Call::Insert, Stage::Dealt),
            "insert" => (Call::Insert, Stage::Stored),
            "find" => (Call::Insert, Stage::Found),
            "pairs" => (Call::Merge, Stage::Dealt),
            "merge" => (Call::Merge, Stage::Stored),
            "total" => (Call::Merge, Stage::Found),
            _ => return None,
        };
        Job::sized(which, call, stage, count.parse().ok()?, ranks.parse().ok()?)
    }

    // With two buckets for each key.
    fn sized(which: Which, call: Call, stage: Stage, count: u32, ranks: u32) -> Option<Job> {
        if ranks == 0 || ranks > 64 || count == 0 || count > 1 << 27 {
            return None;
        }
        let per_rank = (2 * call.keys_of(count)).div_ceil(ranks);
        if u64::from(ranks) * u64::from(per_rank) * 3 > 1 << 27 {
            return None;
        }
        Some(Job {
            which,
            call,
            stage,
            count,
            ranks,
            per_rank,
        })
    }
}
