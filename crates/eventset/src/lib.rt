// Sets of events as the bits of two unsigned words.
#![tactic(auto)]

ghost use Rattle.std.specs.Prelude.{◌≡◌, ◌<◌};
ghost use Rattle.std.specs.Int.Count.{ones, count_trailing_zeros};
ghost use Rattle.eventset.specs.Sets.{word_width, set_width, bits_of, member, put_in};

use widths::Number;

// The bits of a word.
const WORD: usize = 64;

// The events below WORD are bits of the low word, those from there on of the high one.
#[derive(Clone, Copy)]
pub struct EventSet {
    pub low: u64,
    pub high: u64,
}

// ---- one word

fn word_put(w: u64, e: usize) -> u64
    requires { e < word_width }
    ensures { result ≡ put_in w e }
{
    w | (1u64 << e)
}

fn word_has(w: u64, e: usize) -> bool
    requires { e < word_width }
    ensures { result ≡ member w e }
{
    (w >> e) % 2 == 1
}

// ---- the set

impl EventSet {
    pub fn empty() -> EventSet
        ensures { bits_of result ≡ 0 }
    {
        EventSet { low: 0, high: 0 }
    }

    // The set with e, whether it had it or not.
    pub fn put(self, e: usize) -> EventSet
        requires { e < set_width }
        ensures { bits_of result ≡ put_in (bits_of self) e }
    {
        if e < WORD {
            return EventSet {
                low: word_put(self.low, e),
                high: self.high,
            };
        }
        EventSet {
            low: self.low,
            high: word_put(self.high, e - WORD),
        }
    }

    pub fn has(self, e: usize) -> bool
        requires { e < set_width }
        ensures { result ≡ member (bits_of self) e }
    {
        if e < WORD {
            return word_has(self.low, e);
        }
        word_has(self.high, e - WORD)
    }

    // How many are in it.
    pub fn count(self) -> usize
        ensures { result ≡ ones (bits_of self) }
    {
        self.low.count_ones().number() + self.high.count_ones().number()
    }

    // The least that is in it; the width for the empty set.
    pub fn lowest(self) -> usize
        ensures { result ≡ count_trailing_zeros set_width (bits_of self) }
    {
        let low = self.low.trailing_zeros().number();
        if low < WORD {
            return low;
        }
        WORD + self.high.trailing_zeros().number()
    }
}
