// Closed distances in code: STRIDE rows of STRIDE signed entries, of which the first `events` rows and columns are in use.
#![tactic(auto)]

ghost use Rattle.std.specs.Prelude.{◌≡◌, ◌*◌, ◌≤◌, ◌<◌, pos, ◌+ℤ◌};
ghost use Rattle.meaning.specs.Distances.{added, horizon_only, outermost};
ghost use Rattle.meaning.specs.Plan.{most_horizon};
ghost use Rattle.distances.specs.Matrix.{stride, at, blank, meeting, Starting, Started, Beside, Adding, Changed, Added, Narrowing, Narrowed, Timing};
ghost use Rattle.distances.specs.Sweep.{Swept};
ghost use Rattle.distances.specs.Rows.{Lowering, Inserting, lowered};

use scope::Side;
use widths::{Number, Width};

const STRIDE: usize = scope::MOST_EVENTS;

const ENTRIES: usize = STRIDE * STRIDE;

// Entry i * STRIDE + j, in row i and column j, bounds t(j) − t(i) from above.
// Loops write entries by index: after `iter_mut` over a part of a slice a proof knows how many there are, and no entry.
// The entries come first: so the parts of a row that are lowered at once begin at multiples of their size.
#[derive(Drop)]
pub struct Matrix {
    pub entries: [i32; ENTRIES],
    pub events: usize,
}

// What row i and column j hold where only the horizon h is known.
#[tactic(auto, unfolding(meaning::specs::Distances::horizon_only))]
fn start_value(i: usize, j: usize, h: u32) -> i32
    requires { h ≤ most_horizon }
    ensures { result ≡ horizon_only h i j }
{
    if j == 0 || i == j {
        return 0;
    }
    i32::of(h.number())
}

impl Matrix {
    // Nothing is known yet.
    pub fn none() -> Matrix
        ensures { (result.events ≡ 0) × (result.entries ≡ blank) }
    {
        Matrix {
            events: 0,
            entries: [0; ENTRIES],
        }
    }

    // All timetables of n events within the horizon h.
    pub fn start(&mut self, n: usize, h: u32)
        requires { Starting n h }
        ensures sized { self.new.events ≡ n }
        ensures started { Started n h self.new.entries × Beside n self.old.entries self.new.entries }
    {
        self.events = n;
        for i in 0..n {
            self.start_row(i, h);
        }
    }

    // Row i where only the horizon h is known.
    fn start_row(&mut self, i: usize, h: u32)
        requires { Starting self.old.events h × (i < self.old.events) }
        ensures same_events { self.new.events ≡ self.old.events }
        ensures written { Swept (pos 0) self.old.entries self.new.entries (i * stride) self.old.events (horizon_only h i) }
    {
        for j in 0..self.events {
            self.entries[i * STRIDE + j] = start_value(i, j, h);
        }
    }

    // The entry in row i and column j.
    pub fn distance(&self, i: usize, j: usize) -> i32
        requires { (i < stride) × (j < stride) }
        ensures { result ≡ at self.now.entries i j }
    {
        let place = i * STRIDE + j;
        self.entries[place]
    }

    // Row i is lowered: base + via[j] in column j, where that is less. Straight-line, so that it runs over many columns at once.
    fn lower_row(&mut self, i: usize, via: &[i32], base: i32)
        requires { Lowering i self.old.events via.now base }
        ensures same_events { self.new.events ≡ self.old.events }
        ensures written { Swept (pos 0) self.old.entries self.new.entries (i * stride) self.old.events
            (lowered self.old.entries i via.now base) }
    {
        for j in 0..self.events {
            self.entries[i * STRIDE + j] = self.distance(i, j).min(base + via[j]);
        }
    }

    // Row i with the bound from a to b of weight w; via is row b. A row that needs no change is passed over.
    fn insert_row(&mut self, i: usize, a: usize, b: usize, w: i32, via: &[i32])
        requires { Inserting self.old.entries i self.old.events a b w via.now }
        ensures same_events { self.new.events ≡ self.old.events }
        ensures written { Swept (pos 0) self.old.entries self.new.entries (i * stride) self.old.events
            (lowered self.old.entries i via.now (at self.old.entries i a +ℤ w)) }
    {
        let s = self.distance(i, a) + w;
        if s < self.distance(i, b) {
            self.lower_row(i, via, s);
        }
    }

    // The bound from a to b of weight w is added to every row. Not inlined: where it was, its loops had to share the registers with those of its callers.
    #[inline(never)]
    fn insert(&mut self, a: usize, b: usize, w: i32)
        requires { Adding self.old.events a b w self.old.entries }
        ensures same_events { self.new.events ≡ self.old.events }
        ensures changed { Changed self.old.events self.old.events self.old.entries self.new.entries (added (at self.old.entries) a b w) }
    {
        let n = self.events;
        let mut via = [0; STRIDE];
        via[..n].copy_from_slice(&self.entries[b * STRIDE..b * STRIDE + n]);
        for i in 0..n {
            self.insert_row(i, a, b, w, &via);
        }
    }

    // The same; a bound that the matrix keeps already changes no row, and most do not once a plan is narrow.
    fn tighten(&mut self, a: usize, b: usize, w: i32)
        requires { Adding self.old.events a b w self.old.entries }
        ensures same_events { self.new.events ≡ self.old.events }
        ensures changed { Changed self.old.events self.old.events self.old.entries self.new.entries (added (at self.old.entries) a b w) }
    {
        if w < self.distance(a, b) {
            self.insert(a, b, w);
        }
    }

    // One more bound, t(b) − t(a) ≤ w; false, and nothing is written, where it leaves no timetable.
    pub fn add(&mut self, a: usize, b: usize, w: i32) -> bool
        requires { Adding self.old.events a b w self.old.entries }
        ensures same_events { self.new.events ≡ self.old.events }
        ensures answered { Added self.old.events a b w self.old.entries self.new.entries result }
    {
        let left = 0 <= self.distance(b, a) + w;
        if left {
            self.tighten(a, b, w);
        }
        left
    }

    // Whether the run lo to hi is not empty and meets −D[b][a] to D[a][b].
    fn meets(&self, a: usize, b: usize, lo: i32, hi: i32) -> bool
        requires { Narrowing self.now.events a b lo hi self.now.entries }
        ensures { result ≡ meeting (at self.now.entries) a b lo hi }
    {
        lo <= hi && lo <= self.distance(a, b) && -self.distance(b, a) <= hi
    }

    // The distance from a to b is held to lo to hi; false, and nothing is written, where no timetable has it there.
    pub fn narrow(&mut self, a: usize, b: usize, lo: i32, hi: i32) -> bool
        requires { Narrowing self.old.events a b lo hi self.old.entries }
        ensures same_events { self.new.events ≡ self.old.events }
        ensures answered { Narrowed self.old.events a b lo hi self.old.entries self.new.entries result }
    {
        let met = self.meets(a, b, lo, hi);
        if met {
            self.tighten(a, b, hi);
            self.tighten(b, a, -lo);
        }
        met
    }

    // The greatest time of event e is the bound on its distance from the origin, the least that on its distance to the origin, negated.
    fn time_of(&self, side: Side, e: usize) -> i64
        requires { e < stride }
        ensures { result ≡ outermost side (at self.now.entries) e }
    {
        match side {
            Side::Latest => i64::from(self.distance(0, e)),
            Side::Earliest => -i64::from(self.distance(e, 0)),
        }
    }

    // The greatest time of each event, or the least.
    pub fn outermost(&self, side: Side, times: &mut [i64])
        requires { Timing self.now.events self.now.entries times.old }
        ensures { Swept (pos 0) times.old times.new 0 self.now.events (outermost side (at self.now.entries)) }
    {
        for e in 0..self.events {
            times[e] = self.time_of(side, e);
        }
    }
}
