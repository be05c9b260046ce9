// The plan's bounds in one list, and adding them to the matrix up to the first that leaves no timetable.
#![tactic(auto)]

ghost use Rattle.std.specs.Prelude.{◌≡◌, List, [], ◌++◌, ◌+◌, ◌*◌, ◌-◌, ◌≤◌, ◌<◌, length, neg_ℤ};
ghost use Rattle.std.specs.Int.{w32};
ghost use Rattle.std.proofs.Common.{SFits};
ghost use Rattle.meaning.specs.Plan.{most_events, most_horizon, most_records};
ghost use Rattle.meaning.specs.Bounds as B;
ghost use Rattle.meaning.specs.Bounds.{horizon_upper, horizon_lower, horizon_bounds, record_bounds};
ghost use Rattle.chain.specs.Clash.{bound_of};
ghost use Rattle.bounds.specs.Entries.{most_bounds, upper_entry, lower_entry, held, Front, Pushed};
ghost use Rattle.bounds.specs.Listed.{Listed};
ghost use Rattle.bounds.specs.Tried.{AddingOf, AddedOf, Trying, Tried};

use chain::Bound;
use distances::Matrix;
use plan::{Loaded, Record};
use scope::{HORIZON_CODES, MOST_BOUNDS};
use widths::{Number, Width};

// What stands where there is no bound.
const NOTHING: Bound = Bound {
    start: 0,
    end: 0,
    code: 0,
    weight: 0,
};

// A plan's bounds: the first `count` entries, of which the first `horizon` are those of the horizon. Nothing stands past the last. The room for them is
// fixed: there is no heap.
#[derive(Drop)]
pub struct Bounds {
    all: [Bound; MOST_BOUNDS],
    pub horizon: usize,
    count: usize,
}

// The bounds of the horizon h for the event e.
fn horizon_upper(e: usize, h: u32) -> Bound
    requires { (e < most_events) × (h ≤ most_horizon) }
    ensures { bound_of result ≡ horizon_upper h e }
{
    Bound {
        start: 0,
        end: u8::of(e),
        code: u16::of(HORIZON_CODES + 2 * e),
        weight: i32::of(h.number()),
    }
}

fn horizon_lower(e: usize) -> Bound
    requires { e < most_events }
    ensures { bound_of result ≡ horizon_lower e }
{
    Bound {
        start: u8::of(e),
        end: 0,
        code: u16::of(HORIZON_CODES + 2 * e + 1),
        weight: 0,
    }
}

// The bounds of record k, whose longest distance is hi and whose shortest is lo.
fn record_upper(k: usize, r: Record, hi: i32) -> Bound
    requires { k < most_records }
    ensures { result ≡ upper_entry k r hi }
{
    Bound {
        start: r.a,
        end: r.b,
        code: u16::of(2 * k),
        weight: hi,
    }
}

fn record_lower(k: usize, r: Record, lo: i32) -> Bound
    requires { (k < most_records) × SFits w32 (neg_ℤ lo) }
    ensures { result ≡ lower_entry k r lo }
{
    Bound {
        start: r.b,
        end: r.a,
        code: u16::of(2 * k + 1),
        weight: -lo,
    }
}

impl Bounds {
    // No bound yet.
    pub fn none() -> Bounds
        ensures { (result.horizon ≡ 0) × Front result [] }
    {
        Bounds {
            all: [NOTHING; MOST_BOUNDS],
            horizon: 0,
            count: 0,
        }
    }

    // No bound any more.
    fn clear(&mut self)
        ensures { Front self.new [] }
    {
        self.all = [NOTHING; MOST_BOUNDS];
        self.count = 0;
    }

    // One bound more.
    fn push(&mut self, b: Bound)
        requires { self.old.count < most_bounds }
        ensures { Pushed self.old b self.new }
    {
        self.all[self.count] = b;
        self.count += 1;
    }

    // The horizon's bounds, two for each event other than 0.
    fn push_horizon(&mut self, n: usize, h: u32)
        requires { Front self.old [] × (1 ≤ n) × (n ≤ most_events) × (h ≤ most_horizon) }
        ensures counted { self.new.horizon ≡ self.new.count }
        ensures listed { Front self.new (horizon_bounds h 1 (n - 1)) }
    {
        for e in 1..n {
            self.push(horizon_upper(e, h));
            self.push(horizon_lower(e));
        }
        self.horizon = self.count;
    }

    // Two bounds for each record.
    fn push_records(&mut self, plan: &Loaded)
        requires { self.old.count + 2 * length plan.now.records ≤ most_bounds }
        ensures same_horizon { self.new.horizon ≡ self.old.horizon }
        ensures listed { (bs : List B.Bound) → Front self.old bs → Front self.new (bs ++ record_bounds 0 plan.now.records) }
    {
        for (k, &r) in plan.plan.records[..plan.plan.count].iter().enumerate() {
            let ends = cut::ends_of(r, plan.levels);
            self.push(record_upper(k, r, ends.hi));
            self.push(record_lower(k, r, ends.lo));
        }
    }

    // The bounds, one after the other.
    pub fn listed(&self) -> &[Bound]
        requires { self.now.count ≤ most_bounds }
        ensures { result.now ≡ held self.now }
    {
        &self.all[..self.count]
    }
}

// The plan's bounds: the horizon's first, then those of the records. The list is lent: returned, it would stand on the stack twice.
pub fn list_of(plan: &Loaded, list: &mut Bounds)
    ensures { Listed plan.now list.new }
{
    list.clear();
    list.push_horizon(plan.plan.events, plan.plan.horizon);
    list.push_records(plan);
}

// One bound; false where it leaves no timetable.
fn try_bound(b: Bound, d: &mut Matrix) -> bool
    requires { AddingOf d.old.events (bound_of b) d.old.entries }
    ensures same_events { d.new.events ≡ d.old.events }
    ensures answered { AddedOf d.old.events (bound_of b) d.old.entries d.new.entries result }
{
    d.add(usize::from(b.start), usize::from(b.end), b.weight)
}

// Adds the bounds from place `from` on; the place of the first that leaves no timetable as an error.
pub fn try_all(list: &[Bound], from: usize, d: &mut Matrix) -> Result<(), usize>
    requires { Trying list.now from d.old.events d.old.entries }
    ensures same_events { d.new.events ≡ d.old.events }
    ensures tried { Tried list.now from d.old.events d.old.entries d.new.entries result }
{
    for k in from..list.len() {
        if !try_bound(list[k], d) {
            return Err(k);
        }
    }
    Ok(())
}
