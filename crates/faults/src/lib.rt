// The faults of a plan's records and of its first line: the tests of section 3 and of T-04, in their order, on numbers and on levels in memory.
#![tactic(auto)]

ghost use Rattle.std.specs.Prelude.{◌≡◌, [], ◌≤◌, ◌<◌, length};
ghost use Rattle.scope.specs.Faults.{numbered};
ghost use Rattle.meaning.specs.Plan.{most_events, most_levels_together};
ghost use Rattle.meaning.specs.Peak.{peaked};
ghost use Rattle.meaning.specs.Reading.{between, is_event, is_end, in_range};
ghost use Rattle.faults.specs.Faults.{are_levels, allows_any, has_room, head_fault, shape_fault, record_fault};

use scope::{
    Fault, LEAST_LEVEL, MOST_END, MOST_HORIZON, MOST_LEVELS, MOST_LEVELS_TOGETHER, MOST_RECORDS,
    TOP_LEVEL,
};
use widths::Width;

// A field is a signed number, so this limit is met as such.
const MOST_EVENTS: i32 = scope::MOST_EVENTS as i32;

// The two events and the two ends of a record.
#[derive(Clone, Copy)]
pub struct Span {
    pub a: i32,
    pub b: i32,
    pub lo: i32,
    pub hi: i32,
}

// What the tests of a line need of the plan read so far: its events, its records, and the levels that these have together.
#[derive(Clone, Copy)]
pub struct SoFar {
    pub events: usize,
    pub records: usize,
    pub levels: usize,
}

// ---- the tests of a number

// v lies between lo and hi.
pub fn is_between(lo: i32, hi: i32, v: i32) -> bool
    ensures { result ≡ between lo hi v }
{
    lo <= v && v <= hi
}

// v is one of the events 0 to n - 1.
fn is_event(n: usize, v: i32) -> bool
    requires { n ≤ most_events }
    ensures { result ≡ is_event n v }
{
    0 <= v && v < i32::of(n)
}

// v may be an end of a span.
pub fn is_end(v: i32) -> bool
    ensures { result ≡ is_end v }
{
    is_between(-MOST_END, MOST_END, v)
}

// Its events are those of the plan, and its ends are within their limits.
fn in_range(n: usize, span: Span) -> bool
    requires { n ≤ most_events }
    ensures { result ≡ in_range n span.a span.b span.lo span.hi }
{
    is_event(n, span.a) && is_event(n, span.b) && is_end(span.lo) && is_end(span.hi)
}

// ---- the levels of a wish

// They are allowed ones.
fn are_levels(levels: &[u8]) -> bool
    ensures { result ≡ are_levels levels.now }
{
    levels.iter().all(|level| *level <= TOP_LEVEL)
}

// They are single-peaked: none is up again after a fall.
fn is_peaked(levels: &[u8]) -> bool
    ensures { result ≡ peaked levels.now }
{
    let mut fallen = false;
    let mut last: u8 = 0;
    for level in levels {
        if fallen && last < *level {
            return false;
        }
        fallen = fallen || *level < last;
        last = *level;
    }
    true
}

// Some distance of the wish is allowed.
fn allows_any(levels: &[u8]) -> bool
    requires { 0 < length levels.now }
    ensures { result ≡ allows_any levels.now }
{
    cut::run_first(levels, LEAST_LEVEL) < levels.len()
}

// ---- the faults

// One record more, with m levels, is within the limits of their numbers.
pub fn has_room(plan: SoFar, m: usize) -> bool
    requires { plan.levels ≤ most_levels_together }
    ensures { result ≡ has_room plan m }
{
    plan.records < MOST_RECORDS && m <= MOST_LEVELS && plan.levels + m <= MOST_LEVELS_TOGETHER
}

// The fault of n events and the horizon h.
pub fn head_fault(n: i32, h: i32) -> Result<(), Fault>
    ensures { numbered result ≡ head_fault n h }
{
    if is_between(1, MOST_EVENTS, n) && is_between(0, MOST_HORIZON, h) {
        Ok(())
    } else {
        Err(Fault::OutOfRange)
    }
}

// The first fault of a rule.
pub fn rule_fault(n: usize, span: Span) -> Result<(), Fault>
    requires { n ≤ most_events }
    ensures { numbered result ≡ record_fault n span [] }
{
    if !in_range(n, span) {
        return Err(Fault::OutOfRange);
    }
    if span.hi < span.lo {
        return Err(Fault::OutOfRange);
    }
    if span.a == span.b {
        return Err(Fault::SameEvent);
    }
    Ok(())
}

// The first fault of a wish's levels by the shape of their row: it is single-peaked, and not all 0.
fn shape_fault(levels: &[u8]) -> Result<(), Fault>
    requires { 0 < length levels.now }
    ensures { numbered result ≡ shape_fault levels.now }
{
    if !is_peaked(levels) {
        return Err(Fault::NotPeaked);
    }
    if !allows_any(levels) {
        return Err(Fault::NothingAllowed);
    }
    Ok(())
}

// The first fault of a wish with these levels.
pub fn wish_fault(n: usize, span: Span, levels: &[u8]) -> Result<(), Fault>
    requires { (n ≤ most_events) × (0 < length levels.now) }
    ensures { numbered result ≡ record_fault n span levels.now }
{
    if !are_levels(levels) {
        return Err(Fault::OutOfRange);
    }
    rule_fault(n, span)?;
    shape_fault(levels)
}
