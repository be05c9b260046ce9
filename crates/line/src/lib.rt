// What one line of a text gives: the tests of section 3 and of T-04 in their order, and the record that it adds to the plan.
#![tactic(auto)]

ghost use Rattle.std.specs.Prelude.{◌≡◌, List, ℕ, ◌+◌, ◌-◌, ◌≤◌, ◌<◌, length, ℤ, nat_abs};
ghost use Rattle.std.proofs.Math.Seq.{slice};
ghost use Rattle.meaning.specs.Plan.{most_levels, most_levels_together, most_bytes};
ghost use Rattle.faults.specs.Faults.{no_fault, Fitting, head_fault};
ghost use Rattle.line.specs.declared.Effect.TheVariants.{Head};
ghost use Rattle.line.specs.Effects.{level_of, last_from, span_of, wish_span, row_from, is_head, is_rule, is_wish, Roomy};
ghost use Rattle.line.specs.Effects.{EventsEffect, RuleEffect, WishEffect, WishTaken};
ghost use Rattle.line.specs.Lines.{Room, is_level_next, with_level, Whole, Judged};

use faults::{SoFar, Span};
use fields::Line;
use plan::Record;
use scope::{Fault, MOST_LEVELS_TOGETHER, TOP_LEVEL};
use text::Word;
use widths::{Number, Width};

// How a number is stored that is no level.
const NO_LEVEL: u8 = TOP_LEVEL + 1;

// What a line gives that has no fault: the number of events and the horizon, or one record more.
#[derive(Clone, Copy)]
pub enum Effect {
    Head(usize, u32),
    Entry(Record),
}

// ---- the levels of a wish

// A number as a level; one that is none is stored as one above the top.
fn level_of(v: i32) -> u8
    ensures { result ≡ level_of v }
{
    if 0 <= v && v <= i32::from(TOP_LEVEL) {
        u8::of(v.number())
    } else {
        NO_LEVEL
    }
}

// The next number of the line is a level: the fourth and each later one of a wish is.
fn is_level_next(line: Line) -> bool
    ensures { result ≡ is_level_next line }
{
    matches!(line.word, Word::Wish) && 3 <= line.count
}

// The next number of the line is v: a level is stored behind those of the wishes before. Where there is no room for it nothing is stored, since `take`
// finds that fault.
pub fn store_level(line: Line, used: usize, v: i32, levels: &mut [u8])
    requires { (line.count < most_bytes) × (used ≤ most_levels_together) × (most_levels_together ≤ length levels.old) }
    ensures { levels.new ≡ with_level line used v levels.old }
{
    if !is_level_next(line) {
        return;
    }
    let place = used + (line.count - 3);
    if place < MOST_LEVELS_TOGETHER {
        levels[place] = level_of(v);
    }
}

// ---- the numbers of a record

// The first four numbers of a line, as the numbers of a rule.
fn span_of(line: Line) -> Span
    ensures { result ≡ span_of line.fields }
{
    let [a, b, lo, hi] = line.fields;
    Span { a, b, lo, hi }
}

// The distance of the last of m levels; where lo is out of range no sum is made, since that alone is the fault.
fn last_of(lo: i32, m: usize) -> i32
    requires { (1 ≤ m) × (m ≤ most_levels) }
    ensures { result ≡ last_from lo m }
{
    if faults::is_end(lo) {
        lo + i32::of(m - 1)
    } else {
        lo
    }
}

// The first three numbers of a line, as those of a wish with m levels.
fn wish_span(line: Line, m: usize) -> Span
    requires { (1 ≤ m) × (m ≤ most_levels) }
    ensures { result ≡ wish_span line.fields m }
{
    let span = span_of(line);
    Span {
        hi: last_of(span.lo, m),
        ..span
    }
}

// ---- what a line gives

// A record without fault, its `count` levels from place `first` on.
fn row_of(span: Span, first: usize, count: usize) -> Record
    requires { Fitting span × (first ≤ most_levels_together) × (count ≤ most_levels) }
    ensures { result ≡ row_from span first count }
{
    Record {
        a: u8::of(span.a.number()),
        b: u8::of(span.b.number()),
        first: u16::of(first),
        count: u16::of(count),
        lo: span.lo,
        hi: span.hi,
    }
}

// The form of line 1: two numbers.
fn is_head(line: Line) -> bool
    ensures { result ≡ is_head line }
{
    line.number == 1 && line.count == 2
}

// The form of a later line `rule`: four numbers.
fn is_rule(line: Line) -> bool
    ensures { result ≡ is_rule line }
{
    line.number != 1 && line.count == 4
}

// The form of a later line `wish`: three numbers and one or more levels.
fn is_wish(line: Line) -> bool
    ensures { result ≡ is_wish line }
{
    line.number != 1 && 4 <= line.count
}

// The number of events and the horizon, both in range.
fn head_of(n: i32, h: i32) -> Effect
    requires { head_fault n h ≡ no_fault }
    ensures { result ≡ Head (nat_abs n) (nat_abs h) }
{
    Effect::Head(n.number(), u32::of(h.number()))
}

// The line `events`.
fn take_events(line: Line) -> Result<Effect, Fault>
    ensures { EventsEffect line result }
{
    if !is_head(line) {
        return Err(Fault::WrongForm);
    }
    let [n, h, ..] = line.fields;
    faults::head_fault(n, h)?;
    Ok(head_of(n, h))
}

// A line `rule`.
fn take_rule(line: Line, plan: SoFar) -> Result<Effect, Fault>
    requires { Room plan }
    ensures { RuleEffect line plan result }
{
    if !is_rule(line) {
        return Err(Fault::WrongForm);
    }
    if !faults::has_room(plan, 0) {
        return Err(Fault::TooMany);
    }
    let span = span_of(line);
    faults::rule_fault(plan.events, span)?;
    Ok(Effect::Entry(row_of(span, plan.levels, 0)))
}

// What a wish gives whose levels are stored behind those of the others.
fn wish_effect(line: Line, plan: SoFar, levels: &[u8]) -> Result<Effect, Fault>
    requires { Room plan × Roomy line plan × (most_levels_together ≤ length levels.now) }
    ensures { WishEffect line plan (slice plan.levels (plan.levels + (line.count - 3)) levels.now) result }
{
    let m = line.count - 3;
    let at = plan.levels;
    let span = wish_span(line, m);
    faults::wish_fault(plan.events, span, &levels[at..at + m])?;
    Ok(Effect::Entry(row_of(span, at, m)))
}

// A line `wish`.
fn take_wish(line: Line, plan: SoFar, levels: &[u8]) -> Result<Effect, Fault>
    requires { Room plan × (most_levels_together ≤ length levels.now) }
    ensures { WishTaken line plan levels.now result }
{
    if !is_wish(line) {
        return Err(Fault::WrongForm);
    }
    if !faults::has_room(plan, line.count - 3) {
        return Err(Fault::TooMany);
    }
    wish_effect(line, plan, levels)
}

// What a line gives whose numbers are all read, and the levels of a wish stored: the tests of section 3 and of T-04 in their order.
pub fn take(line: Line, plan: SoFar, levels: &[u8]) -> Result<Effect, Fault>
    requires { ((vs : List ℤ) × (before : List ℕ) × Whole vs line plan before levels.now) × Room plan × (most_levels_together ≤ length levels.now) }
    ensures { Judged line plan levels.now result }
{
    match line.word {
        Word::Events => take_events(line),
        Word::Rule => take_rule(line, plan),
        Word::Wish => take_wish(line, plan, levels),
        Word::Other => Err(Fault::WrongForm),
    }
}
