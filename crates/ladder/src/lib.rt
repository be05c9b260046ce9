// The climb over grades and wishes on the matrix of a plan's timetables.
#![tactic(auto)]

ghost use Rattle.std.specs.Prelude.{◌≡◌, ◌-◌, ◌≤◌, ◌<◌, eqb, length, get_or};
ghost use Rattle.meaning.specs.Plan.{most_records};
ghost use Rattle.ladder.specs.Climbed.{Climbed};
ghost use Rattle.ladder.specs.Climbing.{Asking, Asked, WishClimbed, Grading, Graded, GradesBegun, ToClimb};

use distances::Matrix;
use plan::{Loaded, Record};
use scope::{LEAST_LEVEL, TOP_LEVEL};

// The first grade that is asked for: the one before it is part of the plan.
const FIRST_ASKED: u8 = LEAST_LEVEL + 1;

// Whether some timetable left has the wish at grade y or more; if so only those are left.
fn ask(d: &mut Matrix, r: Record, held: &[u8], y: u8) -> bool
    requires { Asking d.old.events r held.now y d.old.entries }
    ensures same_events { d.new.events ≡ d.old.events }
    ensures asked { Asked d.old.events r held.now y d.old.entries d.new.entries result }
{
    let run = cut::run_of(r, held, y);
    d.narrow(usize::from(r.a), usize::from(r.b), run.lo, run.hi)
}

// Whether wish w is still climbing: it has the grade before y.
fn climbs(levels: &[u8], w: usize, y: u8) -> bool
    requires { (w < length levels.now) × (1 ≤ y) }
    ensures { result ≡ eqb (get_or levels.now w 0) (y - 1) }
{
    levels[w] == y - 1
}

// One wish at grade y: asked only while it is still climbing.
fn climb_wish(d: &mut Matrix, r: Record, held: &[u8], y: u8, w: usize, levels: &mut [u8])
    requires { Asking d.old.events r held.now y d.old.entries × (w < length levels.old) }
    ensures same_events { d.new.events ≡ d.old.events }
    ensures climbed { WishClimbed d.old.events r held.now y w d.old.entries d.new.entries levels.old levels.new }
{
    if climbs(levels, w, y) && ask(d, r, held, y) {
        levels[w] = y;
    }
}

// One grade: the wishes in record order.
fn climb_grade(d: &mut Matrix, plan: &Loaded, y: u8, levels: &mut [u8])
    requires { Grading plan.now y d.old levels.old }
    ensures same_events { d.new.events ≡ d.old.events }
    ensures graded { Graded plan.now y d.old.entries d.new.entries levels.old levels.new }
{
    let records = &plan.plan.records[..plan.plan.count];
    for (w, r) in records.iter().filter(|r| 0 < r.count).enumerate() {
        climb_wish(d, *r, plan.levels, y, w, levels);
    }
}

// The number of wishes, each set to the least level at the front of levels.
fn begin_grades(plan: &Loaded, levels: &mut [u8]) -> usize
    requires { most_records ≤ length levels.old }
    ensures { GradesBegun plan.now levels.old levels.new result }
{
    let records = &plan.plan.records[..plan.plan.count];
    let count = records.iter().filter(|r| 0 < r.count).count();
    levels[..count].fill(LEAST_LEVEL);
    count
}

// The grades from the first asked to the top, and within a grade the wishes in record order; the number of wishes.
pub fn climb(d: &mut Matrix, plan: &Loaded, levels: &mut [u8]) -> usize
    requires { ToClimb plan.now d.old levels.old }
    ensures same_events { d.new.events ≡ d.old.events }
    ensures climbed { Climbed plan.now d.old.entries d.new.entries levels.old levels.new result }
{
    let count = begin_grades(plan, levels);
    for y in FIRST_ASKED..=TOP_LEVEL {
        climb_grade(d, plan, y, levels);
    }
    count
}
