// The printed form of an outcome, put into a lent area.
#![tactic(auto)]

ghost use Rattle.std.specs.Prelude.{◌≡◌, ◌+◌, ◌*◌, ◌≤◌, length, take};
ghost use Rattle.meaning.specs.Plan as M;
ghost use Rattle.meaning.specs.Plan.{wishes, most_events, most_records, most_bytes};
ghost use Rattle.meaning.specs.Outcome.{solved, none, refusal};
ghost use Rattle.codes.specs.Codes.{as_bound};
ghost use Rattle.forms.specs.Printed.{at_lines, level_lines, step_line, step_lines, printed};
ghost use Rattle.forms.specs.Put.{line_room, step_room, area_room, Put, Free, Adds};
ghost use Rattle.forms.specs.Timed.{Timed, Levels};

use codes::Step;
use plan::{Loaded, Plan};
use print::Sheet;
use scope::{MOST_EVENTS, MOST_RECORDS, Refused};
use widths::Width;

// The bytes of a line with two numbers, at most.
const LINE_ROOM: usize = 64;

// The bytes that a printed form has at most: a line `solved`, a line `at` for each event and a line `level` for each wish.
pub const AREA: usize = LINE_ROOM * (1 + MOST_EVENTS + MOST_RECORDS);

// ---- the lines of times and levels

// The lines `at` of the times.
fn at_lines(sheet: &mut Sheet, times: &[i64])
    requires { Free sheet.old (line_room * length times.now) × (length times.now ≤ most_events) }
    ensures { Adds sheet.old sheet.new (line_room * length times.now) (at_lines 0 times.now) }
{
    for (e, &time) in times.iter().enumerate() {
        sheet.line(b"at", &[i64::of(e), time]);
    }
}

// The lines `level` of the plan's wishes, the records that have levels, with the level that each wish is given.
fn level_lines(sheet: &mut Sheet, plan: &Plan, levels: &[u8])
    requires { Free sheet.old (line_room * most_records) × ((p : M.Plan) × Levels p plan.now levels.now) }
    ensures { (p : M.Plan) → Levels p plan.now levels.now
        → Adds sheet.old sheet.new (line_room * most_records) (level_lines 0 p.records levels.now) }
{
    let mut w = 0;
    for (k, r) in plan.records[..plan.count].iter().enumerate() {
        if r.count > 0 {
            sheet.line(b"level", &[i64::of(k), i64::from(levels[w])]);
            w += 1;
        }
    }
}

// ---- the lines of a chain

// The line of one step.
fn put_step(sheet: &mut Sheet, s: Step)
    requires { Free sheet.old step_room }
    ensures { Adds sheet.old sheet.new step_room (step_line (as_bound s)) }
{
    let row = [
        i64::from(s.from),
        i64::from(s.to),
        s.weight,
        i64::from(s.code),
    ];
    sheet.line(b"step", &row);
}

// The lines `step` of the codes of a chain.
fn step_lines(sheet: &mut Sheet, plan: &Loaded, chain: &[u16])
    requires { Free sheet.old (step_room * length chain.now) }
    ensures { Adds sheet.old sheet.new (step_room * length chain.now) (step_lines plan.now chain.now) }
{
    for &c in chain {
        put_step(sheet, codes::step_of(plan, c));
    }
}

// ---- the form of an outcome

// The form of a refusal.
pub fn put_refused<E: Refused>(out: &mut [u8], refused: E) -> usize
    requires { (area_room ≤ length out.old) × (E.line_in refused ≤ most_bytes + 1) }
    ensures { (p : M.Plan) → Put out.old out.new 0 result area_room (printed p (refusal (E.number_in refused) (E.line_in refused))) }
{
    let mut sheet = Sheet { out, at: 0 };
    let number = refused.number();
    let line = refused.line();
    sheet.line(b"refused", &[i64::from(number), i64::of(line)]);
    sheet.at
}

// The form of a chain.
pub fn put_none(out: &mut [u8], plan: &Loaded, chain: &[u16]) -> usize
    requires { (area_room ≤ length out.old) × (length chain.now ≤ most_events) }
    ensures { Put out.old out.new 0 result area_room (printed plan.now (none chain.now)) }
{
    let mut sheet = Sheet { out, at: 0 };
    sheet.line(b"none", &[i64::of(chain.len())]);
    step_lines(&mut sheet, plan, chain);
    sheet.at
}

// The form of times, be they fewer or more than the plan has events, and of the levels of its wishes.
pub fn put_solved(out: &mut [u8], plan: &Loaded, times: &[i64], levels: &[u8]) -> usize
    requires { (area_room ≤ length out.old) × (length times.now ≤ most_events) × (length levels.now ≡ wishes plan.now) }
    ensures { Put out.old out.new 0 result area_room (printed plan.now (solved times.now levels.now)) }
{
    let mut sheet = Sheet { out, at: 0 };
    sheet.line(b"solved", &[i64::of(times.len()), i64::of(levels.len())]);
    at_lines(&mut sheet, times);
    level_lines(&mut sheet, plan.plan, levels);
    sheet.at
}

// The form of the times of a plan's events and the levels of its w wishes, which stand in front of their areas. The area of the plan's own levels
// is not asked for.
pub fn put_timed(out: &mut [u8], plan: &Plan, w: usize, times: &[i64], levels: &[u8]) -> usize
    requires { (area_room ≤ length out.old) × ((p : M.Plan) × Timed p plan.now w times.now levels.now) }
    ensures { (p : M.Plan) → Timed p plan.now w times.now levels.now
        → Put out.old out.new 0 result area_room (printed p (solved (take p.events times.now) (take (wishes p) levels.now))) }
{
    let mut sheet = Sheet { out, at: 0 };
    sheet.line(b"solved", &[i64::of(plan.events), i64::of(w)]);
    at_lines(&mut sheet, &times[..plan.events]);
    level_lines(&mut sheet, plan, &levels[..w]);
    sheet.at
}
