// The bound that a code names.
#![tactic(auto)]

ghost use Rattle.std.specs.Prelude.{◌≡◌, ℕ, ◌-◌, ◌/◌, ◌≤◌};
ghost use Rattle.meaning.specs.Plan as M;
ghost use Rattle.meaning.specs.Plan.{record_at};
ghost use Rattle.meaning.specs.Bounds.{horizon_codes};
ghost use Rattle.plan.specs.Held.{row_of};
ghost use Rattle.cut.specs.Cut.{allowed};
ghost use Rattle.codes.specs.Codes.{of_record, of_horizon, named, Owns, is_code, as_bound};

use cut::Ends;
use plan::{Loaded, Record};

// The first code of the horizon, as a code.
const HORIZON_CODES: u16 = scope::HORIZON_CODES as u16;

// A bound's code is a number, printed and handed out in C as it is (document 01, section 5): an even one is that of an upper bound, an odd one that of
// a lower. Whose bound it is: a record's, or the horizon's for an event.
enum Owner {
    Record(usize),
    Event(u16),
}

fn owner_of(c: u16) -> Owner
    ensures { Owns c result }
{
    if c < HORIZON_CODES {
        Owner::Record(usize::from(c / 2))
    } else {
        Owner::Event((c - HORIZON_CODES) / 2)
    }
}

// Whether a plan of so many events and records has a bound with this code.
#[tactic(auto, unfolding(crate::specs::Codes::is_code))]
pub fn is_code(events: usize, records: usize, c: u16) -> bool
    ensures { result ≡ is_code events records c }
{
    match owner_of(c) {
        Owner::Record(k) => k < records,
        Owner::Event(e) => e != 0 && usize::from(e) < events,
    }
}

// A step of a chain: its bound's two events, its weight and its code. Wider than `chain::Bound`, since each code names a step, also one that no plan has.
#[derive(Clone, Copy)]
pub struct Step {
    pub from: u16,
    pub to: u16,
    pub weight: i64,
    pub code: u16,
}

// The step of a record's bound that a code names; the record's distances are those from ends.lo to ends.hi.
fn of_record(r: Record, ends: Ends, c: u16) -> Step
    ensures { (p : M.Plan) (first : ℕ) → r ≡ row_of first (record_at p (c / 2)) → ends ≡ allowed (record_at p (c / 2))
        → as_bound result ≡ of_record p c }
{
    let a = u16::from(r.a);
    let b = u16::from(r.b);
    if c % 2 == 0 {
        Step {
            from: a,
            to: b,
            weight: i64::from(ends.hi),
            code: c,
        }
    } else {
        Step {
            from: b,
            to: a,
            weight: -i64::from(ends.lo),
            code: c,
        }
    }
}

// The step of the horizon's bound for event e that a code names.
fn of_horizon(horizon: u32, e: u16, c: u16) -> Step
    ensures { (p : M.Plan) → horizon ≡ p.horizon → horizon_codes ≤ c → e ≡ (c - horizon_codes) / 2 → as_bound result ≡ of_horizon p c }
{
    if c % 2 == 0 {
        Step {
            from: 0,
            to: e,
            weight: i64::from(horizon),
            code: c,
        }
    } else {
        Step {
            from: e,
            to: 0,
            weight: 0,
            code: c,
        }
    }
}

// The step that a code names.
pub fn step_of(plan: &Loaded, c: u16) -> Step
    ensures { as_bound result ≡ named plan.now c }
{
    match owner_of(c) {
        Owner::Record(k) => {
            let r = plan.plan.records[k];
            of_record(r, cut::ends_of(r, plan.levels), c)
        }
        Owner::Event(e) => of_horizon(plan.plan.horizon, e, c),
    }
}
