// The reader for Rust and C, one number a call.
#![tactic(auto)]

ghost use Rattle.std.specs.Prelude.{◌≡◌};
ghost use Rattle.plan_c.specs.Asked.{Asked, number_in, place_in, head_of, head_in, field_of, field_in};

use plan::{Plan, Record};
use scope::{MOST_RECORDS, SOLVED};
use widths::Number;

// The outcome's number; that of a solved plan for a plan.
#[unsafe(no_mangle)]
pub extern "C" fn plan_number(text: &[u8], levels: &mut [u8]) -> u8
    ensures { Asked text.now levels.old levels.new number_in result }
{
    match reader::read(text, levels) {
        Ok(_) => SOLVED,
        Err(refusal) => u8::from(refusal.fault),
    }
}

// The outcome's place: the line of a refusal; 0 for a plan.
#[unsafe(no_mangle)]
pub extern "C" fn plan_place(text: &[u8], levels: &mut [u8]) -> usize
    ensures { Asked text.now levels.old levels.new place_in result }
{
    match reader::read(text, levels) {
        Ok(_) => 0,
        Err(refusal) => refusal.line,
    }
}

// As C asks for it: 0 events, 1 horizon, 2 records, 3 levels used; else 0.
fn head_of(plan: &Plan, which: usize) -> usize
    ensures { result ≡ head_of which plan.now }
{
    match which {
        0 => plan.events,
        1 => plan.horizon.number(),
        2 => plan.count,
        3 => plan.used,
        _ => 0,
    }
}

// One number of the plan as a whole; 0 of a text that is refused.
#[unsafe(no_mangle)]
pub extern "C" fn plan_head(text: &[u8], levels: &mut [u8], which: usize) -> usize
    ensures { Asked text.now levels.old levels.new (head_in which) result }
{
    match reader::read(text, levels) {
        Ok(plan) => head_of(&plan, which),
        Err(_) => 0,
    }
}

// As C asks for it: 0 a, 1 b, 2 lo, 3 hi, 4 first, 5 count; else 0.
fn field_of(r: Record, which: usize) -> i32
    ensures { result ≡ field_of which r }
{
    match which {
        0 => i32::from(r.a),
        1 => i32::from(r.b),
        2 => r.lo,
        3 => r.hi,
        4 => i32::from(r.first),
        5 => i32::from(r.count),
        _ => 0,
    }
}

// A field of a record; 0 of a record that there is no place for, and of a text that is refused.
#[unsafe(no_mangle)]
pub extern "C" fn plan_field(text: &[u8], levels: &mut [u8], k: usize, which: usize) -> i32
    ensures { Asked text.now levels.old levels.new (field_in k which) result }
{
    match reader::read(text, levels) {
        Ok(plan) if k < MOST_RECORDS => field_of(plan.records[k], which),
        _ => 0,
    }
}
