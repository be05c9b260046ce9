// The plan in memory.
#![tactic(auto)]

ghost use Rattle.meaning.specs.Reading.{empty};
ghost use Rattle.plan.specs.Held.{Holds};

use scope::MOST_RECORDS;
use std::marker::Model;

// A rule (count 0), or a wish, whose levels are the count ones from first on in the area of all levels. No enum of the two: `plan_field` hands C all six
// numbers of either.
#[derive(Clone, Copy)]
pub struct Record {
    pub a: u8,
    pub b: u8,
    pub first: u16,
    pub count: u16,
    pub lo: i32,
    pub hi: i32,
}

// The first `count` records are the plan's; its wishes have `used` levels together. The room for them is fixed: there is no heap.
#[derive(Clone, Copy)]
pub struct Plan {
    pub events: usize,
    pub horizon: u32,
    pub count: usize,
    pub used: usize,
    pub records: [Record; MOST_RECORDS],
}

// The plan before its first line.
pub fn empty_plan() -> Plan
    ensures { Holds empty result }
{
    let blank = Record {
        a: 0,
        b: 0,
        first: 0,
        count: 0,
        lo: 0,
        hi: 0,
    };
    Plan {
        events: 0,
        horizon: 0,
        count: 0,
        used: 0,
        records: [blank; MOST_RECORDS],
    }
}

// A plan without fault that was read, and the levels of its wishes in their area. Contracts see the plan of `meaning` that they are.
#[derive(Drop)]
pub struct Loaded<'a> {
    pub plan: &'a Plan,
    pub levels: &'a [u8],
}

impl<'a> Model for Loaded<'a> {
    ghost use Rattle.meaning.specs.Plan as M;
    ghost use Rattle.plan.specs.Held.{recalled, InMemory};

    ghost Value = { M.Plan };

    ghost view = { λ s. recalled s.plan.now s.levels.now };

    ghost invariant = { λ s. InMemory (recalled s.plan.now s.levels.now) s.plan.now s.levels.now };
}
