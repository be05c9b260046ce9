// The outcome of a plan in memory: its bounds are added, and the ladder is climbed or the clash is shown.
#![tactic(auto)]

ghost use Rattle.std.specs.Prelude.{◌≡◌, true};
ghost use Rattle.meaning.specs.Outcome.{long_enough};
ghost use Rattle.settle.specs.Settled.{number_by, place_by, Settled};
ghost use Rattle.settle.specs.Lent.{lent, SameAreas};

use bounds::Bounds;
use distances::Matrix;
use plan::Loaded;
use scope::{NO_TIMETABLE, Refused, SOLVED, Side};

// What a plan comes to: times and levels with the count of wishes, or a chain with the count of its steps.
#[derive(Clone, Copy, PartialEq, Eq)]
pub enum Outcome {
    Solved(usize),
    NoTimetable(usize),
}

// The areas that a caller lends: for the times, the levels and the codes of a chain.
#[derive(Drop)]
pub struct Areas<'a> {
    pub times: &'a mut [i64],
    pub levels: &'a mut [u8],
    pub chain: &'a mut [u16],
}

// The number of document 01, section 3, as C takes it.
pub fn number_of<E: Refused>(answer: Result<Outcome, E>) -> u8
    ensures { result ≡ number_by E.number_in answer }
{
    match answer {
        Ok(Outcome::Solved(_)) => SOLVED,
        Ok(Outcome::NoTimetable(_)) => NO_TIMETABLE,
        Err(refused) => refused.number(),
    }
}

// The place that goes with it.
pub fn place_in<E: Refused>(answer: Result<Outcome, E>) -> usize
    ensures { result ≡ place_by E.line_in answer }
{
    match answer {
        Ok(Outcome::Solved(wishes)) => wishes,
        Ok(Outcome::NoTimetable(steps)) => steps,
        Err(refused) => refused.line(),
    }
}

// The outcome of a plan in memory, with the latest times or the earliest. Nothing is written before it is known.
pub fn settle(plan: &Loaded, side: Side, areas: &mut Areas) -> Outcome
    requires { long_enough (lent areas.old) ≡ true }
    ensures outcome { Settled side plan.now (lent areas.old) (lent areas.new) result }
    ensures same { SameAreas areas.old areas.new }
{
    let mut bounds = Bounds::none();
    bounds::list_of(plan, &mut bounds);
    let list = bounds.listed();
    let mut d = Matrix::none();
    d.start(plan.plan.events, plan.plan.horizon);
    if let Err(m) = bounds::try_all(list, bounds.horizon, &mut d) {
        let steps = chain::chain_of(&list[..m], list[m], &d, areas.chain);
        return Outcome::NoTimetable(steps);
    }
    let count = ladder::climb(&mut d, plan, areas.levels);
    d.outermost(side, areas.times);
    Outcome::Solved(count)
}
