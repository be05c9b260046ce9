// The entry points with the promise: a text is read, and its plan is settled; or the codes of a chain are looked at. `solver_c` has them for C.
#![tactic(auto)]

ghost use Rattle.std.specs.Prelude.{◌≡◌, true, List, ℕ};
ghost use Rattle.meaning.specs.Outcome.{Promise, long_enough};
ghost use Rattle.meaning.specs.Reading.{read};
ghost use Rattle.meaning.specs.Short.{ShortIn};
ghost use Rattle.scope.specs.declared.Side.TheVariants.{Latest};
ghost use Rattle.settle.specs.Lent.{lent, SameAreas};
ghost use Rattle.solver.specs.Solves.{ReadInto, Solves};

use plan::{Loaded, Plan};
use scope::{Fault, MOST_EVENTS, MOST_LEVELS_TOGETHER, MOST_RECORDS, Refusal, Side};
use settle::{Areas, Outcome};

// Whether the three areas have room for any outcome.
fn long_enough(areas: &Areas) -> bool
    ensures { result ≡ long_enough (lent areas.now) }
{
    MOST_EVENTS <= areas.times.len()
        && MOST_RECORDS <= areas.levels.len()
        && MOST_EVENTS <= areas.chain.len()
}

// What a text comes to, by what the reader said of it; the areas have room for any outcome. A refusal writes nothing.
pub fn outcome_of(
    said: &Result<Plan, Refusal>,
    held: &[u8],
    side: Side,
    areas: &mut Areas,
) -> Result<Outcome, Refusal>
    requires read { (text : List ℕ) × ReadInto text held.now said.now }
    requires room { long_enough (lent areas.old) ≡ true }
    ensures solves { (text : List ℕ) → ReadInto text held.now said.now
        → Solves side text (lent areas.old) (lent areas.new) result }
    ensures same { SameAreas areas.old areas.new }
{
    match said {
        Ok(plan) => {
            let loaded = Loaded { plan, levels: held };
            Ok(settle::settle(&loaded, side, areas))
        }
        Err(refusal) => Err(*refusal),
    }
}

// The times of a best timetable of the plan text, on the side asked for, and its levels; or the chain of bounds that leave no timetable; or why the
// text or an area is refused, and then nothing is written.
pub fn solve_on(text: &[u8], side: Side, areas: &mut Areas) -> Result<Outcome, Refusal>
    ensures solves { Solves side text.now (lent areas.old) (lent areas.new) result }
    ensures same { SameAreas areas.old areas.new }
{
    if !long_enough(areas) {
        return Err(Refusal {
            fault: Fault::AreaTooShort,
            line: 0,
        });
    }
    let mut held = [0u8; MOST_LEVELS_TOGETHER];
    let said = reader::read(text, &mut held);
    outcome_of(&said, &held, side, areas)
}

// The same with the latest times, for those who ask for no side: the old image runs as long as it can.
pub fn solve(text: &[u8], areas: &mut Areas) -> Result<Outcome, Refusal>
    ensures solves { Solves Latest text.now (lent areas.old) (lent areas.new) result }
    ensures same { SameAreas areas.old areas.new }
{
    solve_on(text, Side::Latest, areas)
}

// What `solve_on` gives, as C takes it: the number is returned, the place is stored.
pub fn number_on(text: &[u8], side: Side, areas: &mut Areas, place: &mut usize) -> u8
    ensures promise { Promise side text.now (lent areas.old) (lent areas.new) result place.new }
    ensures same { SameAreas areas.old areas.new }
{
    let answer = solve_on(text, side, areas);
    *place = settle::place_in(answer);
    settle::number_of(answer)
}

// By how many ticks a chain falls short in the plan of a text; 0 where the text is refused, or the codes are no chain of its plan.
pub fn timetable_ticks_short(text: &[u8], chain: &[u16]) -> u64
    ensures { ShortIn (read text.now) chain.now result }
{
    let mut held = [0u8; MOST_LEVELS_TOGETHER];
    let Ok(plan) = reader::read(text, &mut held) else {
        return 0;
    };
    let loaded = Loaded {
        plan: &plan,
        levels: &held,
    };
    shortfall::ticks_short(&loaded, chain)
}
