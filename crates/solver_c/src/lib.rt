// The entry points of `solver` for C, as `include/timetable.h` declares them.
#![tactic(auto)]

ghost use Rattle.meaning.specs.Outcome.{Promise, areas};
ghost use Rattle.meaning.specs.Reading.{read};
ghost use Rattle.meaning.specs.Short.{ShortIn};
ghost use Rattle.scope.specs.declared.Side.TheVariants.{Latest, Earliest};

use scope::Side;
use settle::Areas;

// With the latest times. C has a function for each side.
#[unsafe(no_mangle)]
pub extern "C" fn timetable_solve(
    text: &[u8],
    times: &mut [i64],
    levels: &mut [u8],
    chain: &mut [u16],
    place: &mut usize,
) -> u8
    ensures { Promise Latest text.now (areas times.old levels.old chain.old)
        (areas times.new levels.new chain.new) result place.new }
{
    let mut areas = Areas {
        times,
        levels,
        chain,
    };
    solver::number_on(text, Side::Latest, &mut areas, place)
}

// With the earliest times.
#[unsafe(no_mangle)]
pub extern "C" fn timetable_solve_earliest(
    text: &[u8],
    times: &mut [i64],
    levels: &mut [u8],
    chain: &mut [u16],
    place: &mut usize,
) -> u8
    ensures { Promise Earliest text.now (areas times.old levels.old chain.old)
        (areas times.new levels.new chain.new) result place.new }
{
    let mut areas = Areas {
        times,
        levels,
        chain,
    };
    solver::number_on(text, Side::Earliest, &mut areas, place)
}

// By how many ticks a chain falls short in the plan of a text; 0 where the text is refused, or the codes are no chain of its plan.
#[unsafe(no_mangle)]
pub extern "C" fn timetable_ticks_short(text: &[u8], chain: &[u16]) -> u64
    ensures { ShortIn (read text.now) chain.now result }
{
    solver::timetable_ticks_short(text, chain)
}
