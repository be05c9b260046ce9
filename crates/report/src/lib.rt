// From a plan text to the printed form of its outcome.
#![tactic(auto)]

ghost use Rattle.std.specs.Prelude.{◌≡◌, List, ℕ, ◌≤◌, length};
ghost use Rattle.meaning.specs.Reading as R;
ghost use Rattle.meaning.specs.Reading.{read};
ghost use Rattle.forms.specs.Put.{area_room};
ghost use Rattle.report.specs.Answer.{Told, Answered};

#[cfg(test)]
mod tests;

use forms::AREA;
use plan::Loaded;
use scope::{MOST_EVENTS, MOST_LEVELS_TOGETHER, MOST_RECORDS, Side};
use settle::{Areas, Outcome};

// The form of the outcome of a text's plan, with the latest times or the earliest.
fn put_outcome(out: &mut [u8], plan: &Loaded, side: Side) -> usize
    requires { area_room ≤ length out.old }
    ensures { (text : List ℕ) → read text ≡ R.plan plan.now → Told side text out.old out.new result }
{
    let mut times = [0i64; MOST_EVENTS];
    let mut levels = [0u8; MOST_RECORDS];
    let mut chain = [0u16; MOST_EVENTS];
    let mut areas = Areas {
        times: &mut times,
        levels: &mut levels,
        chain: &mut chain,
    };
    let outcome = settle::settle(plan, side, &mut areas);
    let Areas {
        times,
        levels,
        chain,
    } = areas;
    match outcome {
        Outcome::Solved(w) => forms::put_timed(out, plan.plan, w, times, levels),
        Outcome::NoTimetable(steps) => forms::put_none(out, plan, &chain[..steps]),
    }
}

// The printed form of a plan text's outcome, with the latest times or the earliest, at the front of an area of at least AREA bytes; the number of its
// bytes, or 0 where the area is shorter.
pub fn answer(text: &[u8], side: Side, out: &mut [u8]) -> usize
    ensures { Answered side text.now out.old out.new result }
{
    if out.len() < AREA {
        return 0;
    }
    let mut held = [0u8; MOST_LEVELS_TOGETHER];
    match reader::read(text, &mut held) {
        Ok(plan) => {
            let loaded = Loaded {
                plan: &plan,
                levels: &held,
            };
            put_outcome(out, &loaded, side)
        }
        Err(refusal) => forms::put_refused(out, refusal),
    }
}
