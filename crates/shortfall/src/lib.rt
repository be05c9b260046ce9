// By how many ticks a chain of codes falls short in a plan.
#![tactic(auto)]

ghost use Rattle.std.specs.Prelude.{◌≡◌, map, ◌≤◌, ◌<◌, length};
ghost use Rattle.eventset.specs.Sets.{set_width, bits_of};
ghost use Rattle.meaning.specs.Plan.{most_events};
ghost use Rattle.meaning.specs.Bounds.{total};
ghost use Rattle.meaning.specs.Faultless.{WithoutFault};
ghost use Rattle.meaning.specs.Short.{ShortBy};
ghost use Rattle.codes.specs.Codes.{as_bound, named};
ghost use Rattle.shortfall.specs.Round.{may_step, leads_round};

use codes::Step;
use eventset::EventSet;
use plan::Loaded;

// Whether a walk that began at `from`, stands at `at` and has entered the events of `seen` may take this step: it leaves from there, from no
// event before the first, and enters one that is new.
fn may_step(s: Step, from: u16, at: u16, seen: EventSet) -> bool
    requires { s.to < set_width }
    ensures { result ≡ may_step from at (bits_of seen) (as_bound s) }
{
    s.from == at && from <= s.from && !seen.has(usize::from(s.to))
}

// Whether the codes are those of bounds of the plan that lead round, from the least event on, and enter none twice.
fn leads_round(plan: &Loaded, chain: &[u16]) -> bool
    ensures { result ≡ leads_round plan.now chain.now }
{
    let Some(&first) = chain.first() else {
        return true;
    };
    let from = codes::step_of(plan, first).from;
    let mut at = from;
    let mut seen = EventSet::empty();
    for &c in chain {
        if !codes::is_code(plan.plan.events, plan.plan.count, c) {
            return false;
        }
        let s = codes::step_of(plan, c);
        if !may_step(s, from, at, seen) {
            return false;
        }
        seen = seen.put(usize::from(s.to));
        at = s.to;
    }
    at == from
}

// The sum of the weights along the codes, step by step. A chain is short enough for it to fit.
fn sum_along(plan: &Loaded, chain: &[u16]) -> i64
    requires few { length chain.now ≤ most_events }
    requires faultless { WithoutFault plan.now }
    ensures { result ≡ total (map (named plan.now) chain.now) }
{
    let mut sum = 0;
    for &c in chain {
        sum += codes::step_of(plan, c).weight;
    }
    sum
}

// By how many ticks the chain of these codes falls short; 0 where they are no chain of the plan. A chain has no more steps than the plan has events.
pub fn ticks_short(plan: &Loaded, chain: &[u16]) -> u64
    ensures { ShortBy plan.now chain.now result }
{
    if plan.plan.events < chain.len() || !leads_round(plan, chain) {
        return 0;
    }
    let sum = sum_along(plan, chain);
    if sum < 0 { sum.unsigned_abs() } else { 0 }
}
