// The cut: the run of a grade in a wish's levels, looked for from both ends inward where they stand, and the distances that a record allows.
#![tactic(auto)]

ghost use Rattle.std.specs.Prelude.{◌≡◌, pos, ◌+ℤ◌};
ghost use Rattle.meaning.specs.Run.{run_first, run_past};
ghost use Rattle.cut.specs.Cut.{Reach, Cutting, run_of, ends_of};

use plan::Record;
use scope::LEAST_LEVEL;
use widths::Width;

// The first and the last of some distances.
#[derive(Clone, Copy)]
pub struct Ends {
    pub lo: i32,
    pub hi: i32,
}

// The place of the first level of at least y; the length where there is none, as in the definitions.
pub fn run_first(levels: &[u8], y: u8) -> usize
    ensures { result ≡ run_first y levels.now }
{
    levels
        .iter()
        .position(|level| y <= *level)
        .unwrap_or(levels.len())
}

// One past the last such level, looked for from the end inward; 0 where there is none.
fn run_past(levels: &[u8], y: u8) -> usize
    ensures { result ≡ run_past y levels.now }
{
    levels
        .iter()
        .rposition(|level| y <= *level)
        .map_or(0, |last| last + 1)
}

// The distance of the k-th level of a wish that begins at lo.
fn distance_of(lo: i32, k: usize) -> i32
    requires { Reach lo k }
    ensures { result ≡ lo +ℤ pos k }
{
    lo + i32::of(k)
}

// The distances of a wish at grade y or more; hi is below lo where there are none. `held` has the levels of all wishes: its own would be cut at each caller.
pub fn run_of(r: Record, held: &[u8], y: u8) -> Ends
    requires { Cutting r held.now }
    ensures { result ≡ run_of r held.now y }
{
    let at = usize::from(r.first);
    let end = at + usize::from(r.count);
    let levels = &held[at..end];
    let first = run_first(levels, y);
    let past = run_past(levels, y);
    Ends {
        lo: distance_of(r.lo, first),
        hi: distance_of(r.lo, past) - 1,
    }
}

// The distances that a record allows: those of a rule from lo to hi, those of a wish at the least level or more.
pub fn ends_of(r: Record, held: &[u8]) -> Ends
    requires { Cutting r held.now }
    ensures { result ≡ ends_of r held.now }
{
    if r.count == 0 {
        return Ends { lo: r.lo, hi: r.hi };
    }
    run_of(r, held, LEAST_LEVEL)
}
