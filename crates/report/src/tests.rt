// A call of `forms::put_solved` from another crate: `answer` prints by `put_timed`.

ghost use Rattle.std.specs.Prelude.{◌≡◌, ◌≤◌, length};
ghost use Rattle.meaning.specs.Plan.{most_events, wishes};

use super::*;
use std::process::Abort;
use std::test::Fail;

// The form of these times and levels is this one.
fn assert_form(rt: &impl Abort, plan: &Loaded, times: &[i64], levels: &[u8], form: &[u8])
    requires { (length times.now ≤ most_events) × (length levels.now ≡ wishes plan.now) }
{
    let mut out = [0u8; AREA];
    let end = forms::put_solved(&mut out, plan, times, levels);
    assert_eq!(rt; &out[..end], form);
}

// Of fewer times than the plan has events, or of more, all are printed; each wish has its level.
#[test]
fn all_times_are_printed(rt: HostRuntime) -> Result<(), Fail> {
    let text = b"events\t2\t6\nwish\t0\t1\t2\t1\t3\t2\n";
    let mut held = [0u8; MOST_LEVELS_TOGETHER];
    let Ok(plan) = reader::read(text, &mut held) else {
        return Err("refused")?;
    };
    let loaded = Loaded {
        plan: &plan,
        levels: &held,
    };
    let mut times = [0i64; MOST_EVENTS];
    let mut levels = [0u8; MOST_RECORDS];
    let mut chain = [0u16; MOST_EVENTS];
    let mut areas = Areas {
        times: &mut times,
        levels: &mut levels,
        chain: &mut chain,
    };
    let Outcome::Solved(w) = settle::settle(&loaded, Side::Latest, &mut areas) else {
        return Err("no timetable")?;
    };
    let levels = &areas.levels[..w];
    assert_form(
        &rt,
        &loaded,
        &[0],
        levels,
        b"solved\t1\t1\nat\t0\t0\nlevel\t0\t3\n",
    );
    assert_form(
        &rt,
        &loaded,
        &[0, 3, -7],
        levels,
        b"solved\t3\t1\nat\t0\t0\nat\t1\t3\nat\t2\t-7\nlevel\t0\t3\n",
    );
    Ok(())
}
