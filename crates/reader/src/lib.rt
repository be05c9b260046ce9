// The reader of a plan text: the walk over its lines up to the first fault.
#![tactic(auto)]

ghost use Rattle.std.specs.Prelude.{◌≡◌, ◌==◌, ◌≤◌, length, position};
ghost use Rattle.meaning.specs.Plan.{most_levels_together, most_bytes};
ghost use Rattle.meaning.specs.Reading.{empty, line_feed, split, read_pieces};
ghost use Rattle.plan.specs.Held.{Holds, LevelsHeld};
ghost use Rattle.reader.specs.Heard.{Read, so_far, Walked};

use faults::SoFar;
use line::Effect;
use plan::Plan;
use scope::{Fault, MOST_BYTES, MOST_LEVELS_TOGETHER, Refusal};

const LINE_FEED: u8 = 10;

// No level of a wish stands in the area.
fn clear(levels: &mut [u8])
    requires { most_levels_together ≤ length levels.old }
    ensures { LevelsHeld empty levels.old levels.new }
{
    levels[..MOST_LEVELS_TOGETHER].fill(0);
}

// What the tests of a line need of the plan read so far.
fn so_far(plan: &Plan) -> SoFar
    ensures { result ≡ so_far plan.now }
{
    SoFar {
        events: plan.events,
        records: plan.count,
        levels: plan.used,
    }
}

// Where the first line of what is left ends, with its line feed; a line that has none has no end.
fn line_end(rest: &[u8]) -> Option<usize>
    ensures { result ≡ position (λ x. x == line_feed) rest.now }
{
    text::find(rest, LINE_FEED)
}

// The lines of a text from the top, and in each line its fields, up to the first fault, with which both loops are left. Each line ends with a line feed,
// the last one too, and there is at least one.
fn read_lines(text: &[u8], plan: &mut Plan, levels: &mut [u8]) -> Result<(), Refusal>
    requires { (length text.now ≤ most_bytes) × (most_levels_together ≤ length levels.old)
        × Holds empty plan.old × LevelsHeld empty levels.old levels.old }
    ensures { Walked (read_pieces (split line_feed text.now) 1 empty) levels.old plan.new levels.new result }
{
    let mut number = 1;
    let mut rest = text;
    let fault = 'lines: loop {
        let Some(end) = line_end(rest) else {
            if number != 1 && rest.is_empty() {
                return Ok(());
            }
            break 'lines Fault::WrongForm;
        };
        let bytes = &rest[..end];
        let mut line = fields::begin(bytes, number);
        // `tab` is where a field ends, as `field_after` answers.
        let mut tab = line.first;
        while tab < bytes.len() {
            let Some((v, next)) = fields::field_after(bytes, tab) else {
                break 'lines Fault::WrongForm;
            };
            line::store_level(line, plan.used, v, levels);
            line = fields::with_number(line, v);
            tab = next;
        }
        let effect = match line::take(line, so_far(plan), levels) {
            Ok(effect) => effect,
            Err(fault) => break 'lines fault,
        };
        match effect {
            Effect::Head(events, horizon) => {
                plan.events = events;
                plan.horizon = horizon;
            }
            Effect::Entry(record) => {
                plan.records[plan.count] = record;
                plan.count += 1;
                plan.used += usize::from(record.count);
            }
        }
        rest = &rest[end + 1..];
        number += 1;
    };
    Err(Refusal {
        fault,
        line: number,
    })
}

// What a text says: a plan, whose levels stand in the lent area, or its first fault and the line of it.
pub fn read(text: &[u8], levels: &mut [u8]) -> Result<Plan, Refusal>
    ensures { Read text.now levels.old levels.new result }
{
    if levels.len() < MOST_LEVELS_TOGETHER {
        return Err(Refusal {
            fault: Fault::AreaTooShort,
            line: 0,
        });
    }
    clear(levels);
    if MOST_BYTES < text.len() {
        return Err(Refusal {
            fault: Fault::TooMany,
            line: 0,
        });
    }
    let mut plan = plan::empty_plan();
    match read_lines(text, &mut plan, levels) {
        Ok(()) => Ok(plan),
        Err(refusal) => {
            clear(levels);
            Err(refusal)
        }
    }
}
