// When a bound fails: the closed chain that it makes with the bounds before it.
#![tactic(auto)]

ghost use Rattle.std.specs.Prelude.{◌≡◌, ℕ, [], ◌∷◌, ◌++◌, ◌≤◌, ◌<◌, length};
ghost use Rattle.std.specs.Int.Count.{ones};
ghost use Rattle.eventset.specs.Sets.{bits_of};
ghost use Rattle.meaning.specs.Plan.{most_events};
ghost use Rattle.chain.specs.Clash.{bound_of, bounds_of, Tight, Broken, Found};
ghost use Rattle.chain.specs.Marks.{no_notes, note as noteIn, Looking, Decided, Look, Scanning, Scanned, Marking, Reached};
ghost use Rattle.chain.specs.Marks.{Visiting, Visited, Writing, Written};

use distances::Matrix;
use eventset::EventSet;
use scope::MOST_EVENTS;

// The event `end` comes at most `weight` after the event `start`.
#[derive(Clone, Copy)]
pub struct Bound {
    pub start: u8,
    pub end: u8,
    pub code: u16,
    pub weight: i32,
}

// What is noted of a bound at its start: where it ends, and its code.
#[derive(Clone, Copy)]
struct Note {
    next: u8,
    code: u16,
}

// Marked events, and at each of them the note of the bound by which it was marked.
#[derive(Drop)]
struct Marked {
    events: EventSet,
    notes: [Note; MOST_EVENTS],
}

// Is the bound tight towards a? The distance from its end to a is the sum of the weights along a way; this adds one more.
fn tight(d: &Matrix, b: Bound, a: usize) -> bool
    requires { Looking d.now.entries a (bound_of b) }
    ensures { Decided (Tight d.now.entries a (bound_of b)) result }
{
    let u = usize::from(b.start);
    let v = usize::from(b.end);
    d.distance(u, a) == b.weight + d.distance(v, a)
}

impl Marked {
    // No event is marked yet.
    fn none() -> Marked
        ensures unmarked { bits_of result.events ≡ 0 }
        ensures blank { result.notes ≡ no_notes }
    {
        let blank = Note { next: 0, code: 0 };
        Marked {
            events: EventSet::empty(),
            notes: [blank; MOST_EVENTS],
        }
    }

    // Notes a bound at its start.
    fn note(&mut self, b: Bound)
        requires { (bound_of b).start < most_events }
        ensures same_events { self.new.events ≡ self.old.events }
        ensures noted { self.new.notes ≡ noteIn self.old.notes (bound_of b) }
    {
        self.notes[usize::from(b.start)] = Note {
            next: b.end,
            code: b.code,
        };
    }

    // Looks at a bound: where its end is marked, its start is not and it is tight, its start is marked and the bound noted there.
    fn look(&mut self, d: &Matrix, b: Bound, a: usize)
        requires { Looking d.now.entries a (bound_of b) }
        ensures { Look d.now.entries a (bound_of b) (bits_of self.old.events) self.old.notes (bits_of self.new.events) self.new.notes }
    {
        let u = usize::from(b.start);
        let v = usize::from(b.end);
        if !self.events.has(u) && self.events.has(v) && tight(d, b, a) {
            self.events = self.events.put(u);
            self.note(b);
        }
    }

    // One scan of the list.
    fn scan(&mut self, list: &[Bound], d: &Matrix, a: usize)
        requires { Scanning (bounds_of list.now) d.now.entries a self.old.notes }
        ensures { Scanned (bounds_of list.now) d.now.entries a (bits_of self.old.events) self.old.notes
            (bits_of self.new.events) self.new.notes }
    {
        for &b in list {
            self.look(d, b, a);
        }
    }

    // Marks a, and events from there backwards until b is marked.
    fn reach(&mut self, list: &[Bound], d: &Matrix, a: usize, b: usize)
        requires { Marking (bounds_of list.now) d.now.entries a b (bits_of self.old.events) self.old.notes }
        ensures { Reached (bounds_of list.now) d.now.entries a b (bits_of self.new.events) self.new.notes }
    {
        self.events = self.events.put(a);
        while !self.events.has(b) {
            self.scan(list, d, a);
        }
    }

    // The events on the way from b to a by the notes.
    fn visited(&self, a: usize, b: usize) -> EventSet
        requires { Visiting self.now.notes a b }
        ensures { Visited self.now.notes a b (bits_of result) }
    {
        let mut seen = EventSet::empty();
        let mut e = b;
        while e != a {
            seen = seen.put(e);
            e = usize::from(self.notes[e].next);
        }
        seen.put(e)
    }

    // Writes the codes of a closed chain from one of its events on, by the notes: as many steps as it has events. Returns their number. By index: after
    // `iter_mut` over a part of a slice a proof knows how many codes there are, and none of them.
    fn write(&self, from: usize, seen: EventSet, out: &mut [u16]) -> usize
        requires { Writing self.now.notes from (ones (bits_of seen)) out.old }
        ensures { Written self.now.notes from (ones (bits_of seen)) out.old result out.new }
    {
        let count = seen.count();
        let mut e = from;
        for i in 0..count {
            out[i] = self.notes[e].code;
            e = usize::from(self.notes[e].next);
        }
        count
    }
}

// A bound cannot be kept with those before it, whose distances are d: writes the codes of a chain that shows it, from its least event on.
// Returns the number of steps.
pub fn chain_of(before: &[Bound], last: Bound, d: &Matrix, out: &mut [u16]) -> usize
    requires { ((n : ℕ) × Broken (bounds_of before.now) (bound_of last) d.now.entries n) × (most_events ≤ length out.old) }
    ensures { Found (bounds_of before.now ++ (bound_of last ∷ [])) out.old result out.new }
{
    let a = usize::from(last.start);
    let b = usize::from(last.end);
    let mut marked = Marked::none();
    marked.reach(before, d, a, b);
    marked.note(last);
    let seen = marked.visited(a, b);
    let from = seen.lowest();
    marked.write(from, seen, out)
}
