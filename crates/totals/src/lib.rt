// The week in numbers: running totals of what happened, message by message. What counts under which name stands in specs/.
#![tactic(auto)]

ghost use Rattle.std.specs.Prelude.{◌≡◌, false, ◌+◌, ◌<◌, ◌≤◌, replicate};
ghost use Rattle.std.specs.declared.option.Option.TheVariants.{None};
ghost use Rattle.totals.specs.Totals.{counted_in, totals_of, blank, LeavesTotals, LeavesCounts};
ghost use Rattle.totals.specs.Private.{count_mark, results_from, count_marks, MarksWithin, fills, full_among, raised, with_cars, raised_all};

// The most that a total holds.
pub const MOST: u32 = 4294967295;

// A total: messages of a kind, answers with a number, results taken by op (stuck ones as failed), drives done, and the most cars.
#[derive(Clone, Copy)]
pub enum Name {
    Kind(u8),
    Number(u8),
    Done(u8),
    Failed(u8),
    CarsIn,
    CarsOut,
    MostCars,
}

// The totals in the report's order: kinds 1 to 5, the answers 0 to 33 by number, done 1 to 5, failed 1 to 5, cars in, cars out, most cars.
#[derive(Clone, Copy)]
pub struct Totals {
    pub counts: [u32; 52],
}

// What is counted of one message.
// Kept: its numbers are those of the formats, and callers hand them to `count` as bytes; a narrower type would ask more of them.
#[derive(Clone, Copy)]
pub struct Happened {
    // its kind, 1 to 5; 0 where none was read that is known
    pub kind: u8,
    // the number of the answer of kind 128; 255 where there was none
    pub answer: u8,
    // the op, 1 to 5, of the instruction whose result was taken; 0 where none was
    pub op: u8,
    // whether that result was done; one that failed or is stuck was not
    pub done: bool,
    // the drive that was done: 1 in, 2 out; 0 where none was
    pub drive: u8,
    // how many cars the record has afterwards
    pub cars: u8,
}

// The totals after a message; or as they were, and the place of the first that is full.
#[derive(Clone, Copy)]
pub struct Tally {
    pub totals: Totals,
    pub full: Option<u8>,
}

// The numbers before anything is counted.
fn nothing_counted() -> [u32; 52]
    ensures { result ≡ replicate 52 0 }
{
    [0; 52]
}

impl Totals {
    // The totals before anything happened.
    pub fn blank() -> Totals
        ensures { result ≡ blank }
    {
        let counts = nothing_counted();
        Totals { counts }
    }
}

// A place of the totals, and what is added there: 1 or 0.
#[derive(Clone, Copy)]
struct Mark {
    at: usize,
    more: u32,
}

// The places at which a message counts.
// Kept: four fields and no [Mark; 4]: each mark has a part of the totals of its own, and that no two meet is said of them by name.
#[derive(Clone, Copy)]
struct Marks {
    kind: Mark,
    answer: Mark,
    result: Mark,
    drive: Mark,
}

// Where x counts, if it is one of the n numbers from a on, whose totals stand from place p on.
fn marked(p: usize, n: usize, a: usize, x: u8) -> Mark
    requires { (p + n < 53) × (a < 2) }
    ensures { result ≡ count_mark p n a x }
{
    let x = x as usize;
    if (a <= x) & (x < a + n) {
        return Mark {
            at: p + (x - a),
            more: 1,
        };
    }
    Mark { at: p, more: 0 }
}

fn results_from(done: bool) -> usize
    ensures { result ≡ results_from done }
{
    if done { 39 } else { 44 }
}

fn marks_of(h: Happened) -> Marks
    ensures { result ≡ count_marks h }
{
    let kind = marked(0, 5, 1, h.kind);
    let answer = marked(5, 34, 0, h.answer);
    let result = marked(results_from(h.done), 5, 1, h.op);
    let drive = marked(49, 2, 1, h.drive);
    Marks {
        kind,
        answer,
        result,
        drive,
    }
}

// Whether the total at a mark's place is about to pass the most.
fn fills_at(counts: &[u32; 52], m: Mark) -> bool
    requires { m.at < 52 }
    ensures { result ≡ fills counts.now m }
{
    (m.more == 1) & (MOST <= counts[m.at])
}

// The first place at which one is. That none is, is told first and by one test.
fn first_full(counts: &[u32; 52], m: Marks) -> Option<u8>
    requires { MarksWithin m }
    ensures { result ≡ full_among counts.now m }
{
    let by_kind = fills_at(counts, m.kind);
    let by_answer = fills_at(counts, m.answer);
    let by_result = fills_at(counts, m.result);
    let by_drive = fills_at(counts, m.drive);
    if !(by_kind | by_answer | by_result | by_drive) {
        return None;
    }
    if by_kind {
        return Some(m.kind.at as u8);
    }
    if by_answer {
        return Some(m.answer.at as u8);
    }
    if by_result {
        return Some(m.result.at as u8);
    }
    Some(m.drive.at as u8)
}

fn raise(counts: &mut [u32; 52], m: Mark)
    requires { (m.at < 52) × (m.more ≤ 1) × (fills counts.old m ≡ false) }
    ensures { counts.new ≡ raised counts.old m }
{
    counts[m.at] += m.more;
}

fn raise_cars(counts: &mut [u32; 52], cars: u8)
    ensures { counts.new ≡ with_cars counts.old cars }
{
    counts[51] = counts[51].max(cars as u32);
}

fn raise_all(counts: &mut [u32; 52], m: Marks, h: Happened)
    requires { (m ≡ count_marks h) × (full_among counts.old m ≡ None) }
    ensures { counts.new ≡ raised_all counts.old h }
{
    raise(counts, m.kind);
    raise(counts, m.answer);
    raise(counts, m.result);
    raise(counts, m.drive);
    raise_cars(counts, h.cars);
}

// What happened counted where the totals stand; or the place of the first that is full, and all stay as they were.
pub fn count_at(counts: &mut [u32; 52], h: Happened) -> Option<u8>
    ensures { LeavesCounts (counted_in (totals_of counts.old) h) result counts.new }
{
    let m = marks_of(h);
    let full = first_full(counts, m);
    if full.is_none() {
        raise_all(counts, m, h);
    }
    full
}

// The same by value.
pub fn counted(t: Totals, h: Happened) -> Tally
    ensures { result ≡ counted_in t h }
{
    let mut counts = t.counts;
    let full = count_at(&mut counts, h);
    let totals = Totals { counts };
    Tally { totals, full }
}

// What happened counted in totals that are lent; or the place of the first that is full, and all stay as they were.
pub fn count(t: &mut Totals, h: Happened) -> Option<u8>
    ensures { LeavesTotals (counted_in t.old h) result t.new }
{
    let c = counted(*t, h);
    *t = c.totals;
    c.full
}
