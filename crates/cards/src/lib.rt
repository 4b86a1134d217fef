// Card numbers that follow cars: 42 elements, one for each cell, at a car's first, one for the raised lift, and the one that waits while a
// drive-in is under way.
#![tactic(auto)]

ghost use Rattle.std.specs.Prelude.{◌≡◌, ◌<◌, eqb, length};
ghost use Rattle.std.specs.List.{position};
ghost use Rattle.bits.specs.Bits.{bit};
ghost use Rattle.bits.specs.Search.{some};
ghost use Rattle.rules.specs.declared.Event.{Event};
ghost use Rattle.cards.specs.Given.{bears, wanted, given_as};
ghost use Rattle.cards.specs.Held.{place_of_element, numbers_in, cards_after, cards_driven, cards_given, cards_fit, is_known, where_is};
ghost use Rattle.cards.specs.Private.{number_from, given_at, stand_right, repeats};

use floor::masks::RAISED;
use rules::{Event, Instruction};

mod sources;

// Why the numbers that come with an image cannot be taken.
#[derive(Clone, Copy)]
pub enum GivenError {
    WrongCount,
    ZeroNumber,
    TwiceGiven,
}

// ---- elements and places

// The bit of a drive-in, where its number waits.
const COMING: u64 = 55;

// The number at a place; none comes from nowhere.
#[tactic(auto, unfolding(crate::specs::Held::numbers_in))]
fn number_at(n: &[u32; 42], from: Option<u64>) -> u32
    ensures { result ≡ number_from (numbers_in n.now) from }
{
    let Some(k) = from else {
        return 0;
    };
    if k < 40 {
        return n[k as usize];
    }
    if k == RAISED {
        return n[40];
    }
    if k == COMING {
        return n[41];
    }
    0
}

// The place of which an element is the number.
fn place_of(j: u8) -> u8
    ensures { result ≡ place_of_element j }
{
    if j < 40 {
        return j;
    }
    if j == 40 {
        return RAISED as u8;
    }
    COMING as u8
}

// Whether a number stands at the place of an element.
fn bears(r: u64, j: u8) -> bool
    ensures { result ≡ bears (bit r) (place_of_element j) }
{
    let on = bits::bit(r, place_of(j) as u64);
    if j < 20 {
        return on & bits::even(r, (1 << j) - 1);
    }
    on
}

// ---- the numbers after what succeeds or is driven

// The numbers after an instruction has succeeded on the record.
pub fn numbers_after(i: Instruction, r: u64, n: [u32; 42]) -> [u32; 42]
    ensures { result ≡ cards_after i r n }
{
    if !rules::well_formed(i) {
        return n;
    }
    let at = sources::low(r);
    let mut new: [u32; 42] = [0; 42];
    for j in 0..42 {
        new[j as usize] = number_at(&n, sources::source(i, at, place_of(j)));
    }
    new
}

// The numbers with c waiting.
fn waiting(n: [u32; 42], c: u32) -> [u32; 42]
    ensures { result ≡ cards_driven Event.BeginIn c n }
{
    let mut new = n;
    new[41] = c;
    new
}

// The numbers with the one that waited on the raised lift.
fn arrived(n: [u32; 42]) -> [u32; 42]
    ensures { result ≡ cards_driven Event.EndDone 0 n }
{
    let mut new = n;
    new[40] = n[41];
    new[41] = 0;
    new
}

// The numbers after a car event, where c is the number that a begin of a drive-in brings.
pub fn numbers_driven(e: Event, c: u32, n: [u32; 42]) -> [u32; 42]
    ensures { result ≡ cards_driven e c n }
{
    match e {
        Event::BeginIn => waiting(n, c),
        Event::BeginOut => n,
        Event::EndDone => arrived(n),
        Event::EndNotDone => waiting(n, 0),
    }
}

// ---- the numbers of an image

// The number that a place is given: the one at t, or none.
fn given(ns: &[u32; 31], t: u8, here: bool) -> u32
    ensures { result ≡ given_at ns.now t here }
{
    if here {
        if t < 31 {
            return ns[t as usize];
        }
        return 0;
    }
    0
}

// The numbers that come with an image, given to its cars in the order of the cells, the raised lift last, and then to a drive-in under way.
pub fn numbers_given(r: u64, ns: [u32; 31]) -> [u32; 42]
    ensures { result ≡ cards_given r ns }
{
    let mut new: [u32; 42] = [0; 42];
    let mut t: u8 = 0;
    for j in 0..42 {
        let here = bears(r, j);
        new[j as usize] = given(&ns, t, here);
        t += here as u8;
    }
    new
}

// The first element that is the number.
fn first(ns: &[u32], c: u32) -> Option<usize>
    ensures { result ≡ position (λ x. eqb x c) ns.now }
{
    ns.iter().position(|x| *x == c)
}

// Whether an element, unless it is 0, is among those before it.
fn repeats(ns: &[u32], j: usize) -> bool
    requires { j < length ns.now }
    ensures { result ≡ repeats ns.now j }
{
    ns[j] != 0 && first(&ns[..j], ns[j]).is_some()
}

// Whether one of them does.
fn one_repeats(ns: &[u32]) -> bool
    ensures { result ≡ some (length ns.now) (repeats ns.now) }
{
    for j in 0..ns.len() {
        if repeats(ns, j) {
            return true;
        }
    }
    false
}

// How many numbers an image comes with.
fn wanted(r: u64) -> u64
    ensures { result ≡ wanted r }
{
    floor::cars(r).unwrap_or(0) + bits::bit(r, COMING) as u64
}

// Whether the first numbers of ns, so many of them, can be taken with an image.
pub fn given_as(r: u64, count: u8, ns: [u32; 31]) -> Result<(), GivenError>
    ensures { result ≡ given_as r count ns }
{
    if count as u64 != wanted(r) {
        return Err(GivenError::WrongCount);
    }
    let come = &ns[..count as usize];
    if first(come, 0).is_some() {
        return Err(GivenError::ZeroNumber);
    }
    if one_repeats(come) {
        return Err(GivenError::TwiceGiven);
    }
    Ok(())
}

// A number stands exactly where the record has a car, or a drive-in under way.
fn stand_right(r: u64, n: [u32; 42]) -> bool
    ensures { result ≡ stand_right r n }
{
    for j in 0..42 {
        if (n[j as usize] != 0) != bears(r, j) {
            return false;
        }
    }
    true
}

// Whether the numbers fit the record.
pub fn fits(r: u64, n: [u32; 42]) -> bool
    ensures { result ≡ cards_fit r n }
{
    stand_right(r, n) & !one_repeats(&n)
}

// ---- where a card's car is

// Whether a number is in the garage, or waits.
#[tactic(auto, unfolding(crate::specs::Held::is_known))]
pub fn known(n: [u32; 42], c: u32) -> bool
    ensures { result ≡ is_known n c }
{
    first(&n, c).is_some()
}

// The place of a number, 64 if no car in the garage has it.
// Kept: a number and no Option, as the theorem WhereRight says it (cards_laws).
#[tactic(auto, unfolding(crate::specs::Held::where_is))]
pub fn where_is(n: [u32; 42], c: u32) -> u8
    ensures { result ≡ where_is n c }
{
    if c == 0 {
        return 64;
    }
    match first(&n[..41], c) {
        Some(j) => place_of(j as u8),
        None => 64,
    }
}
