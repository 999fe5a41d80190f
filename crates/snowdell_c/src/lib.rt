// The calls for programs in C and Rust: each hands its numbers over in a slice and returns the first of them, 0 or the refusal's number.
// Where the slice is too short for them, nothing is done, and a value is returned that no refusal has.
#![tactic(auto)]

ghost use Rattle.std.specs.Prelude.{◌≡◌, List, ℕ};
ghost use Rattle.engine.specs.Calls as Calls;
ghost use Rattle.rows.specs.First.{number_of};
ghost use Rattle.snowdell.specs.Returned.{checked_of};
ghost use Rattle.composing.specs.Composition.{composed_of};
ghost use Rattle.deciding.specs.Decision.{decided_of};
ghost use Rattle.snowdell_c.specs.Handed.{handed, returned, version, where_room, check_numbers, compose_numbers, decide_numbers};

use algebra::Counts;
use composing::Composed;
use deciding::Decided;
use rows::Refused;
use snowdell::{check, compose, decide};

// What a call returns where the slice is too short.
const NO_ROOM: usize = 256;

// The library's version: major × 10,000 + minor × 100 + patch.
const VERSION: usize = 200;

#[unsafe(no_mangle)]
pub extern "C" fn snowdell_version() -> usize
    ensures { result ≡ version }
{
    VERSION
}

// The numbers go to the first places of the slice, if it has so many.
fn hand(ns: &[usize], numbers: &mut [usize])
    ensures { numbers.new ≡ handed ns.now numbers.old }
{
    let n = ns.len();
    if n <= numbers.len() {
        numbers[..n].copy_from_slice(ns);
    }
}

fn number_of(e: Refused) -> usize
    ensures { result ≡ number_of e.refusal }
{
    usize::from(u8::from(e.refusal))
}

// number, line, place, subjects, objects, actions
fn check_numbers(r: Result<Counts, Refused>) -> [usize; 6]
    ensures { result ≡ check_numbers (checked_of r) }
{
    match r {
        Ok(n) => [
            0,
            0,
            0,
            usize::from(n.subjects),
            usize::from(n.objects),
            usize::from(n.actions),
        ],
        Err(e) => [number_of(e), e.line, e.place, 0, 0, 0],
    }
}

// number, line, place, N, permits, undecided, rounds
#[tactic(auto, unfolding(engine::specs::Calls::unchanged))]
fn compose_numbers(r: Result<Composed, Refused>) -> [usize; 7]
    ensures { (res w : List ℕ) → result ≡ compose_numbers (composed_of r res w) }
{
    match r {
        Ok(c) => [0, 0, 0, c.accesses, c.permits, c.undecided, c.rounds],
        Err(e) => [number_of(e), e.line, e.place, 0, 0, 0, 0],
    }
}

// number, line, place, answer, rounds
#[tactic(auto, unfolding(engine::specs::Calls::undecided_by))]
fn decide_numbers(r: Result<Decided, Refused>) -> [usize; 5]
    ensures { (w : List ℕ) → result ≡ decide_numbers (decided_of r w) }
{
    match r {
        Ok(d) => [0, 0, 0, usize::from(d.answer), d.rounds],
        Err(e) => [number_of(e), e.line, e.place, 0, 0],
    }
}

#[unsafe(no_mangle)]
pub extern "C" fn snowdell_check(f: &[u8], numbers: &mut [usize]) -> usize
    ensures value { result ≡ returned (check_numbers (Calls.check f.now)) numbers.old }
    ensures numbers_after { numbers.new ≡ handed (check_numbers (Calls.check f.now)) numbers.old }
{
    if numbers.len() < 6 {
        return NO_ROOM;
    }
    let ns = check_numbers(check(f));
    hand(&ns, numbers);
    ns[0]
}

#[unsafe(no_mangle)]
pub extern "C" fn snowdell_compose(
    f: &[u8],
    res: &mut [u8],
    w: &mut [u8],
    numbers: &mut [usize],
) -> usize
    ensures value { result ≡ returned (compose_numbers (Calls.compose f.now res.old w.old)) numbers.old }
    ensures numbers_after { numbers.new ≡ handed (compose_numbers (Calls.compose f.now res.old w.old)) numbers.old }
    ensures res_after { res.new ≡ where_room 7 numbers.old (Calls.compose f.now res.old w.old).result res.old }
    ensures w_after { w.new ≡ where_room 7 numbers.old (Calls.compose f.now res.old w.old).memory w.old }
{
    if numbers.len() < 7 {
        return NO_ROOM;
    }
    let ns = compose_numbers(compose(f, res, w));
    hand(&ns, numbers);
    ns[0]
}

#[unsafe(no_mangle)]
pub extern "C" fn snowdell_decide<'a>(
    f: &'a [u8],
    s: &'a [u8],
    o: &'a [u8],
    a: &'a [u8],
    w: &mut [u8],
    numbers: &mut [usize],
) -> usize
    ensures value { result ≡ returned (decide_numbers (Calls.decide f.now s.now o.now a.now w.old)) numbers.old }
    ensures numbers_after { numbers.new ≡ handed (decide_numbers (Calls.decide f.now s.now o.now a.now w.old)) numbers.old }
    ensures w_after { w.new ≡ where_room 5 numbers.old (Calls.decide f.now s.now o.now a.now w.old).memory w.old }
{
    let short = numbers.len() < 5;
    if short {
        return NO_ROOM;
    }
    let ns = decide_numbers(decide(f, s, o, a, w));
    hand(&ns, numbers);
    ns[0]
}
