// The three calls. Each contract is an equation with a definition of the crate `engine`: every number returned and every byte lent, for
// every byte string of any length. Compose and Decide say besides what demand 3 asks of the answers that they give.
#![tactic(auto)]

ghost use Rattle.std.specs.Prelude.{◌≡◌};
ghost use Rattle.engine.specs.Calls as Calls;
ghost use Rattle.snowdell.specs.Promised.{Promised, compose_says, decide_says};
ghost use Rattle.snowdell.specs.Returned.{checked_of};
ghost use Rattle.composing.specs.Composition.{composed_of};
ghost use Rattle.deciding.specs.Decision.{decided_of};

use algebra::Counts;
use composing::{Composed, compose_within};
use deciding::{Decided, decide_within};
use reading::Reading;
use rows::{Refusal, Refused};
use sets::clear;

// ---- Check

// Reads the file; how many members each sort has.
pub fn check(f: &[u8]) -> Result<Counts, Refused>
    ensures { checked_of result ≡ Calls.check f.now }
{
    let mut w = [0u8; 8192];
    let mut read = Reading::new();
    read.read(f, &mut w)?;
    Ok(read.state.names.counts())
}

// ---- Compose and Decide. Row 1 comes first; all else is done in buffers that are large enough, and the memory is cleared once for every way out.

const SHORT_BUFFER: Refused = Refused {
    refusal: Refusal::ShortBuffer,
    line: 0,
    place: 0,
};

// Writes the answer to every access.
pub fn compose(f: &[u8], res: &mut [u8], w: &mut [u8]) -> Result<Composed, Refused>
    ensures w_after { composed_of result res.new w.new ≡ Calls.compose f.now res.old w.old }
    ensures promised { Promised f.now (compose_says result res.new) }
{
    let short = res.len() < 4096;
    if short || w.len() < 65536 {
        return Err(SHORT_BUFFER);
    }
    let composed = compose_within(f, res, w);
    clear(w);
    composed
}

// Gives the answer to one access, by its names.
pub fn decide(f: &[u8], s: &[u8], o: &[u8], a: &[u8], w: &mut [u8]) -> Result<Decided, Refused>
    ensures w_after { decided_of result w.new ≡ Calls.decide f.now s.now o.now a.now w.old }
    ensures promised { Promised f.now (decide_says f.now s.now o.now a.now result) }
{
    if w.len() < 65536 {
        return Err(SHORT_BUFFER);
    }
    let decided = decide_within(f, s, o, a, w);
    clear(w);
    decided
}
