// Compose within buffers that are large enough.
#![tactic(auto)]

ghost use Rattle.std.specs.Prelude.{◌≡◌, ◌≤◌, length};
ghost use Rattle.algebra.specs.Bytes.{cleared};
ghost use Rattle.engine.specs.Calls as Calls;
ghost use Rattle.composing.specs.Composition.{composed_of};

use composer::accesses;
use reading::Reading;
use rows::Refused;
use running::{read_into, run_policy};
use sets::{copy, count};

// How many accesses there are, how many of them are permitted and undecided, and the rounds.
#[derive(Clone, Copy)]
pub struct Composed {
    pub accesses: usize,
    pub permits: usize,
    pub undecided: usize,
    pub rounds: usize,
}

// Compose with buffers that are large enough; the first 65,536 bytes of the memory are left as they fall.
pub fn compose_within(f: &[u8], res: &mut [u8], w: &mut [u8]) -> Result<Composed, Refused>
    requires { (4096 ≤ length res.old) × (65536 ≤ length w.old) }
    ensures w_after { composed_of result res.new (cleared w.old) ≡ Calls.compose f.now res.old w.old }
    ensures w_unchanged { cleared w.new ≡ cleared w.old }
{
    let mut read = Reading::new();
    read_into(&mut read, f, w)?;
    let n = accesses(read.state.names.counts());
    let rounds = run_policy(w, &read);
    copy(w, res, n);
    let permits = count(w, n, 2);
    let undecided = count(w, n, 1);
    Ok(Composed {
        accesses: n,
        permits,
        undecided,
        rounds,
    })
}
