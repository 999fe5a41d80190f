// The set of a table, from the grants in lent working memory.
#![tactic(auto)]

ghost use Rattle.std.specs.Prelude.{◌≡◌, ◌≤◌, ◌<◌, eqb, length};
ghost use Rattle.algebra.specs.Lists.{any};
ghost use Rattle.algebra.specs.Answer.{sure};
ghost use Rattle.sets.specs.Sets.{put_set, Room};
ghost use Rattle.algebra.specs.Grants.{grant_at_lem, grants_of};

use sets::{GRANTS, SET};

// The i-th grant, 4096 × table + access.
fn grant_at(listed: &[u8], i: usize) -> usize
    requires { (i < 4096) × (8192 ≤ length listed.now) }
    ensures { result ≡ grant_at_lem 0 listed.now i }
{
    usize::from(listed[2 * i]) + 256 * usize::from(listed[2 * i + 1])
}

// Set k becomes that of a table that is here: what the first `grants` grants give it.
pub fn fill_here(w: &mut [u8], k: usize, n: usize, table: usize, grants: usize)
    requires { Room k n w.old × (grants ≤ 4096) }
    ensures { w.new ≡ put_set k n (λ x. sure (any (eqb x) (grants_of 57344 table grants w.old))) w.old }
{
    let (sets, listed) = w.split_at_mut(GRANTS);
    let set = &mut sets[k * SET..k * SET + n];
    set.fill(0);
    for i in 0..grants {
        let g = grant_at(listed, i);
        if g / SET == table {
            let x = g % SET;
            if x < n {
                set[x] = 2;
            }
        }
    }
}
