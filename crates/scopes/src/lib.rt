// A scope on a set of answers in lent working memory.
#![tactic(auto)]

ghost use Rattle.std.specs.Prelude.{◌≡◌, ◌+◌, ◌*◌, ◌≤◌, ◌<◌, get_or};
ghost use Rattle.algebra.specs.Answer.{keep};
ghost use Rattle.algebra.specs.Meant.{sort_meant, op_meant, scope_meant};
ghost use Rattle.algebra.specs.Order.{compares};
ghost use Rattle.algebra.specs.Policy.{Frame, parents, members, accesses, number, in_scope};
ghost use Rattle.algebra.specs.StoredFrame.{total, Sized, Stands};
ghost use Rattle.algebra.specs.declared.Counts.{Counts};
ghost use Rattle.sets.specs.Sets.{answer_at, put_set, Room, Answers};
ghost use Rattle.scopes.specs.Scopes.{Small, Names, member_of};

use algebra::{Action, Comparison, Counts, Object, Scope, Sort, Subject, access, scoped};
use orders::order_start;

// The member of a sort, of three.
fn member(sort: Sort, s: Subject, o: Object, a: Action) -> u8
    ensures { result ≡ member_of (sort_meant sort) s.0 o.0 a.0 }
{
    match sort {
        Sort::Subject => s.0,
        Sort::Object => o.0,
        Sort::Action => a.0,
    }
}

// The byte at row x and column y of the table that begins at `at`.
fn entry(t: &[u8; 16384], at: usize, x: u8, y: u8) -> u8
    requires { (at ≤ 12288) × (x < 64) × (y < 64) }
    ensures { result ≡ get_or t.now (at + x * 64 + y) 0 }
{
    t[at + usize::from(x) * 64 + usize::from(y)]
}

// Whether the member m of a sort compares so with the member x.
fn is_so(t: &[u8; 16384], sort: Sort, comparison: Comparison, m: u8, x: u8) -> bool
    requires small { (m < 64) × (x < 64) }
    ensures { (fr : Frame) (n : Counts) → Stands fr n t.now → m < members fr (sort_meant sort) → x < members fr (sort_meant sort)
        → result ≡ compares (parents fr (sort_meant sort)) (op_meant comparison) m x }
{
    let order = order_start(sort);
    match comparison {
        Comparison::AtMost => entry(t, order, m, x) != 0,
        Comparison::AtLeast => entry(t, order, x, m) != 0,
        Comparison::Below => entry(t, order, m, x) == 1,
        Comparison::Above => entry(t, order, x, m) == 1,
        Comparison::Equal => m == x,
    }
}

// Whether a scope holds an access.
fn is_inside(t: &[u8; 16384], c: Scope, s: Subject, o: Object, a: Action) -> bool
    requires small { Small c }
    requires members { (s.0 < 64) × (o.0 < 64) × (a.0 < 64) }
    ensures { (fr : Frame) (n : Counts) → Stands fr n t.now → Names fr (scope_meant c) → s.0 < n.subjects → o.0 < n.objects → a.0 < n.actions
        → result ≡ in_scope fr (scope_meant c) (number n.objects n.actions s.0 o.0 a.0) }
{
    match c {
        Scope::Compared(sort, comparison, x) => is_so(
            t,
            sort,
            comparison,
            member(sort, s, o, a),
            x,
        ),
        Scope::Marked(sort, predicate) => entry(t, 12288, predicate, member(sort, s, o, a)) == 1,
    }
}

// Set k keeps the answers inside a scope, and the others become 0.
pub fn scope(w: &mut [u8], k: usize, t: &[u8; 16384], z: Counts, c: Scope)
    requires room { Room k (total z) w.old × Sized z }
    requires small { Small c }
    ensures { (fr : Frame) → Stands fr z t.now → Names fr (scope_meant c) → Answers k (accesses fr) w.old
        → w.new ≡ put_set k (accesses fr) (λ x. keep (in_scope fr (scope_meant c) x) (answer_at k w.old x)) w.old }
{
    let at = k * 4096;
    'subjects: for s in 0..z.subjects {
        let s = Subject(s);
        'objects: for o in 0..z.objects {
            let o = Object(o);
            'actions: for a in 0..z.actions {
                let a = Action(a);
                let inside = is_inside(t, c, s, o, a);
                let x = at + access(s, o, a, z);
                w[x] = scoped(w[x], inside);
            }
        }
    }
}
