// Composes a policy: the tree of its expression, run by recursion over its nodes on sets of answers in lent working memory.
#![tactic(auto)]

ghost use Rattle.std.specs.Prelude.{◌≡◌, ◌∷◌, ℕ, ◌+◌, ◌*◌, ◌≤◌, ◌<◌, length};
ghost use Rattle.arrayvec.specs.ArrayVec.{array_vec_len};
ghost use Rattle.algebra.specs.Sort as policy;
ghost use Rattle.algebra.specs.Order.{Ordered};
ghost use Rattle.algebra.specs.Policy.{Frame, Policy, members};
ghost use Rattle.algebra.specs.StoredFrame.{total, size_of, Stands};
ghost use Rattle.orders.specs.Orders.{parents_of};
ghost use Rattle.algebra.specs.declared.Counts.{Counts};
ghost use Rattle.plans.specs.Stored.{Ready};
ghost use Rattle.std.proofs.Props.{props};
ghost use Rattle.plans.proofs.Once.{EachOfGrant-prop, Each-prop};
ghost use Rattle.composer.specs.Compose.{Composes, Composed, Listed};

use algebra::{Counts, Rule, Sort};
use arrayvec::ArrayVec;
use closure::closure;
use grants::fill_here;
use nodes::{Node, part_start};
use orders::fill_order;
use scopes::scope;
use sets::{combine, copy_set, fill_away, replace};

// How many accesses there are.
pub fn accesses(n: Counts) -> usize
    ensures { result ≡ total n }
{
    usize::from(n.subjects) * usize::from(n.objects) * usize::from(n.actions)
}

// The sets of the bindings in force, once set k is bound within those of `outer`. The innermost is the first.
fn within(outer: &ArrayVec<u8, 4>, k: usize) -> ArrayVec<u8, 4>
    requires { (array_vec_len outer.now < 4) × (k < 14) }
    ensures { result.items ≡ k ∷ outer.now.items }
{
    let mut bound = ArrayVec::new();
    bound.push(k as u8);
    for set in outer.as_slice() {
        bound.push(*set);
    }
    bound
}

// What a policy is composed by besides its expression: the table of its frame, its rules, which tables are here, how many grants the working memory has,
// how many members each sort has, and the limit.
#[derive(Clone, Copy)]
pub struct Setting<'a> {
    pub table: &'a [u8; 16384],
    pub rules: &'a [Rule],
    pub here: [bool; 16],
    pub grants: usize,
    pub counts: Counts,
    pub limit: usize,
    ghost ready: { Ready counts (total counts) rules.now } by { Prim.hlevel (props, EachOfGrant-prop, Each-prop) },
    ghost few_grants: { grants ≤ 4096 },
    ghost low_limit: { limit ≤ 4096 },
}

impl Setting<'_> {
    ghost use Rattle.sets.specs.Sets.{put_set, Room};
    ghost use Rattle.plans.specs.Stored.{Stored};
    ghost use Rattle.algebra.specs.Answer.{Answer};
    ghost use Rattle.composer.specs.Run.{table_in, Below, InForce, ClosedAt, Sized, FewRounds, AllAnswered};

    // ---- one node

    // Set k becomes that of a table.
    fn put_table(&self, w: &mut [u8], k: usize, table: usize)
        requires { Room k (total self.now.counts) w.old × (table < 16) }
        ensures { w.new ≡ put_set k (total self.now.counts) (table_in self.now.here self.now.grants w.old table) w.old }
    {
        let size = accesses(self.counts);
        if self.here[table] {
            fill_here(w, k, size, table, self.grants);
        } else {
            fill_away(w, k, size);
        }
    }

    // Set k becomes that of a number: of a binding in force, or else of a table, whose number is counted from those on.
    fn put_named(&self, w: &mut [u8], k: usize, bound: &ArrayVec<u8, 4>, number: u8)
        requires room { Room k (total self.now.counts) w.old }
        requires named { (number < array_vec_len bound.now + 16) × Below k bound.now.items }
        ensures { (T : ℕ → ℕ → Answer) → InForce self.now bound.now.items (total self.now.counts) w.old T
            → w.new ≡ put_set k (total self.now.counts) (T number) w.old }
    {
        let number = usize::from(number);
        let bound = bound.as_slice();
        if number < bound.len() {
            copy_set(w, k, usize::from(bound[number]), accesses(self.counts));
        } else {
            self.put_table(w, k, number - bound.len());
        }
    }

    // The closure of set k, and the rounds used.
    fn close_set(&self, w: &mut [u8], k: usize, set: u8) -> usize
        requires { Room k (total self.now.counts) w.old }
        ensures bounded { result ≤ self.now.limit }
        ensures closed { (fr : Frame) → Stored fr self.now.counts self.now.table.now self.now.rules.now
            → ClosedAt fr set self.now.limit k w.old result w.new }
    {
        let at = k * 4096;
        let end = at + accesses(self.counts);
        closure(
            &mut w[at..end],
            self.table,
            self.rules,
            self.counts,
            set,
            self.limit,
        )
    }

    // ---- a tree

    // The answers of the tree whose own node is the last come to set k. The result is the sum of the rounds. Its parts stand before its own node, each
    // ending where the next begins; a part's answers come to a set above those of the parts run before it. F of a template is run outside the binding,
    // and once: its set is that of x while E is run.
    fn run(&self, w: &mut [u8], nodes: &[Node], k: usize, bound: &ArrayVec<u8, 4>) -> usize
        requires sized { Sized self.now.counts nodes.now (length nodes.now) k (array_vec_len bound.now) × Below k bound.now.items }
        requires w_len { 65536 ≤ length w.old }
        ensures few_rounds { FewRounds nodes.now (length nodes.now) result }
        ensures all_answered { (fr : Frame) → Stored fr self.now.counts self.now.table.now self.now.rules.now
            → AllAnswered fr nodes.now (length nodes.now) k bound.now.items self.now w.old result w.new }
    {
        let own = nodes.len() - 1;
        match nodes[own] {
            Node::Table(number) => {
                self.put_named(w, k, bound, number);
                0
            }
            Node::Join(sign) => {
                let mid = part_start(&nodes[..own]);
                let left = self.run(w, &nodes[..mid], k, bound);
                let right = self.run(w, &nodes[..own], k + 1, bound);
                combine(w, k, accesses(self.counts), sign);
                left + right
            }
            Node::Override => {
                let third = part_start(&nodes[..own]);
                let second = part_start(&nodes[..third]);
                let one = self.run(w, &nodes[..second], k, bound);
                let two = self.run(w, &nodes[..third], k + 1, bound);
                let three = self.run(w, &nodes[..own], k + 2, bound);
                replace(w, k, accesses(self.counts));
                one + two + three
            }
            Node::Scope(c) => {
                let rounds = self.run(w, &nodes[..own], k, bound);
                scope(w, k, self.table, self.counts, c);
                rounds
            }
            Node::Closure(set) => {
                let before = self.run(w, &nodes[..own], k, bound);
                let used = self.close_set(w, k, set);
                before + used
            }
            Node::Template => {
                let mid = part_start(&nodes[..own]);
                let filling = self.run(w, &nodes[..own], k, bound);
                let body = self.run(w, &nodes[..mid], k + 1, &within(bound, k));
                copy_set(w, k, k + 1, accesses(self.counts));
                filling + body
            }
        }
    }

    // Composes a policy, by the nodes of its expression: its answers are then in the first set. The result is the sum of the rounds.
    pub fn compose(&self, w: &mut [u8], nodes: &[Node]) -> usize
        requires sized { Sized self.now.counts nodes.now (length nodes.now) 0 0 }
        requires w_len { 65536 ≤ length w.old }
        ensures { (P : Policy) → Composes P self.now.counts w.old self.now.table.now nodes.now self.now.here self.now.grants self.now.rules.now self.now.limit
            → Composed P w.old result w.new }
    {
        self.run(w, nodes, 0, &ArrayVec::new())
    }
}

// ---- the tables

// Fills the table of a frame: the order of each sort, and from byte 12,288 on the marks.
pub fn tables(
    t: &mut [u8; 16384],
    subjects: &[Option<u8>],
    objects: &[Option<u8>],
    actions: &[Option<u8>],
    marks: &[u8; 1024],
)
    requires few { (length subjects.now ≤ 64) × (length objects.now ≤ 64) × (length actions.now ≤ 64) }
    requires ordered { Ordered (parents_of subjects.now) × Ordered (parents_of objects.now) × Ordered (parents_of actions.now) }
    ensures { (fr : Frame) (n : Counts) → Listed fr subjects.now objects.now actions.now marks.now
        → ((σ : policy.Sort) → members fr σ ≡ size_of n σ) → Stands fr n t.new }
{
    fill_order(t, Sort::Subject, subjects);
    fill_order(t, Sort::Object, objects);
    fill_order(t, Sort::Action, actions);
    t[12288..13312].copy_from_slice(marks);
}
