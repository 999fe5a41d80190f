// Looking up a name among those that are declared.
#![tactic(auto)]

pub mod table;

ghost use Rattle.std.specs.Prelude.{◌≡◌, ◌≤◌, ◌<◌, [], length, IfSome};
ghost use Rattle.std.proofs.Math.Option.{none};
ghost use Rattle.algebra.specs.Meant.{sort_meant, found_of};
ghost use Rattle.grammar.specs.Lookup.{same, position};
ghost use Rattle.grammar.specs.Names.{member};
ghost use Rattle.name_index.specs.Entries.{names_of, LooksUp};
ghost use Rattle.names.specs.Looks.{kind_of, is_predicate, lookup_of, members_of, member_count, most_members, counts_of, Added};

use algebra::{Counts, Sort};
use name_index::{Entry, Lookup, Members};
use short_list::ShortList;
pub use table::{FileNames, MOST_ACTIONS, MOST_OTHERS, Names};

// What a name is asked for as.
#[derive(Clone, Copy)]
pub enum NameKind {
    Table,
    RuleSet,
    Member(Sort),
    Predicate(Sort),
}

// A place as a number of a name.
fn number(place: Option<usize>) -> Option<u8>
    requires { IfSome place (λ i. i < 256) }
    ensures { found_of result ≡ found_of place }
{
    place.map(|i| i as u8)
}

// The first entry that has the name.
fn named<T>(entries: &[Entry<'_, T>], name: &[u8]) -> Option<usize>
    ensures first { found_of result ≡ position (same name.now) (names_of entries.now) }
    ensures one_of_them { IfSome result (λ i. i < length entries.now) }
{
    entries.iter().position(|e| name == e.name)
}

// The first predicate of a sort that has the name.
fn predicate(entries: &[Entry<'_, Sort>], sort: Sort, name: &[u8]) -> Option<usize>
    ensures first { found_of result ≡ position (is_predicate (sort_meant sort) name.now) entries.now }
    ensures one_of_them { IfSome result (λ i. i < length entries.now) }
{
    entries.iter().position(|p| p.tag == sort && name == p.name)
}

impl<'a, const ACTIONS: usize, const OTHERS: usize> Names<'a, ACTIONS, OTHERS> {
    // Nothing is declared.
    pub fn new() -> Self
        requires few_actions { ACTIONS ≤ 64 }
        requires few_others { OTHERS ≤ 255 }
        ensures subjects { result.subjects.entries.items ≡ [] }
        ensures objects { result.objects.entries.items ≡ [] }
        ensures actions { result.actions.entries.items ≡ [] }
        ensures predicates { result.predicates.items ≡ [] }
        ensures tables { result.tables.items ≡ [] }
        ensures sets { result.sets.items ≡ [] }
    {
        Names {
            subjects: Members::new(),
            objects: Members::new(),
            actions: Members::new(),
            predicates: ShortList::new(),
            tables: ShortList::new(),
            sets: ShortList::new(),
        }
    }

    // ---- looking up a name

    // The member of a sort that has the name, and how many slots were read for it.
    pub fn look_member(&self, sort: Sort, name: &[u8]) -> Lookup
        ensures { LooksUp (members_of self.now (sort_meant sort)) name.now result }
    {
        match sort {
            Sort::Subject => self.subjects.look(name),
            Sort::Object => self.objects.look(name),
            Sort::Action => self.actions.look(name),
        }
    }

    // The number of a name, as what it is asked for; a predicate is one of its sort.
    #[tactic(auto, unfolding(crate::specs::Looks::lookup_of))]
    pub fn look(&self, kind: NameKind, name: &[u8]) -> Option<u8>
        ensures { found_of result ≡ lookup_of self.now (kind_of kind) name.now }
    {
        match kind {
            NameKind::Member(sort) => self.look_member(sort, name).found,
            NameKind::Predicate(sort) => number(predicate(self.predicates.as_slice(), sort, name)),
            NameKind::Table => number(named(self.tables.as_slice(), name)),
            NameKind::RuleSet => number(named(self.sets.as_slice(), name)),
        }
    }

    // ---- members

    // A member more of a sort, behind its others, whose name none of them has.
    #[tactic(auto, unfolding(crate::specs::Looks::lookup_of))]
    pub fn add_member(&mut self, sort: Sort, name: &'a [u8], parent: Option<u8>)
        requires room { member_count self.old (sort_meant sort) < most_members ACTIONS (sort_meant sort) }
        requires fresh { lookup_of self.old (member (sort_meant sort)) name.now ≡ none }
        ensures { Added (sort_meant sort) (record { name = name.entry; tag = parent }) self.old self.new }
    {
        match sort {
            Sort::Subject => self.subjects.add(name, parent),
            Sort::Object => self.objects.add(name, parent),
            Sort::Action => self.actions.add(name, parent),
        }
    }

    // How many members a sort has.
    pub fn many(&self, sort: Sort) -> u8
        ensures value { result ≡ member_count self.now (sort_meant sort) }
        ensures few { result ≤ most_members ACTIONS (sort_meant sort) }
    {
        match sort {
            Sort::Subject => self.subjects.entries.len() as u8,
            Sort::Object => self.objects.entries.len() as u8,
            Sort::Action => self.actions.entries.len() as u8,
        }
    }

    // How many members the sorts have.
    pub fn counts(&self) -> Counts
        ensures { result ≡ counts_of self.now }
    {
        Counts {
            subjects: self.many(Sort::Subject),
            objects: self.many(Sort::Object),
            actions: self.many(Sort::Action),
        }
    }
}
