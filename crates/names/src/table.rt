// The names that are declared in a file.
ghost use Rattle.std.specs.Prelude.{⊤, ◌≡◌, ◌≤◌};
ghost use Rattle.short_list.specs.ShortList.{how_many};

use algebra::Sort;
use name_index::{Entry, Members};
use short_list::ShortList;
use std::alloc::AllocError;

// How many actions a file may declare, and how many predicates, tables and rule sets each.
pub const MOST_ACTIONS: usize = 16;

pub const MOST_OTHERS: usize = 16;

// At most 64 subjects and objects, as many actions as there is room for, and as many of each other kind as there is room for others, all in file order:
// a member with its parent's number, a predicate with its sort, a table with whether its grants are here.
#[derive(Copy)]
pub struct Names<'a, const ACTIONS: usize, const OTHERS: usize> {
    pub subjects: Members<'a, 64>,
    pub objects: Members<'a, 64>,
    pub actions: Members<'a, ACTIONS>,
    pub predicates: ShortList<Entry<'a, Sort>, OTHERS>,
    pub tables: ShortList<Entry<'a, bool>, OTHERS>,
    pub sets: ShortList<Entry<'a, ()>, OTHERS>,
    pub ghost few_actions: { ACTIONS ≤ 64 },
    pub ghost few_others: { OTHERS ≤ 255 },
    pub ghost few_predicates: { how_many predicates ≤ OTHERS },
    pub ghost few_tables: { how_many tables ≤ OTHERS },
    pub ghost few_sets: { how_many sets ≤ OTHERS },
}

// A clone is the same names, and none fails.
impl<'a, const ACTIONS: usize, const OTHERS: usize> Clone for Names<'a, ACTIONS, OTHERS> {
    ghost is_clone = { λ n c. c ≡ n };

    ghost is_infallible = { λ _. ⊤ };

    fn clone(&self) -> Result<Self, AllocError> {
        Ok(Names {
            subjects: self.subjects.clone()?,
            objects: self.objects.clone()?,
            actions: self.actions.clone()?,
            predicates: self.predicates.clone()?,
            tables: self.tables.clone()?,
            sets: self.sets.clone()?,
        })
    }
}

// The names of a file, with room for just those that it may declare.
pub type FileNames<'a> = Names<'a, MOST_ACTIONS, MOST_OTHERS>;
