// The index of a sort's names: 256 slots, of which a name's is the low eight bits of its FNV-1a value.
#![tactic(auto)]

ghost use Rattle.std.specs.Prelude.{⊤, ◌≡◌, ◌+◌, ◌≤◌, ◌<◌, [], ◌∷◌, ◌++◌, length};
ghost use Rattle.short_list.specs.ShortList.{how_many};
ghost use Rattle.std.proofs.Math.Option.{none};
ghost use Rattle.grammar.specs.Lookup.{same, position};
ghost use Rattle.name_index.specs.Hash.{fnv_step, slot_of};
ghost use Rattle.name_index.specs.Index.{search, free_slot, put, Indexed};
ghost use Rattle.name_index.specs.Entries.{names_of, Slots, looked_of, LooksUp};

use short_list::ShortList;
use std::alloc::AllocError;

// How many slots an index has.
const SLOTS: usize = 256;

const FNV_OFFSET: u32 = 2166136261;

const FNV_PRIME: u64 = 16777619;

// 2 to the 32 and to the 8: a remainder by these has the low 32 or 8 bits.
const LOW_32_BITS: u64 = 4294967296;

const LOW_8_BITS: u32 = 256;

// A declared name, and what else is held of it.
#[derive(Clone, Copy, Default)]
pub struct Entry<'a, T> {
    pub name: &'a [u8],
    pub tag: T,
}

// The number of a name among the members, and how many slots the search read, the one that ended it included.
#[derive(Clone, Copy)]
pub struct Lookup {
    pub found: Option<u8>,
    pub read: usize,
}

// The members of a sort in file order, each with its parent's number, and the index of their names, which are distinct.
// A slot is 0 where it is free, and a member's number and 1 where it is taken.
#[derive(Copy)]
pub struct Members<'a, const N: usize> {
    pub entries: ShortList<Entry<'a, Option<u8>>, N>,
    pub slots: [u8; SLOTS],
    pub ghost few: { N ≤ 255 },
    pub ghost fits: { how_many entries ≤ N },
    pub ghost indexed: { Indexed slots (names_of entries.items) },
}

// A clone is the same members by the same slots, and none fails.
impl<'a, const N: usize> Clone for Members<'a, N> {
    ghost is_clone = { λ m c. c ≡ m };

    ghost is_infallible = { λ _. ⊤ };

    fn clone(&self) -> Result<Self, AllocError> {
        Ok(Members {
            entries: self.entries.clone()?,
            slots: self.slots,
        })
    }
}

// ---- FNV-1a

// One byte more: the product is taken modulo 2 to the 32.
#[tactic(auto, using(crate::proofs::Hash::xor_fits), unfolding(crate::specs::Hash::fnv_step))]
fn fnv_step(h: u32, b: u8) -> u32
    ensures { result ≡ fnv_step h b }
{
    ((u32::from(b) ^ h) as u64 * FNV_PRIME % LOW_32_BITS) as u32
}

// The slot of a name.
#[tactic(auto, using(crate::proofs::Hash::hash_first, crate::proofs::Hash::hash_next, crate::proofs::Hash::hash_end))]
fn slot_of(name: &[u8]) -> usize
    ensures value { result ≡ slot_of name.now }
    ensures low { result < 256 }
{
    let mut h = FNV_OFFSET;
    for &b in name {
        h = fnv_step(h, b);
    }
    (h % LOW_8_BITS) as usize
}

// ---- the slots of a sort, and its names

// The first free slot for a name.
#[tactic(auto, using(crate::proofs::Walks::freeing_first, crate::proofs::Walks::freeing_found, crate::proofs::Walks::freeing_end))]
fn free_slot(slots: &[u8; SLOTS], name: &[u8]) -> usize
    ensures value { result ≡ free_slot slots.now name.now }
    ensures low { result < 256 }
{
    let mut free = slot_of(name);
    for _ in 0..SLOTS {
        if slots[free] == 0 {
            return free;
        }
        free = (free + 1) % SLOTS;
    }
    free
}

// Puts in the name of member m, in the first free slot for it; the other slots stay as they are.
#[tactic(auto, unfolding(crate::specs::Index::put))]
pub fn insert(slots: &mut [u8; SLOTS], name: &[u8], m: u8)
    requires { m < 255 }
    ensures { slots.new ≡ put slots.old name.now m }
{
    let free = free_slot(slots, name);
    slots[free] = m + 1;
}

// The entry that has the name, by these slots, and how many of them were read. No slot has a number beyond the entries; whether the slots
// are their index is not asked.
pub fn find<T>(slots: &[u8; SLOTS], entries: &[Entry<'_, T>], name: &[u8]) -> Lookup
    requires { Slots slots.now (length entries.now) }
    ensures { looked_of result ≡ search slots.now (names_of entries.now) name.now }
{
    let mut i = slot_of(name);
    for read in 1..=SLOTS {
        let slot = slots[i];
        if slot == 0 {
            return Lookup { found: None, read };
        }
        let member = slot - 1;
        if name == entries[usize::from(member)].name {
            return Lookup {
                found: Some(member),
                read,
            };
        }
        i = (i + 1) % SLOTS;
    }
    Lookup {
        found: None,
        read: SLOTS,
    }
}

impl<'a, const N: usize> Members<'a, N> {
    // Nobody is a member.
    #[tactic(auto, using(crate::proofs::Walks::none_indexed))]
    pub fn new() -> Self
        requires { N ≤ 255 }
        ensures { result.entries.items ≡ [] }
    {
        Members {
            entries: ShortList::new(),
            slots: [0; SLOTS],
        }
    }

    // The member that has the name, and how many slots were read for it.
    pub fn look(&self, name: &[u8]) -> Lookup
        ensures { LooksUp (names_of self.now.entries.items) name.now result }
    {
        find(&self.slots, self.entries.as_slice(), name)
    }

    // A member more, behind the others, whose name no other has.
    pub fn add(&mut self, name: &'a [u8], parent: Option<u8>)
        requires room { how_many self.old.entries < N }
        requires fresh { position (same name.now) (names_of self.old.entries.items) ≡ none }
        ensures { self.new.entries.items ≡ self.old.entries.items ++ record { name = name.entry; tag = parent } ∷ [] }
    {
        insert(&mut self.slots, name, self.entries.len() as u8);
        self.entries.push(Entry { name, tag: parent });
    }
}
