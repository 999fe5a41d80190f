// A list of a few items, which lie in the value itself, so that it is copied as they are.
#![tactic(auto)]

ghost use Rattle.std.specs.Prelude.{⊤, ◌≡◌, ◌+◌, ◌<◌, ◌≤◌, ◌==◌, [], ◌∷◌, ◌++◌, length, set};
ghost use Rattle.short_list.specs.ShortList.{how_many, with_items, pushed};

use std::alloc::AllocError;
use std::marker::Model;
use std::ops::DerefSlice;

// A list of at most N items: the first `many` of the places. No answer tells what stands in the places behind them.
#[derive(Copy)]
pub struct ShortList<T, const N: usize> {
    places: [T; N],
    many: usize,
}

impl<T, const N: usize> Model for ShortList<T, N> {
    ghost use Rattle.std.specs.Prelude.{◌≡◌, ◌≤◌, ◌++◌, length, take, drop};
    ghost use Rattle.std.proofs.Common.{arith, take-append-drop, length-take-le};
    ghost use Rattle.short_list.specs.ShortList.{ShortList as Listed};

    ghost Value = { Listed T };

    ghost view = { λ l. record { items = take l.many l.places; behind = drop l.many l.places } };

    ghost invariant = { λ l. (l.many ≤ N) × (length l.places ≡ N) };

    ghost inverse = { λ v. record { places = v.items ++ v.behind; many = length v.items } };

    ghost inverse_ok = { λ l h i. record {
      places = take-append-drop l.many l.places i;
      many = length-take-le l.many l.places (omega (arith, h.0, h.1)) i;
    } };
}

impl<T: Copy + Default, const N: usize> ShortList<T, N> {
    // No item yet.
    pub fn new() -> Self
        ensures items { result.items ≡ [] }
        ensures behind { (x : T) × T.is_default x × (result ≡ with_items N x []) }
    {
        ShortList {
            places: [T::default(); N],
            many: 0,
        }
    }

    // The list of these items. There must be room.
    pub fn of(items: &[T]) -> Self
        requires { length items.now ≤ N }
        ensures items { result.items ≡ items.now }
        ensures behind { (x : T) × T.is_default x × (result ≡ with_items N x items.now) }
    {
        let mut places = [T::default(); N];
        places[..items.len()].copy_from_slice(items);
        ShortList {
            places,
            many: items.len(),
        }
    }
}

impl<T: Copy, const N: usize> ShortList<T, N> {
    // How many items there are.
    #[inline]
    pub fn len(&self) -> usize
        ensures value { result ≡ how_many self.now }
        ensures fits { result ≤ N }
    {
        self.many
    }

    // Whether there is no room left.
    #[inline]
    pub fn is_full(&self) -> bool
        ensures value { result ≡ (how_many self.now == N) }
        ensures fits { how_many self.now ≤ N }
    {
        self.many == N
    }

    // The items.
    #[inline]
    pub fn as_slice(&self) -> &[T]
        ensures value { result.now ≡ self.now.items }
        ensures fits { length result.now ≤ N }
    {
        &self.places[..self.many]
    }

    // An item more at the end. There must be room.
    #[inline]
    pub fn push(&mut self, item: T)
        requires { how_many self.old < N }
        ensures after { self.new ≡ pushed self.old item }
        ensures items { self.new.items ≡ self.old.items ++ item ∷ [] }
        ensures len { how_many self.new ≡ how_many self.old + 1 }
    {
        let many = self.many;
        self.places[many] = item;
        self.many = many + 1;
    }

    // Another item in the place of one.
    #[inline]
    pub fn set(&mut self, index: usize, item: T)
        requires { index < how_many self.old }
        ensures items { self.new.items ≡ set self.old.items index item }
        ensures behind { self.new.behind ≡ self.old.behind }
    {
        let items = &mut self.places[..self.many];
        items[index] = item;
    }
}

impl<T: Copy, const N: usize> DerefSlice for ShortList<T, N> {
    type Elem = T;

    ghost deref_gives = { λ l xs. (xs ≡ l.items) × (length xs ≤ N) };

    #[inline]
    fn deref(&self) -> &[T] {
        self.as_slice()
    }
}

impl<T: Copy + Default, const N: usize> Default for ShortList<T, N> {
    ghost is_default = { λ l. l.items ≡ [] };

    // No item.
    fn default() -> Self {
        Self::new()
    }
}

// A clone is the same list, and none fails.
impl<T: Copy, const N: usize> Clone for ShortList<T, N> {
    ghost is_clone = { λ l c. c ≡ l };

    ghost is_infallible = { λ _. ⊤ };

    fn clone(&self) -> Result<Self, AllocError> {
        Ok(*self)
    }
}
