// What an ordered list does. A list that a client has always rises: a new one is empty, and `put` and `take` keep it rising.
ghost use Rattle.std.specs.Prelude.{◌≡◌, ℕ, ◌≤◌, true, false, [], length, is_some, IfSome, is_ok, IfOk, if◌then◌else◌, Some};
ghost use Rattle.std.specs.List.{slice_get, remove};
ghost use Rattle.std.specs.Option.{option_map};
ghost use Rattle.std.specs.Slice.Iter.{iter_rest, iter_steps};
ghost use Rattle.std.specs.Iterator.Runs.{EveryRun, ItemsMapTo};
ghost use Rattle.ordered.specs.Listed.{accepts, items, space_of};
ghost use Rattle.ordered.specs.Order.{SameAt, held, placed, rises};

use super::seek::seek;
use super::{Full, OrderedList};
use crate::rank::Ranked;
use std::alloc::{AllocError, Global};
use std::slice::Iter;

impl<T> OrderedList<T> {
    // An empty list that holds up to `space` records. Their memory is reserved here, so nothing later can want for it.
    pub fn new(heap: Global, space: usize) -> Result<OrderedList<T>, AllocError>
        ensures { IfOk result (λ l. (items l ≡ []) × (space_of l ≡ space)) }
    {
        Ok(OrderedList {
            records: Vec::with_capacity(heap, space)?,
        })
    }

    pub fn len(&self) -> usize
        ensures value { result ≡ length (items self.now) }
        ensures bound { result ≤ space_of self.now }
    {
        self.records.len()
    }

    // The record at a place, counted from 0.
    pub fn get(&self, place: usize) -> Option<&T>
        ensures { option_map (λ x. x.now) result ≡ slice_get (items self.now) place }
    {
        self.records.get(place)
    }

    // The records, first to last.
    pub fn as_slice(&self) -> &[T]
        ensures { result.now ≡ items self.now }
    {
        self.records.as_slice()
    }

    pub fn iter(&self) -> Iter<'_, T>
        ensures rest { iter_rest result ≡ items self.now }
        ensures runs { EveryRun (iter_steps {A = T}) (λ p. ItemsMapTo p (λ y. y.now) (iter_rest p.from)) }
    {
        self.as_slice().iter()
    }
}

impl<T: Ranked> OrderedList<T> {
    // The place of the held record that is the same.
    #[tactic(auto, using(crate::proofs::Ensured::found_some, crate::proofs::Ensured::found_only, crate::proofs::Ensured::found_test))]
    pub fn find(&self, like: &T) -> Option<usize>
        ensures some { IfSome result (λ k. SameAt T.same (items self.now) k like.now) }
        ensures only { rises T.before (items self.now) ≡ true → (k : ℕ) → SameAt T.same (items self.now) k like.now → result ≡ Some k }
        ensures test { rises T.before (items self.now) ≡ true → is_some result ≡ held T.same like.now (items self.now) }
    {
        seek(self.as_slice(), like).ok()
    }

    // Removes the record at a place, counted from 0, and answers it.
    pub fn take(&mut self, place: usize) -> Option<T>
        ensures value { result ≡ slice_get (items self.old) place }
        ensures items { items self.new ≡ remove (items self.old) place }
        ensures space { space_of self.new ≡ space_of self.old }
        ensures rises { rises T.before (items self.old) ≡ true → rises T.before (items self.new) ≡ true }
    {
        if place >= self.len() {
            return None;
        }
        Some(self.records.remove(place))
    }
}

impl<T: Ranked + Drop> OrderedList<T> {
    // Puts a record at its place. A held record that is the same gives way to it, so a full list still takes such a one.
    pub fn put(&mut self, record: T) -> Result<(), Full>
        ensures test { rises T.before (items self.old) ≡ true → is_ok result ≡ accepts T.same self.old «record» }
        ensures items { rises T.before (items self.old) ≡ true → items self.new ≡ (if is_ok result then placed T.before «record» (items self.old) else items self.old) }
        ensures rises { rises T.before (items self.old) ≡ true → rises T.before (items self.new) ≡ true }
        ensures refused { is_ok result ≡ false → items self.new ≡ items self.old }
        ensures space { space_of self.new ≡ space_of self.old }
    {
        match seek(self.as_slice(), &record) {
            Ok(place) => self.records[place] = record,
            Err(_) if self.len() >= self.records.capacity() => return Err(Full),
            // Room for it is reserved, so this cannot fail.
            Err(place) => {
                let _ = self.records.insert(place, record);
            }
        }
        Ok(())
    }
}
