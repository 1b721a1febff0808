//! The order in which each definition comes after all that it uses.
ghost use Rattle.std.specs.Prelude.{◌≡◌, ℕ, ◌+◌, ◌<◌, ◌≤◌, ◌++◌, ◌∷◌, [], false, true, length, map, slice_index_or};
ghost use Rattle.std.specs.Prelude.{replicate, IfOk, OnOk, IfSome, IfNone, IsTrue};
ghost use Rattle.std.specs.Bool.{OnTrue, OnFalse};
ghost use Rattle.std.specs.List.{All};
ghost use Rattle.std.specs.BinaryHeap.{IsHeap, heap_items};
ghost use Rattle.std.specs.Ordering.{nat_cmp};
ghost use Rattle.std.proofs.Props.{props};
ghost use Rattle.guard_names.specs.Order.{IsOrder, IsRecursive, is_listed};
ghost use Rattle.guard_names.specs.inside.Queues.{AreInside, UsesIn, IsReleased, ArePlaced, once_at, times_waiting};

use crate::declarations::Id;
use std::alloc::{AllocError, Global};
use std::cmp::Reverse;
use std::collections::BinaryHeap;
use std::mem;

/// A definition that waits for one of its uses to be listed, and the place of that use: all before it are listed.
#[derive(Clone, Copy)]
pub struct Waiting {
    pub number: Id,
    pub met: usize,
}

/// Definitions on their way into the order: each is listed, ready or waiting.
#[derive(Drop)]
pub struct Queue {
    /// The definitions that are listed, in order.
    order: Vec<Id>,
    /// Whether each definition is listed.
    listed: Vec<bool>,
    /// The definitions that aren't listed and whose uses all are.
    ready: BinaryHeap<Reverse<Id>>,
    /// The others, by the definition that they wait for.
    waiting: Vec<Vec<Waiting>>,
    ghost least_first: { IsHeap (λ x y. nat_cmp y.0 x.0) (heap_items ready) } by { Prim.hlevel props },
}

/// The order of definitions, each of which uses the listed ones. Condition: each use is one of the definitions, and
/// none uses itself, directly or through others. Fails only where memory runs out.
pub fn order(alloc: Global, uses: &[Vec<Id>]) -> Result<Vec<Id>, AllocError>
    requires inside { AreInside (map (λ v. v.items) uses.now) }
    requires acyclic { (number : ℕ) → IsRecursive (UsesIn (map (λ v. v.items) uses.now)) number → ⊥ }
    ensures { IfOk result (λ order. IsOrder (length uses.now) (UsesIn (map (λ v. v.items) uses.now)) order.items) }
{
    let mut queue = Queue::new(alloc, uses)?;
    while queue.list_next(alloc, uses)? {}
    Ok(queue.order)
}

impl Queue {
    ghost use Rattle.guard_names.specs.inside.QueueViews.{IsQueue, IsSized, ArePlacedIn, left_in, times_ready};

    /// Nothing is listed yet.
    fn new(alloc: Global, uses: &[Vec<Id>]) -> Result<Queue, AllocError>
        requires { AreInside (map (λ v. v.items) uses.now) }
        ensures { IfOk result (IsQueue (map (λ v. v.items) uses.now)) }
    {
        let count = uses.len();
        let mut queue = Queue {
            order: Vec::new(alloc),
            listed: vec![in alloc; false; count]?,
            ready: BinaryHeap::new(alloc),
            waiting: empty_lists(alloc, count)?,
        };
        for number in 0..count {
            queue.settle(uses, Waiting { number, met: 0 })?;
        }
        Ok(queue)
    }

    /// Lists the first definition that is ready, and says whether there was one.
    fn list_next(&mut self, alloc: Global, uses: &[Vec<Id>]) -> Result<bool, AllocError>
        requires inside { AreInside (map (λ v. v.items) uses.now) }
        requires queue { IsQueue (map (λ v. v.items) uses.now) self.old }
        ensures queue { OnOk result (IsQueue (map (λ v. v.items) uses.now) self.new) }
        ensures left { IfOk result (λ more. OnTrue more (left_in self.new + 1 ≡ left_in self.old)) }
        ensures ends { IfOk result (λ more. OnFalse more ((k : ℕ) → times_ready (heap_items self.new.ready) k ≡ 0)) }
    {
        let Some(Reverse(next)) = self.ready.pop() else {
            return Ok(false);
        };
        self.list(alloc, uses, next)?;
        Ok(true)
    }

    /// Lists a definition, and lets those that waited for it go on.
    fn list(&mut self, alloc: Global, uses: &[Vec<Id>], next: Id) -> Result<(), AllocError>
        requires inside { AreInside (map (λ v. v.items) uses.now) }
        requires next { next < length uses.now }
        requires placed { ArePlacedIn (map (λ v. v.items) uses.now) self.old (once_at next) }
        requires sized { IsSized (map (λ v. v.items) uses.now) self.old }
        ensures order { OnOk result (self.new.order.items ≡ self.old.order.items ++ next ∷ []) }
        ensures sized { OnOk result (IsSized (map (λ v. v.items) uses.now) self.new) }
        ensures placed { OnOk result (ArePlacedIn (map (λ v. v.items) uses.now) self.new (λ _. 0)) }
        ensures left { OnOk result (left_in self.new ≡ left_in self.old) }
    {
        self.order.push(next)?;
        self.listed[next] = true;
        let released = mem::replace(&mut self.waiting[next], Vec::new(alloc));
        self.settle_all(uses, &released)
    }

    /// Lets those go on that waited for one that is listed now.
    fn settle_all(&mut self, uses: &[Vec<Id>], released: &[Waiting]) -> Result<(), AllocError>
        requires inside { AreInside (map (λ v. v.items) uses.now) }
        requires released { All (IsReleased (map (λ v. v.items) uses.now) self.old.order.items) released.now }
        requires sized { IsSized (map (λ v. v.items) uses.now) self.old }
        requires placed { ArePlacedIn (map (λ v. v.items) uses.now) self.old (times_waiting released.now) }
        ensures order { OnOk result (self.new.order.items ≡ self.old.order.items) }
        ensures sized { OnOk result (IsSized (map (λ v. v.items) uses.now) self.new) }
        ensures placed { OnOk result (ArePlacedIn (map (λ v. v.items) uses.now) self.new (λ _. 0)) }
        ensures left { OnOk result (left_in self.new ≡ left_in self.old + length released.now) }
    {
        for waiting in released {
            self.settle(uses, *waiting)?;
        }
        Ok(())
    }

    /// Lets a definition wait for the first of its uses that isn't listed, or makes it ready.
    fn settle(&mut self, uses: &[Vec<Id>], waiting: Waiting) -> Result<(), AllocError>
        requires inside { AreInside (map (λ v. v.items) uses.now) }
        requires number { waiting.number < length uses.now }
        requires sized { IsSized (map (λ v. v.items) uses.now) self.old }
        ensures order { OnOk result (self.new.order.items ≡ self.old.order.items) }
        ensures sized { OnOk result (IsSized (map (λ v. v.items) uses.now) self.new) }
        ensures placed { OnOk result ((underway : ℕ → ℕ) → IsReleased (map (λ v. v.items) uses.now) self.old.order.items
            waiting → ArePlacedIn (map (λ v. v.items) uses.now) self.old (λ k. once_at waiting.number k + underway k) →
            ArePlacedIn (map (λ v. v.items) uses.now) self.new underway) }
        ensures left { OnOk result (left_in self.new ≡ left_in self.old + 1) }
    {
        let used = &uses[waiting.number];
        match first_unlisted(used, waiting.met, &self.listed) {
            Some(met) => {
                let number = waiting.number;
                self.waiting[used[met]].push(Waiting { number, met })?;
            }
            None => self.ready.push(Reverse(waiting.number))?,
        }
        Ok(())
    }
}

/// The place of the first used definition, from this place on, that isn't listed; None where all are.
fn first_unlisted(used: &[Id], from: usize, listed: &[bool]) -> Option<usize>
    requires { (u : ℕ) → IsTrue (is_listed used.now u) → u < length listed.now }
    ensures inside { IfSome result (λ place. place < length used.now) }
    ensures found { IfSome result (λ place. slice_index_or listed.now (slice_index_or used.now place 0) false ≡ false) }
    ensures before { IfSome result (λ place. (i : ℕ) → from ≤ i → i < place →
        slice_index_or listed.now (slice_index_or used.now i 0) false ≡ true) }
    ensures none { IfNone result ((i : ℕ) → from ≤ i → i < length used.now →
        slice_index_or listed.now (slice_index_or used.now i 0) false ≡ true) }
{
    for place in from..used.len() {
        if !listed[used[place]] {
            return Some(place);
        }
    }
    None
}

fn empty_lists(alloc: Global, count: usize) -> Result<Vec<Vec<Waiting>>, AllocError>
    ensures { IfOk result (λ v. map (λ w. w.items) v.items ≡ replicate count []) }
{
    let mut lists = Vec::with_capacity(alloc, count)?;
    for _ in 0..count {
        lists.push(Vec::new(alloc))?;
    }
    Ok(lists)
}
