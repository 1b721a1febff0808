//! Definitions that use themselves, directly or through others.
ghost use Rattle.std.specs.Prelude.{◌≡◌, ◌⊎◌, ℕ, ◌+◌, ◌<◌, ◌≤◌, ◌++◌, ◌∷◌, [], IsTrue, map, length, take, drop};
ghost use Rattle.std.specs.Prelude.{slice_index_or, vec_len, IfOk, OnOk, IfSome, IfNone, MatchOption, Option};
ghost use Rattle.std.specs.Prelude.{None, Contains, replicate, fold, false, List, if◌then◌else◌};
ghost use Rattle.std.specs.Bool.{OnTrue, OnFalse};
ghost use Rattle.std.specs.List.{All, AllPairs};
ghost use Rattle.guard_names.specs.Order.{IsRecursive, IsFirstRecursive, is_listed, Leads};
ghost use Rattle.guard_names.specs.inside.Queues.{UsesIn, AreInside, used_by};
ghost use Rattle.guard_names.specs.inside.Searches.{StartsFirst, Joins, lesser, new_left, IsUsedFrom};
ghost use Rattle.guard_names.specs.declared.recursion.Mark.TheVariants as mark;
ghost use Rattle.guard_names.specs.declared.recursion.Part.{Part};
ghost use Rattle.guard_names.specs.declared.recursion.Pending.{Pending};

use crate::declarations::Id;
use std::alloc::{AllocError, Global};

/// How far the search has come with a definition.
#[derive(Clone, Copy)]
pub enum Mark {
    New,
    /// The definition is at this place of the path.
    OnPath(usize),
    /// The definition is left, with all to which chains of uses lead from it.
    Done,
}

/// A part of the path, from a place up to the next part. Chains of uses lead from each of its definitions to the first
/// one.
#[derive(Clone, Copy)]
pub struct Part {
    pub start: usize,
    /// Whether its definitions use themselves.
    pub cyclic: bool,
}

/// A use that isn't followed yet, of the definition at this place of the path.
#[derive(Clone, Copy)]
pub struct Pending {
    pub place: usize,
    pub used: Id,
}

/// A search through chains of uses. Along its path a chain leads from each definition to the next one.
#[derive(Drop)]
pub struct Search {
    /// One for each definition.
    marks: Vec<Mark>,
    path: Vec<Id>,
    parts: Vec<Part>,
    /// In the order of places, the later ones last.
    pending: Vec<Pending>,
    /// The first of the definitions that are left and use themselves.
    first: Option<Id>,
}

/// The first definition that uses itself, directly or through others; None where none does. Condition: each use is one
/// of the definitions. Fails only where memory runs out.
pub fn first_recursive(alloc: Global, uses: &[Vec<Id>]) -> Result<Option<Id>, AllocError>
    requires { AreInside (map (λ v. v.items) uses.now) }
    ensures { IfOk result (λ first. MatchOption first ((number : ℕ) → IsRecursive (UsesIn (map (λ v. v.items) uses.now))
        number → ⊥) (IsFirstRecursive (UsesIn (map (λ v. v.items) uses.now)))) }
{
    let mut search = Search::new(alloc, uses.len())?;
    for number in 0..uses.len() {
        search.visit(uses, number)?;
    }
    Ok(search.first)
}

impl Search {
    ghost use Rattle.guard_names.specs.inside.SearchViews.{IsSearch, IsSearchBut, KeepsMet, mark_of, steps_left};

    /// Nothing is searched yet.
    fn new(alloc: Global, count: usize) -> Result<Search, AllocError>
        ensures marks { IfOk result (λ search. search.marks.items ≡ replicate count mark.New) }
        ensures path { IfOk result (λ search. search.path.items ≡ []) }
        ensures parts { IfOk result (λ search. search.parts.items ≡ []) }
        ensures pending { IfOk result (λ search. search.pending.items ≡ []) }
        ensures first { IfOk result (λ search. search.first ≡ None) }
    {
        Ok(Search {
            marks: vec![in alloc; Mark::New; count]?,
            path: Vec::new(alloc),
            parts: Vec::new(alloc),
            pending: Vec::new(alloc),
            first: None,
        })
    }

    /// Leaves a definition, and all to which chains of uses lead from it.
    fn visit(&mut self, uses: &[Vec<Id>], number: Id) -> Result<(), AllocError>
        requires inside { AreInside (map (λ v. v.items) uses.now) }
        requires number { number < length uses.now }
        requires search { IsSearch (map (λ v. v.items) uses.now) self.old }
        requires idle { self.old.path.items ≡ [] }
        ensures search { OnOk result (IsSearch (map (λ v. v.items) uses.now) self.new) }
        ensures idle { OnOk result (self.new.path.items ≡ []) }
        ensures met { OnOk result (¬ (mark_of self.new number ≡ mark.New)) }
        ensures kept { OnOk result (KeepsMet self.old self.new) }
    {
        if let Mark::New = self.marks[number] {
            self.enter(uses, number)?;
        }
        while self.step(uses)? {}
        Ok(())
    }

    /// Follows the last use of the last part, or leaves the part where all are followed. Says whether there was a part.
    fn step(&mut self, uses: &[Vec<Id>]) -> Result<bool, AllocError>
        requires inside { AreInside (map (λ v. v.items) uses.now) }
        requires search { IsSearch (map (λ v. v.items) uses.now) self.old }
        ensures search { OnOk result (IsSearch (map (λ v. v.items) uses.now) self.new) }
        ensures kept { OnOk result (KeepsMet self.old self.new) }
        ensures left { IfOk result (λ more. OnTrue more
            (steps_left (map (λ v. v.items) uses.now) self.new < steps_left (map (λ v. v.items) uses.now) self.old)) }
        ensures ends { IfOk result (λ more. OnFalse more (self.new.path.items ≡ [])) }
    {
        let Some(part) = self.parts.last().copied() else {
            return Ok(false);
        };
        match next_use(&mut self.pending, part.start) {
            Some(used) => self.follow(uses, used)?,
            None => self.leave(part),
        }
        Ok(true)
    }

    fn follow(&mut self, uses: &[Vec<Id>], used: Id) -> Result<(), AllocError>
        requires inside { used < length uses.now }
        requires search { IsSearchBut (map (λ v. v.items) uses.now) self.old (λ u. u ≡ used) }
        requires from { IsUsedFrom (map (λ v. v.items) uses.now) self.old.path.items self.old.parts.items used }
        ensures search { OnOk result (IsSearch (map (λ v. v.items) uses.now) self.new) }
        ensures kept { OnOk result (KeepsMet self.old self.new) }
        ensures left { OnOk result
            (steps_left (map (λ v. v.items) uses.now) self.new ≤ steps_left (map (λ v. v.items) uses.now) self.old) }
    {
        match self.marks[used] {
            Mark::New => self.enter(uses, used)?,
            Mark::OnPath(place) => join(&mut self.parts, place),
            Mark::Done => {}
        }
        Ok(())
    }

    /// Goes on to a definition, in a part of its own.
    fn enter(&mut self, uses: &[Vec<Id>], number: Id) -> Result<(), AllocError>
        requires inside { number < length uses.now }
        requires new { mark_of self.old number ≡ mark.New }
        requires search { IsSearchBut (map (λ v. v.items) uses.now) self.old (λ used. used ≡ number) }
        requires comes { (q : ℕ) → q < length self.old.path.items →
            Leads (UsesIn (map (λ v. v.items) uses.now)) (slice_index_or self.old.path.items q 0) number }
        ensures search { OnOk result (IsSearch (map (λ v. v.items) uses.now) self.new) }
        ensures met { OnOk result (¬ (mark_of self.new number ≡ mark.New)) }
        ensures kept { OnOk result (KeepsMet self.old self.new) }
        ensures left { OnOk result (steps_left (map (λ v. v.items) uses.now) self.new
            ≡ steps_left (map (λ v. v.items) uses.now) self.old) }
    {
        let place = self.path.len();
        self.marks[number] = Mark::OnPath(place);
        self.path.push(number)?;
        self.parts.push(Part {
            start: place,
            cyclic: false,
        })?;
        add_pending(place, &uses[number], &mut self.pending)?;
        Ok(())
    }

    /// Leaves the last part.
    fn leave(&mut self, part: Part)
        requires last { (rest : List Part) × (self.old.parts.items ≡ rest ++ part ∷ []) }
        requires start { part.start ≤ length self.old.path.items }
        requires inside { All (λ number. number < length self.old.marks.items) self.old.path.items }
        ensures search { (us : List (List ℕ)) → IsSearch us self.old →
            ((e : Pending) → Contains self.old.pending.items e → e.place < part.start) → IsSearch us self.new }
        ensures kept { KeepsMet self.old self.new }
        ensures left { (us : List (List ℕ)) → steps_left us self.new < steps_left us self.old }
    {
        let left = &self.path[part.start..];
        mark_done(&mut self.marks, left);
        self.first = first_with(self.first, part, left);
        self.path.truncate(part.start);
        self.parts.pop();
    }
}

/// Takes the last use that isn't followed, if it is one of a definition from this place on.
fn next_use(pending: &mut Vec<Pending>, start: usize) -> Option<Id>
    ensures taken { IfSome result (λ used. (place : ℕ) × (start ≤ place)
        × (pending.old.items ≡ pending.new.items ++ record { place = place; used = used } ∷ [])) }
    ensures kept { IfNone result (pending.new.items ≡ pending.old.items) }
    ensures none { IfNone result (AllPairs (λ a b. a.place ≤ b.place) pending.old.items → (e : Pending) →
        Contains pending.old.items e → e.place < start) }
{
    let last = pending.last().copied()?;
    if last.place < start {
        return None;
    }
    pending.pop();
    Some(last.used)
}

fn add_pending(place: usize, uses: &[Id], into: &mut Vec<Pending>) -> Result<(), AllocError>
    ensures { OnOk result (into.new.items ≡ into.old.items
        ++ map (λ used. record { place = place; used = used }) uses.now) }
{
    for used in uses {
        into.push(Pending { place, used: *used })?;
    }
    Ok(())
}

/// Makes one part of the one with this place and those after it, since a chain of uses leads back to the place.
fn join(parts: &mut Vec<Part>, place: usize)
    requires { StartsFirst parts.old.items (place + 1) }
    ensures { Joins parts.old.items place parts.new.items }
{
    let mut last = parts.len() - 1;
    while place < parts[last].start {
        last -= 1;
    }
    parts.truncate(last + 1);
    parts[last].cyclic = true;
}

fn mark_done(marks: &mut [Mark], numbers: &[Id])
    requires { All (λ number. number < length marks.old) numbers.now }
    ensures listed { (number : ℕ) → IsTrue (is_listed numbers.now number) →
        slice_index_or marks.new number mark.New ≡ mark.Done }
    ensures others { (number : ℕ) → is_listed numbers.now number ≡ false →
        slice_index_or marks.new number mark.New ≡ slice_index_or marks.old number mark.New }
    ensures left { (us : List (List ℕ)) → new_left marks.new us ≤ new_left marks.old us }
{
    for number in numbers {
        marks[*number] = Mark::Done;
    }
}

/// The first of those that use themselves, with these of a part.
fn first_with(first: Option<Id>, part: Part, numbers: &[Id]) -> Option<Id>
    ensures { result ≡ (if part.cyclic then fold lesser first numbers.now else first) }
{
    if !part.cyclic {
        return first;
    }
    let mut least = first;
    for number in numbers {
        least = lesser_of(least, *number);
    }
    least
}

fn lesser_of(first: Option<Id>, number: Id) -> Option<Id>
    ensures { result ≡ lesser first number }
{
    match first {
        None => Some(number),
        Some(first) => Some(if number < first { number } else { first }),
    }
}
