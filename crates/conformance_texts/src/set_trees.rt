//! `IntSet` beside plain lists of booleans: trees of operations on ranges, each worked out both ways and compared at
//! every integer of a small range. `data/constraints/int_set_trees.rows` says which trees these are.
use conformance_rows::{Layer, not_read, text_of};
use guard_constraints::IntSet;
use guard_model::OutOfMemory;
use std::alloc::{AllocError, Global};

/// How many integers the small range has.
const WIDTH: u8 = 16;

/// How many operations lie in one another at most.
const DEEPEST: u32 = 5;

#[derive(Drop)]
pub struct SetTrees;

/// A set, and at each integer of the small range whether it is in.
#[derive(Drop)]
struct Both {
    set: IntSet,
    list: Vec<bool>,
}

/// What joins two sets.
#[derive(Clone, Copy)]
enum Joint {
    Union,
    Intersection,
    Minus,
}

/// Trees in a fixed order, over the small range that begins at `first`.
#[derive(Drop)]
struct Trees {
    first: i128,
    state: u64,
}

/// How many trees are alike, and how many integers their lists have in all.
#[derive(Drop)]
struct Count {
    alike: u32,
    held: u32,
}

impl Trees {
    /// The next of the fixed numbers, below 16.
    fn draw(&mut self) -> u8 {
        self.state = self
            .state
            .wrapping_mul(6_364_136_223_846_793_005)
            .wrapping_add(1_442_695_040_888_963_407);
        u8::try_from(self.state >> 60).unwrap_or(0)
    }

    /// A tree of at most so many operations in one another.
    #[cycle(trees)]
    fn tree(&mut self, alloc: Global, deepest: u32) -> Result<Both, OutOfMemory> {
        if deepest == 0 {
            return self.range(alloc);
        }
        match self.draw() {
            0..=1 => self.range(alloc),
            2..=5 => complement(alloc, self.tree(alloc, deepest - 1)?),
            6..=8 => self.joined(alloc, deepest - 1, Joint::Union),
            9..=12 => self.joined(alloc, deepest - 1, Joint::Intersection),
            _ => self.joined(alloc, deepest - 1, Joint::Minus),
        }
    }

    #[cycle(trees)]
    fn joined(&mut self, alloc: Global, deepest: u32, joint: Joint) -> Result<Both, OutOfMemory> {
        let left = self.tree(alloc, deepest)?;
        let right = self.tree(alloc, deepest)?;
        Ok(Both {
            set: joint.set(alloc, &left.set, &right.set)?,
            list: joint.list(alloc, &left.list, &right.list)?,
        })
    }

    /// The integers between two ends. There are none where the high one is drawn below the low one.
    fn range(&mut self, alloc: Global) -> Result<Both, OutOfMemory> {
        let low = self.draw();
        let high = low.saturating_add(self.draw() / 2).saturating_sub(1);
        let high = high.min(WIDTH.saturating_sub(1));
        let mut list = Vec::new(alloc);
        for place in 0..WIDTH {
            list.push(low <= place && place <= high)?;
        }
        let set = IntSet::range(alloc, self.at(low), self.at(high))?;
        Ok(Both { set, list })
    }

    /// The integer at this place of the small range.
    fn at(&self, place: u8) -> i128 {
        self.first.saturating_add(i128::from(place))
    }

    /// Whether the set has just what the list says.
    fn are_alike(&self, both: &Both) -> bool {
        for (place, held) in (0..WIDTH).zip(&both.list) {
            if both.set.has(self.at(place)) != *held {
                return false;
            }
        }
        true
    }
}

impl Joint {
    fn set(self, alloc: Global, left: &IntSet, right: &IntSet) -> Result<IntSet, OutOfMemory> {
        match self {
            Joint::Union => left.union(alloc, right),
            Joint::Intersection => left.intersection(alloc, right),
            Joint::Minus => left.minus(alloc, right),
        }
    }

    fn list(self, alloc: Global, left: &[bool], right: &[bool]) -> Result<Vec<bool>, AllocError> {
        let mut list = Vec::new(alloc);
        for (left, right) in left.iter().zip(right) {
            list.push(self.of(*left, *right))?;
        }
        Ok(list)
    }

    fn of(self, left: bool, right: bool) -> bool {
        match self {
            Joint::Union => left || right,
            Joint::Intersection => left && right,
            Joint::Minus => left && !right,
        }
    }
}

/// What the set doesn't have.
fn complement(alloc: Global, both: Both) -> Result<Both, OutOfMemory> {
    let mut list = Vec::new(alloc);
    for held in &both.list {
        list.push(!held)?;
    }
    let set = both.set.complement(alloc)?;
    Ok(Both { set, list })
}

/// So many trees over the small range from `first` on.
fn counted(alloc: Global, number: u32, first: i128) -> Result<Count, OutOfMemory> {
    let mut trees = Trees { first, state: 1 };
    let mut count = Count { alike: 0, held: 0 };
    for _ in 0..number {
        let both = trees.tree(alloc, DEEPEST)?;
        count.add(trees.are_alike(&both), &both.list);
    }
    Ok(count)
}

impl Count {
    fn add(&mut self, alike: bool, list: &[bool]) {
        self.alike = self.alike.saturating_add(u32::from(alike));
        for held in list {
            self.held = self.held.saturating_add(u32::from(*held));
        }
    }
}

impl Layer for SetTrees {
    fn new(_alloc: Global) -> SetTrees {
        SetTrees
    }

    /// `NUMBER from LEAST`
    fn answer(&mut self, alloc: Global, input: &[u8]) -> Result<String, AllocError> {
        let Some((number, first)) = text_of(input).split_once(" from ") else {
            return not_read(alloc);
        };
        let (Ok(number), Ok(first)) = (number.parse::<u32>(), first.parse::<i128>()) else {
            return not_read(alloc);
        };
        let Ok(count) = counted(alloc, number, first) else {
            return Err(AllocError);
        };
        let Count { alike, held } = count;
        format!(in alloc; "{alike} alike, {held} in")
    }

    fn set(&mut self, alloc: Global, _name: &str, _text: &[u8]) -> Result<String, AllocError> {
        not_read(alloc)
    }
}
