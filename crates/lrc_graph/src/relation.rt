ghost use Rattle.std.specs.Prelude.{◌≡◌, ℕ, ◌<◌, ◌↔◌, ◌⊎◌, IsTrue, IfOk, IfSome};
ghost use Rattle.lrc_graph.specs.Pairs.{Has, HasExactly, With, Path, IsTransitive, IsLeast};

use crate::rows;
use lrc_base::Memory;
use std::alloc::Global;
use std::marker::Model;

/// The bits of a word.
const WORD: u32 = 64;

/// A relation over the points from 0 to below a number under 1,024. Only [`Relation::new`] and
/// [`Relation::copy`] take memory.
#[derive(Debug, Drop)]
pub struct Relation {
    points: u32,
    /// How many words a row has.
    width: usize,
    /// A row of words for each point; a set bit is a point that it is paired with.
    words: Vec<u64>,
}

impl Model for Relation {
    ghost use Rattle.lrc_graph.specs.Pairs.{Pairs};

    ghost Value = { Pairs };

    ghost use Rattle.lrc_graph.specs.Shown.{shown, IsTable};

    ghost view = { λ r. shown r.points r.width r.words.items };

    ghost invariant = { λ r. IsTable r.points r.width r.words.items };
}

impl Relation {
    /// The empty relation over the points below `points`. The error is want of memory.
    pub fn new(alloc: Global, points: u32) -> Result<Relation, Memory>
        requires { points < 1024 }
        ensures points { IfOk result (λ r. r.points ≡ points) }
        ensures empty { IfOk result (λ r. (a b : ℕ) → ¬ Has r a b) }
    {
        let width = (points as usize).div_ceil(WORD as usize);
        let words = vec![in alloc; 0u64; points as usize * width]?;
        Ok(Relation {
            points,
            width,
            words,
        })
    }

    /// An equal relation. The error is want of memory.
    pub fn copy(&self, alloc: Global) -> Result<Relation, Memory>
        ensures { IfOk result (λ r. r ≡ self.now) }
    {
        Ok(Relation {
            points: self.points,
            width: self.width,
            words: Vec::from_slice(alloc, &self.words)?,
        })
    }

    /// The number of points. Each pair is of points below it.
    pub fn points(&self) -> u32
        ensures value { result ≡ self.now.points }
        ensures few { result < 1024 }
        ensures within { (a b : ℕ) → Has self.now a b → (a < result) × (b < result) }
    {
        self.points
    }

    /// Whether `a` is paired with `b`, both below the number of points.
    pub fn has(&self, a: u32, b: u32) -> bool
        requires { (a < self.now.points) × (b < self.now.points) }
        ensures { IsTrue result ↔ Has self.now a b }
    {
        let word = self.words[a as usize * self.width + (b / WORD) as usize];
        (word >> (b % WORD)) & 1 == 1
    }

    /// Adds the pair of `a` and `b`, both below the number of points.
    pub fn add(&mut self, a: u32, b: u32)
        requires { (a < self.old.points) × (b < self.old.points) }
        ensures points { self.new.points ≡ self.old.points }
        ensures pairs { HasExactly self.new (With (Has self.old) a b) }
    {
        self.words[a as usize * self.width + (b / WORD) as usize] |= 1 << (b % WORD);
    }

    /// Makes the relation its transitive closure: `a` is then paired with `b` exactly where a path
    /// of one step or more led from `a` to `b`.
    pub fn close(&mut self)
        ensures points { self.new.points ≡ self.old.points }
        ensures pairs { HasExactly self.new (Path (Has self.old)) }
        ensures closed { IsTransitive (Has self.new) }
    {
        'points: for via in 0..self.points() {
            self.shorten(via);
        }
    }

    /// Adds the pair of `a` and `b` to a closed relation and closes it again. The answer is whether
    /// the pair was new; where it was not, nothing changes.
    pub fn close_more(&mut self, a: u32, b: u32) -> bool
        requires points { (a < self.old.points) × (b < self.old.points) }
        requires closed { IsTransitive (Has self.old) }
        ensures new { IsTrue result ↔ (¬ Has self.old a b) }
        ensures points { self.new.points ≡ self.old.points }
        ensures pairs { HasExactly self.new (Path (With (Has self.old) a b)) }
        ensures closed { IsTransitive (Has self.new) }
    {
        if self.has(a, b) {
            return false;
        }
        'points: for x in 0..self.points() {
            if self.is_or_has(x, a) {
                self.join_row(x, b);
                self.add(x, b);
            }
        }
        true
    }

    /// The least point that is paired with itself, and None exactly where there is none. On a closed
    /// relation these are the points on a cycle.
    pub fn first_on_cycle(&self) -> Option<u32>
        ensures least { IsLeast (λ point. Has self.now point point) result }
        ensures within { IfSome result (λ point. point < self.now.points) }
    {
        'points: for point in 0..self.points() {
            if self.has(point, point) {
                return Some(point);
            }
        }
        None
    }

    /// Pairs two points wherever a path of two steps by `via` joins them.
    fn shorten(&mut self, via: u32)
        requires { via < self.old.points }
        ensures points { self.new.points ≡ self.old.points }
        ensures pairs { HasExactly self.new (λ x y. Has self.old x y ⊎ (Has self.old x via × Has self.old via y)) }
    {
        'points: for x in 0..self.points() {
            if self.has(x, via) {
                self.join_row(x, via);
            }
        }
    }

    /// Pairs `into` with each point that `from` is paired with.
    fn join_row(&mut self, into: u32, from: u32)
        requires { (into < self.old.points) × (from < self.old.points) }
        ensures points { self.new.points ≡ self.old.points }
        ensures pairs { HasExactly self.new (λ x y. Has self.old x y ⊎ ((x ≡ into) × Has self.old from y)) }
    {
        rows::join_row(&mut self.words, self.width, into as usize, from as usize);
    }

    /// Whether `x` is `a` or is paired with it.
    fn is_or_has(&self, x: u32, a: u32) -> bool
        requires { (x < self.now.points) × (a < self.now.points) }
        ensures { IsTrue result ↔ ((x ≡ a) ⊎ Has self.now x a) }
    {
        x == a || self.has(x, a)
    }
}
