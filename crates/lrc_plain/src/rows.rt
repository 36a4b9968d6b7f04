ghost use Rattle.std.specs.Prelude.{◌≡◌, ◌+◌, ◌*◌, ◌<◌, ◌≤◌, ◌^◌, ◌++◌, ◌∷◌, [], length, IfOk, OnErr, MatchOption};
ghost use Rattle.lrc_plain.specs.Shelf.{at, IsNamed, IsShelf, IsPlaced, IsFullOf};
ghost use Rattle.lrc_plain.specs.Rows.{whole, IsFor, IsOver};
ghost use Rattle.lrc_plain.specs.Home.{IsBucketOf};

use crate::chains::{Row, find, link};
use crate::homes::home;
use lrc_store::{Cell, Full, Handle};
use std::alloc::{AllocError, Global};
use std::marker::Model;

/// Rows of cells, each cell in one row. Contracts see them as the list of their cells, and as how
/// many rows there may be.
#[derive(Drop)]
pub struct Rows {
    rows: Vec<Row>,
    heads: Vec<u32>,
    quota: u32,
}

impl Model for Rows {
    ghost use Rattle.lrc_plain.specs.Shelf.{Shelf, coded_shelf};

    ghost Value = { Shelf };

    ghost coded = { coded_shelf };

    ghost use Rattle.lrc_plain.specs.Rows.{shelf_of, IsIndexed};

    ghost view = { shelf_of };

    ghost invariant = { IsIndexed };
}

impl Rows {
    /// No rows yet, and room for this many.
    ///
    /// # Errors
    ///
    /// Want of memory.
    pub fn new(alloc: Global, quota: u32) -> Result<Rows, AllocError>
        requires some { 1 ≤ quota }
        requires limit { quota ≤ 2 ^ 24 }
        ensures { IfOk result (λ rows. (rows.cells ≡ []) × (rows.quota ≡ quota) × IsShelf rows) }
    {
        Ok(Rows {
            rows: Vec::with_capacity(alloc, quota as usize)?,
            heads: vec![in alloc; 0; 2 * quota as usize]?,
            quota,
        })
    }

    /// How many rows there are.
    pub fn len(&self) -> u32
        ensures count { result ≡ length self.now.cells }
        ensures sound { IsShelf self.now }
    {
        self.rows.len() as u32
    }

    /// How many rows there may be.
    pub fn quota(&self) -> u32
        ensures { result ≡ self.now.quota }
    {
        self.quota
    }

    /// The outermost form of the cell that the handle stands for.
    pub fn look(&self, handle: Handle) -> Cell
        requires { handle.0 ≤ length self.now.cells }
        ensures cell { whole self.now.cells result ≡ at self.now.cells handle.0 }
        ensures known { IsOver (length self.now.cells) result }
    {
        if handle == Handle::NIL {
            Cell::Nil
        } else {
            self.rows[handle.0 as usize - 1].cell
        }
    }

    /// The handle of the cell, which is in a row then.
    ///
    /// # Errors
    ///
    /// Full, exactly where the cell is in no row and all rows are used.
    #[inline(always)]
    pub fn put(&mut self, cell: Cell) -> Result<Handle, Full>
        requires { IsFor (length self.old.cells) cell }
        ensures quota { self.new.quota ≡ self.old.quota }
        ensures sound { IsShelf self.new }
        ensures ok { IfOk result (λ handle. IsPlaced self.old self.new (whole self.old.cells cell) handle.0) }
        ensures full { OnErr result (IsFullOf self.old self.new (whole self.old.cells cell)) }
    {
        let bucket = self.bucket_of(cell);
        match self.find(bucket, cell) {
            Some(handle) => Ok(handle),
            None if self.len() == self.quota() => Err(Full),
            None => Ok(self.add(bucket, cell)),
        }
    }

    /// The bucket of a cell.
    #[inline(always)]
    fn bucket_of(&self, cell: Cell) -> usize
        ensures { IsBucketOf result cell (2 * self.now.quota) }
    {
        home(cell, self.heads.len())
    }

    /// The handle of a cell that is in a row; the bucket is the cell's.
    #[inline(always)]
    fn find(&self, bucket: usize, cell: Cell) -> Option<Handle>
        requires form { IsFor (length self.now.cells) cell }
        requires bucket { IsBucketOf bucket cell (2 * self.now.quota) }
        ensures sound { IsShelf self.now }
        ensures found { MatchOption result (¬ IsNamed self.now.cells (whole self.now.cells cell)) (λ handle. (handle.0 ≤ length self.now.cells) × (at self.now.cells handle.0 ≡ whole self.now.cells cell)) }
    {
        find(&self.rows, &self.heads, bucket, cell)
    }

    /// Puts a cell that is in no row into one more; the bucket is the cell's.
    #[inline(always)]
    fn add(&mut self, bucket: usize, cell: Cell) -> Handle
        requires form { IsFor (length self.old.cells) cell }
        requires bucket { IsBucketOf bucket cell (2 * self.old.quota) }
        requires unnamed { ¬ IsNamed self.old.cells (whole self.old.cells cell) }
        requires room { length self.old.cells < self.old.quota }
        ensures cells { self.new.cells ≡ self.old.cells ++ whole self.old.cells cell ∷ [] }
        ensures quota { self.new.quota ≡ self.old.quota }
        ensures sound { IsShelf self.new }
        ensures handle { result.0 ≡ length self.old.cells + 1 }
    {
        link(&mut self.rows, &mut self.heads, bucket, cell)
    }
}
