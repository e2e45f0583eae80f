//! Numbers by strand and item.
ghost use Rattle.std.specs.Prelude.{◌≡◌};

use std::alloc::{AllocError, Global};
use std::marker::Model;

/// The numbers of one strand.
#[derive(Drop)]
pub(crate) struct Row {
    cells: Vec<usize>,
}

impl Model for Row {
    ghost use Rattle.std.specs.Prelude.{ℕ, List};

    ghost Value = { List ℕ };

    ghost view = { λ row. row.cells.items };
}

impl Row {
    ghost use Rattle.std.specs.Prelude.{◌≡◌, ◌<◌, length, set, replicate, IfOk};

    /// So many zeros.
    pub(crate) fn zeros(alloc: Global, count: usize) -> Result<Row, AllocError>
        ensures { IfOk result (λ row. row ≡ replicate count 0) }
    {
        Ok(Row {
            cells: Vec::from_elem(alloc, 0, count)?,
        })
    }

    pub(crate) fn from_vec(cells: Vec<usize>) -> Row
        ensures { result ≡ cells.items }
    {
        Row { cells }
    }

    pub(crate) fn as_slice(&self) -> &[usize]
        ensures { result.now ≡ self.now }
    {
        self.cells.as_slice()
    }

    fn put(&mut self, at: usize, number: usize)
        requires { at < length self.old }
        ensures { self.new ≡ set self.old at number }
    {
        self.cells[at] = number;
    }
}

/// A row of numbers for each strand.
#[derive(Drop)]
pub(crate) struct Table {
    rows: Vec<Row>,
}

impl Model for Table {
    ghost use Rattle.std.specs.Prelude.{ℕ, List};

    ghost Value = { List (List ℕ) };

    ghost view = { λ table. table.rows.items };
}

impl Table {
    ghost use Rattle.std.specs.Prelude.{◌≡◌, ◌<◌, ◌++◌, ◌∷◌, [], length, set, get_or, OnOk};
    ghost use Rattle.t1_check.specs.Table.{cell};

    pub(crate) fn new(alloc: Global) -> Table
        ensures { result ≡ [] }
    {
        Table {
            rows: Vec::new(alloc),
        }
    }

    pub(crate) fn push(&mut self, row: Row) -> Result<(), AllocError>
        ensures { OnOk result (self.new ≡ self.old ++ row ∷ []) }
    {
        self.rows.push(row)?;
        Ok(())
    }

    /// The numbers of a strand, none where there is no such strand.
    pub(crate) fn row(&self, strand: usize) -> &[usize]
        ensures { result.now ≡ get_or self.now strand [] }
    {
        if strand < self.rows.len() {
            self.rows[strand].as_slice()
        } else {
            &[]
        }
    }

    /// The number at a place, 0 where there is none.
    pub(crate) fn cell(&self, strand: usize, item: usize) -> usize
        ensures { result ≡ cell self.now strand item }
    {
        let row = self.row(strand);
        if item < row.len() { row[item] } else { 0 }
    }

    pub(crate) fn put(&mut self, strand: usize, item: usize, number: usize)
        requires strand { strand < length self.old }
        requires item { item < length (get_or self.old strand []) }
        ensures { self.new ≡ set self.old strand (set (get_or self.old strand []) item number) }
    {
        self.rows[strand].put(item, number);
    }
}
