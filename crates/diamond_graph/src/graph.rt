// Records in record order, and their places by centre.
ghost use Rattle.std.specs.Prelude.{◌≡◌, ◌<◌, ◌≤◌, ◌^◌, ◌⊎◌, Some, None, length, map, position, slice_get, slice_set, All, IfOk, OnOk, IfErr, IfSome};
ghost use Rattle.std.specs.List.{IsDistinct};
ghost use Rattle.std.specs.Option.{ForSome};
ghost use Rattle.tpz_base.specs.Lists.{in_order};
ghost use Rattle.tpz_base.specs.Points.{point_eq};
ghost use Rattle.tpz_base.specs.Cuts.{has_diamond};
ghost use Rattle.tpz_base.specs.Diamonds.{record_lt};
ghost use Rattle.tetra_name.specs.Names.{point_of, IsBound};
ghost use Rattle.diamond_graph.specs.Adding.{IsKept};
ghost use Rattle.diamond_graph.specs.Graphs.{centre_of, centres, counted_on, fresh_record, with_errors, IsStored, IsRecord, IsGraph};
ghost use Rattle.diamond_graph.specs.Saturated.{first_fault, AreSaturated};

use crate::fault::{GraphFault, find_not_closed, find_not_saturated, find_out_of_order};
use crate::rank::in_record_order;
use crate::record::{Record, fresh, key};
use indexmap::IndexSet;
use std::alloc::{AllocError, Global};
use std::marker::Model;
use tetra_name::Half;
use tpz_base::{Cell, Point};

/// Records of diamonds above the last level in record order: by level, then by centre. The parents of each are there.
#[derive(Drop)]
pub struct Graph {
    l: u8,
    records: Vec<Record>,
    /// The records' centres, in the same order.
    centres: IndexSet<Point>,
    tests: u64,
}

impl Model for Graph {
    ghost use Rattle.std.specs.Prelude.{◌≡◌, map};
    ghost use Rattle.diamond_graph.specs.Graphs.{centre_of, GraphState, IsGraph};

    ghost Value = { GraphState };

    ghost view = { λ g. record { l = g.l; records = g.records.items; tests = g.tests } };

    ghost invariant = { λ g. IsGraph (record { l = g.l; records = g.records.items; tests = g.tests }) × (g.centres.keys ≡ map centre_of g.records.items) };
}

impl Graph {
    /// The graph of a set of centres.
    pub(crate) fn with_centres(
        alloc: Global,
        l: u8,
        mut centres: IndexSet<Point>,
    ) -> Result<Self, AllocError>
        requires { IsKept l centres.keys }
        ensures { IfOk result (λ graph. graph ≡ record { l = l; records = map fresh_record (in_order (record_lt l) centres.keys); tests = 0 }) }
    {
        let ranked = in_record_order(alloc, centres.as_slice(), l)?;
        let mut records = Vec::with_capacity(alloc, ranked.len())?;
        centres.clear();
        'ranked: for r in &ranked {
            centres.insert(key(r.centre))?;
            records.push(fresh(r.centre))?;
        }
        Ok(Graph {
            l,
            records,
            centres,
            tests: 0,
        })
    }

    /// The graph of these records, in a cube of 2^l whole units. An error names the first record that can't stand there: each kind of error is looked
    /// for in all records before the next.
    pub fn from_records(alloc: Global, l: u8, records: Vec<Record>) -> Result<Self, GraphFault>
        requires bound { IsBound l }
        requires few { length records.items < 2 ^ 32 }
        requires stored { All (IsStored l) records.items }
        ensures graph { IfOk result (λ graph. graph ≡ record { l = l; records = records.items; tests = 0 }) }
        ensures right { OnOk result (first_fault l records.items ≡ None) }
        ensures saturated { OnOk result (AreSaturated l records.items) }
        ensures refused { IfErr result (λ fault. (fault ≡ GraphFault.Memory) ⊎ (first_fault l records.items ≡ Some fault)) }
    {
        if let Some(rec) = find_out_of_order(&records, l) {
            return Err(GraphFault::Order { rec });
        }
        let Ok(centres) = index(alloc, &records) else {
            return Err(GraphFault::Memory);
        };
        if let Some(rec) = find_not_closed(&records, &centres, l) {
            return Err(GraphFault::NotClosed { rec });
        }
        if let Some(rec) = find_not_saturated(&records, &centres, l) {
            return Err(GraphFault::NotSaturated { rec });
        }
        Ok(Graph {
            l,
            records,
            centres,
            tests: 0,
        })
    }

    /// The number of records.
    pub fn len(&self) -> u32
        ensures len { result ≡ length self.now.records }
        ensures graph { IsGraph self.now }
    {
        self.records.len() as u32
    }

    /// The bound of levels: the cube has 2^l whole units.
    pub fn l(&self) -> u8
        ensures l { result ≡ self.now.l }
        ensures graph { IsGraph self.now }
    {
        self.l
    }

    /// The centre of the record at a place, counted from 0.
    pub fn centre_at(&self, i: u32) -> Half
        requires { i < length self.now.records }
        ensures centre { slice_get (centres self.now) i ≡ Some (point_of result) }
        ensures graph { IsGraph self.now }
    {
        self.records[i as usize].centre
    }

    /// The place of the record with this centre. None comes exactly where there is none.
    pub fn place(&self, centre: Half) -> Option<u32>
        ensures place { result ≡ position (point_eq (point_of centre)) (centres self.now) }
        ensures graph { IsGraph self.now }
    {
        match self.centres.get_index_of(&key(centre)) {
            Some(i) => Some(i as u32),
            None => None,
        }
    }

    /// Whether there is a record with this centre.
    pub fn has(&self, centre: Half) -> bool
        ensures { result ≡ has_diamond (centres self.now) (point_of centre) }
    {
        self.centres.contains(&key(centre))
    }

    /// The record at a place, counted from 0. The count of tests rises by one; at the greatest number it stays.
    pub fn record_at(&mut self, i: u32) -> Record
        requires { i < length self.old.records }
        ensures value { slice_get self.old.records i ≡ Some result }
        ensures tests { self.new ≡ record { l = self.old.l; records = self.old.records; tests = counted_on self.old.tests } }
        ensures graph { IsGraph self.old }
    {
        self.tests = self.tests.saturating_add(1);
        self.records[i as usize]
    }

    /// How often a record was shown with its error and its box.
    pub fn tests(&self) -> u64
        ensures { result ≡ self.now.tests }
    {
        self.tests
    }

    /// Sets the errors and the box of the record at a place, counted from 0.
    pub fn set_record(&mut self, i: u32, own: u32, err: u64, cell: Cell)
        requires place { i < length self.old.records }
        requires right { IfSome (slice_get self.old.records i) (λ r. IsRecord self.old.l (with_errors r own err cell)) }
        ensures { ForSome (slice_get self.old.records i) (λ r.
            self.new ≡ record { l = self.old.l; records = slice_set self.old.records i (with_errors r own err cell); tests = self.old.tests }) }
    {
        let place = i as usize;
        let centre = self.records[place].centre;
        self.records[place] = Record {
            centre,
            own,
            err,
            cell,
        };
    }
}

/// The records' centres.
fn index(alloc: Global, records: &[Record]) -> Result<IndexSet<Point>, AllocError>
    requires { IsDistinct point_eq (map centre_of records.now) }
    ensures { IfOk result (λ centres. centres.keys ≡ map centre_of records.now) }
{
    let mut centres = IndexSet::new(alloc);
    'records: for r in records {
        centres.insert(key(r.centre))?;
    }
    Ok(centres)
}
