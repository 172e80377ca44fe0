// The front: the places of the records that the last view wants.
ghost use Rattle.std.specs.Prelude.{◌≡◌, ◌≤◌, ℕ, [], length, IfOk, OnOk, OnErr};
ghost use Rattle.std.specs.List.Sorted.{IsStrictlyIncreasing};
ghost use Rattle.tpz_base.specs.Boxes.{IsNearEye};
ghost use Rattle.diamond_graph.specs.Graphs.{GraphState, IsGraph};
ghost use Rattle.diamond_graph.specs.Saturated.{AreSaturated};
ghost use Rattle.view_cut.specs.Views.{wanted_centres, wanted_places, counted_by, after_tests};
ghost use Rattle.view_cut.specs.Sets.{centres_at, IsConformingSet, IsGraphCut};

use crate::wanting::{View, wants};
use diamond_graph::Graph;
use std::alloc::{AllocError, Global};
use std::marker::Model;

/// The places of the records that the view wants, ascending. Each record is tested once.
fn find_wanted(alloc: Global, graph: &mut Graph, view: &View) -> Result<Vec<u32>, AllocError>
    requires { IsNearEye view.now.eye }
    ensures places { IfOk result (λ found. found.items ≡ wanted_places view.now graph.old.records) }
    ensures tests { OnOk result (graph.new ≡ after_tests (length graph.old.records) graph.old) }
    ensures refused { OnErr result ((n : ℕ) × (n ≤ length graph.old.records) × (graph.new ≡ after_tests n graph.old)) }
    ensures graph { IsGraph graph.old }
{
    let mut found = Vec::new(alloc);
    'records: for i in 0..graph.len() {
        let rec = graph.record_at(i);
        if wants(view, &rec) {
            found.push(i)?;
        }
    }
    Ok(found)
}

/// The records that the last view wants, by their places in the graph, ascending. Before a view there are none.
#[derive(Drop)]
pub struct Front {
    alloc: Global,
    places: Vec<u32>,
}

impl Model for Front {
    ghost use Rattle.std.specs.Prelude.{ℕ, List};
    ghost use Rattle.std.specs.List.Sorted.{IsStrictlyIncreasing};

    ghost Value = { List ℕ };

    ghost view = { λ f. f.places.items };

    ghost invariant = { λ f. IsStrictlyIncreasing f.places.items };
}

impl Front {
    /// No records, which is a conforming set of every graph.
    pub fn new(alloc: Global) -> Self
        ensures empty { result ≡ [] }
        ensures set { (g : GraphState) → IsConformingSet g result }
    {
        Front {
            alloc,
            places: Vec::new(alloc),
        }
    }

    /// The places, counted from 0, ascending.
    pub fn list(&self) -> &[u32]
        ensures places { result.now ≡ self.now }
        ensures ascending { IsStrictlyIncreasing self.now }
    {
        &self.places
    }

    /// The front becomes the records that the view wants: a record with a wanted kid is wanted too. Each record of the graph is tested once.
    ///
    /// After a refusal the front is as before; some records may have been tested.
    pub fn look(&mut self, graph: &mut Graph, view: &View) -> Result<(), AllocError>
        requires eye { IsNearEye view.now.eye }
        requires saturated { AreSaturated graph.old.l graph.old.records }
        requires set { IsConformingSet graph.old self.old }
        ensures places { OnOk result (self.new ≡ wanted_places view.now graph.old.records) }
        ensures centres { OnOk result (centres_at graph.old.records self.new ≡ wanted_centres view.now graph.old.records) }
        ensures cut { OnOk result (IsGraphCut graph.old (wanted_centres view.now graph.old.records)) }
        ensures err { OnErr result (self.new ≡ self.old) }
        ensures set { IsConformingSet graph.new self.new }
        ensures l { graph.new.l ≡ graph.old.l }
        ensures records { graph.new.records ≡ graph.old.records }
        ensures saturated { AreSaturated graph.new.l graph.new.records }
        ensures tests { OnOk result (graph.new.tests ≡ counted_by (length graph.old.records) graph.old.tests) }
        ensures refused_tests { OnErr result ((n : ℕ) × (n ≤ length graph.old.records) × (graph.new.tests ≡ counted_by n graph.old.tests)) }
    {
        let found = find_wanted(self.alloc, graph, view)?;
        self.places = found;
        Ok(())
    }
}
