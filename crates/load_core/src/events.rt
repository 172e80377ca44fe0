// The events of a viewer, and the state that they leave.
ghost use Rattle.std.specs.Prelude.{◌≡◌, ◌<◌, ◌≤◌, ◌+◌, ◌↔◌, ℕ, length, true, Contains, is_some, option_copied, IfOk, IfErr, IsErr, OnOk, OnErr};
ghost use Rattle.std.specs.Map.{keys_of, lookup};
ghost use Rattle.std.specs.List.Sorted.{IsStrictlyIncreasing};
ghost use Rattle.tpz_base.specs.Boxes.{IsNearEye};
ghost use Rattle.tpz_base.specs.Points.{point_eq};
ghost use Rattle.diamond_graph.specs.Graphs.{GraphState};
ghost use Rattle.diamond_graph.specs.Saturated.{AreSaturated};
ghost use Rattle.view_cut.specs.Views.{wanted_places, counted_by};
ghost use Rattle.load_core.specs.Events.{has_place, centre_at, count_of, is_resident, looked, arrived, failed, dropped};
ghost use Rattle.load_core.specs.Facts.{CoreState, IsCore, ShowsLargest, started_core, after_event};

use crate::pending::Pending;
use crate::residence::{bring_forward, find_pending, pend_again};
use crate::showing::find_shown;
use diamond_graph::Graph;
use patch_cache::Cache;
use std::alloc::{AllocError, Global};
use std::marker::Model;
use view_cut::{Front, View};

/// A record failed as often as it may.
#[derive(Clone, Copy, Debug, PartialEq, Eq)]
pub struct TriesSpent {
    pub rec: u32,
    pub tries: u32,
}

/// Which records the last view wants, which records are resident with their values, which members of the cut are pending, and which are shown.
#[derive(Drop)]
pub struct Core<V> {
    alloc: Global,
    front: Front,
    cache: Cache<V>,
    pending: Pending,
    shown: Vec<u32>,
    tries: u32,
}

impl<V> Model for Core<V> {
    ghost use Rattle.std.specs.Prelude.{◌<◌, ◌≤◌, length, All, vec_capacity};
    ghost use Rattle.load_core.specs.Events.{State};
    ghost use Rattle.load_core.specs.Facts.{CoreState};

    ghost Value = { CoreState V };

    ghost view = { λ k. record {
      state = record { cut = k.front; resident = k.cache.entries; pending = k.pending.entries };
      shown = k.shown.items;
      cap = k.cache.cap;
      tries = k.tries;
    } };

    ghost invariant = { λ k. (length k.front ≤ k.pending.room) × (length k.front ≤ vec_capacity k.shown) × All (λ i. i < k.pending.bound) k.front };
}

impl<V> Core<V> {
    /// Nothing is wanted, resident, pending or shown. At most `cap` records are resident at a time, and a record may fail `tries` times.
    pub fn new(alloc: Global, cap: u32, tries: u32) -> Result<Self, AllocError>
        requires cap_least { 1 ≤ cap }
        requires cap_most { cap ≤ 1048576 }
        requires tries_least { 1 ≤ tries }
        requires tries_most { tries ≤ 100 }
        ensures started { IfOk result (λ core. core ≡ started_core cap tries) }
        ensures core { IfOk result (λ core. (g : GraphState) → IsCore g core) }
    {
        let cache = Cache::new(alloc, cap)?;
        Ok(Core {
            alloc,
            front: Front::new(alloc),
            cache,
            pending: Pending::new(alloc),
            shown: Vec::new(alloc),
            tries,
        })
    }

    /// The records that the last view wants, by their places in the graph, ascending.
    pub fn cut(&self) -> &[u32]
        ensures cut { result.now ≡ self.now.state.cut }
        ensures ascending { IsStrictlyIncreasing result.now }
    {
        self.front.list()
    }

    /// The members of the cut that aren't resident, in the order in which they became pending.
    pub fn pending(&self) -> &[u32]
        ensures { result.now ≡ keys_of self.now.state.pending }
    {
        self.pending.records()
    }

    /// The members of the cut that are resident with all their ancestors, ascending.
    pub fn shown(&self) -> &[u32]
        ensures { result.now ≡ self.now.shown }
    {
        &self.shown
    }

    /// The value of a resident record, which is that of its last arrival. None comes exactly where the record isn't resident.
    pub fn peek(&self, graph: &Graph, rec: u32) -> Option<&V>
        requires { rec < length graph.now.records }
        ensures value { option_copied result ≡ lookup (point_eq (centre_at graph.now rec)) self.now.state.resident }
        ensures resident { is_some result ≡ is_resident graph.now self.now.state.resident rec }
    {
        self.cache.peek(graph.centre_at(rec))
    }

    /// A read of a pending record failed: its count rises by one, and nothing else changes. The error comes exactly where the count reached `tries`.
    pub fn fail(&mut self, rec: u32) -> Result<(), TriesSpent>
        requires pending { Contains (keys_of self.old.state.pending) rec }
        requires below { count_of self.old.state.pending rec < self.old.tries }
        ensures event { self.new ≡ record self.old { state = failed rec self.old.state } }
        ensures spent { IsErr result ↔ (count_of self.old.state.pending rec + 1 ≡ self.old.tries) }
        ensures fault { IfErr result (λ e. e ≡ record { rec = rec; tries = self.old.tries }) }
        ensures core { OnOk result ((g : GraphState) → IsCore g self.old → IsCore g self.new) }
    {
        let count = self.pending.raise(rec);
        if count == self.tries {
            return Err(TriesSpent {
                rec,
                tries: self.tries,
            });
        }
        Ok(())
    }
}

impl<V: Drop> Core<V> {
    /// A new view: the cut becomes what it wants, the resident members of the cut are the most recent ones, and the others of the cut are pending, each
    /// with the failures that it had. Each record of the graph is tested once.
    ///
    /// Room for what may become pending or shown until the next view is taken first. After a refusal only the graph's count of tests may have risen.
    pub fn look(&mut self, graph: &mut Graph, view: &View) -> Result<(), AllocError>
        requires eye { IsNearEye view.now.eye }
        requires saturated { AreSaturated graph.old.l graph.old.records }
        requires core { IsCore graph.old self.old }

        // The state after the event, and what is shown then.
        ensures event { OnOk result (self.new ≡ after_event graph.new self.old (looked graph.new (wanted_places view.now graph.new.records) self.old.state)) }
        ensures err { OnErr result (self.new ≡ self.old) }
        ensures core { IsCore graph.new self.new }
        ensures shows { ShowsLargest graph.new self.new }

        // What stays of the graph, and how many records are tested.
        ensures l { graph.new.l ≡ graph.old.l }
        ensures records { graph.new.records ≡ graph.old.records }
        ensures tests { OnOk result (graph.new.tests ≡ counted_by (length graph.old.records) graph.old.tests) }
        ensures refused_tests { OnErr result ((n : ℕ) × (n ≤ length graph.old.records) × (graph.new.tests ≡ counted_by n graph.old.tests)) }
    {
        let mut pending = Pending::with_room(self.alloc, graph.len())?;
        let shown = Vec::with_capacity(self.alloc, graph.len() as usize)?;
        self.front.look(graph, view)?;
        find_pending(
            graph,
            self.front.list(),
            &self.cache,
            &self.pending,
            &mut pending,
        );
        bring_forward(graph, self.front.list(), &mut self.cache);
        self.pending = pending;
        self.shown = shown;
        find_shown(graph, self.front.list(), &self.cache, &mut self.shown);
        Ok(())
    }

    /// A pending record arrived: it isn't pending any more, and is the most recent resident, with its value. Where the cache was full the last resident
    /// leaves, and is pending again where it is in the cut.
    ///
    /// After a refusal the core is as before, and the value is dropped.
    pub fn arrive(&mut self, graph: &Graph, rec: u32, value: V) -> Result<(), AllocError>
        requires core { IsCore graph.now self.old }
        requires pending { Contains (keys_of self.old.state.pending) rec }
        ensures event { OnOk result (self.new ≡ after_event graph.now self.old (arrived graph.now self.old.cap rec value self.old.state)) }
        ensures err { OnErr result (self.new ≡ self.old) }
        ensures core { IsCore graph.now self.new }
        ensures shows { ShowsLargest graph.now self.new }
    {
        let gone = self.cache.admit(graph.centre_at(rec), value)?;
        self.pending.remove(rec);
        pend_again(graph, self.front.list(), gone, &mut self.pending);
        find_shown(graph, self.front.list(), &self.cache, &mut self.shown);
        Ok(())
    }

    /// The last resident leaves, and is pending again where it is in the cut. With none resident nothing changes.
    pub fn drop_last(&mut self, graph: &Graph)
        requires core { IsCore graph.now self.old }
        ensures event { self.new ≡ after_event graph.now self.old (dropped graph.now self.old.state) }
        ensures core { IsCore graph.now self.new }
        ensures shows { ShowsLargest graph.now self.new }
    {
        let gone = self.cache.evict_last();
        pend_again(graph, self.front.list(), gone, &mut self.pending);
        find_shown(graph, self.front.list(), &self.cache, &mut self.shown);
    }
}
