//! A cache of bounded size, by the centres of diamonds, that gives up the least recently used value.
#![tactic(auto)]

#[cfg(test)]
mod tests;

ghost use Rattle.std.specs.Prelude.{◌≡◌, ◌≤◌, ◌-◌, ◌↔◌, [], ◌∷◌, length, take, drop, is_some, option_map, option_copied, false, IfOk, OnOk, OnErr, IsSome, IsNone};
ghost use Rattle.std.specs.Option.{option_to_list};
ghost use Rattle.std.specs.Map.{keys_of, lookup};
ghost use Rattle.tpz_base.specs.Points.{point_eq};
ghost use Rattle.tpz_base.specs.Cuts.{has_diamond};
ghost use Rattle.tetra_name.specs.Names.{point_of};
ghost use Rattle.patch_cache.specs.Caches.{cache_state, to_front, IsCache};

use lru::LruCache;
use std::alloc::{AllocError, Global};
use std::marker::Model;
use std::num::NonZeroUsize;
use tetra_name::Half;
use tpz_base::Point;

/// The same three numbers as a point, which has a hash. Its unit is half a whole unit.
#[inline]
fn key(c: Half) -> Point
    ensures { result ≡ point_of c }
{
    Point {
        x: c.x,
        y: c.y,
        z: c.z,
    }
}

/// The centre with these three numbers.
#[inline]
fn centre_of(p: Point) -> Half
    ensures { point_of result ≡ p }
{
    Half {
        x: p.x,
        y: p.y,
        z: p.z,
    }
}

/// The centre of an entry, whose value is dropped.
fn centre_alone<V: Drop>(entry: Option<(Point, V)>) -> Option<Half>
    ensures { option_map point_of result ≡ option_map (λ e. e.0) entry }
{
    match entry {
        Some((centre, _)) => Some(centre_of(centre)),
        None => None,
    }
}

/// Values by the centres of their diamonds, at most as many as the capacity: the most recent ones, by the last `admit` or `touch`.
#[derive(Drop)]
pub struct Cache<V> {
    lru: LruCache<Point, V>,
}

impl<V> Model for Cache<V> {
    ghost use Rattle.patch_cache.specs.Caches.{CacheState, IsCache};

    ghost Value = { CacheState V };

    ghost view = { λ c. record { entries = c.lru.entries; cap = c.lru.cap } };

    ghost invariant = { λ c. IsCache (record { entries = c.lru.entries; cap = c.lru.cap }) };
}

impl<V> Cache<V> {
    /// An empty cache. Memory is taken as values come in, and not for the capacity.
    pub fn new(alloc: Global, cap: u32) -> Result<Self, AllocError>
        requires least { 1 ≤ cap }
        requires most { cap ≤ 1048576 }
        ensures { IfOk result (λ c. c ≡ cache_state [] cap) }
    {
        let places = NonZeroUsize::new(cap as usize).unwrap();
        let lru = LruCache::sparse(alloc, places)?;
        Ok(Cache { lru })
    }

    /// The value of this centre; its recency stays. None comes exactly where the centre is absent.
    pub fn peek(&self, centre: Half) -> Option<&V>
        ensures value { option_copied result ≡ lookup (point_eq (point_of centre)) self.now.entries }
        ensures found { is_some result ≡ has_diamond (keys_of self.now.entries) (point_of centre) }
        ensures cache { IsCache self.now }
    {
        self.lru.peek(&key(centre))
    }

    /// Brings the value of this centre to the front, and answers whether there is one.
    pub fn touch(&mut self, centre: Half) -> bool
        ensures found { result ≡ has_diamond (keys_of self.old.entries) (point_of centre) }
        ensures entries { self.new ≡ cache_state (to_front (point_of centre) self.old.entries) self.old.cap }
        ensures cache { IsCache self.new }
    {
        self.lru.promote(&key(centre))
    }
}

impl<V: Drop> Cache<V> {
    /// Puts the value of a centre that is absent to the front. Where the cache was full the last value is dropped, and its centre answered.
    ///
    /// After a refusal the cache is as before, and the value is dropped.
    pub fn admit(&mut self, centre: Half, value: V) -> Result<Option<Half>, AllocError>
        requires absent { has_diamond (keys_of self.old.entries) (point_of centre) ≡ false }
        ensures entries { OnOk result (self.new ≡ cache_state (take self.old.cap ((point_of centre, value) ∷ self.old.entries)) self.old.cap) }
        ensures evicted { IfOk result (λ gone. option_to_list (option_map point_of gone) ≡ keys_of (drop self.old.cap ((point_of centre, value) ∷ self.old.entries))) }
        ensures full { IfOk result (λ gone. IsSome gone ↔ (length self.old.entries ≡ self.old.cap)) }
        ensures err { OnErr result (self.new ≡ self.old) }
        ensures cache { IsCache self.new }
    {
        let last = self.lru.push(key(centre), value)?;
        Ok(centre_alone(last))
    }

    /// Drops the last value, and answers its centre. None comes exactly where the cache is empty.
    pub fn evict_last(&mut self) -> Option<Half>
        ensures entries { self.new ≡ cache_state (take (length self.old.entries - 1) self.old.entries) self.old.cap }
        ensures evicted { option_to_list (option_map point_of result) ≡ keys_of (drop (length self.old.entries - 1) self.old.entries) }
        ensures empty { IsNone result ↔ (self.old.entries ≡ []) }
        ensures cache { IsCache self.new }
    {
        centre_alone(self.lru.pop_lru())
    }
}
