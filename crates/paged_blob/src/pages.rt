// Pages of a blob that are held in a room of their own, and written back when they are given up.
ghost use Rattle.std.specs.Prelude.{◌≡◌, ◌↔◌, ◌<◌, ◌≤◌, ◌+◌, ◌-◌, ◌*◌, ◌%◌, ◌^◌, List, ℕ, true, false, length, take, drop, max, replicate, slice_index, slice_range, IsTrue, IfOk, OnOk, OnErr};
ghost use Rattle.std.specs.Option.{ForSome, option_map};
ghost use Rattle.tpz_io.specs.Causes.{HasCause};
ghost use Rattle.tpz_io.specs.Bytes.{written, IsTorn};
ghost use Rattle.tpz_io.specs.Told.{Changes};
ghost use Rattle.paged_blob.specs.Rooms.{IsFilled, IsKeptOutside};
ghost use Rattle.paged_blob.specs.Progress.{HasGrown, HasGrownWithin};
ghost use Rattle.paged_blob.specs.Tables.{content, is_held as holds, page_size, page_start as start_of_page, size_ahead as ahead_at, slot_of as slot_at, start_of as begin_of, vacated, with_bytes, with_page, written_back, AreClean, HasPlaces, HoldsNone, IsClean, KeepsClean, Over, Puts, Stands};

use std::alloc::{AllocError, Global};
use std::marker::Model;
use tpz_io::{Blob, Failed};

/// How many bytes a page has.
const PAGE: usize = 4096;

/// How many pages are held at most.
const SLOTS: usize = 1024;

/// How many bytes all of them have.
const SPAN: u64 = 4_194_304;

// The same, as the room has them.
const ROOM: usize = 4_194_304;

// What a gap is filled with.
const ZEROS: [u8; 64] = [0; 64];

/// Pages over a blob, which is lent to each call: give the same one to all.
#[derive(Drop)]
pub(crate) struct Pages {
    laps: Vec<u64>,
    dirty: Vec<bool>,
    room: Vec<u8>,
    len: u64,
    stored: u64,
}

impl Model for Pages {
    ghost use Rattle.std.specs.Prelude.{◌≤◌, vec_capacity};
    ghost use Rattle.paged_blob.specs.Tables.{HasPlaces, Table};

    ghost Value = { Table };

    ghost view = { λ p. record { laps = p.laps.items; dirty = p.dirty.items; room = p.room.items; len = p.len; stored = p.stored } };

    ghost invariant = { λ p. HasPlaces (record { laps = p.laps.items; dirty = p.dirty.items; room = p.room.items; len = p.len; stored = p.stored }) × (4194304 ≤ vec_capacity p.room) };
}

// The place of the page of a byte.
#[inline]
fn slot_of(at: u64) -> usize
    ensures place { result ≡ slot_at at }
    ensures below { result < 1024 }
{
    (at % SPAN) as usize / PAGE
}

// Where the page of a byte begins.
#[inline]
fn page_start(at: u64) -> u64
    ensures { result ≡ start_of_page at }
{
    at - at % PAGE as u64
}

// Fills a part of a room from a blob, of no byte without a call.
fn fill<B: Blob>(
    blob: &mut B,
    at: u64,
    room: &mut [u8],
    place: usize,
    size: usize,
) -> Result<(), Failed>
    requires place { place + size ≤ length room.old }
    requires there { ForSome (B.held blob.old) (λ bytes. 0 < size → at + size ≤ length bytes) }
    ensures kept { IsKeptOutside place size room.old room.new }
    ensures filled { OnOk result (ForSome (B.held blob.old) (IsFilled place size room.new at)) }
    ensures held { B.held blob.new ≡ B.held blob.old }
    ensures cause { HasCause (B.faults blob.old) (B.faults blob.new) result }
{
    if size == 0 {
        return Ok(());
    }
    blob.read_at(at, &mut room[place..place + size])
}

impl Pages {
    /// No page. Takes the memory for all of them, and writes to none of it yet.
    pub(crate) fn new(alloc: Global) -> Result<Self, AllocError>
        ensures { IfOk result HoldsNone }
    {
        Ok(Pages {
            laps: vec![in alloc; 0; SLOTS]?,
            dirty: vec![in alloc; false; SLOTS]?,
            room: Vec::with_capacity(alloc, ROOM)?,
            len: 0,
            stored: 0,
        })
    }

    /// Begins over a blob of so many bytes.
    pub(crate) fn begin(&mut self, len: u64)
        requires { len < 2 ^ 63 }
        ensures { self.new ≡ record self.old { len = len; stored = len } }
    {
        self.len = len;
        self.stored = len;
    }

    /// How many bytes there are.
    #[inline]
    pub(crate) fn len(&self) -> u64
        ensures len { result ≡ self.now.len }
        ensures short { result < 2 ^ 63 }
    {
        self.len
    }

    // Whether the page of a byte is held.
    #[inline]
    fn is_held(&self, at: u64) -> bool
        ensures { result ≡ holds self.now at }
    {
        self.laps[slot_of(at)] == at / SPAN + 1
    }

    // How many bytes of the page at a place are to be written back.
    fn size_ahead(&self, slot: usize) -> usize
        requires { slot < 1024 }
        ensures size { result ≡ ahead_at self.now slot }
        ensures small { result ≤ 4096 }
    {
        let lap = self.laps[slot];
        if !self.dirty[slot] || lap == 0 || lap - 1 > self.len / SPAN {
            return 0;
        }
        let start = (lap - 1) * SPAN + (slot * PAGE) as u64;
        self.len.saturating_sub(start).min(PAGE as u64) as usize
    }

    // Where the page at a place begins, some bytes of which are to be written back.
    fn begin_of(&self, slot: usize) -> u64
        requires slot { slot < 1024 }
        requires some { 0 < ahead_at self.now slot }
        ensures begin { result ≡ begin_of self.now slot }
        ensures short { result + ahead_at self.now slot < 2 ^ 63 }
    {
        (self.laps[slot] - 1) * SPAN + (slot * PAGE) as u64
    }

    // Hands the bytes of the page at a place to the blob.
    fn hand_back<B: Blob>(&self, slot: usize, size: usize, blob: &mut B) -> Result<(), Failed>
        requires slot { slot < 1024 }
        requires size { size ≡ ahead_at self.now slot }
        requires some { 0 < size }
        requires stands { ForSome (B.held blob.old) (Stands self.now) }
        ensures over { OnOk result (Over self.now (written_back self.now slot) (B.held blob.old) (B.held blob.new)) }
        ensures torn { OnErr result (Over self.now self.now (B.held blob.old) (B.held blob.new)) }
        ensures cause { HasCause (B.faults blob.old) (B.faults blob.new) result }
    {
        let begin = self.begin_of(slot);
        let place = slot * PAGE;
        blob.write_at(begin, &self.room[place..place + size])
    }

    // Notes that the page at a place was written back.
    #[tactic(auto, using(crate::proofs::Overs::clean_back, crate::proofs::Overs::keeps_back))]
    fn note_back(&mut self, slot: usize, size: usize)
        requires slot { slot < 1024 }
        requires size { size ≡ ahead_at self.old slot }
        requires some { 0 < size }
        ensures table { self.new ≡ written_back self.old slot }
        ensures clean { IsClean self.new slot }
        ensures keeps { KeepsClean self.old self.new }
    {
        let end = self.begin_of(slot) + size as u64;
        self.dirty[slot] = false;
        self.stored = self.stored.max(end);
    }

    // Writes the page at a place back.
    fn write_back<B: Blob>(&mut self, slot: usize, size: usize, blob: &mut B) -> Result<(), Failed>
        requires slot { slot < 1024 }
        requires size { size ≡ ahead_at self.old slot }
        requires some { 0 < size }
        requires stands { ForSome (B.held blob.old) (Stands self.old) }
        ensures clean { OnOk result (IsClean self.new slot) }
        ensures keeps { KeepsClean self.old self.new }
        ensures over { Over self.old self.new (B.held blob.old) (B.held blob.new) }
        ensures len { self.new.len ≡ self.old.len }
        ensures cause { HasCause (B.faults blob.old) (B.faults blob.new) result }
    {
        self.hand_back(slot, size, blob)?;
        self.note_back(slot, size);
        Ok(())
    }

    // Writes the page at a place back where it was written to.
    #[tactic(auto, using(crate::proofs::Overs::clean_none, crate::proofs::Overs::over_nothing, crate::proofs::Overs::keeps_all))]
    fn settle<B: Blob>(&mut self, slot: usize, blob: &mut B) -> Result<(), Failed>
        requires slot { slot < 1024 }
        requires stands { ForSome (B.held blob.old) (Stands self.old) }
        ensures clean { OnOk result (IsClean self.new slot) }
        ensures keeps { KeepsClean self.old self.new }
        ensures over { Over self.old self.new (B.held blob.old) (B.held blob.new) }
        ensures len { self.new.len ≡ self.old.len }
        ensures cause { HasCause (B.faults blob.old) (B.faults blob.new) result }
    {
        let size = self.size_ahead(slot);
        if size == 0 {
            return Ok(());
        }
        self.write_back(slot, size, blob)
    }

    // Forgets the page at a place.
    fn vacate(&mut self, slot: usize)
        requires { slot < 1024 }
        ensures table { self.new ≡ vacated self.old slot }
        ensures places { HasPlaces self.old }
    {
        self.laps[slot] = 0;
    }

    // Sees to the bytes of a place in the room.
    fn reach(&mut self, slot: usize)
        requires { slot < 1024 }
        ensures table { self.new ≡ record self.old { room = self.new.room } }
        ensures same { (i : ℕ) → slice_index self.new.room i ≡ slice_index self.old.room i }
        ensures long { slot * 4096 + 4096 ≤ length self.new.room }
    {
        let end = slot * PAGE + PAGE;
        if end <= self.room.len() {
            return;
        }
        self.room.resize(end, 0).unwrap();
    }

    // Writes the page at a place back where it was written to, forgets it, and sees to the bytes of the place.
    fn make_room<B: Blob>(&mut self, slot: usize, blob: &mut B) -> Result<(), Failed>
        requires slot { slot < 1024 }
        requires stands { ForSome (B.held blob.old) (Stands self.old) }
        ensures vacant { OnOk result (slice_index self.new.laps slot ≡ 0) }
        ensures long { OnOk result (slot * 4096 + 4096 ≤ length self.new.room) }
        ensures over { Over self.old self.new (B.held blob.old) (B.held blob.new) }
        ensures len { self.new.len ≡ self.old.len }
        ensures cause { HasCause (B.faults blob.old) (B.faults blob.new) result }
    {
        self.settle(slot, blob)?;
        self.vacate(slot);
        self.reach(slot);
        Ok(())
    }

    // How many bytes of a page that begins here are before the end.
    fn size_from(&self, start: u64) -> usize
        ensures size { result ≡ page_size self.now start }
        ensures small { result ≤ 4096 }
    {
        self.len.saturating_sub(start).min(PAGE as u64) as usize
    }

    // Notes the page of a byte at its place.
    fn note(&mut self, at: u64)
        requires { slot_at at * 4096 + 4096 ≤ length self.old.room }
        ensures { self.new ≡ with_page self.old at self.old.room }
    {
        let slot = slot_of(at);
        self.laps[slot] = at / SPAN + 1;
        self.dirty[slot] = false;
    }

    // Reads the page of a byte into its place, which has none.
    fn take_in<B: Blob>(&mut self, at: u64, blob: &mut B) -> Result<(), Failed>
        requires vacant { slice_index self.old.laps (slot_at at) ≡ 0 }
        requires long { slot_at at * 4096 + 4096 ≤ length self.old.room }
        requires stands { ForSome (B.held blob.old) (Stands self.old) }
        ensures table { self.new ≡ record self.old { room = self.new.room } }
        ensures long { slot_at at * 4096 + 4096 ≤ length self.new.room }
        ensures places { HasPlaces self.old }
        ensures kept { IsKeptOutside (slot_at at * 4096) (page_size self.old (start_of_page at)) self.old.room self.new.room }
        ensures filled { OnOk result (ForSome (B.held blob.old) (IsFilled (slot_at at * 4096) (page_size self.old (start_of_page at)) self.new.room (start_of_page at))) }
        ensures held { B.held blob.new ≡ B.held blob.old }
        ensures cause { HasCause (B.faults blob.old) (B.faults blob.new) result }
    {
        let start = page_start(at);
        let size = self.size_from(start);
        fill(blob, start, &mut self.room, slot_of(at) * PAGE, size)
    }

    // Takes the page of a byte into its place, which has none.
    fn fetch<B: Blob>(&mut self, at: u64, blob: &mut B) -> Result<(), Failed>
        requires vacant { slice_index self.old.laps (slot_at at) ≡ 0 }
        requires long { slot_at at * 4096 + 4096 ≤ length self.old.room }
        requires stands { ForSome (B.held blob.old) (Stands self.old) }
        ensures here { OnOk result (holds self.new at ≡ true) }
        ensures over { Over self.old self.new (B.held blob.old) (B.held blob.new) }
        ensures len { self.new.len ≡ self.old.len }
        ensures cause { HasCause (B.faults blob.old) (B.faults blob.new) result }
    {
        self.take_in(at, blob)?;
        self.note(at);
        Ok(())
    }

    // Takes the page of a byte in.
    #[cold]
    fn load<B: Blob>(&mut self, at: u64, blob: &mut B) -> Result<(), Failed>
        requires stands { ForSome (B.held blob.old) (Stands self.old) }
        ensures here { OnOk result (holds self.new at ≡ true) }
        ensures over { Over self.old self.new (B.held blob.old) (B.held blob.new) }
        ensures len { self.new.len ≡ self.old.len }
        ensures cause { HasCause (B.faults blob.old) (B.faults blob.new) result }
    {
        self.make_room(slot_of(at), blob)?;
        self.fetch(at, blob)
    }

    // Holds the page of a byte.
    #[inline]
    #[tactic(auto, using(crate::proofs::Overs::over_nothing))]
    fn hold<B: Blob>(&mut self, at: u64, blob: &mut B) -> Result<(), Failed>
        requires stands { ForSome (B.held blob.old) (Stands self.old) }
        ensures here { OnOk result (holds self.new at ≡ true) }
        ensures over { Over self.old self.new (B.held blob.old) (B.held blob.new) }
        ensures len { self.new.len ≡ self.old.len }
        ensures cause { HasCause (B.faults blob.old) (B.faults blob.new) result }
    {
        if self.is_held(at) {
            return Ok(());
        }
        self.load(at, blob)
    }

    // Copies bytes of a page that is held.
    #[inline]
    #[tactic(auto, using(crate::proofs::Moves::spot_within))]
    fn copy_out(&self, at: u64, into: &mut [u8])
        requires chunk { at % 4096 + length into.old ≤ 4096 }
        requires here { holds self.now at ≡ true }
        ensures bytes { into.new ≡ slice_range self.now.room (at % 4194304) (at % 4194304 + length into.old) }
        ensures places { HasPlaces self.now }
    {
        let spot = (at % SPAN) as usize;
        into.copy_from_slice(&self.room[spot..spot + into.len()]);
    }

    // Reads bytes of one page.
    #[inline]
    fn read_in_page<B: Blob>(
        &mut self,
        at: u64,
        into: &mut [u8],
        blob: &mut B,
    ) -> Result<(), Failed>
        requires chunk { at % 4096 + length into.old ≤ 4096 }
        requires within { at + length into.old ≤ self.old.len }
        requires stands { ForSome (B.held blob.old) (Stands self.old) }
        ensures bytes { OnOk result (ForSome (content self.old (B.held blob.old)) (λ bytes. into.new ≡ take (length into.old) (drop at bytes))) }
        ensures over { Over self.old self.new (B.held blob.old) (B.held blob.new) }
        ensures len { self.new.len ≡ self.old.len }
        ensures cause { HasCause (B.faults blob.old) (B.faults blob.new) result }
    {
        self.hold(at, blob)?;
        self.copy_out(at, into);
        Ok(())
    }

    // Puts bytes into a page that is held.
    #[inline]
    fn copy_in(&mut self, at: u64, bytes: &[u8])
        requires chunk { at % 4096 + length bytes.now ≤ 4096 }
        requires short { at + length bytes.now < 2 ^ 63 }
        requires here { holds self.old at ≡ true }
        ensures table { self.new ≡ with_bytes self.old at (length bytes.now) self.new.room }
        ensures puts { Puts self.old at (length bytes.now) self.new.room bytes.now }
        ensures places { HasPlaces self.old }
    {
        let spot = (at % SPAN) as usize;
        self.room[spot..spot + bytes.len()].copy_from_slice(bytes);
        self.dirty[slot_of(at)] = true;
        self.len = self.len.max(at + bytes.len() as u64);
    }

    // Writes bytes of one page, with no gap before them.
    #[inline]
    fn write_in_page<B: Blob>(&mut self, at: u64, bytes: &[u8], blob: &mut B) -> Result<(), Failed>
        requires some { 0 < length bytes.now }
        requires chunk { at % 4096 + length bytes.now ≤ 4096 }
        requires short { at + length bytes.now < 2 ^ 63 }
        requires within { at ≤ self.old.len }
        requires stands { ForSome (B.held blob.old) (Stands self.old) }
        ensures written { OnOk result (content self.new (B.held blob.new) ≡ option_map (λ old. written old at bytes.now) (content self.old (B.held blob.old))) }
        ensures err { OnErr result (content self.new (B.held blob.new) ≡ content self.old (B.held blob.old)) }
        ensures stands { ForSome (B.held blob.new) (Stands self.new) }
        ensures len { OnOk result (self.new.len ≡ max self.old.len (at + length bytes.now)) }
        ensures same_len { OnErr result (self.new.len ≡ self.old.len) }
        ensures cause { HasCause (B.faults blob.old) (B.faults blob.new) result }
    {
        self.hold(at, blob)?;
        self.copy_in(at, bytes);
        Ok(())
    }

    /// Whether bytes are before the end.
    #[inline]
    pub(crate) fn has(&self, at: u64, size: usize) -> bool
        ensures has { IsTrue result ↔ (at + size ≤ self.now.len) }
        ensures short { self.now.len < 2 ^ 63 }
    {
        at <= self.len && size as u64 <= self.len - at
    }

    /// Reads bytes that are before the end.
    pub(crate) fn read<B: Blob>(
        &mut self,
        at: u64,
        into: &mut [u8],
        blob: &mut B,
    ) -> Result<(), Failed>
        requires within { at + length into.old ≤ self.old.len }
        requires short { self.old.len < 2 ^ 63 }
        requires stands { ForSome (B.held blob.old) (Stands self.old) }
        ensures bytes { OnOk result (ForSome (content self.old (B.held blob.old)) (λ bytes. into.new ≡ take (length into.old) (drop at bytes))) }
        ensures over { Over self.old self.new (B.held blob.old) (B.held blob.new) }
        ensures len { self.new.len ≡ self.old.len }
        ensures cause { HasCause (B.faults blob.old) (B.faults blob.new) result }
    {
        let mut done = 0;
        'pages: while done < into.len() {
            let from = at + done as u64;
            let size = size_in_page(from, into.len() - done);
            self.read_in_page(from, &mut into[done..done + size], blob)?;
            done += size;
        }
        Ok(())
    }

    // Writes bytes, with no gap before them.
    fn write_on<B: Blob>(&mut self, at: u64, bytes: &[u8], blob: &mut B) -> Result<(), Failed>
        requires short { at + length bytes.now < 2 ^ 63 }
        requires within { at ≤ self.old.len }
        requires stands { ForSome (B.held blob.old) (Stands self.old) }
        ensures written { OnOk result (content self.new (B.held blob.new) ≡ option_map (λ old. written old at bytes.now) (content self.old (B.held blob.old))) }
        ensures torn { OnErr result (Changes (IsTorn at (length bytes.now)) (content self.old (B.held blob.old)) (content self.new (B.held blob.new))) }
        ensures stands { ForSome (B.held blob.new) (Stands self.new) }
        ensures cause { HasCause (B.faults blob.old) (B.faults blob.new) result }
    {
        let mut done = 0;
        'pages: while done < bytes.len() {
            let from = at + done as u64;
            let size = size_in_page(from, bytes.len() - done);
            self.write_in_page(from, &bytes[done..done + size], blob)?;
            done += size;
        }
        Ok(())
    }

    // Puts zeros behind the end, up to a place.
    #[cold]
    fn pad<B: Blob>(&mut self, end: u64, blob: &mut B) -> Result<(), Failed>
        requires short { end < 2 ^ 63 }
        requires behind { self.old.len ≤ end }
        requires stands { ForSome (B.held blob.old) (Stands self.old) }
        ensures grown { OnOk result (HasGrown (end - self.old.len) (content self.old (B.held blob.old)) (content self.new (B.held blob.new))) }
        ensures part { OnErr result (HasGrownWithin (end - self.old.len) (content self.old (B.held blob.old)) (content self.new (B.held blob.new))) }
        ensures stands { ForSome (B.held blob.new) (Stands self.new) }
        ensures len { OnOk result (self.new.len ≡ end) }
        ensures cause { HasCause (B.faults blob.old) (B.faults blob.new) result }
    {
        'gap: while self.len() < end {
            let from = self.len();
            let size = size_in_page(from, (end - from).min(64) as usize);
            self.write_in_page(from, zeros(size), blob)?;
        }
        Ok(())
    }

    // Writes bytes behind a gap.
    fn write_behind<B: Blob>(&mut self, at: u64, bytes: &[u8], blob: &mut B) -> Result<(), Failed>
        requires some { 0 < length bytes.now }
        requires short { at + length bytes.now < 2 ^ 63 }
        requires behind { self.old.len < at }
        requires stands { ForSome (B.held blob.old) (Stands self.old) }
        ensures written { OnOk result (content self.new (B.held blob.new) ≡ option_map (λ old. written old at bytes.now) (content self.old (B.held blob.old))) }
        ensures torn { OnErr result (Changes (IsTorn at (length bytes.now)) (content self.old (B.held blob.old)) (content self.new (B.held blob.new))) }
        ensures stands { ForSome (B.held blob.new) (Stands self.new) }
        ensures cause { HasCause (B.faults blob.old) (B.faults blob.new) result }
    {
        self.pad(at, blob)?;
        self.write_on(at, bytes, blob)
    }

    /// Writes bytes, and zeros in a gap before them.
    #[tactic(auto, using(crate::proofs::Progress::wrote_nothing))]
    pub(crate) fn write<B: Blob>(
        &mut self,
        at: u64,
        bytes: &[u8],
        blob: &mut B,
    ) -> Result<(), Failed>
        requires short { at + length bytes.now < 2 ^ 63 }
        requires stands { ForSome (B.held blob.old) (Stands self.old) }
        ensures written { OnOk result (content self.new (B.held blob.new) ≡ option_map (λ old. written old at bytes.now) (content self.old (B.held blob.old))) }
        ensures torn { OnErr result (Changes (IsTorn at (length bytes.now)) (content self.old (B.held blob.old)) (content self.new (B.held blob.new))) }
        ensures stands { ForSome (B.held blob.new) (Stands self.new) }
        ensures cause { HasCause (B.faults blob.old) (B.faults blob.new) result }
    {
        if bytes.is_empty() {
            return Ok(());
        }
        if at > self.len() {
            return self.write_behind(at, bytes, blob);
        }
        self.write_on(at, bytes, blob)
    }

    /// Writes all pages back that were written to.
    #[tactic(auto, using(crate::proofs::Overs::over_nothing, crate::proofs::Overs::over_then, crate::proofs::Overs::clean_first, crate::proofs::Overs::clean_next))]
    pub(crate) fn flush<B: Blob>(&mut self, blob: &mut B) -> Result<(), Failed>
        requires stands { ForSome (B.held blob.old) (Stands self.old) }
        ensures clean { OnOk result (AreClean 1024 self.new) }
        ensures over { Over self.old self.new (B.held blob.old) (B.held blob.new) }
        ensures cause { HasCause (B.faults blob.old) (B.faults blob.new) result }
    {
        'slots: for slot in 0..SLOTS {
            self.settle(slot, blob)?;
        }
        Ok(())
    }
}

// So many zeros.
fn zeros(size: usize) -> &'static [u8]
    requires { size ≤ 64 }
    ensures { result.now ≡ replicate size 0 }
{
    &ZEROS[..size]
}

// How many bytes of those that are left stand in the page of a byte.
#[inline]
fn size_in_page(at: u64, left: usize) -> usize
    ensures page { at % 4096 + result ≤ 4096 }
    ensures left { result ≤ left }
    ensures some { 0 < left → 0 < result }
{
    left.min(PAGE - at as usize % PAGE)
}
