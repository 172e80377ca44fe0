// The mesh of an input, read through the work file.
ghost use Rattle.std.specs.Prelude.{◌≡◌, ◌≤◌, ◌+◌, ◌*◌, ◌^◌, ◌⊎◌, ℕ, List, All, length, is_some, IfOk, IfSome, IsOk, OnOk, Ok, Err, None, Some};
ghost use Rattle.std.specs.Option.{ForSome};
ghost use Rattle.tpz_io.specs.Causes.{Rose};
ghost use Rattle.tpz_base.specs.Cubes.{Row};
ghost use Rattle.tpz_base.specs.Texts.{Face};
ghost use Rattle.ply_body.specs.Bodies.{Input};
ghost use Rattle.ply_body.specs.Inputs.{Refusal, broken_of, points_of, whole_of};
ghost use Rattle.ply_body.specs.Spots.{HoldsPoints, IsSmallFrame};
ghost use Rattle.ply_body.specs.Readings.{coming_told};
ghost use Rattle.tpz_base.specs.Meshes.{Mesh};
ghost use Rattle.tri_stream.specs.Lists.{IsHeld};
ghost use Rattle.tri_stream.specs.Streams.{total, IsLive, Stands};
ghost use Rattle.run_status.specs.declared.status.Status.{Status};
ghost use Rattle.mesh_stream.specs.Digits.{digits_of, input_for, IsAccepted};
ghost use Rattle.mesh_stream.specs.Readings.{IsMeshOf};
ghost use Rattle.mesh_stream.specs.Fills.{Fills};
ghost use Rattle.mesh_stream.specs.Readings.{HasOpened, IsRefusalTold, IsSmallMesh, IsSmallStream, IsStreamOf, TrisTold};
ghost use Rattle.run_status.specs.Statuses.{status_of, IsRefused, IsUnread};

use ply_body::{Faces, Frame};
use ply_head::read_head;
use run_status::{Status, status_of_body, status_of_head};
use std::alloc::Global;
use tpz_base::Tri;
use tpz_io::{Blob, Source};
use tri_stream::{StreamId, Streams};

/// What is read of an input, in whole scaled units.
#[derive(Drop)]
pub struct InputMesh {
    /// The cube has 2^l units.
    pub l: u8,
    /// Where the points end in the work file, in bytes.
    pub end: u64,
    /// Coordinates are scaled by 10 to this power.
    pub digits: u8,
    /// The least coordinates of all rows, on x, y and z; 0 where there are no rows.
    pub low: [i64; 3],
    /// The whole triangles in the order of the faces, less `low`. They lie in the cube.
    pub tris: Vec<Tri>,
    /// How many triangles have two corners at one place.
    pub dropped: u64,
}

/// An input whose whole triangles are in one stream, which is the only one.
#[derive(Drop)]
pub struct InputStream {
    /// The cube has 2^l units.
    pub l: u8,
    /// Coordinates are scaled by 10 to this power.
    pub digits: u8,
    /// The least coordinates of all rows, on x, y and z; 0 where there are no rows.
    pub low: [i64; 3],
    /// How many triangles are whole.
    pub tris: u64,
    /// How many have two corners at one place.
    pub dropped: u64,
    /// They use the work file behind the points.
    pub streams: Streams,
    /// The stream of the whole triangles in the order of the faces, less `low`.
    pub whole: StreamId,
}

/// What a part and a note tell of an input beside its mesh.
#[derive(Clone, Copy)]
pub struct Facts {
    /// Coordinates are scaled by 10 to this power.
    pub digits: u8,
    /// The least coordinates, on x, y and z.
    pub low: [i64; 3],
    /// How many triangles are whole.
    pub tris: usize,
    /// How many have two corners at one place.
    pub dropped: u64,
}

impl InputMesh {
    /// What is told of the mesh.
    pub fn facts(&self) -> Facts
        ensures { result ≡ record { digits = self.now.digits; low = self.now.low; tris = length self.now.tris.items; dropped = self.now.dropped } }
    {
        Facts {
            digits: self.digits,
            low: self.low,
            tris: self.tris.as_slice().len(),
            dropped: self.dropped,
        }
    }
}

// Takes all triangles that are still to come.
fn read_tris<I: Source, W: Blob>(
    alloc: Global,
    faces: &mut Faces,
    frame: &Frame,
    input: &mut I,
    work: &mut W,
) -> Result<Vec<Tri>, Status>
    requires frame { faces.old.frame ≡ Some frame.now }
    requires fresh { (faces.old.refusal ≡ None) × (faces.old.given ≡ 0) × (faces.old.dropped ≡ 0) }
    requires points { ForSome (W.held work.old) (HoldsPoints frame.now) }
    ensures tris { IfOk result (λ tris. TrisTold faces.old faces.new (I.left input.old) (W.held work.new) frame.now tris.items) }
    ensures refused { (status : Status) → result ≡ Err status → IsRefused status
        → ForSome (coming_told faces.old (I.left input.old)) (λ coming. IsRefusalTold coming status) }
    ensures unread { (status : Status) → result ≡ Err status → IsUnread status }
    ensures input { (status : Status) → result ≡ Err status → status ≡ Status.InputFault → Rose (I.faults input.old) (I.faults input.new) }
    ensures work { (status : Status) → result ≡ Err status → status ≡ Status.WorkFault → Rose (W.faults work.old) (W.faults work.new) }
    ensures damage { (status : Status) → result ≡ Err status → (offset : ℕ) → status ≡ Status.WorkDamage offset → W.held work.old ≡ None }
    ensures input_later { I.faults input.old ≤ I.faults input.new }
    ensures work_later { W.faults work.old ≤ W.faults work.new }
    ensures held { W.held work.new ≡ W.held work.old }
    ensures plain { IfOk result (λ tris. All (IsHeld frame.now.l) tris.items) }
    ensures few { IfOk result (λ tris. length tris.items ≤ 2147483648) }
{
    let mut tris = Vec::new(alloc);
    'tris: loop {
        let next = match faces.next_tri(input, frame, work) {
            Ok(next) => next,
            Err(fault) => return Err(status_of_body(fault)),
        };
        let Some(t) = next else {
            return Ok(tris);
        };
        tris.push(t)?;
    }
}

/// An input whose header and points were read, and whose triangles are still to come.
#[derive(Drop)]
struct Opened {
    /// Coordinates are scaled by 10 to this power.
    digits: u8,
    frame: Frame,
    faces: Faces,
}

// Reads the header and the points of an input. The points go to the work file.
fn open_input<I: Source, W: Blob>(
    alloc: Global,
    digits: Option<u8>,
    input: &mut I,
    work: &mut W,
) -> Result<Opened, Status>
    requires { IfSome digits (λ d. d ≤ 9) }
    ensures opened { IfOk result (λ opened. HasOpened digits (I.left input.old) (I.left input.new) (W.held work.new) opened.digits opened.frame opened.faces) }
    ensures small { IfOk result (λ opened. IsSmallFrame opened.frame) }
    ensures digits { IfOk result (λ opened. opened.digits ≤ 9) }
    ensures refused { (status : Status) → result ≡ Err status → IsRefused status
        → ForSome (I.left input.old) (λ bytes. (r : Refusal) × (input_for digits bytes ≡ Err r) × (status ≡ status_of r)) }
    ensures unread { (status : Status) → result ≡ Err status → IsUnread status }
    ensures input { (status : Status) → result ≡ Err status → status ≡ Status.InputFault → Rose (I.faults input.old) (I.faults input.new) }
    ensures work { (status : Status) → result ≡ Err status → status ≡ Status.WorkFault → Rose (W.faults work.old) (W.faults work.new) }
    ensures damage { (status : Status) → result ≡ Err status → (offset : ℕ) → ¬ (status ≡ Status.WorkDamage offset) }
    ensures input_later { I.faults input.old ≤ I.faults input.new }
    ensures work_later { W.faults work.old ≤ W.faults work.new }
    ensures telling { is_some (W.held work.new) ≡ is_some (W.held work.old) }
{
    let head = match read_head(alloc, input) {
        Ok(head) => head,
        Err(fault) => return Err(status_of_head(fault)),
    };
    let digits = digits.unwrap_or(head.default_digits());
    let mut faces = Faces::open(alloc, head, digits)?;
    match faces.load_points(input, work) {
        Ok(frame) => Ok(Opened {
            digits,
            frame,
            faces,
        }),
        Err(fault) => Err(status_of_body(fault)),
    }
}

/// Reads an input with these digits, or with those that the types of its coordinates set. Its points go to the work file,
/// whose bytes are overwritten.
pub fn read_mesh<I: Source, W: Blob>(
    alloc: Global,
    digits: Option<u8>,
    input: &mut I,
    work: &mut W,
) -> Result<InputMesh, Status>
    requires { IfSome digits (λ d. d ≤ 9) }
    ensures mesh { IfOk result (λ mesh. ForSome (I.left input.old) (λ bytes. ForSome (W.held work.old) (λ _. (rows : List Row) (faces : List Face)
        → input_for digits bytes ≡ Ok (record { rows = rows; faces = faces }) → IsMeshOf mesh (digits_of digits bytes) rows faces))) }
    ensures accepted { IsOk result → ForSome (I.left input.old) (IsAccepted digits) }
    ensures small { IfOk result IsSmallMesh }
    ensures refused { (status : Status) → result ≡ Err status → IsRefused status
        → ForSome (I.left input.old) (λ bytes. (r : Refusal) × (input_for digits bytes ≡ Err r) × (status ≡ status_of r)) }
    ensures unread { (status : Status) → result ≡ Err status → IsUnread status }
    ensures input { (status : Status) → result ≡ Err status → status ≡ Status.InputFault → Rose (I.faults input.old) (I.faults input.new) }
    ensures work { (status : Status) → result ≡ Err status → status ≡ Status.WorkFault → Rose (W.faults work.old) (W.faults work.new) }
    ensures damage { (status : Status) → result ≡ Err status → (offset : ℕ) → status ≡ Status.WorkDamage offset → W.held work.old ≡ None }
    ensures input_later { I.faults input.old ≤ I.faults input.new }
    ensures work_later { W.faults work.old ≤ W.faults work.new }
    ensures telling { is_some (W.held work.new) ≡ is_some (W.held work.old) }
{
    let mut opened = match open_input(alloc, digits, input, work) {
        Ok(opened) => opened,
        Err(status) => return Err(status),
    };
    let tris = match read_tris(alloc, &mut opened.faces, &opened.frame, input, work) {
        Ok(tris) => tris,
        Err(status) => return Err(status),
    };
    Ok(InputMesh {
        l: opened.frame.l,
        end: opened.frame.end,
        digits: opened.digits,
        low: opened.frame.low,
        tris,
        dropped: opened.faces.dropped(),
    })
}

// Puts all triangles that are still to come at the end of a stream.
fn stream_tris<I: Source, W: Blob>(
    faces: &mut Faces,
    frame: &Frame,
    input: &mut I,
    work: &mut W,
    streams: &mut Streams,
    whole: StreamId,
) -> Result<(), Status>
    requires frame { faces.old.frame ≡ Some frame.now }
    requires fresh { (faces.old.refusal ≡ None) × (faces.old.given ≡ 0) × (faces.old.dropped ≡ 0) }
    requires points { ForSome (W.held work.old) (HoldsPoints frame.now) }
    requires end { frame.now.end ≡ 12 * frame.now.vertices }
    requires base { streams.old.base ≡ frame.now.end }
    requires l { streams.old.l ≡ frame.now.l }
    requires live { IsLive streams.old whole }
    requires empty { total streams.old ≡ 0 }
    requires stands { ForSome (W.held work.old) (Stands streams.old) }
    ensures tris { OnOk result ((tris : Mesh) × TrisTold faces.old faces.new (I.left input.old) (W.held work.old) frame.now tris
        × Fills whole tris streams.old streams.new (W.held work.old) (W.held work.new) × (length tris + faces.new.dropped ≤ 2147483648)
        × All (IsHeld frame.now.l) tris) }
    ensures refused { (status : Status) → result ≡ Err status → IsRefused status
        → ForSome (coming_told faces.old (I.left input.old)) (λ coming. IsRefusalTold coming status) }
    ensures unread { (status : Status) → result ≡ Err status → IsUnread status }
    ensures input { (status : Status) → result ≡ Err status → status ≡ Status.InputFault → Rose (I.faults input.old) (I.faults input.new) }
    ensures work { (status : Status) → result ≡ Err status → status ≡ Status.WorkFault → Rose (W.faults work.old) (W.faults work.new) }
    ensures damage { (status : Status) → result ≡ Err status → (offset : ℕ) → status ≡ Status.WorkDamage offset → W.held work.old ≡ None }
    ensures input_later { I.faults input.old ≤ I.faults input.new }
    ensures work_later { W.faults work.old ≤ W.faults work.new }
    ensures telling { is_some (W.held work.new) ≡ is_some (W.held work.old) }
{
    'tris: loop {
        let next = match faces.next_tri(input, frame, work) {
            Ok(next) => next,
            Err(fault) => return Err(status_of_body(fault)),
        };
        let Some(t) = next else {
            return Ok(());
        };
        streams.append(work, whole, t)?;
    }
}

/// Reads an input with these digits, or with those that the types of its coordinates set, into a stream. Its points go to
/// the work file, whose bytes are overwritten, and its triangles behind them.
pub fn read_stream<I: Source, W: Blob>(
    alloc: Global,
    digits: Option<u8>,
    input: &mut I,
    work: &mut W,
) -> Result<InputStream, Status>
    requires { IfSome digits (λ d. d ≤ 9) }
    ensures stream { IfOk result (λ read. ForSome (I.left input.old) (λ bytes. ForSome (W.held work.old) (λ _. (rows : List Row) (faces : List Face)
        → input_for digits bytes ≡ Ok (record { rows = rows; faces = faces }) → IsStreamOf read (W.held work.new) (digits_of digits bytes) rows faces))) }
    ensures accepted { IsOk result → ForSome (I.left input.old) (IsAccepted digits) }
    ensures small { IfOk result (IsSmallStream (W.held work.new)) }
    ensures refused { (status : Status) → result ≡ Err status → IsRefused status
        → ForSome (I.left input.old) (λ bytes. (r : Refusal) × (input_for digits bytes ≡ Err r) × (status ≡ status_of r)) }
    ensures unread { (status : Status) → result ≡ Err status → IsUnread status }
    ensures input { (status : Status) → result ≡ Err status → status ≡ Status.InputFault → Rose (I.faults input.old) (I.faults input.new) }
    ensures work { (status : Status) → result ≡ Err status → status ≡ Status.WorkFault → Rose (W.faults work.old) (W.faults work.new) }
    ensures damage { (status : Status) → result ≡ Err status → (offset : ℕ) → status ≡ Status.WorkDamage offset → W.held work.old ≡ None }
    ensures input_later { I.faults input.old ≤ I.faults input.new }
    ensures work_later { W.faults work.old ≤ W.faults work.new }
    ensures telling { is_some (W.held work.new) ≡ is_some (W.held work.old) }
{
    let mut opened = match open_input(alloc, digits, input, work) {
        Ok(opened) => opened,
        Err(status) => return Err(status),
    };
    let frame = opened.frame;
    let mut streams = Streams::new(alloc, frame.end, frame.l);
    let whole = streams.make()?;
    match stream_tris(&mut opened.faces, &frame, input, work, &mut streams, whole) {
        Ok(()) => {}
        Err(status) => return Err(status),
    }
    Ok(InputStream {
        l: frame.l,
        digits: opened.digits,
        low: frame.low,
        tris: streams.count(whole),
        dropped: opened.faces.dropped(),
        streams,
        whole,
    })
}
