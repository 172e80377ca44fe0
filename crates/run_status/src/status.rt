// What a run ends with.
ghost use Rattle.std.specs.Prelude.{◌≡◌, ◌++◌, IfOk, codes, string_bytes};
ghost use Rattle.run_status.specs.declared.status.Status.TheVariants.{BadInput, Memory};
ghost use Rattle.run_status.specs.declared.status.Place.TheVariants.{Line, Row};
ghost use Rattle.run_status.specs.Statuses.{bad_text, body_status, build_status, claim_status, export_status, head_status, kind_text, open_status, place_text, read_at_text, script_status, split_status, stream_status};

use build_pass::BuildFault;
use cut_export::ExportFault;
use patch_file::{OpenFault, StoreBad, WriteFault};
use ply_body::BodyFault;
use ply_head::HeadFault;
use script_text::ScriptFault;
use split_pass::SplitFault;
use std::alloc::{AllocError, AllocFailed, Global};
use tri_stream::StreamFault;

/// Why an input is refused, by the name of the refusal.
#[derive(Clone, Copy, Debug, PartialEq, Eq)]
pub enum InputKind {
    NotPly,
    Format,
    Line,
    TypeName,
    NoVertex,
    NoFace,
    FloatBinary,
    TooMany,
    Short,
    Number,
    Range,
    BadIndex { index: i64 },
    TooManyTris,
    TooLong,
}

/// Where an input is refused: at a line of its header, from 1, or at a row of an element, both from 0.
#[derive(Clone, Copy, Debug, PartialEq, Eq)]
pub enum Place {
    Line { line: u64 },
    Row { element: u32, row: u64 },
}

/// What of a store wasn't read: its head, that is its length, header, records or base, or the block of a record, from 0.
#[derive(Clone, Copy, Debug, PartialEq, Eq)]
pub enum ReadAt {
    Head,
    Record { rec: u32 },
}

/// What a run ends with.
#[derive(Clone, Copy, Debug, PartialEq, Eq)]
pub enum Status {
    /// All was written.
    Ok,
    /// The words aren't those of a command.
    Usage,
    /// The input is refused: why, and where.
    BadInput { kind: InputKind, place: Place },
    /// The input is more than 2^30 scaled units wide on an axis, 0 to 2 for x to z.
    Extent { axis: u8, least: i64, greatest: i64 },
    /// A read of the input failed.
    InputFault,
    /// This line of the script, from 1, is outside the grammar.
    ScriptBad { line: u64 },
    /// A read of the script failed.
    ScriptFault,
    /// A call of the work file failed.
    WorkFault,
    /// The work file gave back what was never written to it, at this offset in bytes.
    WorkDamage { offset: u64 },
    /// A call of the store failed, in a build.
    StoreFault,
    /// The store isn't empty, before a build: its length in bytes.
    NotEmpty { len: u64 },
    /// More than 67,108,864 diamonds would be split.
    TooManyRecords,
    /// The store is refused: why, and where.
    BadStore(StoreBad),
    /// A call of the store failed as often as it was to be tried: which one.
    ReadFault { at: ReadAt },
    /// A call of the output failed.
    OutFault,
    /// Memory ran out.
    Memory,
}

impl Status {
    ghost use Rattle.run_status.specs.Statuses.{code_of, line_of};

    /// The exit status of the program.
    pub fn code(&self) -> u8
        ensures { result ≡ code_of self.now }
    {
        match self {
            Status::Ok => 0,
            Status::Usage => 2,
            Status::BadInput { .. } => 3,
            Status::Extent { .. } => 4,
            Status::InputFault => 5,
            Status::ScriptBad { .. } => 6,
            Status::ScriptFault => 7,
            Status::WorkFault => 8,
            Status::WorkDamage { .. } => 9,
            Status::StoreFault => 10,
            Status::NotEmpty { .. } => 11,
            Status::BadStore(_) => 12,
            Status::ReadFault { .. } => 13,
            Status::OutFault => 14,
            Status::Memory => 16,
            Status::TooManyRecords => 22,
        }
    }

    /// The line on standard error, without its line feed. It is empty where all was written.
    pub fn line(&self, alloc: Global) -> Result<String, AllocError>
        ensures { IfOk result (λ line. string_bytes line ≡ line_of self.now) }
    {
        match *self {
            Status::Ok => String::from_str(alloc, ""),
            Status::Usage => String::from_str(
                alloc,
                "tpz: usage: tpz FOLDER COMMAND [--NAME VALUE]",
            ),
            Status::BadInput { kind, place } => bad_input_line(alloc, kind, place),
            Status::Extent {
                axis,
                least,
                greatest,
            } => format!(in alloc;
                "tpz: extent: axis {axis} from {least} to {greatest}; use fewer --digits"
            ),
            Status::InputFault => String::from_str(alloc, "tpz: input failed"),
            Status::ScriptBad { line } => format!(in alloc; "tpz: bad script line {line}"),
            Status::ScriptFault => String::from_str(alloc, "tpz: script failed"),
            Status::WorkFault => String::from_str(alloc, "tpz: work file failed"),
            Status::WorkDamage { offset } => format!(in alloc;
                "tpz: work file damaged at {offset}"
            ),
            Status::StoreFault => String::from_str(alloc, "tpz: store failed"),
            Status::NotEmpty { len } => format!(in alloc;
                "tpz: the store is not empty: {len} bytes"
            ),
            Status::BadStore(bad) => bad_store_line(alloc, bad),
            Status::ReadFault { at } => read_fault_line(alloc, at),
            Status::OutFault => String::from_str(alloc, "tpz: output failed"),
            Status::Memory => String::from_str(alloc, "tpz: out of memory"),
            Status::TooManyRecords => String::from_str(alloc, "tpz: too many records"),
        }
    }
}

impl From<AllocError> for Status {
    ghost from_gives = { λ _ e. e ≡ Memory };

    fn from(_: AllocError) -> Self {
        Status::Memory
    }
}

impl From<StreamFault> for Status {
    ghost from_gives = { λ fault e. e ≡ stream_status fault };

    fn from(fault: StreamFault) -> Self {
        match fault {
            StreamFault::WorkFault => Status::WorkFault,
            StreamFault::WorkDamage { offset } => Status::WorkDamage { offset },
        }
    }
}

impl<T: Drop> From<AllocFailed<T>> for Status {
    ghost from_gives = { λ _ e. e ≡ Memory };

    fn from(_: AllocFailed<T>) -> Self {
        Status::Memory
    }
}

fn bad_input_line(alloc: Global, kind: InputKind, place: Place) -> Result<String, AllocError>
    ensures { IfOk result (λ line. string_bytes line ≡ codes "tpz: bad input: " ++ (kind_text kind ++ (codes " at " ++ place_text place))) }
{
    let kind = kind_line(alloc, kind)?;
    let place = place_line(alloc, place)?;
    format!(in alloc; "tpz: bad input: {kind} at {place}")
}

fn place_line(alloc: Global, place: Place) -> Result<String, AllocError>
    ensures { IfOk result (λ text. string_bytes text ≡ place_text place) }
{
    match place {
        Place::Line { line } => format!(in alloc; "line {line}"),
        Place::Row { element, row } => format!(in alloc; "element {element} row {row}"),
    }
}

fn kind_line(alloc: Global, kind: InputKind) -> Result<String, AllocError>
    ensures { IfOk result (λ text. string_bytes text ≡ kind_text kind) }
{
    match kind {
        InputKind::NotPly => String::from_str(alloc, "NotPly"),
        InputKind::Format => String::from_str(alloc, "Format"),
        InputKind::Line => String::from_str(alloc, "Line"),
        InputKind::TypeName => String::from_str(alloc, "TypeName"),
        InputKind::NoVertex => String::from_str(alloc, "NoVertex"),
        InputKind::NoFace => String::from_str(alloc, "NoFace"),
        InputKind::FloatBinary => String::from_str(alloc, "FloatBinary"),
        InputKind::TooMany => String::from_str(alloc, "TooMany"),
        InputKind::Short => String::from_str(alloc, "Short"),
        InputKind::Number => String::from_str(alloc, "Number"),
        InputKind::Range => String::from_str(alloc, "Range"),
        InputKind::BadIndex { index } => format!(in alloc; "BadIndex {index}"),
        InputKind::TooManyTris => String::from_str(alloc, "TooManyTris"),
        InputKind::TooLong => String::from_str(alloc, "TooLong"),
    }
}

fn bad_store_line(alloc: Global, bad: StoreBad) -> Result<String, AllocError>
    ensures { IfOk result (λ line. string_bytes line ≡ codes "tpz: bad store: " ++ bad_text bad) }
{
    let what = what_line(alloc, bad)?;
    format!(in alloc; "tpz: bad store: {what}")
}

fn what_line(alloc: Global, bad: StoreBad) -> Result<String, AllocError>
    ensures { IfOk result (λ text. string_bytes text ≡ bad_text bad) }
{
    match bad {
        StoreBad::Short { len } => format!(in alloc; "Short {len}"),
        StoreBad::Magic => String::from_str(alloc, "Magic"),
        StoreBad::Unfinished { gate } => format!(in alloc; "Unfinished {gate}"),
        StoreBad::Field { offset } => format!(in alloc; "Field {offset}"),
        StoreBad::Order { rec } => format!(in alloc; "Order {rec}"),
        StoreBad::NotClosed { rec } => format!(in alloc; "NotClosed {rec}"),
        StoreBad::NotSaturated { rec } => format!(in alloc; "NotSaturated {rec}"),
        StoreBad::BadBlock { rec, offset } => format!(in alloc; "BadBlock {rec} {offset}"),
    }
}

fn read_fault_line(alloc: Global, at: ReadAt) -> Result<String, AllocError>
    ensures { IfOk result (λ line. string_bytes line ≡ codes "tpz: store read failed at " ++ read_at_text at) }
{
    match at {
        ReadAt::Head => String::from_str(alloc, "tpz: store read failed at head"),
        ReadAt::Record { rec } => format!(in alloc; "tpz: store read failed at record {rec}"),
    }
}

/// The status of a store that isn't opened.
pub fn status_of_open(fault: OpenFault) -> Status
    ensures { result ≡ open_status fault }
{
    match fault {
        OpenFault::Bad(bad) => Status::BadStore(bad),
        OpenFault::ReadFault => Status::ReadFault { at: ReadAt::Head },
        OpenFault::Memory => Status::Memory,
    }
}

/// The status of a script that isn't read further.
pub fn status_of_script(fault: ScriptFault) -> Status
    ensures { result ≡ script_status fault }
{
    match fault {
        ScriptFault::Bad { line } => Status::ScriptBad { line },
        ScriptFault::Input => Status::ScriptFault,
    }
}

/// The status of a part that isn't written.
pub fn status_of_export(fault: ExportFault) -> Status
    ensures { result ≡ export_status fault }
{
    match fault {
        ExportFault::OutFault => Status::OutFault,
        ExportFault::Memory => Status::Memory,
    }
}

// The status of an input that is refused at a line of its header.
fn at_line(kind: InputKind, line: u64) -> Status
    ensures { result ≡ BadInput kind (Line line) }
{
    Status::BadInput {
        kind,
        place: Place::Line { line },
    }
}

// The status of an input that is refused at a row.
fn at_row(kind: InputKind, element: u32, row: u64) -> Status
    ensures { result ≡ BadInput kind (Row element row) }
{
    Status::BadInput {
        kind,
        place: Place::Row { element, row },
    }
}

/// The status of a header that isn't read.
pub fn status_of_head(fault: HeadFault) -> Status
    ensures { result ≡ head_status fault }
{
    match fault {
        HeadFault::NotPly { line } => at_line(InputKind::NotPly, line),
        HeadFault::Format { line } => at_line(InputKind::Format, line),
        HeadFault::Line { line } => at_line(InputKind::Line, line),
        HeadFault::TypeName { line } => at_line(InputKind::TypeName, line),
        HeadFault::NoVertex { line } => at_line(InputKind::NoVertex, line),
        HeadFault::NoFace { line } => at_line(InputKind::NoFace, line),
        HeadFault::FloatBinary { line } => at_line(InputKind::FloatBinary, line),
        HeadFault::TooMany { line } => at_line(InputKind::TooMany, line),
        HeadFault::InputFault => Status::InputFault,
        HeadFault::Memory => Status::Memory,
    }
}

/// The status of a mesh that isn't split.
pub fn status_of_split(fault: SplitFault) -> Status
    ensures { result ≡ split_status fault }
{
    match fault {
        SplitFault::TooManyRecords => Status::TooManyRecords,
        SplitFault::WorkFault => Status::WorkFault,
        SplitFault::WorkDamage { offset } => Status::WorkDamage { offset },
        SplitFault::Memory => Status::Memory,
    }
}

/// The status of a store that isn't claimed.
pub fn status_of_claim(fault: WriteFault) -> Status
    ensures { result ≡ claim_status fault }
{
    match fault {
        WriteFault::NotEmpty { len } => Status::NotEmpty { len },
        WriteFault::StoreFault => Status::StoreFault,
    }
}

/// The status of a store that isn't built.
pub fn status_of_build(fault: BuildFault) -> Status
    ensures { result ≡ build_status fault }
{
    match fault {
        BuildFault::WorkFault => Status::WorkFault,
        BuildFault::WorkDamage { offset } => Status::WorkDamage { offset },
        BuildFault::StoreFault => Status::StoreFault,
        BuildFault::Memory => Status::Memory,
    }
}

/// The status of rows that aren't read.
pub fn status_of_body(fault: BodyFault) -> Status
    ensures { result ≡ body_status fault }
{
    match fault {
        BodyFault::Short { element, row } => at_row(InputKind::Short, element, row),
        BodyFault::Number { element, row } => at_row(InputKind::Number, element, row),
        BodyFault::Range { element, row } => at_row(InputKind::Range, element, row),
        BodyFault::BadIndex {
            element,
            row,
            index,
        } => at_row(InputKind::BadIndex { index }, element, row),
        BodyFault::Extent {
            axis,
            least,
            greatest,
        } => Status::Extent {
            axis,
            least,
            greatest,
        },
        BodyFault::TooManyTris { element, row } => at_row(InputKind::TooManyTris, element, row),
        BodyFault::TooLong { element, row } => at_row(InputKind::TooLong, element, row),
        BodyFault::InputFault => Status::InputFault,
        BodyFault::WorkFault => Status::WorkFault,
        BodyFault::WorkDamage { offset } => Status::WorkDamage { offset },
    }
}
