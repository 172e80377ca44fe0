// Why a header or a number is refused.
ghost use Rattle.std.specs.Prelude.{◌≡◌};
ghost use Rattle.ply_head.specs.declared.fault.HeadFault.TheVariants.{Memory};

use std::alloc::AllocError;

/// Why a header isn't read. Each refusal has the number of its line, from 1, and is the first in the order of lines.
#[derive(Clone, Copy, Debug, PartialEq, Eq)]
pub enum HeadFault {
    /// The first line isn't `ply`.
    NotPly { line: u64 },
    /// The line where the format is due, the first behind `ply` that is no comment and not blank, names none that is known.
    Format { line: u64 },
    /// The line has no line feed, or no form that is known, or stands where it may not, or its count isn't digits.
    Line { line: u64 },
    /// A type isn't known, or is a float where a whole type has to stand.
    TypeName { line: u64 },
    /// At the end of the header: no element `vertex` with the scalars x, y and z.
    NoVertex { line: u64 },
    /// At the end of the header: no element `face` with a list of vertex indices behind the vertices.
    NoFace { line: u64 },
    /// At the end of the header: the format is binary, and x, y or z is a float.
    FloatBinary { line: u64 },
    /// The 65th element, the 257th property, more than 2,147,483,648 rows, or a line that ends past 1,048,576 bytes.
    TooMany { line: u64 },
    /// A read of the source failed.
    InputFault,
    /// Memory ran out.
    Memory,
}

impl From<AllocError> for HeadFault {
    ghost from_gives = { λ _ e. e ≡ Memory };

    fn from(_: AllocError) -> Self {
        HeadFault::Memory
    }
}

/// Why a text isn't a number that can be taken.
#[derive(Clone, Copy, Debug, PartialEq, Eq)]
pub enum NumberFault {
    /// It isn't written as a number.
    Form,
    /// It has more than 30 significant digits.
    Digits,
    /// The scaled value is above 2,147,483,647 in absolute value.
    Range,
}
