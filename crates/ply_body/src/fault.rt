// Why a body is refused, or couldn't be read.

/// Why an item is refused.
#[derive(Clone, Copy, Debug, PartialEq, Eq)]
pub enum Flaw {
    /// The input ends before the item does.
    Short,
    /// It isn't written as its kind of number is, or has more than 64 bytes.
    Number,
    /// A coordinate's scaled value is above 2,147,483,647 in absolute value.
    Range,
    /// An index names none of the vertices.
    BadIndex { index: i64 },
    /// It would form a triangle past the number that is taken.
    TooManyTris,
    /// It isn't complete within the bytes that are looked at.
    TooLong,
}

/// Why the rows aren't read. Elements and rows are numbered from 0.
#[derive(Clone, Copy, Debug, PartialEq, Eq)]
pub enum BodyFault {
    /// The input ends before an item of this row does.
    Short { element: u32, row: u64 },
    /// A number isn't written as its kind is, or an item has more than 64 bytes.
    Number { element: u32, row: u64 },
    /// A coordinate's scaled value is above 2,147,483,647 in absolute value.
    Range { element: u32, row: u64 },
    /// An index is below 0, or not below the number of vertices.
    BadIndex { element: u32, row: u64, index: i64 },
    /// The rows are more than 2^30 scaled units wide on an axis, 0 to 2 for x to z; this is the first such axis.
    Extent { axis: u8, least: i64, greatest: i64 },
    /// The triangle 2,147,483,649 would be formed, dropped ones counted.
    TooManyTris { element: u32, row: u64 },
    /// 2^40 bytes behind the header were taken, and an item isn't complete.
    TooLong { element: u32, row: u64 },
    /// A read of the source failed.
    InputFault,
    /// A call of the blob failed.
    WorkFault,
    /// The blob gave back a point at this offset that was never written to it.
    WorkDamage { offset: u64 },
}
