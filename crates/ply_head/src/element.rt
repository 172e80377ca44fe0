// What a header says of the elements.
ghost use Rattle.std.specs.Prelude.{◌≡◌};

use std::marker::Model;

/// How the rows are written.
#[derive(Clone, Copy, Debug, PartialEq, Eq)]
pub enum Format {
    /// As text: items with blanks and line ends between them.
    Ascii,
    /// As the bytes of each item, the least first.
    Little,
    /// As the bytes of each item, the greatest first.
    Big,
}

/// The type of an item, with its size in bits: signed, unsigned, or float.
#[derive(Clone, Copy, Debug, PartialEq, Eq)]
pub enum Kind {
    /// `char` or `int8`.
    I8,
    /// `uchar` or `uint8`.
    U8,
    /// `short` or `int16`.
    I16,
    /// `ushort` or `uint16`.
    U16,
    /// `int` or `int32`.
    I32,
    /// `uint` or `uint32`.
    U32,
    /// `float` or `float32`.
    F32,
    /// `double` or `float64`.
    F64,
}

/// What a property is used for.
#[derive(Clone, Copy, Debug, PartialEq, Eq)]
pub enum Role {
    /// The first scalar `x` of the used vertex element.
    X,
    /// The first scalar `y` of the used vertex element.
    Y,
    /// The first scalar `z` of the used vertex element.
    Z,
    /// The first list `vertex_indices` or `vertex_index` of the used face element: the corners of a polygon.
    Indices,
    /// For nothing.
    Skip,
}

/// What an element is used for.
#[derive(Clone, Copy, Debug, PartialEq, Eq)]
pub enum Used {
    /// The first element `vertex`.
    Vertex,
    /// The first element `face` behind it that has a list of corners.
    Face,
    /// For nothing: its rows are skipped.
    Other,
}

/// What a row has once: a scalar, or a list, which has a count in front of its items.
#[derive(Clone, Copy, Debug, PartialEq, Eq)]
pub struct Property {
    /// The type of a list's count. None for a scalar.
    pub count_kind: Option<Kind>,
    /// The type of the scalar, or of each item.
    pub kind: Kind,
    /// What it is used for.
    pub role: Role,
}

// The properties of an element, which contracts see as a list.
#[derive(Drop)]
struct Properties {
    items: Vec<Property>,
}

impl Model for Properties {
    ghost use Rattle.std.specs.Prelude.{List};
    ghost use Rattle.ply_head.specs.declared.element.Property.{Property};

    ghost Value = { List Property };

    ghost view = { λ p. p.items.items };
}

/// An element: how many rows it has, what it is used for, and the properties of a row.
#[derive(Drop)]
pub struct Element {
    count: u64,
    used: Used,
    properties: Properties,
}

impl Element {
    /// An element of these parts.
    pub(crate) fn new(count: u64, used: Used, properties: Vec<Property>) -> Self
        ensures { result ≡ record { count = count; used = used; properties = properties.items } }
    {
        Element {
            count,
            used,
            properties: Properties { items: properties },
        }
    }

    /// How many rows it has, at most 2,147,483,648.
    pub fn count(&self) -> u64
        ensures { result ≡ self.now.count }
    {
        self.count
    }

    /// What it is used for.
    pub fn used(&self) -> Used
        ensures { result ≡ self.now.used }
    {
        self.used
    }

    /// The properties of a row, in order.
    pub fn properties(&self) -> &[Property]
        ensures { result.now ≡ self.now.properties }
    {
        self.properties.items.as_slice()
    }
}
