// The names that a header knows.
ghost use Rattle.std.specs.Prelude.{◌≡◌, bytes_eq};
ghost use Rattle.ply_head.specs.Headers.{format_of, kind_of, is_float, is_float_name, names_indices};

use crate::{Format, Kind};

/// The format of this name.
pub fn format_of(name: &[u8]) -> Option<Format>
    ensures { result ≡ format_of name.now }
{
    if is_word(name, b"ascii") {
        Some(Format::Ascii)
    } else if is_word(name, b"binary_little_endian") {
        Some(Format::Little)
    } else if is_word(name, b"binary_big_endian") {
        Some(Format::Big)
    } else {
        None
    }
}

/// The type of this name.
pub fn kind_of(name: &[u8]) -> Option<Kind>
    ensures { result ≡ kind_of name.now }
{
    if is_word(name, b"char") || is_word(name, b"int8") {
        return Some(Kind::I8);
    }
    if is_word(name, b"uchar") || is_word(name, b"uint8") {
        return Some(Kind::U8);
    }
    if is_word(name, b"short") || is_word(name, b"int16") {
        return Some(Kind::I16);
    }
    if is_word(name, b"ushort") || is_word(name, b"uint16") {
        return Some(Kind::U16);
    }
    if is_word(name, b"int") || is_word(name, b"int32") {
        return Some(Kind::I32);
    }
    if is_word(name, b"uint") || is_word(name, b"uint32") {
        return Some(Kind::U32);
    }
    if is_word(name, b"float") || is_word(name, b"float32") {
        return Some(Kind::F32);
    }
    if is_word(name, b"double") || is_word(name, b"float64") {
        return Some(Kind::F64);
    }
    None
}

/// Whether a type is of the kind float.
pub fn is_float(kind: Kind) -> bool
    ensures { result ≡ is_float kind }
{
    matches!(kind, Kind::F32 | Kind::F64)
}

/// Whether this names a type of the kind float.
pub fn is_float_name(name: &[u8]) -> bool
    ensures { result ≡ is_float_name name.now }
{
    match kind_of(name) {
        Some(kind) => is_float(kind),
        None => false,
    }
}

/// Whether a list of this name may be the corners of a face.
pub fn names_indices(name: &[u8]) -> bool
    ensures { result ≡ names_indices name.now }
{
    is_word(name, b"vertex_indices") || is_word(name, b"vertex_index")
}

/// Whether a word is this text.
pub fn is_word(word: &[u8], text: &[u8]) -> bool
    ensures { result ≡ bytes_eq word.now text.now }
{
    word == text
}
