// What tokens and fields mean, what is skipped, and what ends the input.
use crate::fault::Flaw;
use crate::field::next_field;
use crate::item_reader::{ItemFault, ItemReader};
use crate::token::next_token;
use ply_head::{Format, Kind};
use std::alloc::Global;
use std::test::Fail;
use tpz_io::{MemSource, Reader};

fn source(alloc: Global, bytes: &[u8], fails: &[u64]) -> Result<MemSource, Fail> {
    let fails = fails.to_vec(alloc)?;
    Ok(MemSource::new(bytes.to_vec(alloc)?, fails))
}

fn items(alloc: Global, format: Format) -> Result<ItemReader, Fail> {
    Ok(ItemReader::new(format, Reader::new(alloc)?))
}

const LONGEST: &str = "0000000000000000000000000000000000000000000000000000000000000007";

const TOO_LONG: &str = "00000000000000000000000000000000000000000000000000000000000000007";

// A text, the digits, and the coordinate that its first token means.
const COORDINATES: [(&str, u8, Result<i32, Flaw>); 11] = [
    ("-0.0378297 1", 6, Ok(-37830)),
    (" \t\r\n\t.5", 0, Ok(1)),
    ("4.\r\n", 1, Ok(40)),
    ("-2147483647", 0, Ok(-2147483647)),
    ("-2147483648", 0, Err(Flaw::Range)),
    ("nan", 0, Err(Flaw::Number)),
    ("1234567890123456789012345678901e-31", 0, Err(Flaw::Number)),
    ("1\u{b}", 0, Err(Flaw::Number)),
    (LONGEST, 1, Ok(70)),
    (TOO_LONG, 0, Err(Flaw::Number)),
    (" \n", 0, Err(Flaw::Short)),
];

#[test]
fn a_token_is_a_coordinate(rt: HostRuntime) -> Result<(), Fail> {
    let alloc = rt.alloc();
    for (text, digits, want) in COORDINATES {
        let mut source = source(alloc, text.as_bytes(), &[])?;
        let mut items = items(alloc, Format::Ascii)?;
        let z = items.coordinate(&mut source, Kind::F32, digits);
        assert_eq!(rt; z, want.map_err(ItemFault::Flaw), "{text}");
    }
    Ok(())
}

// A text, the count that its first token means, and the index of one of four vertices.
const WHOLE_NUMBERS: [(&str, Result<u64, Flaw>, Result<u32, Flaw>); 8] = [
    ("3 ", Ok(3), Ok(3)),
    ("4", Ok(4), Err(Flaw::BadIndex { index: 4 })),
    ("-0", Ok(0), Ok(0)),
    ("-1", Err(Flaw::Number), Err(Flaw::BadIndex { index: -1 })),
    ("+0000000000000000003", Ok(3), Ok(3)),
    ("00000000000000000003", Err(Flaw::Number), Err(Flaw::Number)),
    ("9223372036854775808", Err(Flaw::Number), Err(Flaw::Number)),
    (
        "-9223372036854775808",
        Err(Flaw::Number),
        Err(Flaw::BadIndex { index: i64::MIN }),
    ),
];

#[test]
fn a_token_is_a_count_or_an_index(rt: HostRuntime) -> Result<(), Fail> {
    let alloc = rt.alloc();
    for (text, count, index) in WHOLE_NUMBERS {
        let mut first = source(alloc, text.as_bytes(), &[])?;
        let n = items(alloc, Format::Ascii)?.count(&mut first, Kind::U8);
        assert_eq!(rt; n, count.map_err(ItemFault::Flaw), "{text}");
        let mut second = source(alloc, text.as_bytes(), &[])?;
        let i = items(alloc, Format::Ascii)?.index(&mut second, Kind::I32, 4);
        assert_eq!(rt; i, index.map_err(ItemFault::Flaw), "{text}");
    }
    Ok(())
}

// Bytes, the digits, and the coordinate that their first field means.
const FIELDS: [(Format, Kind, &[u8], u8, Result<i32, Flaw>); 12] = [
    (Format::Little, Kind::I8, &[255], 0, Ok(-1)),
    (Format::Big, Kind::U8, &[255], 0, Ok(255)),
    (Format::Little, Kind::U16, &[52, 242], 0, Ok(62004)),
    (Format::Big, Kind::U16, &[52, 242], 0, Ok(13554)),
    (Format::Little, Kind::I16, &[52, 242], 0, Ok(-3532)),
    (Format::Big, Kind::I32, &[255, 255, 255, 254], 3, Ok(-2000)),
    (
        Format::Little,
        Kind::I32,
        &[1, 0, 0, 128],
        0,
        Ok(-2147483647),
    ),
    (
        Format::Little,
        Kind::I32,
        &[0, 0, 0, 128],
        0,
        Err(Flaw::Range),
    ),
    (Format::Big, Kind::U32, &[128, 0, 0, 0], 0, Err(Flaw::Range)),
    (Format::Little, Kind::U8, &[2], 9, Ok(2000000000)),
    (Format::Big, Kind::U8, &[3], 9, Err(Flaw::Range)),
    (Format::Little, Kind::U32, &[1, 0, 0], 0, Err(Flaw::Short)),
];

#[test]
fn a_field_is_read_in_either_order(rt: HostRuntime) -> Result<(), Fail> {
    let alloc = rt.alloc();
    for (format, kind, bytes, digits, want) in FIELDS {
        let mut source = source(alloc, bytes, &[])?;
        let z = items(alloc, format)?.coordinate(&mut source, kind, digits);
        assert_eq!(rt; z, want.map_err(ItemFault::Flaw));
    }
    Ok(())
}

#[test]
fn a_negative_field_is_no_count(rt: HostRuntime) -> Result<(), Fail> {
    let alloc = rt.alloc();
    let mut source = source(alloc, &[255, 255, 2], &[])?;
    let mut items = items(alloc, Format::Big)?;
    assert_eq!(rt;
        items.count(&mut source, Kind::I8),
        Err(ItemFault::Flaw(Flaw::Number))
    );
    assert_eq!(rt; items.count(&mut source, Kind::U8), Ok(255));
    assert_eq!(rt;
        items.index(&mut source, Kind::U8, 2),
        Err(ItemFault::Flaw(Flaw::BadIndex { index: 2 }))
    );
    Ok(())
}

#[test]
fn what_is_skipped_is_not_read(rt: HostRuntime) -> Result<(), Fail> {
    let alloc = rt.alloc();
    let mut text = source(alloc, b"nan 1e 5", &[])?;
    let mut tokens = items(alloc, Format::Ascii)?;
    assert_eq!(rt; tokens.skip(&mut text, Kind::F32, 0), Ok(()));
    assert_eq!(rt; tokens.skip(&mut text, Kind::F32, 2), Ok(()));
    assert_eq!(rt; tokens.count(&mut text, Kind::U8), Ok(5));
    assert_eq!(rt;
        tokens.skip(&mut text, Kind::U8, u64::MAX),
        Err(ItemFault::Flaw(Flaw::Short))
    );
    Ok(())
}

#[test]
fn fields_are_skipped_by_their_size(rt: HostRuntime) -> Result<(), Fail> {
    let alloc = rt.alloc();
    let mut bytes = source(alloc, b"two doubles, 16!\x07", &[])?;
    let mut fields = items(alloc, Format::Little)?;
    assert_eq!(rt; fields.skip(&mut bytes, Kind::F64, 2), Ok(()));
    assert_eq!(rt; fields.count(&mut bytes, Kind::U8), Ok(7));
    Ok(())
}

#[test]
fn a_long_token_is_refused_at_its_end(rt: HostRuntime) -> Result<(), Fail> {
    let alloc = rt.alloc();
    let mut whole = source(alloc, TOO_LONG.as_bytes(), &[])?;
    assert_eq!(rt;
        items(alloc, Format::Ascii)?.skip(&mut whole, Kind::U8, 1),
        Err(ItemFault::Flaw(Flaw::Number))
    );
    let mut cut = source(alloc, TOO_LONG.as_bytes(), &[2])?;
    assert_eq!(rt;
        items(alloc, Format::Ascii)?.skip(&mut cut, Kind::U8, 1),
        Err(ItemFault::Input)
    );
    Ok(())
}

// A text, how many bytes of it are looked at, and whether its first token is complete.
const ROOMS: [(&str, u64, Result<(), Flaw>); 6] = [
    ("12 ", 3, Ok(())),
    ("12", 3, Ok(())),
    ("12", 2, Err(Flaw::TooLong)),
    ("  1", 2, Err(Flaw::TooLong)),
    (TOO_LONG, 65, Err(Flaw::TooLong)),
    ("", 0, Err(Flaw::TooLong)),
];

#[test]
fn no_token_ends_past_the_room(rt: HostRuntime) -> Result<(), Fail> {
    let alloc = rt.alloc();
    for (text, room, want) in ROOMS {
        let mut source = source(alloc, text.as_bytes(), &[])?;
        let mut left = room;
        let token = next_token(&mut Reader::new(alloc)?, &mut source, &mut left);
        assert_eq!(rt; token.map(|_| ()), want.map_err(ItemFault::Flaw), "{text}");
    }
    Ok(())
}

#[test]
fn no_field_ends_past_the_room(rt: HostRuntime) -> Result<(), Fail> {
    let alloc = rt.alloc();
    for (room, want) in [(3, Ok(258)), (2, Ok(258)), (1, Err(Flaw::TooLong))] {
        let mut source = source(alloc, &[1, 2], &[])?;
        let mut left = room;
        let z = next_field(
            &mut Reader::new(alloc)?,
            &mut source,
            &mut left,
            Format::Big,
            Kind::U16,
        );
        assert_eq!(rt; z, want.map_err(ItemFault::Flaw));
    }
    Ok(())
}
