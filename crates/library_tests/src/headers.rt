// Headers that are read and refused over a source in memory, and numbers of the text. A row is a line, with `|` between its fields
// and `/` for each line feed of an input.
use ply_head::{Format, HeadFault, read_head, read_number};
use std::alloc::Global;
use std::test::Fail;
use tpz_io::MemSource;

// The input of a text.
fn input(alloc: Global, text: &str) -> Result<Vec<u8>, Fail> {
    let mut bytes = text.as_bytes().to_vec(alloc)?;
    for byte in bytes.iter_mut() {
        if *byte == b'/' {
            *byte = b'\n';
        }
    }
    Ok(bytes)
}

// The input of a text with a piece, so many times, and a text behind.
fn long_input(
    alloc: Global,
    front: &str,
    piece: &str,
    times: u32,
    rest: &str,
) -> Result<Vec<u8>, Fail> {
    let mut bytes = input(alloc, front)?;
    let piece = input(alloc, piece)?;
    for _ in 0..times {
        bytes.extend_from_slice(&piece)?;
    }
    bytes.extend_from_slice(&input(alloc, rest)?)?;
    Ok(bytes)
}

// Why an input is refused, whose reads with these numbers fail.
fn fault_of(alloc: Global, bytes: Vec<u8>, fails: &[u64]) -> Result<Option<HeadFault>, Fail> {
    let mut source = MemSource::new(bytes, fails.to_vec(alloc)?);
    match read_head(alloc, &mut source) {
        Ok(_) => Ok(None),
        Err(fault) => Ok(Some(fault)),
    }
}

// The same as text.
fn answer(alloc: Global, bytes: Vec<u8>) -> Result<String, Fail> {
    match fault_of(alloc, bytes, &[])? {
        Some(fault) => Ok(format!(in alloc; "{fault:?}")?),
        None => Ok(String::from_str(alloc, "Ok")?),
    }
}

// An input, and why it is refused: each refusal in its turn, and then those where two hold at one line.
const REFUSED: &str = "\
|NotPly { line: 1 }
plyx/|NotPly { line: 1 }
 ply/|NotPly { line: 1 }
ply\r|NotPly { line: 1 }
ply|Line { line: 1 }
ply\r/format ascii 2.0/|Format { line: 2 }
ply/comment a//element vertex 1/|Format { line: 4 }
ply/format ascii 1.0 x/|Format { line: 2 }
ply/format text 1.0/|Format { line: 2 }
ply/format ascii 1.0/|Line { line: 3 }
ply/format ascii 1.0/comment a|Line { line: 3 }
ply/format ascii 1.0/commentx/|Line { line: 3 }
ply/format ascii 1.0/format ascii 1.0/|Line { line: 3 }
ply/format ascii 1.0/property int x/|Line { line: 3 }
ply/format ascii 1.0/element vertex 1x/|Line { line: 3 }
ply/format ascii 1.0/element vertex -1/|Line { line: 3 }
ply/format ascii 1.0/element vertex 1/property list uchar x/|Line { line: 4 }
ply/format ascii 1.0/element vertex 1/property listt uchar int x/|Line { line: 4 }
ply/format ascii 1.0/element vertex 1/property int\tx y/|Line { line: 4 }
ply/format ascii 1.0/element vertex 1/property list x/|TypeName { line: 4 }
ply/format ascii 1.0/element vertex 1/property Int x/|TypeName { line: 4 }
ply/format ascii 1.0/element a 1/property list float int a/|TypeName { line: 4 }
ply/format ascii 1.0/element a 1/property list float64 inte a/|TypeName { line: 4 }
ply/format ascii 1.0/element face 1/property list uchar double vertex_index/|TypeName { line: 4 }
ply/format ascii 1.0/element vertex 2147483649/|TooMany { line: 3 }
ply/format ascii 1.0/element vertex 99999999999999999999999999999999999999999999/|TooMany { line: 3 }
ply/format ascii 1.0/element vertex 1/property int x/property int y/property list uchar int z/element face 1/property list uchar int vertex_indices/end_header/|NoVertex { line: 9 }
ply/format ascii 1.0/element vertex 1/element vertex 1/property float x/property float y/property float z/element face 1/property list uchar int vertex_indices/end_header/|NoVertex { line: 10 }
ply/format ascii 1.0/element face 1/property list uchar int vertex_indices/element vertex 1/property float x/property float y/property float z/end_header/|NoFace { line: 9 }
ply/format ascii 1.0/element vertex 1/property float x/property float y/property float z/element face 1/property int vertex_indices/end_header/|NoFace { line: 9 }
ply/format binary_little_endian 1.0/element vertex 1/property float x/property float y/property float z/element face 1/property list uchar int vertex_indices/end_header/|FloatBinary { line: 9 }
ply/format binary_big_endian 1.0/element vertex 1/property int x/property float64 y/property int z/element face 1/property list uchar int vertex_indices/end_header/|FloatBinary { line: 9 }
xyz|NotPly { line: 1 }
ply/format ascii 1.1|Line { line: 2 }
ply/format ascii 1.0/element vertex 1/property Int x|Line { line: 4 }
ply/format ascii 1.0/element vertex 2147483649|Line { line: 3 }
ply/format ascii 1.0/end_header|Line { line: 3 }
ply/vertex/|Format { line: 2 }
ply/property Int x/|Format { line: 2 }
ply/element vertex 2147483649/|Format { line: 2 }
ply/end_header/|Format { line: 2 }
ply/format ascii 1.0/property Int x/|Line { line: 3 }
ply/format ascii 1.0/end_header/|NoVertex { line: 3 }
ply/format binary_little_endian 1.0/element vertex 1/property float x/element face 1/property list uchar int vertex_indices/end_header/|NoVertex { line: 7 }
ply/format binary_little_endian 1.0/element vertex 1/property float x/property float y/property float z/end_header/|NoFace { line: 7 }
ply/format ascii 1.0/element vertex 1/property float x/property float y/property float z/end_header|Line { line: 7 }
ply/format binary_little_endian 1.0/element vertex 1/property float x/property float y/property float z/element face 1/property list uchar int vertex_indices/end_header|Line { line: 9 }";

// A name, an input as a text, a piece, so many times, and a text behind, and the answer.
const LONG: &str = "\
the 65th element|ply/format ascii 1.0/|element e 1/|64|element vertex 1/|TooMany { line: 67 }
the 65th element with a count that isn't digits|ply/format ascii 1.0/|element e 1/|64|element vertex 1x/|Line { line: 67 }
the 257th property|ply/format ascii 1.0/element e 1/|property int p/|256|property int x/|TooMany { line: 260 }
the 257th property with a wrong type|ply/format ascii 1.0/element e 1/|property int p/|256|property Int x/|TypeName { line: 260 }
a line one byte too long|ply/format ascii 1.0/comment |a|1048547|/|TooMany { line: 3 }
a long line without a line feed|ply/format ascii 1.0/comment |a|1048548||TooMany { line: 3 }
a long first line|plyx|x|1048576|/|NotPly { line: 1 }
a long line where the format is due|ply/|a|1048576|/|TooMany { line: 2 }
a long line without a form|ply/format ascii 1.0/|a|1048576|/|TooMany { line: 3 }
a long line with a wrong type|ply/format ascii 1.0/element e 1/property |a|1048576| x/|TooMany { line: 4 }
a long line with too many rows|ply/format ascii 1.0/element e |9|1048576|/|TooMany { line: 3 }
an end with too many blanks|ply/format ascii 1.0/end_header| |1048576|/|TooMany { line: 3 }
as many bytes as may be, and no end|ply/format ascii 1.0/comment |a|1048546|/|Line { line: 4 }
an end with too many blanks, and no face|ply/format ascii 1.0/element vertex 1/property float x/property float y/property float z/end_header| |1048576|/|TooMany { line: 7 }
an end with too many blanks, and a float in binary|ply/format binary_little_endian 1.0/element vertex 1/property float x/property float y/property float z/element face 1/property list uchar int vertex_indices/end_header| |1048576|/|TooMany { line: 9 }
an end one byte too late|ply/format ascii 1.0/comment |a|1048414|/element vertex 1/property float x/property float y/property float z/element face 1/property list uchar int vertex_indices/end_header/|TooMany { line: 10 }
an end at the last byte|ply/format ascii 1.0/comment |a|1048413|/element vertex 1/property float x/property float y/property float z/element face 1/property list uchar int vertex_indices/end_header/|Ok";

#[test]
fn a_header_is_refused_at_its_first_wrong_line(rt: HostRuntime) -> Result<(), Fail> {
    let alloc = rt.alloc();
    for row in REFUSED.split('\n') {
        let (text, wanted) = row.split_once('|').ok_or("no answer")?;
        let found = answer(alloc, input(alloc, text)?)?;
        assert_eq!(rt; found.as_str(), wanted, "at {text}");
    }
    Ok(())
}

// The answer of a row of a long input, and the one that is wanted.
fn long_answer(alloc: Global, row: &str) -> Result<(String, &str), Fail> {
    let (front, rest) = row.split_once('|').ok_or("no text")?;
    let (piece, rest) = rest.split_once('|').ok_or("no piece")?;
    let (times, rest) = rest.split_once('|').ok_or("no number")?;
    let (rest, wanted) = rest.split_once('|').ok_or("no answer")?;
    let bytes = long_input(alloc, front, piece, times.parse::<u32>()?, rest)?;
    Ok((answer(alloc, bytes)?, wanted))
}

#[test]
fn a_header_may_have_1048576_bytes(rt: HostRuntime) -> Result<(), Fail> {
    for row in LONG.split('\n') {
        let (name, row) = row.split_once('|').ok_or("no name")?;
        let (found, wanted) = long_answer(rt.alloc(), row)?;
        assert_eq!(rt; found.as_str(), wanted, "at {name}");
    }
    Ok(())
}

// The header of a scanned mesh.
const SCANNED: &str =
    "ply\r/format ascii 1.0\r/comment zipper output/\tobj_info/element vertex 3/property float x/property float y/property  float\tz/property float confidence/property uchar x/element face 1/property list uchar int vertex_indices/end_header/";

#[test]
fn a_header_is_read_and_the_source_goes_on_behind_it(rt: HostRuntime) -> Result<(), Fail> {
    let alloc = rt.alloc();
    let bytes = long_input(alloc, SCANNED, "7", 1, "")?;
    let mut source = MemSource::new(bytes, Vec::new(alloc));
    let head = match read_head(alloc, &mut source) {
        Ok(head) => head,
        Err(fault) => return Ok(assert_eq!(rt; Some(fault), None)),
    };
    assert_eq!(rt; head.format(), Format::Ascii);
    assert_eq!(rt; head.default_digits(), 6);
    let mut parts = head.into_parts();
    assert_eq!(rt; parts.reader.next(&mut source), Ok(Some(b'7')));
    Ok(())
}

// A text, how many digits are taken behind its point, and what it means.
const NUMBERS: &str = "\
-0.0378297|6|Ok(-37830)
1.5e-6|6|Ok(2)
-2.5E-06|6|Ok(-3)
.5|0|Ok(1)
4.|1|Ok(40)
0e9999|9|Ok(0)
2147483647.49|0|Ok(2147483647)
2147483647.5|0|Err(Range)
nan|0|Err(Form)
1e|0|Err(Form)
.|0|Err(Form)
1e00001|0|Err(Form)
0.5|0|Ok(1)
-0.5|0|Ok(-1)
2.5|0|Ok(3)
-2.5|0|Ok(-3)
0.49999|0|Ok(0)
5e-10|9|Ok(1)
49e-11|9|Ok(0)
-2147483647.49|0|Ok(-2147483647)
-2147483648|0|Err(Range)
100000000000000000000000000000e-29|0|Ok(1)
1000000000000000000000000000000e-30|0|Err(Digits)
0000000000000000000000000000000000000000001|0|Ok(1)
0.00000000000000000000000000000000000000001|0|Ok(0)
-0|0|Ok(0)
+7|0|Ok(7)
007|1|Ok(70)
1e0003|0|Ok(1000)
1E+3|0|Ok(1000)
1e9999|0|Err(Range)
1e-9999|9|Ok(0)
9999999999999999999999999999999|0|Err(Digits)
9999999999999999999999999999999x|0|Err(Form)
|0|Err(Form)
+|0|Err(Form)
--1|0|Err(Form)
1.2.3|0|Err(Form)
 1|0|Err(Form)
1e1e1|0|Err(Form)
e5|0|Err(Form)
1e+|0|Err(Form)
inf|0|Err(Form)
0x1|0|Err(Form)";

#[test]
fn numbers_are_rounded_or_refused(rt: HostRuntime) -> Result<(), Fail> {
    let alloc = rt.alloc();
    for row in NUMBERS.split('\n') {
        let (text, rest) = row.split_once('|').ok_or("no digits")?;
        let (digits, wanted) = rest.split_once('|').ok_or("no answer")?;
        let number = read_number(text.as_bytes(), digits.parse::<u8>()?.min(9));
        assert_eq!(rt;
            format!(in alloc; "{number:?}")?.as_str(),
            wanted,
            "at {text}"
        );
    }
    Ok(())
}

#[test]
fn a_failing_read_is_told(rt: HostRuntime) -> Result<(), Fail> {
    let alloc = rt.alloc();
    let failed = Some(HeadFault::InputFault);
    let short = input(alloc, "ply/")?;
    assert_eq!(rt; fault_of(alloc, short, &[1])?, failed);
    let long = long_input(alloc, "ply/comment ", "a", 70_000, "/")?;
    assert_eq!(rt; fault_of(alloc, long, &[2])?, failed);
    let whole = input(alloc, SCANNED)?;
    assert_eq!(rt; fault_of(alloc, whole, &[2])?, None);
    Ok(())
}
