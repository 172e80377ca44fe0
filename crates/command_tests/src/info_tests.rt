// What `info` answers.
use crate::failures;
use std::alloc::{AllocError, Global};
use std::process::Abort;
use std::test::Fail;

const INFO_TRIES: &str = "\
case calls that fail: none
store square
input_fails 1
script_fails 1
work_fails 1
run info --tries 2
line
notes info level 2 digits 0 tris 4 dropped 0 cap 1 budget 32768 records 2 bytes 616/
parts 0
unused input
unused script
unused work
case calls that fail: 1
store square
input_fails 1
script_fails 1
work_fails 1
store_fails 1
run info --tries 2
line
notes info level 2 digits 0 tris 4 dropped 0 cap 1 budget 32768 records 2 bytes 616/
parts 0
unused input
unused script
unused work
case calls that fail: 2 4 6
store square
input_fails 1
script_fails 1
work_fails 1
store_fails 2 4 6
run info --tries 2
line
notes info level 2 digits 0 tris 4 dropped 0 cap 1 budget 32768 records 2 bytes 616/
parts 0
unused input
unused script
unused work
case calls that fail: 1 2
store square
input_fails 1
script_fails 1
work_fails 1
store_fails 1 2
run info --tries 2
line tpz: store read failed at head
notes
parts 0
unused input
unused script
unused work
case calls that fail: 4 5
store square
input_fails 1
script_fails 1
work_fails 1
store_fails 4 5
run info --tries 2
line tpz: store read failed at head
notes
parts 0
unused input
unused script
unused work";

#[test]
fn a_store_is_told_within_its_tries(rt: HostRuntime) -> Result<(), Fail> {
    assert_eq!(rt; failures(rt.alloc(), INFO_TRIES)?.as_str(), "");
    Ok(())
}

const DAMAGED_STORES: &str = "\
case the name
store square
input_fails 1
script_fails 1
work_fails 1
byte 0 0
run info --tries 2
line tpz: bad store: Magic
notes
parts 0
unused input
unused script
unused work
case the gate
store square
input_fails 1
script_fails 1
work_fails 1
byte 4 0
run info --tries 2
line tpz: bad store: Unfinished 0
notes
parts 0
unused input
unused script
unused work
case the level bound
store square
input_fails 1
script_fails 1
work_fails 1
byte 5 31
run info --tries 2
line tpz: bad store: Field 5
notes
parts 0
unused input
unused script
unused work
case the error of record 0
store square
input_fails 1
script_fails 1
work_fails 1
byte 96 1
run info --tries 2
line tpz: bad store: NotSaturated 0
notes
parts 0
unused input
unused script
unused work
case the box of record 0
store square
input_fails 1
script_fails 1
work_fails 1
byte 124 1
run info --tries 2
line tpz: bad store: NotSaturated 0
notes
parts 0
unused input
unused script
unused work
case the centre of record 1
store square
input_fails 1
script_fails 1
work_fails 1
byte 152 4
run info --tries 2
line tpz: bad store: Order 1
notes
parts 0
unused input
unused script
unused work
case the offset of its block, which is found at record 0
store square
input_fails 1
script_fails 1
work_fails 1
byte 192 209
run info --tries 2
line tpz: bad store: Field 128
notes
parts 0
unused input
unused script
unused work
case a corner of the base, outside the cube
store square
input_fails 1
script_fails 1
work_fails 1
byte 524 5
run info --tries 2
line tpz: bad store: BadBlock 2 4
notes
parts 0
unused input
unused script
unused work
case a count of the base, past its end
store square
input_fails 1
script_fails 1
work_fails 1
byte 604 1
run info --tries 2
line tpz: bad store: BadBlock 2 88
notes
parts 0
unused input
unused script
unused work
case a byte behind the end
store square
input_fails 1
script_fails 1
work_fails 1
byte 616 0
run info --tries 2
line tpz: bad store: Field 72
notes
parts 0
unused input
unused script
unused work";

#[test]
fn a_damaged_store_is_refused_at_its_place(rt: HostRuntime) -> Result<(), Fail> {
    assert_eq!(rt; failures(rt.alloc(), DAMAGED_STORES)?.as_str(), "");
    Ok(())
}

// The bytes that are 0, or 255, from a place to a place, and the refusal; else the note, where it changes.
const CHANGED_BYTES: &str = "\
0 3 Magic
0 4 Unfinished 0
0 5 Field 5
0 31
0 32 note info level 2 digits 0 tris 0 dropped 0 cap 1 budget 32768 records 2 bytes 616
0 47
0 48 Field 48
0 52
0 53 Field 52
0 55
0 56 Field 64
0 63
0 64 Field 136
0 65 Field 64
0 71
0 73 Field 64
0 79
0 80 NotClosed 0
0 83
0 84 NotClosed 0
0 87
0 88 Order 1
0 95
0 96 NotSaturated 0
0 115
0 116 NotSaturated 0
0 119
0 120 NotSaturated 0
0 123
0 124 NotSaturated 0
0 127
0 129 Field 128
0 135
0 136 Field 136
0 143
0 144 NotClosed 1
0 147
0 148 NotClosed 1
0 155
0 156 NotSaturated 1
0 159
0 160 NotSaturated 0
0 179
0 180 NotSaturated 1
0 183
0 184 NotSaturated 1
0 191
0 192 Field 128
0 199
0 200 Field 128
0 519
0 520 BadBlock 2 80
0 523
0 524 BadBlock 2 4
0 539
0 540 BadBlock 2 4
0 563
0 564 BadBlock 2 52
0 567
0 568 BadBlock 2 48
0 583
0 584 BadBlock 2 48
0 615
255 3 Magic
255 4 Unfinished 255
255 5 Field 5
255 6 Field 6
255 7 Field 7
255 10
255 15 Field 8
255 18
255 23 Field 8
255 26
255 31 Field 8
255 32 note info level 2 digits 0 tris 255 dropped 0 cap 1 budget 32768 records 2 bytes 616
255 33 note info level 2 digits 0 tris 65284 dropped 0 cap 1 budget 32768 records 2 bytes 616
255 34 note info level 2 digits 0 tris 16711684 dropped 0 cap 1 budget 32768 records 2 bytes 616
255 39 Field 32
255 40 note info level 2 digits 0 tris 4 dropped 255 cap 1 budget 32768 records 2 bytes 616
255 41 note info level 2 digits 0 tris 4 dropped 65280 cap 1 budget 32768 records 2 bytes 616
255 42 note info level 2 digits 0 tris 4 dropped 16711680 cap 1 budget 32768 records 2 bytes 616
255 47 Field 40
255 48 note info level 2 digits 0 tris 4 dropped 0 cap 255 budget 32768 records 2 bytes 616
255 49 note info level 2 digits 0 tris 4 dropped 0 cap 65281 budget 32768 records 2 bytes 616
255 50 note info level 2 digits 0 tris 4 dropped 0 cap 16711681 budget 32768 records 2 bytes 616
255 51 Field 48
255 52 note info level 2 digits 0 tris 4 dropped 0 cap 1 budget 33023 records 2 bytes 616
255 53 note info level 2 digits 0 tris 4 dropped 0 cap 1 budget 65280 records 2 bytes 616
255 55 Field 52
255 59 Field 56
255 63 Field 60
255 71 Field 64
255 79 Short 616
255 91 Field 80
255 94 NotSaturated 0
255 95 Field 92
255 99 NotSaturated 0
255 103 Field 96
255 115 Field 104
255 127 Field 116
255 135 Field 128
255 143 Field 136
255 155 Field 144
255 158 NotSaturated 1
255 159 Field 156
255 163 NotSaturated 0
255 167 Field 160
255 179 Field 168
255 191 Field 180
255 207 Field 128
255 519
255 523 BadBlock 2 40
255 559 BadBlock 2 4
255 563 BadBlock 2 80
255 567 BadBlock 2 84
255 603 BadBlock 2 48
255 607 BadBlock 2 88
255 611 BadBlock 2 92
255 615 BadBlock 2 96";

const NOTE: &str = "info level 2 digits 0 tris 4 dropped 0 cap 1 budget 32768 records 2 bytes 616";

// The steps that run `info` over the worked store with this byte at a place.
fn changed(alloc: Global, place: u64, value: &str, what: &str) -> Result<String, AllocError> {
    let note = what.strip_prefix("note ");
    if what.is_empty() || note.is_some() {
        let note = note.unwrap_or(NOTE);
        format!(in alloc;
            "case {place}\nstore square\nbyte {place} {value}\nrun info\nline\nnotes {note}/"
        )
    } else {
        format!(in alloc;
            "case {place}\nstore square\nbyte {place} {value}\nrun info\nline tpz: bad store: {what}\nnotes"
        )
    }
}

// Tries the bytes of a row, whose first is this place, and gives the place behind its last.
fn try_row(rt: &impl Abort, alloc: Global, row: &str, first: u64) -> Result<u64, Fail> {
    let (value, rest) = row.split_once(' ').ok_or("no value")?;
    let (last, what) = rest.split_once(' ').unwrap_or((rest, ""));
    let end = last.parse::<u64>()?.saturating_add(1);
    for place in first..end {
        let steps = changed(alloc, place, value, what)?;
        assert_eq!(rt; failures(alloc, steps.as_str())?.as_str(), "");
    }
    Ok(end)
}

// Each byte of the worked store is made 0, and then 255.
#[test]
fn each_byte_of_a_store_may_be_changed(rt: HostRuntime) -> Result<(), Fail> {
    let mut place = 0;
    let mut count: u64 = 0;
    for row in CHANGED_BYTES.split('\n') {
        if place == 616 {
            place = 0;
        }
        let end = try_row(&rt, rt.alloc(), row, place)?;
        count = count.saturating_add(end.saturating_sub(place));
        place = end;
    }
    assert_eq!(rt; count, 1232);
    Ok(())
}

#[test]
fn each_front_of_a_store_is_short(rt: HostRuntime) -> Result<(), Fail> {
    let alloc = rt.alloc();
    for len in 0..616 {
        let steps = format!(in alloc;
            "case {len}\nstore square\ncut {len}\nrun info --tries=2\nline tpz: bad store: Short {len}\nnotes"
        )?;
        assert_eq!(rt; failures(alloc, steps.as_str())?.as_str(), "");
    }
    Ok(())
}
