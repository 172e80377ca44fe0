// The code and line of each status.
use patch_file::StoreBad;
use puzzle_cli::{InputKind, Place, ReadAt, Status};
use std::test::Fail;

fn line(kind: InputKind, line: u64) -> Status {
    let place = Place::Line { line };
    Status::BadInput { kind, place }
}

fn row(kind: InputKind, element: u32, row: u64) -> Status {
    let place = Place::Row { element, row };
    Status::BadInput { kind, place }
}

#[test]
fn each_status_has_its_code_and_line(rt: HostRuntime) -> Result<(), Fail> {
    let rows = [
        (Status::Ok, 0, ""),
        (
            Status::Usage,
            2,
            "tpz: usage: tpz FOLDER COMMAND [--NAME VALUE]",
        ),
        (
            line(InputKind::NotPly, 1),
            3,
            "tpz: bad input: NotPly at line 1",
        ),
        (
            row(InputKind::BadIndex { index: -7 }, 1, 9),
            3,
            "tpz: bad input: BadIndex -7 at element 1 row 9",
        ),
        (
            Status::Extent {
                axis: 2,
                least: -5,
                greatest: 1073741820,
            },
            4,
            "tpz: extent: axis 2 from -5 to 1073741820; use fewer --digits",
        ),
        (Status::InputFault, 5, "tpz: input failed"),
        (Status::WorkFault, 8, "tpz: work file failed"),
        (
            Status::WorkDamage { offset: 24 },
            9,
            "tpz: work file damaged at 24",
        ),
        (
            Status::BadStore(StoreBad::Field { offset: 72 }),
            12,
            "tpz: bad store: Field 72",
        ),
        (
            Status::BadStore(StoreBad::BadBlock { rec: 2, offset: 4 }),
            12,
            "tpz: bad store: BadBlock 2 4",
        ),
        (
            Status::ReadFault { at: ReadAt::Head },
            13,
            "tpz: store read failed at head",
        ),
        (Status::OutFault, 14, "tpz: output failed"),
        (Status::Memory, 16, "tpz: out of memory"),
        (Status::ScriptBad { line: 5 }, 6, "tpz: bad script line 5"),
        (Status::ScriptFault, 7, "tpz: script failed"),
        (Status::StoreFault, 10, "tpz: store failed"),
        (
            Status::NotEmpty { len: 1 },
            11,
            "tpz: the store is not empty: 1 bytes",
        ),
        (Status::TooManyRecords, 22, "tpz: too many records"),
    ];
    for (status, code, line) in rows {
        assert_eq!(rt; status.code(), code, "at {status:?}");
        assert_eq!(rt; status.line(rt.alloc())?.as_str(), line, "at {status:?}");
    }
    Ok(())
}
