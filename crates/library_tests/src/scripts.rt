// Scripts that are read and refused.
use script_text::{Line, Script, ScriptFault, print_line, read_line};
use std::alloc::Global;
use std::test::Fail;
use tpz_io::MemSource;

// A command in each line, and its numbers.
const COMMANDS: &str = "\
write|Write
view 0 0 0 0|Look { x: 0, y: 0, z: 0, tol: 0 }
view 100000 -1 20 65536|Look { x: 100000, y: -1, z: 20, tol: 65536 }
view 1099511627776 -1099511627776 7 4294967295|Look { x: 1099511627776, y: -1099511627776, z: 7, tol: 4294967295 }
view -10 9 -8 10|Look { x: -10, y: 9, z: -8, tol: 10 }";

#[test]
fn commands_are_read_and_printed(rt: HostRuntime) -> Result<(), Fail> {
    let alloc = rt.alloc();
    for row in COMMANDS.split('\n') {
        let (text, wanted) = row.split_once('|').ok_or("no command")?;
        let line = read_line(text.as_bytes()).ok_or("outside the grammar")?;
        assert_eq!(rt; format!(in alloc; "{line:?}")?.as_str(), wanted);
        assert_eq!(rt; print_line(alloc, &line)?.as_str(), text);
    }
    Ok(())
}

// Lines outside the grammar, one of each kind.
const OUTSIDE: &str = "\
|#| write|write |Write|writ|writes|write 1|jump|draw|drop|serve 1|trace 0 0 0|view|view |view 0 0 0|view 0 0 0 0 0|view  0 0 0 0|view 0 0 0 0 |view\t0 0 0 0|view -0 0 0 0|view +1 0 0 0|view 01 0 0 0|view -01 0 0 0|view - 0 0 0|view 0x1 0 0 0|view 1099511627777 0 0 0|view 0 -1099511627777 0 0|view 0 0 9223372036854775808 0|view 0 0 0 4294967296|view 0 0 0 -1|view 0 0 0 00";

#[test]
fn lines_outside_the_grammar_are_refused(rt: HostRuntime) {
    for text in OUTSIDE.split('|') {
        assert_eq!(rt; read_line(text.as_bytes()), None);
    }
    assert_eq!(rt; read_line(b"write\xff"), None);
}

// How many lines a script may have.
const LINES: u64 = 1_048_576;

// Takes commands to the end, or to a refusal, and gives how many there were and how they end: the number of lines, or why
// the script is refused. There are at most as many commands as lines.
fn read_all(source: &mut MemSource) -> (u64, Result<u64, ScriptFault>) {
    let mut script = Script::new();
    for commands in 0..=LINES {
        match script.next(source) {
            Ok(Some(_)) => {}
            Ok(None) => return (commands, Ok(script.number())),
            Err(fault) => return (commands, Err(fault)),
        }
    }
    (LINES + 1, Ok(script.number()))
}

// A script, with `/` for each line feed: a text, a piece, so many times, and a text behind; how many commands it has, and how
// it ends.
const SCRIPTS: &str = "\
||0||0 Ok(0)
write||0||1 Ok(1)
write/||0||1 Ok(1)
write\r/write\r/||0||2 Ok(2)
write\r||0||0 Err(Bad { line: 1 })
/# a/\r/#/write/#||0||1 Ok(6)
write//jump/write||0||1 Err(Bad { line: 3 })
write\r\r/||0||0 Err(Bad { line: 1 })
\r||0||0 Err(Bad { line: 1 })
#|a|255|\r/write|1 Ok(2)
#|a|256|/write|0 Err(Bad { line: 1 })
#|a|256|\r/write|0 Err(Bad { line: 1 })
#|a|5000|/write|0 Err(Bad { line: 1 })
#|a|255||0 Ok(1)
#|a|256||0 Err(Bad { line: 1 })
|/|1048575|write|1 Ok(1048576)
|/|1048576|write|0 Err(Bad { line: 1048577 })";

fn text(alloc: Global, text: &str) -> Result<Vec<u8>, Fail> {
    let mut bytes = text.as_bytes().to_vec(alloc)?;
    for byte in bytes.iter_mut() {
        if *byte == b'/' {
            *byte = b'\n';
        }
    }
    Ok(bytes)
}

// What the script of a row gives, and what is wanted.
fn outcome(alloc: Global, row: &str) -> Result<(String, &str), Fail> {
    let (front, rest) = row.split_once('|').ok_or("no text")?;
    let (piece, rest) = rest.split_once('|').ok_or("no piece")?;
    let (times, rest) = rest.split_once('|').ok_or("no number")?;
    let (rest, wanted) = rest.split_once('|').ok_or("no answer")?;
    let mut bytes = text(alloc, front)?;
    let piece = text(alloc, piece)?;
    for _ in 0..times.parse::<u32>()? {
        bytes.extend_from_slice(&piece)?;
    }
    bytes.extend_from_slice(&text(alloc, rest)?)?;
    let mut source = MemSource::new(bytes, Vec::new(alloc));
    let (commands, end) = read_all(&mut source);
    Ok((format!(in alloc; "{commands} {end:?}")?, wanted))
}

#[test]
fn scripts_are_read_line_by_line(rt: HostRuntime) -> Result<(), Fail> {
    for row in SCRIPTS.split('\n') {
        let (found, wanted) = outcome(rt.alloc(), row)?;
        assert_eq!(rt; found.as_str(), wanted, "at {row}");
    }
    Ok(())
}

#[test]
fn a_failing_read_is_told(rt: HostRuntime) -> Result<(), Fail> {
    let alloc = rt.alloc();
    let bytes = text(alloc, "write/")?;
    let mut source = MemSource::new(bytes, [2].to_vec(alloc)?);
    assert_eq!(rt; read_all(&mut source).1, Err(ScriptFault::Input));
    Ok(())
}
