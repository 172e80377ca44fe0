// Which words ask for which job.
use puzzle_cli::read_words;
use std::alloc::{AllocError, Global};
use std::test::Fail;

// What is read of the words between commas.
fn read(alloc: Global, text: &str) -> Result<String, AllocError> {
    let mut words = Vec::new(alloc);
    for word in text.split(',') {
        words.push(String::from_str(alloc, word)?)?;
    }
    match read_words(alloc, &words) {
        Ok(job) => format!(in alloc; "{job:?}"),
        Err(fault) => format!(in alloc; "{fault:?}"),
    }
}

// Words, and their job.
const IN_THE_GRAMMAR: &str = "\
replay|Replay { tries: 3 }
replay,--tries=100|Replay { tries: 100 }
tour|Tour { digits: None, cap: 1024, budget: 32768, tries: 3 }
tour,--tries,1,--budget=2,--digits=9,--cap=4|Tour { digits: Some(9), cap: 4, budget: 2, tries: 1 }
build|Build { digits: None, cap: 1024, budget: 32768 }
build,--cap,1|Build { digits: None, cap: 1, budget: 32768 }
build,--budget=4194304|Build { digits: None, cap: 1024, budget: 4194304 }
build,--budget,1,--digits=2,--cap=3|Build { digits: Some(2), cap: 3, budget: 1 }
info|Info { tries: 3 }
info,--tries,1|Info { tries: 1 }
info,--tries=100|Info { tries: 100 }
gen,--size,1|Gen { size: 1 }
gen,--size=500|Gen { size: 500 }
gen,--size=0000000500|Gen { size: 500 }
finest|Finest { digits: None, cap: None }
finest,--digits,0|Finest { digits: Some(0), cap: None }
finest,--digits=0|Finest { digits: Some(0), cap: None }
finest,--digits,9|Finest { digits: Some(9), cap: None }
finest,--digits=9|Finest { digits: Some(9), cap: None }
finest,--digits,0000000009|Finest { digits: Some(9), cap: None }
finest,--cap,1|Finest { digits: None, cap: Some(1) }
finest,--cap=1|Finest { digits: None, cap: Some(1) }
finest,--cap,16777216|Finest { digits: None, cap: Some(16777216) }
finest,--cap=0016777216|Finest { digits: None, cap: Some(16777216) }
finest,--cap=0000000001|Finest { digits: None, cap: Some(1) }
finest,--cap,7,--digits,3|Finest { digits: Some(3), cap: Some(7) }
finest,--digits=3,--cap,7|Finest { digits: Some(3), cap: Some(7) }
finest,--cap=7,--digits=3|Finest { digits: Some(3), cap: Some(7) }";

#[test]
fn words_in_the_grammar_give_their_job(rt: HostRuntime) -> Result<(), Fail> {
    for row in IN_THE_GRAMMAR.split('\n') {
        let (words, job) = row.split_once('|').ok_or("no job")?;
        assert_eq!(rt; read(rt.alloc(), words)?.as_str(), job, "at {words}");
    }
    Ok(())
}

const OUTSIDE_THE_GRAMMAR: &str = "\
replay,--tries,0
replay,--tries=101
replay,--cap=1
replay,--cache=1
tour,--size=1
tour,--tries=1,--tries=1
info,--tries,2,--tries,3
build,--budget,0
build,--budget=4194305
build,--budget=1,--budget=1
build,--cap=16777217
build,--size=1
build,--tries=1
gen
gen,1
gen,--size
gen,--size=
gen,--size=0
gen,--size=501
gen,--size=1,--size=1
gen,--size=1,--cap=1
gen,finest,--size=1

finset
fines
finest 
Finest
--
--help
help
--cap=1
--cap,1,finest
finest,finest
finest,
finest,1
finest,1,--cap=1
finest,--cap=1,1
finest,--cap,1,1
finest,-
finest,--
finest,--cap=1,--
finest,--,--cap=1
finest,--cap,--
finest,--cap,--,1
finest,--=1
finest,--help
finest,-h
finest,help
finest,--version
finest,-V
finest,--budget=1
finest,--Cap=1
finest,--ca=1
finest,--capp=1
finest,-cap=1
finest,cap=1
finest,---cap=1
finest,--cap
finest,--cap=
finest,--cap,
finest,--cap,-1
finest,--cap=-1
finest,--cap=+1
finest,--cap= 1
finest,--cap=1a
finest,--cap==1
finest,--cap,=1
finest,--cap,--digits=1
finest,--cap=1,--cap=1
finest,--cap,1,--digits=1,--cap,2
finest,--cap=00000000001
finest,--digits,00000000000
finest,--cap,0
finest,--cap=0000000000
finest,--cap,16777217
finest,--cap=16777217
finest,--cap,9999999999
finest,--digits,10
finest,--digits=10
finest,--digits=4294967296";

#[test]
fn words_outside_the_grammar_are_usage(rt: HostRuntime) -> Result<(), Fail> {
    for words in OUTSIDE_THE_GRAMMAR.split('\n') {
        assert_eq!(rt; read(rt.alloc(), words)?.as_str(), "Usage", "at {words}");
    }
    Ok(())
}
