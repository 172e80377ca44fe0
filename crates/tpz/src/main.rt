//! The program `tpz`: the words and files of the command line, handed to the top call. What a file holds is told by no
//! device here.
#![tactic(auto)]

mod file_blob;
mod file_out;
mod file_source;
mod progress;

use file_blob::FileBlob;
use file_out::FileOut;
use file_source::FileSource;
use paged_blob::Paged;
use progress::{Progress, clear_line};
use puzzle_cli::{Status, run};
use std::alloc::{AllocError, Global};
use std::env;
use std::io::IsTerminal;
use std::process::ExitCode;

fn path_in(alloc: Global, folder: &str, name: &str) -> Result<String, AllocError> {
    format!(in alloc; "{folder}/{name}")
}

// Progress of the file of this name in a folder, where it is shown.
fn progress_of(
    rt: &HostRuntime,
    name: &'static str,
    is_shown: bool,
) -> Result<Progress<HostRuntime>, AllocError> {
    Ok(Progress::new(rt.clone()?, name, is_shown))
}

fn source_in(
    rt: &HostRuntime,
    folder: &str,
    name: &'static str,
    is_shown: bool,
) -> Result<FileSource<HostRuntime>, AllocError> {
    let progress = progress_of(rt, name, is_shown)?;
    Ok(FileSource::new(rt.clone()?, path_in(rt.alloc(), folder, name)?, progress))
}

fn blob_in(
    rt: &HostRuntime,
    folder: &str,
    name: &'static str,
    is_shown: bool,
) -> Result<FileBlob<HostRuntime>, AllocError> {
    let progress = progress_of(rt, name, is_shown)?;
    Ok(FileBlob::new(rt.clone()?, path_in(rt.alloc(), folder, name)?, progress))
}

// Runs the command of these words over the files of a folder. The work file is behind pages. On a terminal it shows what
// was read of the input and written of the store.
fn run_in(rt: &HostRuntime, folder: &str, words: &[String]) -> Result<Status, AllocError> {
    let alloc = rt.alloc();
    let is_shown = rt.stderr().is_terminal();
    let mut input = source_in(rt, folder, "input.ply", is_shown)?;
    let mut script = source_in(rt, folder, "script.txt", false)?;
    let work_file = blob_in(rt, folder, "work.tmp", false)?;
    let mut work = Paged::new(alloc, work_file)?;
    let mut store = blob_in(rt, folder, "store.tpz", is_shown)?;
    let mut out = FileOut::new(
        rt.clone()?,
        alloc,
        String::from_str(alloc, folder)?,
        is_shown,
    );
    let status = run(
        alloc,
        words,
        &mut input,
        &mut script,
        &mut work,
        &mut store,
        &mut out,
    );
    if is_shown {
        clear_line(rt);
    }
    Ok(status)
}

// The arguments behind the program's name; none where one of them is no text.
fn arguments(rt: &HostRuntime) -> Result<Vec<String>, AllocError> {
    let alloc = rt.alloc();
    let Ok(mut all) = env::args(rt) else {
        return Ok(Vec::new(alloc));
    };
    let _ = all.next();
    all.collect(alloc)
}

// The first argument is the folder, and the others are the words. Without an argument there are no words.
fn run_arguments(rt: &HostRuntime) -> Result<Status, AllocError> {
    let arguments = arguments(rt)?;
    match arguments.as_slice() {
        [folder, words @ ..] => run_in(rt, folder.as_str(), words),
        [] => run_in(rt, ".", &[]),
    }
}

fn main(rt: HostRuntime) -> ExitCode {
    let status = run_arguments(&rt).unwrap_or(Status::Memory);
    if status != Status::Ok
        && let Ok(line) = status.line(rt.alloc())
    {
        let _ = eprintln!(rt; "{line}");
    }
    ExitCode::from(status.code())
}
