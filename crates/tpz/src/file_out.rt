// Files as an output, and standard output for its notes.
ghost use Rattle.std.specs.Prelude.{◌≡◌, false, is_some};
ghost use Rattle.std.specs.declared.option.Option.TheVariants.{None};
ghost use Rattle.tpz_io.specs.Causes.{one_more};

use crate::progress::clear_line;
use std::alloc::Global;
use std::fs::File;
use std::io;
use std::io::{ErrorKind, Write};
use std::rt::Files;
use tpz_io::{Failed, Out};

/// Makes the files `part-1.ply`, `part-2.ply` and so on in a folder, each when its part is opened. A part
/// that wasn't finished is made anew under the same number. Notes go to standard output. It tells nothing
/// of what is in the files.
#[derive(Drop)]
pub struct FileOut<R: Files<File = File> + Print + Eprint + Drop> {
    rt: R,
    alloc: Global,
    folder: String,
    file: Option<File>,
    finished: u64,
    faults: u64,
    shows_progress: bool,
}

// Writes all bytes.
fn write_all<W: Write>(to: &mut W, bytes: &[u8]) -> Option<()> {
    let mut done = 0;
    for _ in 0..u64::MAX {
        if done >= bytes.len() {
            return Some(());
        }
        match to.write(&bytes[done..]) {
            Ok(0) => return None,
            Ok(n) => done += n,
            Err(e) if e.kind() == ErrorKind::Interrupted => {}
            Err(_) => return None,
        }
    }
    None
}

impl<R: Files<File = File> + Print + Eprint + Drop> FileOut<R> {
    /// An output into this folder, with no part. No call was made. Where progress is shown, its line is cleared
    /// before a note.
    pub fn new(rt: R, alloc: Global, folder: String, shows_progress: bool) -> Self
        ensures faults { ⟦<FileOut<R> as Out>⟧.faults result ≡ 0 }
        ensures closed { ⟦<FileOut<R> as Out>⟧.is_open result ≡ false }
    {
        FileOut {
            rt,
            alloc,
            folder,
            file: None,
            finished: 0,
            faults: 0,
            shows_progress,
        }
    }

    // Makes the file of the next part.
    fn make(&self) -> Option<File> {
        let folder = self.folder.as_str();
        let number = self.finished.checked_add(1)?;
        let path = format!(in self.alloc; "{folder}/part-{number}.ply").ok()?;
        File::create(&self.rt, path.as_str()).ok()
    }

    fn print(&self, line: &[u8]) -> Option<()> {
        if self.shows_progress {
            clear_line(&self.rt);
        }
        let mut to = io::writer(&self.rt);
        write_all(&mut to, line)?;
        write_all(&mut to, b"\n")
    }

    // Counts a failure.
    fn fail(&mut self) -> Failed
        ensures file { self.new.file ≡ self.old.file }
        ensures faults { self.new.faults ≡ one_more self.old.faults }
    {
        self.faults = self.faults.saturating_add(1);
        Failed
    }
}

impl<R: Files<File = File> + Print + Eprint + Drop> Out for FileOut<R> {
    ghost parts = { λ _. None };

    ghost unfinished = { λ _. None };

    ghost is_open = { λ o. is_some o.file };

    ghost notes = { λ _. None };

    ghost faults = { λ o. o.faults };

    fn part(&mut self) -> Result<(), Failed> {
        self.file = None;
        match self.make() {
            Some(file) => {
                self.file = Some(file);
                Ok(())
            }
            None => Err(self.fail()),
        }
    }

    fn write(&mut self, bytes: &[u8]) -> Result<(), Failed> {
        let done = match &mut self.file {
            Some(file) => write_all(file, bytes).is_some(),
            None => false,
        };
        if done { Ok(()) } else { Err(self.fail()) }
    }

    // Each byte has been handed to the system by then, and a failure of that was answered. What the system
    // finds only as it closes the file is lost: std doesn't say it.
    fn finish(&mut self) -> Result<(), Failed> {
        self.file = None;
        self.finished = self.finished.saturating_add(1);
        Ok(())
    }

    fn note(&mut self, line: &[u8]) -> Result<(), Failed> {
        match self.print(line) {
            Some(()) => Ok(()),
            None => Err(self.fail()),
        }
    }
}

#[cfg(test)]
mod tests {
    use super::*;
    use std::fs;
    use std::test::Fail;

    #[test]
    fn an_unfinished_part_is_made_anew(rt: HostRuntime) -> Result<(), Fail> {
        let alloc = rt.alloc();
        let mut out = FileOut::new(rt.clone()?, alloc, String::from_str(alloc, ".")?, false);
        write_part(&mut out, b"one")?;
        assert_eq!(rt; out.part(), Ok(()));
        assert_eq!(rt; out.write(b"dropped"), Ok(()));
        write_part(&mut out, b"two")?;
        assert_eq!(rt; out.note(b"a note"), Ok(()));
        assert_eq!(rt; fs::read_to_string(&rt, "part-1.ply")?.as_str(), "one");
        assert_eq!(rt; fs::read_to_string(&rt, "part-2.ply")?.as_str(), "two");
        let mut lost = FileOut::new(rt.clone()?, alloc, String::from_str(alloc, "none")?, false);
        assert_eq!(rt; lost.part(), Err(Failed));
        assert_eq!(rt; (out.faults, lost.faults), (0, 1));
        Ok(())
    }

    fn write_part<O: Out>(out: &mut O, bytes: &[u8]) -> Result<(), Failed> {
        out.part()?;
        out.write(bytes)?;
        out.finish()
    }
}
