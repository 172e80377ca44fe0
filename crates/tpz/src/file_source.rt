// A file as a source.
ghost use Rattle.std.specs.Prelude.{◌≡◌, ◌≤◌, length, IfSome};
ghost use Rattle.std.specs.declared.option.Option.TheVariants.{None};

use crate::progress::Progress;
use std::fs::File;
use std::io::{ErrorKind, Read};
use std::rt::{Clock, Files};
use tpz_io::{Failed, Source};

/// Reads a file, which it opens at the first call, and again at the next where that failed. It tells
/// nothing of what is in it.
#[derive(Drop)]
pub struct FileSource<R: Files<File = File> + Clock + Eprint + Drop> {
    rt: R,
    path: String,
    file: Option<File>,
    faults: u64,
    progress: Progress<R>,
}

impl<R: Files<File = File> + Clock + Eprint + Drop> FileSource<R> {
    /// A source of the file at this path. No call was made.
    pub fn new(rt: R, path: String, progress: Progress<R>) -> Self
        ensures { ⟦<FileSource<R> as Source>⟧.faults result ≡ 0 }
    {
        FileSource {
            rt,
            path,
            file: None,
            faults: 0,
            progress,
        }
    }

    // Reads, and again where a signal came between.
    fn read_some(&mut self, into: &mut [u8]) -> Option<usize>
        ensures count { IfSome result (λ n. n ≤ length into.new) }
        ensures faults { self.new.faults ≡ self.old.faults }
    {
        if self.file.is_none() {
            let file = File::open(&self.rt, self.path.as_str()).ok()?;
            if let Ok(found) = file.metadata() {
                self.progress.expect(found.len());
            }
            self.file = Some(file);
        }
        let file = self.file.as_mut()?;
        for _ in 0..u64::MAX {
            match file.read(into) {
                Ok(n) => {
                    self.progress.add(n);
                    return Some(n);
                }
                Err(e) if e.kind() == ErrorKind::Interrupted => {}
                Err(_) => return None,
            }
        }
        None
    }
}

impl<R: Files<File = File> + Clock + Eprint + Drop> Source for FileSource<R> {
    ghost left = { λ _. None };

    ghost faults = { λ s. s.faults };

    fn read(&mut self, into: &mut [u8]) -> Result<usize, Failed> {
        let count = self.read_some(into);
        if count.is_none() {
            self.faults = self.faults.saturating_add(1);
        }
        count.ok_or(Failed)
    }
}

#[cfg(test)]
mod tests {
    use super::*;
    use std::fs;
    use std::test::Fail;

    #[test]
    fn a_file_is_read_in_pieces(rt: HostRuntime) -> Result<(), Fail> {
        let alloc = rt.alloc();
        fs::write(&rt, "source.txt", "abcde")?;
        let progress = Progress::new(rt.clone()?, "source.txt", false);
        let mut source = FileSource::new(
            rt.clone()?,
            String::from_str(alloc, "source.txt")?,
            progress,
        );
        let mut into = [0; 3];
        assert_eq!(rt; source.read(&mut into), Ok(3));
        assert_eq!(rt; into, *b"abc");
        assert_eq!(rt; source.read(&mut into), Ok(2));
        assert_eq!(rt; source.read(&mut into), Ok(0));
        let progress = Progress::new(rt.clone()?, "none.txt", false);
        let mut missing = FileSource::new(
            rt.clone()?,
            String::from_str(alloc, "none.txt")?,
            progress,
        );
        assert_eq!(rt; missing.read(&mut into), Err(Failed));
        assert_eq!(rt; missing.faults, 1);
        Ok(())
    }
}
