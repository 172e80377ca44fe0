// A file as a blob.
ghost use Rattle.std.specs.Prelude.{◌≡◌};
ghost use Rattle.std.specs.declared.option.Option.TheVariants.{None};
ghost use Rattle.tpz_io.specs.Causes.{HasCause, one_more};

use crate::progress::Progress;
use std::fs::{File, OpenOptions};
use std::io::ErrorKind;
use std::os::unix::fs::FileExt;
use std::rt::{Clock, Files};
use tpz_io::{Blob, Failed};

/// A file that is opened for reading until the first write, and for both from then on. One that isn't
/// there has no bytes, and is made by the first write. What was written is shown as progress. It tells nothing of
/// what is in it.
#[derive(Drop)]
pub struct FileBlob<R: Files<File = File> + Clock + Eprint + Drop> {
    rt: R,
    path: String,
    file: Option<File>,
    is_writable: bool,
    reads: u64,
    faults: u64,
    progress: Progress<R>,
}

// Fills the buffer from a place of a file. None where it ends before, or a read fails.
fn fill(file: &File, at: u64, into: &mut [u8]) -> Option<()> {
    let mut done = 0;
    for _ in 0..u64::MAX {
        if done >= into.len() {
            return Some(());
        }
        match file.read_at(&mut into[done..], at.checked_add(done as u64)?) {
            Ok(0) => return None,
            Ok(n) => done += n,
            Err(e) if e.kind() == ErrorKind::Interrupted => {}
            Err(_) => return None,
        }
    }
    None
}

// Writes all bytes to a place of a file.
fn write_all(file: &File, at: u64, bytes: &[u8]) -> Option<()> {
    let mut done = 0;
    for _ in 0..u64::MAX {
        if done >= bytes.len() {
            return Some(());
        }
        match file.write_at(&bytes[done..], at.checked_add(done as u64)?) {
            Ok(0) => return None,
            Ok(n) => done += n,
            Err(e) if e.kind() == ErrorKind::Interrupted => {}
            Err(_) => return None,
        }
    }
    None
}

impl<R: Files<File = File> + Clock + Eprint + Drop> FileBlob<R> {
    /// A blob of the file at this path. No call was made.
    pub fn new(rt: R, path: String, progress: Progress<R>) -> Self
        ensures faults { ⟦<FileBlob<R> as Blob>⟧.faults result ≡ 0 }
        ensures reads { ⟦<FileBlob<R> as Blob>⟧.reads result ≡ 0 }
    {
        FileBlob {
            rt,
            path,
            file: None,
            is_writable: false,
            reads: 0,
            faults: 0,
            progress,
        }
    }

    // Opens the file for reading, where it is there.
    fn open(&mut self) -> Option<()>
        ensures counts { (self.new.faults ≡ self.old.faults) × (self.new.reads ≡ self.old.reads) }
    {
        if self.file.is_none() {
            match File::open(&self.rt, self.path.as_str()) {
                Ok(file) => self.file = Some(file),
                Err(e) if e.kind() == ErrorKind::NotFound => {}
                Err(_) => return None,
            }
        }
        Some(())
    }

    // Opens the file for reading and writing, and makes it where it isn't there.
    fn open_to_write(&mut self) -> Option<()>
        ensures counts { (self.new.faults ≡ self.old.faults) × (self.new.reads ≡ self.old.reads) }
    {
        if !self.is_writable {
            let mut options = OpenOptions::new();
            options.read(true).write(true).create(true);
            self.file = Some(options.open(&self.rt, self.path.as_str()).ok()?);
            self.is_writable = true;
        }
        Some(())
    }

    fn measure(&mut self) -> Option<u64>
        ensures counts { (self.new.faults ≡ self.old.faults) × (self.new.reads ≡ self.old.reads) }
    {
        self.open()?;
        match &self.file {
            Some(file) => Some(file.metadata().ok()?.len()),
            None => Some(0),
        }
    }

    fn fill(&mut self, at: u64, into: &mut [u8]) -> Option<()>
        ensures counts { (self.new.faults ≡ self.old.faults) × (self.new.reads ≡ self.old.reads) }
    {
        self.open()?;
        match &self.file {
            Some(file) => fill(file, at, into),
            None if into.is_empty() => Some(()),
            None => None,
        }
    }

    fn put(&mut self, at: u64, bytes: &[u8]) -> Option<()>
        ensures counts { (self.new.faults ≡ self.old.faults) × (self.new.reads ≡ self.old.reads) }
    {
        self.open_to_write()?;
        let file = self.file.as_ref()?;
        write_all(file, at, bytes)?;
        self.progress.add(bytes.len());
        Some(())
    }

    // Where nothing was written, there is nothing to bring to the disk.
    fn bring_to_disk(&mut self) -> Option<()>
        ensures counts { (self.new.faults ≡ self.old.faults) × (self.new.reads ≡ self.old.reads) }
    {
        match &self.file {
            Some(file) if self.is_writable => file.sync_all().ok(),
            _ => Some(()),
        }
    }

    // The answer of a call. Where there is none, the count of failures rises.
    fn answer<T: Drop>(&mut self, found: Option<T>) -> Result<T, Failed>
        ensures reads { self.new.reads ≡ self.old.reads }
        ensures cause { HasCause self.old.faults self.new.faults result }
    {
        if found.is_none() {
            self.faults = self.faults.saturating_add(1);
        }
        found.ok_or(Failed)
    }

    fn count_read(&mut self)
        ensures reads { self.new.reads ≡ one_more self.old.reads }
        ensures faults { self.new.faults ≡ self.old.faults }
    {
        self.reads = self.reads.saturating_add(1);
    }
}

impl<R: Files<File = File> + Clock + Eprint + Drop> Blob for FileBlob<R> {
    ghost held = { λ _. None };

    ghost faults = { λ b. b.faults };

    ghost reads = { λ b. b.reads };

    ghost outcomes = { λ _. None };

    fn len(&mut self) -> Result<u64, Failed> {
        self.count_read();
        let found = self.measure();
        self.answer(found)
    }

    fn read_at(&mut self, at: u64, into: &mut [u8]) -> Result<(), Failed> {
        self.count_read();
        let found = self.fill(at, into);
        self.answer(found)
    }

    fn write_at(&mut self, at: u64, bytes: &[u8]) -> Result<(), Failed> {
        let found = self.put(at, bytes);
        self.answer(found)
    }

    fn sync(&mut self) -> Result<(), Failed> {
        let found = self.bring_to_disk();
        self.answer(found)
    }
}

#[cfg(test)]
mod tests {
    use super::*;
    use std::test::Fail;

    #[test]
    fn a_file_is_made_by_the_first_write(rt: HostRuntime) -> Result<(), Fail> {
        let progress = Progress::new(rt.clone()?, "blob.tmp", false);
        let mut blob = FileBlob::new(
            rt.clone()?,
            String::from_str(rt.alloc(), "blob.tmp")?,
            progress,
        );
        let mut into = [9; 3];
        assert_eq!(rt; blob.len(), Ok(0));
        assert_eq!(rt; blob.read_at(0, &mut into), Err(Failed));
        assert_eq!(rt; blob.sync(), Ok(()));
        assert_eq!(rt; blob.write_at(2, b"cd"), Ok(()));
        assert_eq!(rt; blob.write_at(9, b""), Ok(()));
        assert_eq!(rt; blob.sync(), Ok(()));
        assert_eq!(rt; blob.len(), Ok(4));
        assert_eq!(rt; blob.read_at(1, &mut into), Ok(()));
        assert_eq!(rt; into, [0, b'c', b'd']);
        assert_eq!(rt; blob.read_at(2, &mut into), Err(Failed));
        assert_eq!(rt; (blob.reads, blob.faults), (5, 2));
        Ok(())
    }
}
