// The devices of a case, and what a run over them left.
use puzzle_cli::run;
use std::alloc::{AllocError, Global};
use tpz_io::{Blob, Failed, MemBlob, MemOut, MemSource, Out, Source};

const ROOM: u32 = 65_536;

/// What a device begins a run with: its bytes, its room, and the numbers of its calls that fail.
#[derive(Drop)]
pub struct Setting {
    pub bytes: Vec<u8>,
    pub room: u32,
    pub fails: Vec<u64>,
}

impl Setting {
    pub fn new(alloc: Global) -> Setting {
        Setting {
            bytes: Vec::new(alloc),
            room: ROOM,
            fails: Vec::new(alloc),
        }
    }

    fn source(&self) -> Result<MemSource, AllocError> {
        Ok(MemSource::new(self.bytes.clone()?, self.fails.clone()?))
    }

    fn blob(&self, alloc: Global) -> Result<MemBlob, AllocError> {
        MemBlob::new(alloc, &self.bytes, self.room as u64, self.fails.clone()?)
    }

    fn out(&self, alloc: Global) -> Result<MemOut, AllocError> {
        MemOut::new(alloc, self.room as u64, self.fails.clone()?)
    }
}

/// What the devices begin a run with.
#[derive(Drop)]
pub struct Settings {
    pub input: Setting,
    pub script: Setting,
    pub work: Setting,
    pub store: Setting,
    pub out: Setting,
}

impl Settings {
    pub fn new(alloc: Global) -> Settings {
        Settings {
            input: Setting::new(alloc),
            script: Setting::new(alloc),
            work: Setting::new(alloc),
            store: Setting::new(alloc),
            out: Setting::new(alloc),
        }
    }
}

/// What a run left: the line of its status, and the devices.
#[derive(Drop)]
pub struct Ran {
    pub line: String,
    input: MemSource,
    script: MemSource,
    work: MemBlob,
    pub store: MemBlob,
    pub out: MemOut,
}

impl Ran {
    /// Runs the command of these words.
    pub fn new(alloc: Global, words: &[String], settings: &Settings) -> Result<Ran, AllocError> {
        let mut input = settings.input.source()?;
        let mut script = settings.script.source()?;
        let mut work = settings.work.blob(alloc)?;
        let mut store = settings.store.blob(alloc)?;
        let mut out = settings.out.out(alloc)?;
        let status = run(
            alloc,
            words,
            &mut input,
            &mut script,
            &mut work,
            &mut store,
            &mut out,
        );
        Ok(Ran {
            line: status.line(alloc)?,
            input,
            script,
            work,
            store,
            out,
        })
    }

    /// The bytes of a finished part.
    pub fn part(&self, place: u64) -> Option<&[u8]> {
        if place < self.out.part_count() as u64 {
            Some(self.out.part_at(place as u32))
        } else {
            None
        }
    }

    /// Whether the next call of the device of this name fails.
    pub fn is_next_failing(&mut self, device: &str) -> bool {
        match device {
            "input" => self.input.read(&mut [0]) == Err(Failed),
            "script" => self.script.read(&mut [0]) == Err(Failed),
            "work" => self.work.len() == Err(Failed),
            "store" => self.store.len() == Err(Failed),
            "out" => self.out.part() == Err(Failed),
            _ => false,
        }
    }
}
