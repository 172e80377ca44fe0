// How far a run is, on a terminal.
use std::rt::Clock;
use std::time::{Duration, Instant};

/// Shows in one line how many bytes of a file were read or written, at most ten times a second. Where it isn't
/// shown, nothing is printed and no clock is asked.
#[derive(Drop)]
pub struct Progress<R: Clock + Eprint + Drop> {
    rt: R,
    name: &'static str,
    is_shown: bool,
    bytes: u64,
    all: Option<u64>,
    last: Option<Instant>,
}

impl<R: Clock + Eprint + Drop> Progress<R> {
    /// The progress of a file of this name, of which nothing was read or written.
    pub fn new(rt: R, name: &'static str, is_shown: bool) -> Self {
        Progress {
            rt,
            name,
            is_shown,
            bytes: 0,
            all: None,
            last: None,
        }
    }

    /// The file has so many bytes in all.
    pub fn expect(&mut self, all: u64) {
        self.all = Some(all);
    }

    /// So many bytes more were read or written.
    pub fn add(&mut self, count: usize) {
        if self.is_shown {
            self.bytes = self.bytes.saturating_add(count as u64);
            if self.is_due() {
                self.show();
            }
        }
    }

    // Whether a tenth of a second has gone by since the last line, or since the first bytes.
    fn is_due(&mut self) -> bool {
        let Ok(now) = Instant::now(&self.rt) else {
            return false;
        };
        let is_due = match self.last {
            Some(last) => now.duration_since(last) >= Duration::from_millis(100),
            None => false,
        };
        if is_due || self.last.is_none() {
            self.last = Some(now);
        }
        is_due
    }

    fn show(&self) {
        let name = self.name;
        let bytes = self.bytes / 1_000_000;
        let _ = match self.all {
            Some(all) => {
                let all = all / 1_000_000;
                eprint!(self.rt; "\r\x1b[K{name}: {bytes} of {all} MB")
            }
            None => eprint!(self.rt; "\r\x1b[K{name}: {bytes} MB"),
        };
    }
}

/// Clears the line that progress is shown in.
pub fn clear_line<R: Eprint>(rt: &R) {
    let _ = eprint!(rt; "\r\x1b[K");
}
