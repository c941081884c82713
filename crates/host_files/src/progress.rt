//! The progress line of a campaign, on the error output if that is a terminal.
//!
//! A worker draws it when it is due. It is erased before anything else is written.
use crate::progress_text::{ERASE, Reached};
use crossbeam_utils::CachePadded;
use fs_outside::Gate;
use std::alloc::AllocError;
use std::env;
use std::io::{self, IsTerminal, Write};
use std::sync::atomic::{AtomicBool, AtomicU32, AtomicU64, Ordering};
use std::time::Instant;

// The most workers of a command line.
const MOST_WORKERS: usize = 64;

// The number of its claims after which a worker looks at the clock.
const CLAIMS_A_LOOK: u64 = 16;

// A campaign that ends sooner shows no line.
const FIRST_MILLIS: u64 = 500;

const NEXT_MILLIS: u64 = 200;

// No campaign file has reported its number of rows.
const NO_FILE: u64 = u64::MAX;

// A worker is drawing the line.
const DRAWING: u64 = u64::MAX;

// A terminal of this kind cannot erase.
const PLAIN_TERMINAL: &str = "dumb";

/// A gate that shows the progress of a campaign.
#[derive(Drop)]
pub struct Progress<'a> {
    rt: &'a HostRuntime,
    // `None` if no line is drawn.
    start: Option<Instant>,
    // The claims of each worker; empty if no line is drawn.
    claims: Vec<CachePadded<AtomicU64>>,
    jobs: AtomicU32,
    kept: AtomicU32,
    due: AtomicU32,
    // The number of rows added to the campaign file, or that there is no such file.
    added: AtomicU64,
    // Milliseconds since the start: when the jobs began, and when the line is due next.
    began: AtomicU64,
    next: AtomicU64,
    drawn: AtomicBool,
}

impl<'a> Progress<'a> {
    /// Returns a progress line on the error output. It shows nothing if that is no terminal, or without memory
    /// or a clock.
    pub fn new(rt: &'a HostRuntime) -> Progress<'a> {
        let start = if draws(rt) {
            Instant::now(rt).ok()
        } else {
            None
        };
        let claims = match start {
            Some(_) => counters(rt).ok(),
            None => None,
        };
        Progress {
            rt,
            start,
            claims: claims.unwrap_or(Vec::new(rt.alloc())),
            jobs: AtomicU32::new(0),
            kept: AtomicU32::new(0),
            due: AtomicU32::new(0),
            added: AtomicU64::new(NO_FILE),
            began: AtomicU64::new(0),
            next: AtomicU64::new(DRAWING),
            drawn: AtomicBool::new(false),
        }
    }

    /// Records that the campaign file has `rows` more rows than when it was opened, which a crash keeps.
    pub(crate) fn tell_added(&self, rows: u64) {
        self.added.store(rows, Ordering::SeqCst);
    }

    /// Erases the line if it is shown.
    pub fn clear(&self) {
        if self.drawn.swap(false, Ordering::SeqCst) {
            let _ = self.rt.stderr().write_all(ERASE.as_bytes());
        }
    }

    // Returns the milliseconds since the start.
    fn now(&self) -> Option<u64> {
        let passed = self.start?.elapsed(self.rt).ok()?;
        u64::try_from(passed.as_millis()).ok()
    }

    // Draws the line if it is due and nobody else draws it.
    fn look(&self) {
        let Some(now) = self.now() else { return };
        let next = self.next.load(Ordering::SeqCst);
        if now < next {
            return;
        }
        let won = self
            .next
            .compare_exchange(next, DRAWING, Ordering::SeqCst, Ordering::SeqCst);
        if won.is_ok() {
            self.draw(now);
            self.next
                .store(now.saturating_add(NEXT_MILLIS), Ordering::SeqCst);
        }
    }

    // Returns the number of jobs in the campaign file, if there is one.
    fn kept_now(&self) -> Option<u64> {
        match self.added.load(Ordering::SeqCst) {
            NO_FILE => None,
            added => Some(added.saturating_add(self.kept.load(Ordering::SeqCst).into())),
        }
    }

    fn draw(&self, now: u64) {
        let mut ran: u64 = 0;
        for claims in &self.claims {
            ran = ran.saturating_add(claims.load(Ordering::SeqCst));
        }
        let line = Reached {
            jobs: self.jobs.load(Ordering::SeqCst).into(),
            kept: self.kept_now(),
            due: self.due.load(Ordering::SeqCst).into(),
            ran,
            millis: now.saturating_sub(self.began.load(Ordering::SeqCst)),
        }
        .line();
        self.drawn.store(true, Ordering::SeqCst);
        let _ = self.rt.stderr().write_all(line.as_str().as_bytes());
    }
}

impl Gate for Progress<'_> {
    fn begin(&self, jobs: u32, kept: u32, due: u32) {
        self.jobs.store(jobs, Ordering::SeqCst);
        self.kept.store(kept, Ordering::SeqCst);
        self.due.store(due, Ordering::SeqCst);
        for claims in &self.claims {
            claims.store(0, Ordering::SeqCst);
        }
        if let Some(now) = self.now() {
            self.began.store(now, Ordering::SeqCst);
            self.next
                .store(now.saturating_add(FIRST_MILLIS), Ordering::SeqCst);
        }
    }

    fn at(&self, worker: u32, _job: u32) {
        let Some(claims) = self.claims.get(worker as usize) else {
            return;
        };
        // Nobody else writes this worker's count.
        let count = claims.load(Ordering::SeqCst).wrapping_add(1);
        claims.store(count, Ordering::SeqCst);
        if count % CLAIMS_A_LOOK == 0 {
            self.look();
        }
    }
}

// Returns whether the error output is a terminal on which a line can be erased.
fn draws(rt: &HostRuntime) -> bool {
    rt.stderr().is_terminal()
        && match env::var(rt, "TERM") {
            Ok(kind) => kind.as_str() != PLAIN_TERMINAL,
            Err(_) => false,
        }
}

fn counters(rt: &HostRuntime) -> Result<Vec<CachePadded<AtomicU64>>, AllocError> {
    let mut claims = Vec::new(rt.alloc());
    for _ in 0..MOST_WORKERS {
        claims.push(CachePadded::new(AtomicU64::new(0)))?;
    }
    Ok(claims)
}

/// A stream next to the progress line, which is erased before anything is written to the stream.
#[derive(Drop)]
pub struct Beside<'a, W: Write + Drop> {
    stream: W,
    progress: &'a Progress<'a>,
}

impl<'a, W: Write + Drop> Beside<'a, W> {
    pub fn new(stream: W, progress: &'a Progress<'a>) -> Beside<'a, W> {
        Beside { stream, progress }
    }
}

impl<W: Write + Drop> Write for Beside<'_, W> {
    fn write(&mut self, buf: &[u8]) -> io::Result<usize> {
        self.progress.clear();
        self.stream.write(buf)
    }

    fn flush(&mut self) -> io::Result<()> {
        self.stream.flush()
    }
}
