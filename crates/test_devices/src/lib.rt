//! A call of the program in a test: from words, an image and a disk to its answer and outputs.
//!
//! All calls give the program devices of the same types: it is generic over its devices, and a crate of tests
//! contains all its code once more for each other list of types.
#![tactic(auto)]

use fail_cli::{Status, fail_run};
use fs_model::NoMemory;
use fs_outside::{Gate, HoldGate, MemDisk, MemSink, MemSource};
use std::alloc::Global;
use std::sync::Wait;
use std::thread::Threads;

/// The answer of a call, and what its outputs took.
#[derive(Drop)]
pub struct Ended {
    pub status: Status,
    pub out: MemSink,
    pub err: MemSink,
}

impl Ended {
    /// Returns the status and the bytes of both outputs.
    pub fn told(&self) -> (Status, &[u8], &[u8]) {
        (self.status, self.out.bytes(), self.err.bytes())
    }
}

/// The calls of the image and of the output that are to fail, counted from 1.
#[derive(Clone, Copy)]
pub struct Fails {
    pub reads: Option<u64>,
    pub writes: Option<u64>,
}

pub const NO_FAILS: Fails = Fails {
    reads: None,
    writes: None,
};

/// Returns the words of `run` with these settings.
pub const fn line<'a>(rom: &'a str, ram: &'a str, limit: &'a str) -> [&'a str; 10] {
    [
        "fail_star",
        "run",
        "image.elf",
        "campaign.keep",
        "--rom",
        rom,
        "--ram",
        ram,
        "--limit",
        limit,
    ]
}

/// Returns the words of a command that names only an image.
pub const fn image_line<'a>(command: &'a str, limit: &'a str) -> [&'a str; 9] {
    [
        "fail_star",
        command,
        "image.elf",
        "--rom",
        "0x20000000:64",
        "--ram",
        "0x80000000:16",
        "--limit",
        limit,
    ]
}

fn list(alloc: Global, number: Option<u64>) -> Result<Vec<u64>, NoMemory> {
    let mut numbers = Vec::new(alloc);
    if let Some(number) = number {
        numbers.push(number)?;
    }
    Ok(numbers)
}

fn texts_of(alloc: Global, words: &[&str]) -> Result<Vec<String>, NoMemory> {
    let mut texts = Vec::new(alloc);
    for word in words {
        texts.push(String::from_str(alloc, word)?)?;
    }
    Ok(texts)
}

/// The gate of a call: it does nothing, or passes each claim on to a gate that holds the first one.
#[derive(Clone, Copy)]
pub enum CallGate<'a> {
    Free,
    Hold(&'a HoldGate),
}

impl Gate for CallGate<'_> {
    fn at(&self, worker: u32, job: u32) {
        match self {
            CallGate::Free => {}
            CallGate::Hold(gate) => gate.at(worker, job),
        }
    }
}

/// Calls the program with these words and this image, over an empty campaign file.
pub fn call<R: Threads + Wait + Sync>(
    threads: &R,
    alloc: Global,
    words: &[&str],
    image: Vec<u8>,
    fails: &Fails,
) -> Result<Ended, NoMemory> {
    let mut disk = MemDisk::new(alloc, Vec::new(alloc), Vec::new(alloc))?;
    call_over(threads, alloc, words, image, fails, &mut disk)
}

/// Calls the program with these words and this image, over a campaign file.
pub fn call_over<R: Threads + Wait + Sync>(
    threads: &R,
    alloc: Global,
    words: &[&str],
    image: Vec<u8>,
    fails: &Fails,
    disk: &mut MemDisk,
) -> Result<Ended, NoMemory> {
    call_through(threads, alloc, words, image, fails, disk, CallGate::Free)
}

/// Calls the program as `call_over` does, through a gate.
pub fn call_through<R: Threads + Wait + Sync>(
    threads: &R,
    alloc: Global,
    words: &[&str],
    image: Vec<u8>,
    fails: &Fails,
    disk: &mut MemDisk,
    gate: CallGate<'_>,
) -> Result<Ended, NoMemory> {
    let mut second = MemSource::new(Vec::new(alloc), Vec::new(alloc));
    let all = (image, &mut second);
    call_with(threads, alloc, words, all, fails, disk, gate)
}

/// Calls the program with these words over two campaign files: a disk, and a source like the image.
pub fn call_with<R: Threads + Wait + Sync>(
    threads: &R,
    alloc: Global,
    words: &[&str],
    sources: (Vec<u8>, &mut MemSource),
    fails: &Fails,
    disk: &mut MemDisk,
    gate: CallGate<'_>,
) -> Result<Ended, NoMemory> {
    let texts = texts_of(alloc, words)?;
    let (image, second) = sources;
    let mut source = MemSource::new(image, list(alloc, fails.reads)?);
    let mut out = MemSink::new(alloc, list(alloc, fails.writes)?);
    let mut err = MemSink::new(alloc, Vec::new(alloc));
    let status = fail_run(
        threads,
        alloc,
        &texts,
        &mut source,
        second,
        disk,
        &mut out,
        &mut err,
        &gate,
    );
    Ok(Ended { status, out, err })
}
