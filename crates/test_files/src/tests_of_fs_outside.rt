//! Devices that fail in the middle, and devices that do not tell their bytes.
ghost use Rattle.std.specs.Prelude.{◌≡◌, ◌++◌};
ghost use Rattle.fs_outside.specs.Disks.{mem_past};
ghost use Rattle.fs_outside.specs.Faults.{HasCause};
ghost use Rattle.fs_outside.specs.Past.{Made};
ghost use Rattle.fs_outside.specs.Writing.{Writes};

use super::deaf::{DeafDisk, DeafSink, DeafSource};
use fs_outside::{
    Disk, DiskCall, DiskFail, Failed, FreeGate, Gate, HoldGate, MemDisk, MemSink, MemSource, Part,
    ReadRefusal, Sink, Source, SureDisk, SureSink, SureSource, read_all, write_parts, write_pieces,
    write_synced, write_whole,
};
use std::alloc::Global;
use std::process::Abort;
use std::thread::join;
use test_asserts::same;

// Writes texts one after another, as a caller does.
fn write_two<O: Sink>(out: &mut O, a: &[u8], b: &[u8]) -> Result<(), Failed>
    ensures bytes { O.tells
        → Writes (O.taken out.old) (O.taken out.new) (a.now ++ b.now) result }
    ensures cause { HasCause (O.faults out.old) (O.faults out.new) result }
{
    write_whole(out, a)?;
    write_whole(out, b)?;
    Ok(())
}

fn write_three<O: Sink>(out: &mut O, a: &[u8], b: &[u8], c: &[u8]) -> Result<(), Failed>
    ensures bytes { O.tells
        → Writes (O.taken out.old) (O.taken out.new) (a.now ++ b.now ++ c.now) result }
    ensures cause { HasCause (O.faults out.old) (O.faults out.new) result }
{
    write_two(out, a, b)?;
    write_whole(out, c)?;
    Ok(())
}

// The most bytes to read of 20,000, the call that fails, what is read, and the number of bytes left in the source.
static READS: [(usize, u64, Result<usize, ReadRefusal>, usize); 6] = [
    (20_000, 0, Ok(20_000), 0),
    (30_000, 0, Ok(20_000), 0),
    (19_999, 0, Err(ReadRefusal::TooLong), 0),
    (9_999, 0, Err(ReadRefusal::TooLong), 10_000),
    (20_000, 2, Err(ReadRefusal::ReadFault), 11_808),
    (20_000, 4, Err(ReadRefusal::ReadFault), 0),
];

// Returns the number of bytes read and the number left in a source whose read with this number fails.
fn read_up_to<R: Abort + AllocGlobal>(
    rt: &R,
    most: usize,
    fail: u64,
) -> (Result<usize, ReadRefusal>, usize) {
    let bytes = vec![in rt.alloc(); 7; 20_000].expect(rt, "memory");
    let fails = vec![in rt.alloc(); fail].expect(rt, "memory");
    let mut source = MemSource::new(bytes, fails);
    let got = read_all(rt.alloc(), &mut source, most).map(|bytes| bytes.len());
    (got, source.bytes().len())
}

#[test]
fn reads_all_or_refuses(rt: HostRuntime) {
    for (most, fail, answer, left) in READS.as_slice() {
        let found = read_up_to(&rt, *most, *fail);
        same((*most, *fail), found, (*answer, *left)).expect(&rt, "not the same");
    }
    reads_all(&rt);
}

fn reads_all<R: Abort + AllocGlobal>(rt: &R) {
    let bytes = b"fault injection".to_vec(rt.alloc());
    let mut source = SureSource::new(bytes.expect(rt, "memory"));
    let bytes = read_all(rt.alloc(), &mut source, 15).expect(rt, "bytes");
    let left = (source.bytes().len(), source.listed(), source.short());
    let wanted = (b"fault injection".as_slice(), (0, 0, 0));
    same("read, and all calls", (bytes.as_slice(), left), wanted).expect(rt, "not the same");
}

// Whole texts, pieces and parts; and texts of which the second one fails.
#[test]
fn writes_whole_texts(rt: HostRuntime) {
    let mut sink = SureSink::new(rt.alloc());
    write_three(&mut sink, b"one ", b"", b"three").expect(&rt, "written");
    write_pieces(
        &mut sink,
        &[b" four".as_slice(), b"".as_slice(), b"!".as_slice()],
    )
    .expect(&rt, "written");
    write_parts(
        &mut sink,
        &[Part::Text(" "), Part::Number(u64::MAX), Part::Number(0)],
    )
    .expect(&rt, "written");
    let told = b"one three four! 184467440737095516150".as_slice();
    let found = (sink.bytes(), sink.listed(), sink.short());
    same("its bytes, and all calls", found, (told, 0, 0)).expect(&rt, "not the same");
    second_text_fails(&rt);
}

fn second_text_fails<R: Abort + AllocGlobal>(rt: &R) {
    let fails = vec![in rt.alloc(); 2].expect(rt, "memory");
    let mut sink = MemSink::new(rt.alloc(), fails);
    let failed = write_three(&mut sink, b"one", b"two", b"three");
    same(
        "the second text",
        (failed, sink.bytes()),
        (Err(Failed), b"one".as_slice()),
    )
    .expect(rt, "not the same");
    let next = write_whole(&mut sink, b"four");
    let found = (next, sink.bytes(), (sink.listed(), sink.short()));
    let wanted = (Ok(()), b"onefour".as_slice(), (1, 0));
    same("the next text, its bytes, and one call", found, wanted).expect(rt, "not the same");
}

// Returns a disk with these bytes, some calls of which fail.
fn disk_of<R: Abort + AllocGlobal>(rt: &R, bytes: &[u8], fails: &[DiskFail]) -> MemDisk
    ensures { mem_past result ≡ Made bytes.now }
{
    let bytes = bytes.to_vec(rt.alloc()).expect(rt, "memory");
    let fails = fails.to_vec(rt.alloc()).expect(rt, "memory");
    MemDisk::new(rt.alloc(), bytes, fails).expect(rt, "memory")
}

fn crash<R: Abort + AllocGlobal>(rt: &R, disk: &mut MemDisk, fill: Option<u8>) {
    disk.crash(rt.alloc(), fill).expect(rt, "memory");
}

// The second write fails after it has taken a byte.
#[test]
fn a_disk_crashes(rt: HostRuntime) {
    let fail = DiskFail {
        call: DiskCall::Write,
        number: 2,
        taken: 1,
    };
    let mut disk = disk_of(&rt, b"abcd", &[fail]);
    same("synced", write_synced(&mut disk, 1, b"B"), Ok(())).expect(&rt, "not the same");
    let failed = disk.write_at(2, b"XYZ");
    same(
        "a write that fails",
        (failed, disk.bytes()),
        (Err(Failed), b"aBXd".as_slice()),
    )
    .expect(&rt, "not the same");
    crashes_again(&rt, &mut disk);
}

fn crashes_again<R: Abort + AllocGlobal>(rt: &R, disk: &mut MemDisk) {
    crash(rt, disk, Some(b'?'));
    same("after a crash", disk.bytes(), b"aB??".as_slice()).expect(rt, "not the same");
    // The next write depends on this length.
    assert!(rt; disk.bytes().len() == 4);
    let next = disk.write_at(2, b"XYZ");
    same(
        "the next write",
        (next, disk.bytes()),
        (Ok(()), b"aBXYZ".as_slice()),
    )
    .expect(rt, "not the same");
    crash(rt, disk, None);
    let found = (disk.bytes(), disk.listed(), disk.short());
    let wanted = (b"aB??".as_slice(), 1, 0);
    same("after another crash, and one call", found, wanted).expect(rt, "not the same");
}

// The answers of a disk: its length, three bytes from an offset on, a sync, and its length again.
type Answers = (
    Result<u64, Failed>,
    (Result<usize, Failed>, [u8; 3]),
    Result<(), Failed>,
    Result<u64, Failed>,
);

fn answers<D: Disk>(disk: &mut D, at: u64) -> Answers {
    let len = disk.len();
    let mut buf = [0; 3];
    let read = disk.read_at(at, &mut buf);
    (len, (read, buf), disk.sync(), disk.len())
}

// The third call blows the fuse.
#[test]
fn other_disks(rt: HostRuntime) {
    let mut disk = disk_of(&rt, b"abcd", &[]);
    disk.fuse(3);
    let told = answers(&mut disk, 2);
    let wanted = (Ok(4), (Ok(2), *b"cd\0"), Err(Failed), Err(Failed));
    same(
        "answers, and calls left",
        (told, disk.listed()),
        (wanted, 2),
    )
    .expect(&rt, "not the same");
    a_sure_disk(&rt);
}

fn a_sure_disk<R: Abort + AllocGlobal>(rt: &R) {
    let mut disk = SureDisk::new(rt.alloc());
    let synced = write_synced(&mut disk, 0, b"FAILCMP");
    let len = disk.len();
    let mut buf = [0; 4];
    let read = disk.read_at(4, &mut buf);
    let found = (synced, len, (read, buf));
    let wanted = (Ok(()), Ok(7), (Ok(3), *b"CMP\0"));
    same("synced, its length, and a read", found, wanted).expect(rt, "not the same");
    let found = (disk.bytes(), disk.listed(), disk.short());
    let wanted = (b"FAILCMP".as_slice(), 0, 0);
    same("its bytes, and all calls", found, wanted).expect(rt, "not the same");
}

// Returns the number of bytes read from a source that does not tell its bytes, and its number of faults.
fn read_deaf(alloc: Global, most: usize) -> (Result<usize, ReadRefusal>, u64) {
    let mut source = DeafSource {
        calls: 0,
        faults: 0,
    };
    let got = read_all(alloc, &mut source, most).map(|bytes| bytes.len());
    (got, source.faults)
}

#[test]
fn devices_that_tell_nothing(rt: HostRuntime) {
    let long = read_deaf(rt.alloc(), 100);
    same("a long source", long, (Err(ReadRefusal::TooLong), 0)).expect(&rt, "not the same");
    let failed = read_deaf(rt.alloc(), 100_000);
    same(
        "a source that fails",
        failed,
        (Err(ReadRefusal::ReadFault), 1),
    )
    .expect(&rt, "not the same");
    a_deaf_sink_and_disk(&rt);
}

fn a_deaf_sink_and_disk(rt: &impl Abort) {
    let mut sink = DeafSink { calls: 0 };
    let written = write_pieces(&mut sink, &[b"four".as_slice(), b"".as_slice()]);
    same("a sink", (written, sink.calls), (Ok(()), 4)).expect(rt, "not the same");

    let mut disk = DeafDisk { faults: 0 };
    let synced = write_synced(&mut disk, 3, b"x");
    let read = disk.read_at(3, &mut [0]);
    let found = ((synced, read), disk.len(), disk.faults);
    let wanted = ((Ok(()), Err(Failed)), Ok(7), 1);
    same("a disk", found, wanted).expect(rt, "not the same");
}

#[test]
fn the_first_claim_waits_for_another(rt: HostRuntime) {
    let gate = HoldGate::new();
    join(&rt, || gate.at(0, 7), || gate.at(1, 3));
    assert!(rt; gate.saw());
    gate.at(0, 8);
    FreeGate.at(0, 1);
}
