//! Campaign files that are started, continued and read.

use super::files::{
    HEADER, Kept, append, bytes_of, call_failing, call_on, disk, file, header, image_of, put,
    sends_rows, set,
};
use super::{NO_WRITES, call_tells, call_writes, only_reads, tells};
use fail_cli::Status;
use std::test::Fail;
use test_asserts::same;
use test_devices::Fails;
use test_programs::reports::{HALTS, SENDS};

const STOPPED: (Status, &str) = (
    Status::Stopped { kept: 40, jobs: 96 },
    "stopped: 40 of 96 jobs kept\n",
);

const BEGUN: (Status, &str) = (
    Status::Stopped { kept: 0, jobs: 96 },
    "stopped: 0 of 96 jobs kept\n",
);

// The lengths of the files that the other tests expect.
#[test]
fn lengths_of_files(rt: HostRuntime) {
    for (kept, len) in [
        (Kept::Halts, 442),
        (Kept::Sends, 1082),
        (Kept::Stopped, 522),
        (Kept::Resumed, 1085),
    ] {
        same(len, bytes_of(&rt, kept).len(), len).expect(&rt, "not the same");
    }
}

// The text is the same for each page and each number of workers, and the file has a batch for each page.
#[test]
fn pages_of_any_size(rt: HostRuntime) {
    let rows = sends_rows(&rt);
    for (page, size) in [("1", 1), ("40", 40), ("0x28", 40), ("65535", 65_535)] {
        let expected = file(&rt, SENDS.words, &rows, size);
        for workers in ["1", "2", "64"] {
            let more = ["--page", page, "--workers", workers];
            let mut disk = disk(&rt, &[], &[]);
            call_writes(&rt, "run", &SENDS, &more, &mut disk, SENDS.report);
            same(page, disk.bytes(), expected.as_slice()).expect(&rt, "not the same");
        }
    }
}

#[test]
fn a_stop_and_the_rest(rt: HostRuntime) {
    let stopped = bytes_of(&rt, Kept::Stopped);
    let resumed = bytes_of(&rt, Kept::Resumed);
    for more in ["--stop-after=40", "--stop-after=0x28"] {
        let mut disk = disk(&rt, &[], &[]);
        call_tells(&rt, "run", &SENDS, &[more], &mut disk, STOPPED);
        same(more, disk.bytes(), stopped.as_slice()).expect(&rt, "not the same");
        call_tells(&rt, "report", &SENDS, &[], &mut disk, STOPPED);
        same(more, disk.bytes(), stopped.as_slice()).expect(&rt, "not the same");
        call_writes(&rt, "run", &SENDS, &[], &mut disk, SENDS.report);
        same(more, disk.bytes(), resumed.as_slice()).expect(&rt, "not the same");
    }
}

// Calls on a complete file, with its rows in one batch or in two: each gives the report, also if no job may run,
// or the counts as a JSON object.
static ONLY_READ: [(&str, &str, Option<&str>); 5] = [
    ("run", "--format=text", None),
    ("run", "--stop-after=0", None),
    ("report", "--format=text", None),
    ("run", "--format=json", Some(OBJECT)),
    ("report", "--format=json", Some(OBJECT)),
];

const OBJECT: &str =
    "{\"address\":90,\"detected\":2,\"illegal\":0,\"instructions\":4,\"misaligned\":2,\"no_effect\":4376,\"silent\":10,\"sites\":4480,\"timeout\":0}\n";

#[test]
fn a_complete_file_is_only_read(rt: HostRuntime) {
    for kept in [Kept::Sends, Kept::Resumed] {
        let kept = bytes_of(&rt, kept);
        for (command, more, text) in ONLY_READ {
            only_reads(
                &rt,
                command,
                &SENDS,
                &[more],
                &kept,
                text.unwrap_or(SENDS.report),
            );
        }
    }
}

// A budget of all jobs does not stop the call, and a budget of no jobs only starts the file.
#[test]
fn budgets(rt: HostRuntime) {
    let mut whole = disk(&rt, &[], &[]);
    let all = ["--stop-after=96"];
    call_writes(&rt, "run", &SENDS, &all, &mut whole, SENDS.report);
    let expected = bytes_of(&rt, Kept::Sends);
    same("all", whole.bytes(), expected.as_slice()).expect(&rt, "not the same");

    let mut begun = disk(&rt, &[], &[]);
    let none = ["--stop-after=0"];
    call_tells(&rt, "run", &SENDS, &none, &mut begun, BEGUN);
    let mut expected = header(&rt, SENDS.words, 100);
    put(&rt, &mut expected, &[0]);
    same("none", begun.bytes(), expected.as_slice()).expect(&rt, "not the same");
}

// All bytes after a closed gate are overwritten.
#[test]
fn bytes_behind_a_closed_gate(rt: HostRuntime) {
    let mut kept = bytes_of(&rt, Kept::Stopped);
    let _ = kept.pop();
    put(
        &rt,
        &mut kept,
        &[0x17, 0xa5, 0x38, 0, 0xff, 0xff, 0xff, 0xff],
    );
    let mut disk = disk(&rt, &kept, &[]);
    call_tells(&rt, "report", &SENDS, &[], &mut disk, STOPPED);
    call_writes(&rt, "run", &SENDS, &[], &mut disk, SENDS.report);
    let expected = bytes_of(&rt, Kept::Resumed);
    same("the file", disk.bytes(), expected.as_slice()).expect(&rt, "not the same");
}

// A repeated row counts once, and a batch may have no rows.
#[test]
fn rows_that_come_again(rt: HostRuntime) {
    let mut kept = bytes_of(&rt, Kept::Sends);
    append(&rt, &mut kept, &sends_rows(&rt));
    append(&rt, &mut kept, &[]);
    for command in ["run", "report"] {
        only_reads(&rt, command, &SENDS, &[], &kept, SENDS.report);
    }
}

// An image is replaced, since its first byte is not an open gate. If a file with rows is started again, its first
// gate is closed, and the bytes after that gate stay.
#[test]
fn fresh(rt: HostRuntime) {
    let mut image = disk(&rt, &image_of(&rt, &HALTS), &[]);
    let more = ["--fresh"];
    call_writes(&rt, "run", &HALTS, &more, &mut image, HALTS.report);
    let expected = bytes_of(&rt, Kept::Halts);
    same("an image", image.bytes(), expected.as_slice()).expect(&rt, "not the same");
    call_writes(&rt, "report", &HALTS, &[], &mut image, HALTS.report);

    let mut kept = bytes_of(&rt, Kept::Sends);
    let mut disk = disk(&rt, &kept, &[]);
    let more = ["--stop-after=0", "--fresh"];
    call_tells(&rt, "run", &SENDS, &more, &mut disk, BEGUN);
    set(&rt, &mut kept, HEADER, 0);
    same("the file", disk.bytes(), kept.as_slice()).expect(&rt, "not the same");
}

#[test]
fn a_table_of_jobs(rt: HostRuntime) -> Result<(), Fail> {
    let mut table = String::from_str(rt.alloc(), "cycle,cell,bit,weight,outcome\n")?;
    for bit in 0..32 {
        let word = if bit < 2 { "misaligned" } else { "address" };
        table.push_str(format!(in rt.alloc(); "1,1,{bit},1,{word}\n")?.as_str())?;
    }
    let columns = ["--format=csv"];
    let kept = bytes_of(&rt, Kept::Halts);
    only_reads(&rt, "report", &HALTS, &columns, &kept, table.as_str());
    // A file of a stopped campaign gives no table.
    let mut stopped = disk(&rt, &bytes_of(&rt, Kept::Stopped), &[NO_WRITES]);
    call_tells(&rt, "report", &SENDS, &columns, &mut stopped, STOPPED);
    Ok(())
}

// If the image fails, the file is not opened: each call of this disk would fail. If the output fails, the file is
// complete.
#[test]
fn other_devices_that_fail(rt: HostRuntime) {
    let fails = Fails {
        reads: Some(2),
        writes: None,
    };
    let mut unopened = disk(&rt, &[], &[]);
    unopened.fuse(1);
    let ended = call_failing(&rt, "run", &HALTS, &[], &fails, &mut unopened);
    tells(&rt, &ended, Status::ReadFault, "image could not be read\n");
    same("calls left", unopened.listed(), 0).expect(&rt, "not the same");

    let fails = Fails {
        reads: None,
        writes: Some(1),
    };
    let mut disk = disk(&rt, &[], &[]);
    let ended = call_failing(&rt, "run", &HALTS, &[], &fails, &mut disk);
    let line = "output could not be written\n";
    tells(&rt, &ended, Status::WriteFault, line);
    let expected = bytes_of(&rt, Kept::Halts);
    same("the file", disk.bytes(), expected.as_slice()).expect(&rt, "not the same");
}

// A report has fewer options than a run, and a flag takes no value.
#[test]
fn options_of_another_command(rt: HostRuntime) {
    for (command, option) in [
        ("report", "--page=40"),
        ("report", "--stop-after=40"),
        ("report", "--workers=2"),
        ("report", "--fresh"),
        ("run", "--fresh=true"),
        ("run", "--format=csv"),
    ] {
        let mut disk = disk(&rt, &[], &[]);
        let ended = call_on(&rt, command, &HALTS, &[option], &mut disk);
        same((command, option), ended.status, Status::Usage).expect(&rt, "not the same");
    }
}
