//! A campaign file that is started, stopped, appended to and opened again, on disks some of whose calls fail. The
//! program is `lui x1,0xF0000; sw x0,8(x1)`, which has a job for each bit of register 1.
ghost use Rattle.std.specs.Prelude.{◌≡◌, ◌≤◌, true, OnOk};
ghost use Rattle.fs_model.specs.Job.{jobs_in};
ghost use Rattle.result_keeper.specs.Keep.{HasFile};

use def_use::JobList;
use fs_model::{Case, Outcome, Row};
use fs_outside::{Disk, DiskCall, DiskFail, MemDisk};
use golden_trace::golden;
use keep_format::{FormatFault, write_header};
use result_keeper::{AdoptRefusal, DiskFault, KeepRefusal, Keeper, look};
use std::process::Abort;
use test_asserts::same;
use test_cases::jobs_of_case;
use test_programs::{HALTS, case_of};

// Returns the jobs of a case.
fn listed<R: Abort + AllocGlobal>(rt: &R, case: &Case) -> JobList
    ensures { result.list ≡ jobs_in case.now }
{
    let run = golden(rt.alloc(), case).expect(rt, "a golden run");
    jobs_of_case(rt.alloc(), case, &run).expect(rt, "memory")
}

// Appends a row of one job, which is blank.
fn keep_one<D: Disk>(
    rt: &impl Abort,
    keeper: &mut Keeper<'_>,
    disk: &mut D,
    list: &JobList,
    number: u32,
) -> Result<(), DiskFault>
    requires healthy { keeper.old.healthy ≡ true }
    requires page { 1 ≤ keeper.old.page }
    requires list { keeper.old.list ≡ list.now.list }
    requires file { D.tells → HasFile keeper.old (D.past disk.old) }
    ensures healthy { OnOk result (keeper.new.healthy ≡ true) }
    ensures page { keeper.new.page ≡ keeper.old.page }
    ensures list { keeper.new.list ≡ keeper.old.list }
    ensures file { D.tells → OnOk result (HasFile keeper.new (D.past disk.new)) }
{
    assert!(rt; number < list.len() && number < keeper.board().len());
    let job = list.get(number);
    assert!(rt; keeper.board().get(number).is_none());
    let row = Row {
        cycle: job.cycle,
        cell: job.cell,
        bit: job.bit,
        outcome: Outcome::Misaligned,
    };
    keeper.append(disk, &[row])
}

// Returns a disk without bytes whose write with this number fails.
fn failing<R: Abort + AllocGlobal>(rt: &R, write: u64) -> MemDisk {
    let call = DiskFail {
        call: DiskCall::Write,
        number: write,
        taken: 0,
    };
    let fails = vec![in rt.alloc(); call].expect(rt, "memory");
    MemDisk::new(rt.alloc(), Vec::new(rt.alloc()), fails).expect(rt, "memory")
}

// Starts a file, and appends a row twice, or once if that fails.
fn keep_two<R: Abort + AllocGlobal>(
    rt: &R,
    case: &Case,
    list: &JobList,
    disk: &mut MemDisk,
    fail: u64,
)
    requires { list.now.list ≡ jobs_in case.now }
{
    match Keeper::adopt(rt.alloc(), disk, case, list, 2, false) {
        Ok(mut keeper) => match keep_one(rt, &mut keeper, disk, list, 0) {
            Ok(()) => {
                let _ = keep_one(rt, &mut keeper, disk, list, 1);
            }
            Err(DiskFault) => assert!(rt; !keeper.healthy()),
        },
        Err(refusal) => same(fail, refusal, AdoptRefusal::DiskFault).expect(rt, "not the same"),
    }
}

// Returns the number of rows that are left if write number `fail` fails, or why none can be read.
fn stopped<R: Abort + AllocGlobal>(rt: &R, fail: u64) -> Result<u32, AdoptRefusal> {
    let case = case_of(rt.alloc(), &HALTS, 100).expect(rt, "a case");
    let list = listed(rt, &case);
    let mut disk = failing(rt, fail);
    keep_two(rt, &case, &list, &mut disk, fail);
    disk.crash(rt.alloc(), None).expect(rt, "memory");
    match look(rt.alloc(), &mut disk, &case, &list) {
        Ok(board) => Ok(board.kept()),
        Err(why) => Err(why),
    }
}

const NONE: KeepRefusal = KeepRefusal::Format(FormatFault::NotACampaign);

// The write that fails, and what is left: three writes start the file, and two append a batch.
static STOPS: [(u64, Result<u32, AdoptRefusal>); 8] = [
    (1, Ok(0)),
    (2, Err(AdoptRefusal::Refused(NONE))),
    (3, Err(AdoptRefusal::Refused(NONE))),
    (4, Ok(0)),
    (5, Ok(0)),
    (6, Ok(1)),
    (7, Ok(1)),
    (8, Ok(2)),
];

// Returns the number of rows in the file when it is opened for a case with this limit, or why it is not opened.
fn opened<R: Abort + AllocGlobal>(
    rt: &R,
    disk: &mut MemDisk,
    limit: u32,
    fresh: bool,
) -> Result<u32, AdoptRefusal> {
    let case = case_of(rt.alloc(), &HALTS, limit).expect(rt, "a case");
    let list = listed(rt, &case);
    match Keeper::adopt(rt.alloc(), disk, &case, &list, 2, fresh) {
        Ok(keeper) => Ok(keeper.board().kept()),
        Err(why) => Err(why),
    }
}

// Returns a disk with these bytes.
fn disk_of<R: Abort + AllocGlobal>(rt: &R, bytes: Vec<u8>) -> MemDisk {
    MemDisk::new(rt.alloc(), bytes, Vec::new(rt.alloc())).expect(rt, "memory")
}

#[test]
fn stops_and_another_limit(rt: HostRuntime) {
    for (fail, left) in STOPS.as_slice() {
        same(*fail, stopped(&rt, *fail), *left).expect(&rt, "not the same");
    }
    let mut disk = disk_of(&rt, Vec::new(rt.alloc()));
    same("limit 100", opened(&rt, &mut disk, 100, false), Ok(0)).expect(&rt, "not the same");
    let refusal = AdoptRefusal::Refused(KeepRefusal::OtherCase { at: 21 });
    same("limit 99", opened(&rt, &mut disk, 99, false), Err(refusal)).expect(&rt, "not the same");
    same("the file", disk.bytes().len(), 119).expect(&rt, "not the same");
}

// Returns a campaign file without rows for a limit of 100.
fn begun<R: Abort + AllocGlobal>(rt: &R) -> Vec<u8> {
    let case = case_of(rt.alloc(), &HALTS, 100).expect(rt, "a case");
    let mut bytes = Vec::new(rt.alloc());
    write_header(&case, &mut bytes).expect(rt, "memory");
    bytes
}

// Returns a campaign file without rows for a limit of 100, or the first bytes of an ELF file, with zeros up to
// 100,000 bytes.
fn long_file<R: Abort + AllocGlobal>(rt: &R, campaign: bool) -> Vec<u8> {
    let mut bytes = if campaign {
        begun(rt)
    } else {
        b"\x7fELF".to_vec(rt.alloc()).expect(rt, "memory")
    };
    bytes.resize(100_000, 0).expect(rt, "memory");
    bytes
}

// Opens such a file for this limit. Returns the number of its rows, or why it is not opened, and the number of
// bytes that were read.
fn read_of<R: Abort + AllocGlobal>(
    rt: &R,
    campaign: bool,
    limit: u32,
    fresh: bool,
) -> (Result<u32, AdoptRefusal>, u64) {
    let mut disk = disk_of(rt, long_file(rt, campaign));
    let found = opened(rt, &mut disk, limit, fresh);
    (found, disk.given())
}

const OTHER: KeepRefusal = KeepRefusal::OtherCase { at: 21 };

// Whether it is a campaign file, the limit, whether it is started again, the result, and the number of bytes read:
// all, or the 13 before the card, the 105 of the card and the gate after it.
static LONG: [(bool, u32, bool, Result<u32, AdoptRefusal>, u64); 4] = [
    (false, 100, false, Err(AdoptRefusal::Refused(NONE)), 119),
    (true, 99, false, Err(AdoptRefusal::Refused(OTHER)), 119),
    (true, 99, true, Ok(0), 119),
    (true, 100, false, Ok(0), 100_000),
];

#[test]
fn long_files_are_judged_by_their_front(rt: HostRuntime) {
    for (campaign, limit, fresh, found, read) in LONG {
        let told = read_of(&rt, campaign, limit, fresh);
        same((campaign, limit, fresh), told, (found, read)).expect(&rt, "not the same");
    }
}
