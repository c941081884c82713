//! Campaigns of shards: each runs only the jobs with certain numbers, and all shards together run all jobs.
ghost use Rattle.std.specs.Prelude.{◌≡◌, ◌<◌, ◌≤◌};

use super::tests_of_campaign::{Ended, Next, SENT, carry_out, disk_of, follow, together};
use campaign::Settings;
use test_asserts::same;
use test_programs::SENDS;

// The jobs with even numbers, in one batch.
const FIRST: Settings = Settings {
    workers: 2,
    page: 4096,
    stop_after: None,
    fresh: false,
    spacing: 256,
    shard: Some((1, 2)),
};

// Ten jobs with even numbers.
const TEN_OF_FIRST: Settings = Settings {
    workers: 2,
    page: 4096,
    stop_after: Some(10),
    fresh: false,
    spacing: 256,
    shard: Some((1, 2)),
};

// The jobs with odd numbers.
const SECOND: Settings = Settings {
    workers: 2,
    page: 4096,
    stop_after: None,
    fresh: false,
    spacing: 256,
    shard: Some((2, 2)),
};

// A shard of the 96 jobs, the most jobs to run, how the campaign ends, and the length of the file: 122 bytes and
// 10 for each row, or 119 if it has no batch.
static SHARDS: [(u32, u32, Option<u32>, Ended, usize); 10] = [
    (1, 2, None, Ended::Stopped(48, 96), 602),
    (2, 2, None, Ended::Stopped(48, 96), 602),
    (1, 2, Some(10), Ended::Stopped(10, 96), 222),
    (1, 2, Some(48), Ended::Stopped(48, 96), 602),
    (1, 1, None, SENT, 1082),
    (1, 1, Some(95), Ended::Stopped(95, 96), 1072),
    (1, 95, None, Ended::Stopped(2, 96), 142),
    (95, 95, None, Ended::Stopped(1, 96), 132),
    (97, 97, None, Ended::Stopped(0, 96), 119),
    (96, 65_535, None, Ended::Stopped(1, 96), 132),
];

#[test]
fn one_shard(rt: HostRuntime) {
    for (index, count, stop_after, ended, size) in SHARDS {
        assert!(rt; index >= 1);
        assert!(rt; index <= count);
        assert!(rt; count <= 65_535);
        let settings = Settings {
            workers: 2,
            page: 4096,
            stop_after,
            fresh: false,
            spacing: 256,
            shard: Some((index, count)),
        };
        let mut disk = disk_of(&rt, &[], 0);
        let told = carry_out(&rt, &SENDS, 100, &mut disk, &settings);
        let told = told.map(|(before, ended, _, healthy)| (before, ended, healthy));
        let found = (told, disk.bytes().len());
        same((index, count), found, (Ok((0, ended, true)), size)).expect(&rt, "not the same");
    }
}

// Both shards on one file, the first one twice; and the first one within a budget, which counts only its own jobs.
#[test]
fn shards_together(rt: HostRuntime) {
    let list: [Next; 4] = [
        (FIRST, (0, Ended::Stopped(48, 96), true), 602),
        (FIRST, (48, Ended::Stopped(48, 96), true), 602),
        (SECOND, (48, SENT, true), 1085),
        (FIRST, (96, SENT, true), 1085),
    ];
    let mut disk = disk_of(&rt, &[], 0);
    follow(&rt, &mut disk, &list);
    let list: [Next; 3] = [
        (TEN_OF_FIRST, (0, Ended::Stopped(10, 96), true), 222),
        (SECOND, (10, Ended::Stopped(58, 96), true), 705),
        (TEN_OF_FIRST, (58, Ended::Stopped(68, 96), true), 808),
    ];
    let mut disk = disk_of(&rt, &[], 0);
    follow(&rt, &mut disk, &list);
}

// The file has the same bytes as after a campaign on the caller's thread.
#[test]
fn shard_by_workers(rt: HostRuntime) {
    let mut alone = disk_of(&rt, &[], 0);
    let told = carry_out(&rt, &SENDS, 100, &mut alone, &FIRST);
    same(
        "alone",
        told.map(|(_, ended, _, _)| ended),
        Ok(Ended::Stopped(48, 96)),
    )
    .expect(&rt, "not the same");
    for workers in [1, 2, 3] {
        assert!(rt; workers > 0);
        assert!(rt; workers <= 64);
        let settings = Settings {
            workers,
            page: 4096,
            stop_after: None,
            fresh: false,
            spacing: 256,
            shard: Some((1, 2)),
        };
        let mut disk = disk_of(&rt, &[], 0);
        let told = together(&rt, &mut disk, &settings);
        same(
            "by workers",
            told.map(|(_, ended, _, _)| ended),
            Ok(Ended::Stopped(48, 96)),
        )
        .expect(&rt, "not the same");
        same(workers, disk.bytes(), alone.bytes()).expect(&rt, "not the same");
    }
}
