//! Images with one change, reads of any length, and the plain image.
use elf_loader::{ImageFault, LoadRefusal, ReadRefusal, load, plain_image, read_image};
use fs_model::Case;
use fs_outside::MemSource;
use std::process::Abort;
use test_asserts::same;
use test_programs::small_map;

// A program of two instructions at the start of ROM.
const IMAGE: [u8; 92] = [
    0x7f, 0x45, 0x4c, 0x46, 0x01, 0x01, 0x01, 0x00, 0x00, 0x00, 0x00, 0x00, 0x00, 0x00, 0x00, 0x00,
    0x02, 0x00, 0xf3, 0x00, 0x01, 0x00, 0x00, 0x00, 0x00, 0x00, 0x00, 0x20, 0x34, 0x00, 0x00, 0x00,
    0x00, 0x00, 0x00, 0x00, 0x00, 0x00, 0x00, 0x00, 0x34, 0x00, 0x20, 0x00, 0x01, 0x00, 0x00, 0x00,
    0x00, 0x00, 0x00, 0x00, 0x01, 0x00, 0x00, 0x00, 0x54, 0x00, 0x00, 0x00, 0x00, 0x00, 0x00, 0x20,
    0x00, 0x00, 0x00, 0x20, 0x08, 0x00, 0x00, 0x00, 0x08, 0x00, 0x00, 0x00, 0x05, 0x00, 0x00, 0x00,
    0x04, 0x00, 0x00, 0x00, 0xb7, 0x00, 0x00, 0xf0, 0x23, 0xa4, 0x00, 0x00,
];

// The place of a change in the image, the new bytes, and the fault.
static ROWS: [(usize, &[u8], Option<ImageFault>); 19] = [
    (0, &[0x7e], Some(ImageFault::NotElf)),
    (4, &[2], Some(ImageFault::NotClass32)),
    (5, &[2], Some(ImageFault::NotLittle)),
    (6, &[0], Some(ImageFault::Version)),
    (20, &[2], Some(ImageFault::Version)),
    (16, &[3], Some(ImageFault::NotExec)),
    (18, &[62], Some(ImageFault::NotRiscv)),
    (44, &[255, 255], Some(ImageFault::BadHeaders)),
    (42, &[33], Some(ImageFault::BadHeaders)),
    (28, &[255, 255, 255, 255], Some(ImageFault::BadHeaders)),
    (68, &[9], Some(ImageFault::FilePastMemory)),
    (56, &[85], Some(ImageFault::SegmentPastFile)),
    (56, &[255, 255, 255, 255], Some(ImageFault::SegmentPastFile)),
    (64, &[0x39], Some(ImageFault::SegmentOutsideMap)),
    (
        64,
        &[0xfc, 255, 255, 255],
        Some(ImageFault::SegmentOutsideMap),
    ),
    // A segment without bytes, at address 0.
    (64, &[0, 0, 0, 0, 0, 0, 0, 0, 0, 0, 0, 0], None),
    // No program headers, wherever their table is.
    (44, &[0], None),
    // A header that is not loaded, past the end of the file.
    (52, &[3, 0, 0, 0x70, 255, 255, 255, 255], None),
    (0, &[], None),
];

// Loads an image into the small map.
fn loaded<R: Abort + AllocGlobal>(rt: &R, image: &[u8]) -> Result<Case, LoadRefusal> {
    let map = small_map().expect(rt, "a map");
    load(rt.alloc(), image, &map, 100)
}

// Returns the fault of an image.
fn fault_of<R: Abort + AllocGlobal>(rt: &R, image: &[u8]) -> Option<ImageFault> {
    match loaded(rt, image) {
        Ok(_) => None,
        Err(LoadRefusal::Fault(fault)) => Some(fault),
        Err(LoadRefusal::NoMemory) => panic!(rt; "memory"),
    }
}

// Returns the image with other bytes at a place.
fn changed(rt: &impl Abort, at: usize, bytes: &[u8]) -> [u8; 92] {
    let mut image = IMAGE;
    assert!(rt; at <= 80 && bytes.len() <= 12);
    image[at..at + bytes.len()].copy_from_slice(bytes);
    image
}

#[test]
fn faults(rt: HostRuntime) {
    for (at, bytes, want) in ROWS.as_slice() {
        let image = changed(&rt, *at, bytes);
        same(*at, fault_of(&rt, &image), *want).expect(&rt, "not the same");
    }
    shorter_files(&rt);
}

// The file header has 52 bytes, its table ends at 84, and the segment at 92.
fn shorter_files<R: Abort + AllocGlobal>(rt: &R) {
    for len in 0..93 {
        let want = match len {
            0..52 => Some(ImageFault::Short),
            52..84 => Some(ImageFault::BadHeaders),
            84..92 => Some(ImageFault::SegmentPastFile),
            _ => None,
        };
        same(len, fault_of(rt, &IMAGE[..len]), want).expect(rt, "not the same");
    }
}

// Appends bytes to a file.
fn put(rt: &impl Abort, file: &mut Vec<u8>, bytes: &[u8]) {
    file.extend_from_slice(bytes).expect(rt, "memory");
}

// Returns the image with a second program header after the first one, whose segment then begins at 116, and with
// more bytes at its end.
fn with_second<R: Abort + AllocGlobal>(rt: &R, header: &[u8; 32], end: &[u8]) -> Vec<u8> {
    let mut image = Vec::new(rt.alloc());
    for part in [&IMAGE[..84], header, &IMAGE[84..], end] {
        put(rt, &mut image, part);
    }
    assert!(rt; image.len() == 124 + end.len());
    image[44] = 2;
    image[56] = 116;
    image
}

// A program header that a linker adds, with its bytes past the end of the file.
const ATTRIBUTES: [u8; 32] = [
    3, 0, 0, 0x70, 255, 255, 255, 255, 0, 0, 0, 0, 0, 0, 0, 0, 9, 0, 0, 0, 8, 0, 0, 0, 4, 0, 0, 0,
    1, 0, 0, 0,
];

// A program header of four bytes, which follow the eight bytes of the first segment.
const LATER: [u8; 32] = [
    1, 0, 0, 0, 124, 0, 0, 0, 0, 0, 0, 0, 4, 0, 0, 0x20, 4, 0, 0, 0, 4, 0, 0, 0, 5, 0, 0, 0, 4, 0,
    0, 0,
];

// Only loadable segments are read, and the bytes of the later one overwrite those of the earlier one.
#[test]
fn two_headers(rt: HostRuntime) {
    let image = with_second(&rt, &ATTRIBUTES, &[]);
    same("a header that is not loaded", fault_of(&rt, &image), None).expect(&rt, "not the same");
    let image = with_second(&rt, &LATER, &[0x13, 0x01, 0x20, 0x04]);
    has_both(&rt, &image);
}

// Tests the case of the image with both segments.
fn has_both<R: Abort + AllocGlobal>(rt: &R, image: &[u8]) {
    let case = loaded(rt, image).expect(rt, "a case");
    let rom = case.rom();
    assert!(rt; rom.len() >= 12);
    let bytes = [0xb7, 0, 0, 0xf0, 0x13, 0x01, 0x20, 0x04, 0, 0, 0, 0];
    let found = (&rom[..12], case.entry(), case.limit());
    let wanted = (bytes.as_slice(), 0x2000_0000, 100);
    same("ROM, entry and limit", found, wanted).expect(rt, "not the same");
}

// The length of the source, the read that fails, and the number of bytes read, or why none were. A read takes at
// most 8192 bytes.
static READS: [(usize, u64, Result<usize, ReadRefusal>); 8] = [
    (0, 0, Ok(0)),
    (4096, 0, Ok(4096)),
    (10_000, 0, Ok(10_000)),
    (16_777_216, 0, Ok(16_777_216)),
    (16_777_217, 0, Err(ReadRefusal::TooLong)),
    (20_000, 1, Err(ReadRefusal::ReadFault)),
    (20_000, 2, Err(ReadRefusal::ReadFault)),
    (20_000, 3, Err(ReadRefusal::ReadFault)),
];

// Returns the number of bytes read from a source of this length whose read with this number fails.
fn read_of<R: Abort + AllocGlobal>(rt: &R, len: usize, fail: u64) -> Result<usize, ReadRefusal> {
    let bytes = vec![in rt.alloc(); 7; len].expect(rt, "memory");
    let fails = vec![in rt.alloc(); fail].expect(rt, "memory");
    let mut source = MemSource::new(bytes, fails);
    read_image(rt.alloc(), &mut source).map(|bytes| bytes.len())
}

#[test]
fn reads_and_plain_images(rt: HostRuntime) {
    for (len, fail, want) in READS.as_slice() {
        same((*len, *fail), read_of(&rt, *len, *fail), *want).expect(&rt, "not the same");
    }
    let image = plain_image(rt.alloc(), 0x2000_0000, 0x2000_0000, &IMAGE[84..]);
    let image = image.expect(&rt, "memory");
    same("the plain image", image.as_slice(), &IMAGE[..]).expect(&rt, "not the same");
}
