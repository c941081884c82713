//! The symbols of an image with one change, and the symbol of an address.
use elf_symbols::{Symbol, SymbolRefusal, owner_of, symbols};
use std::process::Abort;
use test_asserts::same;
use test_programs::{LOADS, RAM, ROM, Segment, code, image};

// Four symbols: a null symbol; `main`, a function of 12 bytes at 0x20000000; `emit`, a function of 8 bytes at
// 0x2000000c; `buf`, an object of one byte at 0x80000000.
const SYMBOLS: [u8; 64] = [
    0, 0, 0, 0, 0, 0, 0, 0, 0, 0, 0, 0, 0, 0, 0, 0, 1, 0, 0, 0, 0, 0, 0, 0x20, 0x0c, 0, 0, 0, 0x12,
    0, 1, 0, 6, 0, 0, 0, 0x0c, 0, 0, 0x20, 8, 0, 0, 0, 0x12, 0, 1, 0, 0x0b, 0, 0, 0, 0, 0, 0, 0x80,
    1, 0, 0, 0, 0x11, 0, 1, 0,
];

const NAMES: &[u8; 15] = b"\0main\0emit\0buf\0";

// Three section headers: null; the symbols, 64 bytes at 137 with the names in section 2; the names, 15 bytes at
// 201.
const SECTIONS: [u8; 120] = [
    0, 0, 0, 0, 0, 0, 0, 0, 0, 0, 0, 0, 0, 0, 0, 0, 0, 0, 0, 0, 0, 0, 0, 0, 0, 0, 0, 0, 0, 0, 0, 0,
    0, 0, 0, 0, 0, 0, 0, 0, 0, 0, 0, 0, 2, 0, 0, 0, 0, 0, 0, 0, 0, 0, 0, 0, 0x89, 0, 0, 0, 0x40, 0,
    0, 0, 2, 0, 0, 0, 1, 0, 0, 0, 4, 0, 0, 0, 0x10, 0, 0, 0, 0, 0, 0, 0, 3, 0, 0, 0, 0, 0, 0, 0, 0,
    0, 0, 0, 0xc9, 0, 0, 0, 0x0f, 0, 0, 0, 0, 0, 0, 0, 0, 0, 0, 0, 1, 0, 0, 0, 0, 0, 0, 0,
];

// Returns the bytes followed by the symbols, the names, and the section headers.
fn followed(rt: &impl Abort, mut bytes: Vec<u8>) -> [u8; 336] {
    for part in [SYMBOLS.as_slice(), NAMES, &SECTIONS] {
        bytes.extend_from_slice(part).expect(rt, "memory");
    }
    assert!(rt; bytes.len() == 336);
    let mut whole = [0; 336];
    whole.copy_from_slice(&bytes);
    whole
}

/// Returns the image of a program and of a byte of RAM, with symbols at 137, names at 201, and section headers
/// from 216 to its end at 336.
pub fn with_symbols<R: Abort + AllocGlobal>(rt: &R) -> [u8; 336] {
    let rom = code(rt.alloc(), &LOADS).expect(rt, "memory");
    let segments = [
        Segment {
            at: ROM,
            bytes: &rom,
        },
        Segment {
            at: RAM,
            bytes: &[0x41],
        },
    ];
    let bytes = image(rt.alloc(), ROM, &segments).expect(rt, "memory");
    let mut whole = followed(rt, bytes);
    // e_shoff, e_shentsize and e_shnum
    whole[32] = 216;
    whole[46] = 40;
    whole[48] = 3;
    whole
}

/// Returns the image with other bytes at a place.
pub fn changed(rt: &impl Abort, image: &[u8; 336], at: usize, bytes: &[u8]) -> [u8; 336] {
    let mut new = *image;
    assert!(rt; at <= 328 && bytes.len() <= 8);
    new[at..at + bytes.len()].copy_from_slice(bytes);
    new
}

// The place of a change in the image, the new bytes, and the number of symbols, or why they are not read.
static ROWS: [(usize, &[u8], Result<usize, SymbolRefusal>); 48] = [
    (0, &[], Ok(3)),
    // e_shentsize and e_shnum
    (46, &[39], Err(SymbolRefusal::BadSections)),
    (46, &[41], Err(SymbolRefusal::BadSections)),
    (46, &[39, 0, 0, 0], Ok(0)),
    (48, &[0], Ok(0)),
    (48, &[4], Err(SymbolRefusal::BadSections)),
    (48, &[255, 255], Err(SymbolRefusal::BadSections)),
    // e_shoff: the section headers end at the file's end, or after it.
    (32, &[217], Err(SymbolRefusal::BadSections)),
    (32, &[255, 255, 255, 255], Err(SymbolRefusal::BadSections)),
    // No symbol table, and a symbol table in the first section.
    (260, &[1], Ok(0)),
    (260, &[11], Ok(0)),
    (220, &[2], Err(SymbolRefusal::BadSections)),
    // sh_offset and sh_size of the symbols. The last 64 bytes of the file are not functions or objects.
    (272, &[0x10, 1], Ok(0)),
    (272, &[0x11, 1], Err(SymbolRefusal::BadSections)),
    (272, &[255, 255, 255, 255], Err(SymbolRefusal::BadSections)),
    (276, &[0], Ok(0)),
    (276, &[16], Ok(0)),
    (276, &[48], Ok(2)),
    (276, &[63], Err(SymbolRefusal::BadSections)),
    (276, &[65], Err(SymbolRefusal::BadSections)),
    (276, &[240, 255, 255, 255], Err(SymbolRefusal::BadSections)),
    // sh_link and sh_entsize
    (280, &[0], Err(SymbolRefusal::BadSections)),
    (280, &[1], Err(SymbolRefusal::BadSections)),
    (280, &[3], Err(SymbolRefusal::BadSections)),
    (280, &[255, 255, 255, 255], Err(SymbolRefusal::BadSections)),
    (292, &[15], Err(SymbolRefusal::BadSections)),
    (292, &[0], Err(SymbolRefusal::BadSections)),
    // sh_type, sh_offset and sh_size of the names, which may end with the file.
    (300, &[1], Err(SymbolRefusal::BadSections)),
    (312, &[255, 255, 255, 255], Err(SymbolRefusal::BadSections)),
    (316, &[135], Ok(3)),
    (316, &[136], Err(SymbolRefusal::BadSections)),
    (316, &[14], Err(SymbolRefusal::BadName)),
    (316, &[0], Err(SymbolRefusal::BadName)),
    // st_name of `emit`: at the last 0 byte, and after it. A symbol that is not reported may have any.
    (169, &[14], Ok(3)),
    (169, &[15], Err(SymbolRefusal::BadName)),
    (169, &[255, 255, 255, 255], Err(SymbolRefusal::BadName)),
    (137, &[15], Ok(3)),
    // st_value, st_size, st_info and st_shndx of `main`
    (157, &[255, 255, 255, 255], Ok(3)),
    (161, &[255, 255, 255, 255], Ok(3)),
    (161, &[0], Ok(2)),
    (165, &[0x10], Ok(2)),
    (165, &[0x13], Ok(2)),
    (165, &[0x0a], Ok(2)),
    (165, &[0x22], Ok(3)),
    (165, &[0x01], Ok(3)),
    (167, &[0], Ok(2)),
    (167, &[0, 1], Ok(3)),
    (167, &[0xf1, 0xff], Ok(3)),
];

// Returns the number of symbols in the first bytes of an image, or why they are not read.
fn count_of<R: Abort + AllocGlobal>(
    rt: &R,
    image: &[u8; 336],
    len: usize,
) -> Result<usize, SymbolRefusal> {
    assert!(rt; 52 <= len && len <= 336);
    match symbols(rt.alloc(), &image[..len]) {
        Ok(list) => Ok(list.len()),
        Err(refusal) => Err(refusal),
    }
}

#[test]
fn refusals(rt: HostRuntime) {
    let image = with_symbols(&rt);
    for (at, bytes, want) in ROWS.as_slice() {
        let image = changed(&rt, &image, *at, bytes);
        same((*at, *bytes), count_of(&rt, &image, 336), *want).expect(&rt, "not the same");
    }
    short_files(&rt, &image);
}

// A file of only a header has no sections; the section headers end with the file.
fn short_files<R: Abort + AllocGlobal>(rt: &R, image: &[u8; 336]) {
    let header = count_of(rt, &[0; 336], 52);
    let short = count_of(rt, image, 335);
    let wanted = (Ok(0), Err(SymbolRefusal::BadSections));
    same("52 and 335", (header, short), wanted).expect(rt, "not the same");
}

// The name, address, size and kind of each symbol, in the order of the table.
static SEEN: [(&[u8], u32, u32, bool); 3] = [
    (b"main", 0x2000_0000, 12, true),
    (b"emit", 0x2000_000c, 8, true),
    (b"buf", 0x8000_0000, 1, false),
];

fn is_symbol(rt: &impl Abort, symbol: &Symbol<'_>, wanted: (&[u8], u32, u32, bool)) {
    let found = (
        symbol.name.bytes(),
        symbol.value,
        symbol.size,
        symbol.is_function,
    );
    same("a symbol", found, wanted).expect(rt, "not the same");
}

#[test]
fn names(rt: HostRuntime) {
    let image = with_symbols(&rt);
    let list = symbols(rt.alloc(), &image).expect(&rt, "symbols");
    same("symbols", list.len(), 3).expect(&rt, "not the same");
    for i in 0..3 {
        assert!(rt; i < list.len());
        is_symbol(&rt, &list[i], SEEN[i]);
    }
}

// The place of a change in the image, and the new bytes; whether a function is searched, the address, and the
// number of the symbol that has it.
static OWNERS: [(usize, &[u8], bool, u32, Option<usize>); 17] = [
    (0, &[], true, 0x1fff_ffff, None),
    (0, &[], true, 0x2000_0000, Some(0)),
    (0, &[], true, 0x2000_000b, Some(0)),
    (0, &[], true, 0x2000_000c, Some(1)),
    (0, &[], true, 0x2000_0013, Some(1)),
    (0, &[], true, 0x2000_0014, None),
    (0, &[], true, 0x8000_0000, None),
    (0, &[], false, 0x8000_0000, Some(2)),
    (0, &[], false, 0x8000_0001, None),
    (0, &[], false, 0x2000_0000, None),
    // `main` with 20 bytes: the later function has the greater address.
    (161, &[20], true, 0x2000_000b, Some(0)),
    (161, &[20], true, 0x2000_0013, Some(1)),
    // `emit` at the same address as `main`, and before it.
    (173, &[0], true, 0x2000_0007, Some(0)),
    (173, &[0xfc, 0xff, 0xff, 0x1f], true, 0x2000_0003, Some(0)),
    // `main` at the end of all addresses: it does not continue at 0.
    (157, &[0xff, 0xff, 0xff, 0xff], true, 0xffff_ffff, Some(0)),
    (157, &[0xff, 0xff, 0xff, 0xff], true, 0, None),
    (157, &[0xff, 0xff, 0xff, 0xff], true, 0x2000_0000, None),
];

// Returns the number of the symbol that has an address.
fn owner_in<R: Abort + AllocGlobal>(
    rt: &R,
    image: &[u8; 336],
    function: bool,
    at: u32,
) -> Result<Option<usize>, SymbolRefusal> {
    match symbols(rt.alloc(), image) {
        Ok(list) => Ok(owner_of(&list, function, at)),
        Err(refusal) => Err(refusal),
    }
}

#[test]
fn owners(rt: HostRuntime) {
    let image = with_symbols(&rt);
    for (at, bytes, function, address, want) in OWNERS.as_slice() {
        let image = changed(&rt, &image, *at, bytes);
        let found = owner_in(&rt, &image, *function, *address);
        same((*at, *address), found, Ok(*want)).expect(&rt, "not the same");
    }
}
