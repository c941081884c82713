//! What the definitions do not say: the calls succeed, and give the values that were written down with the method.
ghost use Rattle.std.specs.Prelude.{◌≡◌, ◌+◌, ◌<◌, ◌^◌, true, IfSome};
ghost use Rattle.fs_model.specs.TouchList.{FitsAccess};

use fs_model::{
    Access, Case, Cell, Event, Map, MapFault, NoMemory, Outcome, Row, Size, Totals, Touch, Touches,
    Verdict, cell_at, same_case,
};
use std::alloc::Global;
use std::process::Abort;
use test_asserts::same;
use test_programs::{HALTS, case_of, small_map};

// Bases and sizes of ROM and RAM, and the fault of each map.
static MAPS: [(u32, u32, u32, u32, Option<MapFault>); 24] = [
    (0x2000_0000, 64, 0x8000_0000, 16, None),
    (0, 4, 0xffff_fffc, 4, None),
    (0x7fff_ffc0, 64, 0x8000_0000, 16, None),
    (0x8000_0010, 64, 0x8000_0000, 16, None),
    (0xeffc_0000, 262144, 0xf000_1000, 65536, None),
    (0x2000_0002, 64, 0x8000_0000, 16, Some(MapFault::Unaligned)),
    (0x2000_0000, 66, 0x8000_0000, 16, Some(MapFault::Unaligned)),
    (0x2000_0000, 64, 0x8000_0001, 16, Some(MapFault::Unaligned)),
    (0x2000_0000, 64, 0x8000_0000, 15, Some(MapFault::Unaligned)),
    (0x2000_0002, 0, 0x8000_0000, 16, Some(MapFault::Unaligned)),
    (0x2000_0000, 0, 0x8000_0000, 16, Some(MapFault::Size)),
    (0x2000_0000, 262148, 0x8000_0000, 16, Some(MapFault::Size)),
    (0x2000_0000, 64, 0x8000_0000, 0, Some(MapFault::Size)),
    (0x2000_0000, 64, 0x8000_0000, 65540, Some(MapFault::Size)),
    (0xffff_fffc, 262148, 0x8000_0000, 16, Some(MapFault::Size)),
    (0xffff_fffc, 8, 0x8000_0000, 16, Some(MapFault::Wraps)),
    (0x2000_0000, 64, 0xffff_fffc, 8, Some(MapFault::Wraps)),
    (0xffff_fffc, 8, 0xffff_fffc, 4, Some(MapFault::Wraps)),
    (0x8000_0000, 64, 0x8000_0000, 16, Some(MapFault::Overlap)),
    (0x7fff_ffc4, 64, 0x8000_0000, 16, Some(MapFault::Overlap)),
    (0x8000_000c, 64, 0x8000_0000, 16, Some(MapFault::Overlap)),
    (0xefff_fffc, 8, 0x8000_0000, 16, Some(MapFault::Overlap)),
    (0x2000_0000, 64, 0xf000_0ff0, 32, Some(MapFault::Overlap)),
    (0x2000_0000, 64, 0xf000_0000, 4, Some(MapFault::Overlap)),
];

#[test]
fn maps(rt: HostRuntime) {
    for (rom_base, rom_size, ram_base, ram_size, fault) in MAPS {
        let map = Map::new(rom_base, rom_size, ram_base, ram_size);
        let at = (rom_base, rom_size, ram_base, ram_size);
        same(at, map.err(), fault).expect(&rt, "not the same");
    }
}

// The bytes of `lui x1,0xF0000; sw x0,8(x1)` that are not 0, with their addresses.
static BYTES: [(u32, u8); 4] = [
    (0x2000_0000, 0xb7),
    (0x2000_0003, 0xf0),
    (0x2000_0004, 0x23),
    (0x2000_0005, 0xa4),
];

// The card up to the end of the code; 56 bytes of ROM and 16 of RAM follow, all 0.
static CARD: [u8; 33] = [
    0x01, 0, 0, 0, 0x20, 0, 0, 0, 0x20, 0x40, 0, 0, 0, 0, 0, 0, 0x80, 0x10, 0, 0, 0, 0x64, 0, 0, 0,
    0xb7, 0, 0, 0xf0, 0x23, 0xa4, 0, 0,
];

fn put(rt: &impl Abort, case: &mut Case, at: u32, byte: u8) {
    assert!(rt; case.rom_base() <= at && ((at - case.rom_base()) as usize) < case.rom().len());
    case.poke(at, byte);
}

// Returns the case with that code, written byte by byte in the order of `places`.
fn halts(rt: &impl Abort, alloc: Global, places: [usize; 4]) -> Case {
    let mut case = case_of(alloc, &[], 100).expect(rt, "a case");
    for place in places {
        assert!(rt; place < 4);
        let (at, byte) = BYTES[place];
        put(rt, &mut case, at, byte);
    }
    case
}

fn has_map(rt: &impl Abort, map: &Map) {
    let rom = (map.rom_base(), map.rom_size());
    same("ROM", rom, (0x2000_0000, 64)).expect(rt, "not the same");
    let ram = (map.ram_base(), map.ram_size());
    same("RAM", ram, (0x8000_0000, 16)).expect(rt, "not the same");
}

fn has_card(rt: &impl Abort, case: &Case) {
    same("the card", case.card_len(), 105).expect(rt, "not the same");
    for i in 0..case.card_len() {
        let expected = if i < 33 { CARD[i as usize] } else { 0 };
        same(i, case.card_at(i), expected).expect(rt, "not the same");
    }
}

// The words and the limit of another case, and whether it is the same as the case that halts.
static OTHERS: [(&[u32], u32, bool); 2] = [(&[], 100, false), (&HALTS, 100, true)];

// Tests whether the case is that of these words with this limit.
fn compares(rt: &impl Abort, alloc: Global, case: &Case, words: &[u32], limit: u32, wanted: bool) {
    let other = case_of(alloc, words, limit).expect(rt, "a case");
    same((words, limit), same_case(case, &other), wanted).expect(rt, "not the same");
    drop(other);
}

fn compares_all(rt: &impl Abort, alloc: Global, case: &Case) {
    for (words, limit, wanted) in OTHERS {
        compares(rt, alloc, case, words, limit, wanted);
    }
    let backwards = halts(rt, alloc, [3, 2, 1, 0]);
    same("backwards", same_case(case, &backwards), true).expect(rt, "not the same");
    drop(backwards);
    let shorter = case_of(alloc, &[], 99).expect(rt, "a case");
    compares(rt, alloc, &shorter, &[], 100, false);
    drop(shorter);
}

// Tests whether the pc is a cell, whether code may be in RAM, and the card's first byte.
fn has_flags(rt: &impl Abort, case: &Case, wanted: (bool, bool, u8)) {
    assert!(rt; case.card_len() > 0);
    let found = (case.pc_cell(), case.ram_code(), case.card_at(0));
    same("flags", found, wanted).expect(rt, "not the same");
}

fn has_the_rest(rt: &impl Abort, case: &Case) {
    let found = (
        case.entry(),
        case.limit(),
        case.ram_base(),
        case.ram().len(),
    );
    same("the rest", found, (0x2000_0000, 100, 0x8000_0000, 16)).expect(rt, "not the same");
}

#[test]
fn cases(rt: HostRuntime) {
    let case = halts(&rt, rt.alloc(), [0, 1, 2, 3]);
    has_map(&rt, &case.map());
    has_card(&rt, &case);
    compares_all(&rt, rt.alloc(), &case);
    let case = case.with_pc();
    has_flags(&rt, &case, (true, false, 2));
    let case = case.with_ram_code();
    has_flags(&rt, &case, (true, true, 4));
    has_the_rest(&rt, &case);
    drop(case);
}

// Returns the totals after weights are added one by one.
fn added() -> Totals {
    let mut totals = Totals::zero();
    totals.add(Outcome::NoEffect, 4376);
    totals.add(Outcome::Silent, 10);
    totals.add(Outcome::Detected, 2);
    totals.add(Outcome::Address, 60);
    totals.add(Outcome::Misaligned, 2);
    totals.add(Outcome::Address, 30);
    totals
}

static TOTALS: [(Outcome, u64); 7] = [
    (Outcome::NoEffect, 4376),
    (Outcome::Silent, 10),
    (Outcome::Detected, 2),
    (Outcome::Illegal, 0),
    (Outcome::Address, 90),
    (Outcome::Misaligned, 2),
    (Outcome::Timeout, 0),
];

fn has_totals(rt: &impl Abort, totals: &Totals) {
    for (outcome, total) in TOTALS {
        same(outcome, totals.get(outcome), total).expect(rt, "not the same");
    }
}

#[test]
fn totals(rt: HostRuntime) {
    let totals = added();
    has_totals(&rt, &totals);
    same("the sum", totals.sum(), 4480).expect(&rt, "not the same");
}

fn has(rt: &impl Abort, at: usize, touches: &Touches, cells: &[(u32, bool)]) {
    same(at, touches.len() as usize, cells.len()).expect(rt, "not the same");
    for i in 0..touches.len() {
        let (cell, reads) = cells[i as usize];
        same((at, i), touches.get(i), Touch { cell, reads }).expect(rt, "not the same");
    }
}

// Returns whether these are parts of an instruction whose cells have numbers.
fn fits(code: Option<u32>, access: Access) -> bool
    ensures code { result ≡ true → IfSome code (λ first. first + 4 < 2 ^ 32) }
    ensures access { result ≡ true → FitsAccess access }
{
    code.is_none_or(|first| first < 100)
        && match access {
            Access::Nothing => true,
            Access::Loads(_, first) | Access::Stores(_, first) => first < 100,
        }
}

// What an instruction touches. Given are whether the pc is a cell, the first cell of its word in RAM, its two
// sources, its destination and its access to RAM. The result is the cells that it touches, with whether it reads
// them.
struct Touching {
    pc: bool,
    code: Option<u32>,
    registers: (u8, u8, u8),
    access: Access,
    cells: &'static [(u32, bool)],
}

static TOUCHES: [Touching; 7] = [
    // fence
    Touching {
        pc: false,
        code: None,
        registers: (0, 0, 0),
        access: Access::Nothing,
        cells: &[],
    },
    // addi x2,x2,-1
    Touching {
        pc: false,
        code: None,
        registers: (2, 0, 2),
        access: Access::Nothing,
        cells: &[(2, true)],
    },
    // add x5,x9,x7
    Touching {
        pc: false,
        code: None,
        registers: (9, 7, 5),
        access: Access::Nothing,
        cells: &[(5, false), (7, true), (9, true)],
    },
    // lh x4,8(x3), the pc a cell
    Touching {
        pc: true,
        code: None,
        registers: (3, 0, 4),
        access: Access::Loads(Size::Half, 40),
        cells: &[(0, true), (3, true), (4, false), (40, true), (41, true)],
    },
    // sb x2,1(x3)
    Touching {
        pc: false,
        code: None,
        registers: (3, 2, 0),
        access: Access::Stores(Size::Byte, 33),
        cells: &[(2, true), (3, true), (33, false)],
    },
    // sh x2,2(x3), over two bytes of its own word in RAM
    Touching {
        pc: false,
        code: Some(32),
        registers: (3, 2, 0),
        access: Access::Stores(Size::Half, 34),
        cells: &[
            (2, true),
            (3, true),
            (32, true),
            (33, true),
            (34, true),
            (35, true),
        ],
    },
    // sw x2,4(x3), after its own word in RAM
    Touching {
        pc: false,
        code: Some(32),
        registers: (3, 2, 0),
        access: Access::Stores(Size::Word, 36),
        cells: &[
            (2, true),
            (3, true),
            (32, true),
            (33, true),
            (34, true),
            (35, true),
            (36, false),
            (37, false),
            (38, false),
            (39, false),
        ],
    },
];

#[test]
fn touches(rt: HostRuntime) {
    for (i, row) in TOUCHES.as_slice().iter().enumerate() {
        assert!(rt; fits(row.code, row.access));
        let (rs1, rs2, rd) = row.registers;
        let touches = Touches::new(row.pc, row.code, rs1, rs2, rd, row.access);
        has(&rt, i, &touches, row.cells);
    }
}

// Events, and whether a run continues after each.
static ENDS: [(Event, bool); 4] = [
    (Event::Went, true),
    (Event::Out(65), true),
    (Event::Halted(0), false),
    (Event::Detected, false),
];

fn numbers(rt: &impl Abort) {
    for (number, cell) in [(0, Cell::Pc), (31, Cell::Reg(31)), (32, Cell::Ram(0))] {
        same(number, cell_at(number), cell).expect(rt, "not the same");
    }
}

#[test]
fn numbers_of_cells(rt: HostRuntime) {
    numbers(&rt);
    for (event, goes_on) in ENDS {
        same(event, event.goes_on(), goes_on).expect(&rt, "not the same");
    }
}

#[test]
fn verdicts(rt: HostRuntime) {
    let map = small_map().expect(&rt, "a map");
    let case = Case::blank(rt.alloc(), &map, 0x2000_0000, 100).expect(&rt, "memory");
    let row = Row {
        cycle: 0,
        cell: 1,
        bit: 0,
        outcome: Outcome::Illegal,
    };
    let verdict = Verdict::of(&case, row);
    let found = (verdict.row(), same_case(verdict.case(), &case));
    same("the verdict", found, (row, true)).expect(&rt, "not the same");
    drop(case);
}
