//! The bases and sizes of ROM and RAM.
ghost use Rattle.std.specs.Prelude.{◌≡◌, ◌+◌, ◌<◌, IfOk};
ghost use Rattle.std.specs.Result.{result_err};
ghost use Rattle.fs_model.specs.Map.{overlaps, map_fault};

use std::marker::Model;

/// The first rule that two regions break.
#[derive(Clone, Copy, PartialEq, Eq, Debug)]
pub enum MapFault {
    /// A base or a size is not divisible by 4.
    Unaligned,
    /// The size of ROM is not 4 to 262,144 bytes, or that of RAM not 4 to 65,536.
    Size,
    /// A region ends past 2^32.
    Wraps,
    /// The regions share an address with each other or with the page of the ports.
    Overlap,
}

/// The bases and sizes of ROM and RAM: two regions that share no address with each other or with the ports.
#[derive(Clone, Copy)]
pub struct Map {
    rom_base: u32,
    rom_size: u32,
    ram_base: u32,
    ram_size: u32,
}

impl Model for Map {
    ghost use Rattle.fs_model.specs.Map.{MapData, IsMap};

    ghost Value = { MapData };

    ghost view = { λ m. record { rom_base = m.rom_base; rom_size = m.rom_size; ram_base = m.ram_base; ram_size = m.ram_size } };

    ghost invariant = { λ m. IsMap m.rom_base m.rom_size m.ram_base m.ram_size };

    ghost inverse = { λ m. record { rom_base = m.rom_base; rom_size = m.rom_size; ram_base = m.ram_base; ram_size = m.ram_size } };
}

// The largest sizes of ROM and of RAM.
const MAX_ROM: u32 = 262_144;

const MAX_RAM: u32 = 65_536;

// The page of the ports.
const PORT_PAGE: u32 = 0xf000_0000;

const PORT_PAGE_SIZE: u32 = 4096;

// The number of addresses.
const ADDRESSES: u64 = 0x1_0000_0000;

// Returns the address after a region.
fn end(base: u32, size: u32) -> u64
    ensures { result ≡ base + size }
{
    base as u64 + size as u64
}

// Returns whether the two regions, whose sizes are above 0, share an address.
fn overlap(base: u32, size: u32, other: u32, other_size: u32) -> bool
    ensures { result ≡ overlaps base size other other_size }
{
    (base as u64) < end(other, other_size) && (other as u64) < end(base, size)
}

impl Map {
    ghost use Rattle.fs_model.specs.Map.{IsMap};

    /// Returns the map of these regions, or the first rule that they break.
    pub fn new(rom_base: u32, rom_size: u32, ram_base: u32, ram_size: u32) -> Result<Map, MapFault>
        ensures ok { IfOk result (λ m. m ≡ record { rom_base = rom_base; rom_size = rom_size; ram_base = ram_base; ram_size = ram_size }) }
        ensures fault { result_err result ≡ map_fault rom_base rom_size ram_base ram_size }
    {
        if rom_base % 4 != 0 || rom_size % 4 != 0 || ram_base % 4 != 0 || ram_size % 4 != 0 {
            return Err(MapFault::Unaligned);
        }
        if rom_size < 4 || rom_size > MAX_ROM || ram_size < 4 || ram_size > MAX_RAM {
            return Err(MapFault::Size);
        }
        if end(rom_base, rom_size) > ADDRESSES || end(ram_base, ram_size) > ADDRESSES {
            return Err(MapFault::Wraps);
        }
        if overlap(rom_base, rom_size, ram_base, ram_size)
            || overlap(rom_base, rom_size, PORT_PAGE, PORT_PAGE_SIZE)
            || overlap(ram_base, ram_size, PORT_PAGE, PORT_PAGE_SIZE)
        {
            return Err(MapFault::Overlap);
        }
        Ok(Map {
            rom_base,
            rom_size,
            ram_base,
            ram_size,
        })
    }

    // Returns the map of these regions, which break no rule.
    pub(crate) fn of_regions(rom_base: u32, rom_size: u32, ram_base: u32, ram_size: u32) -> Map
        requires { IsMap rom_base rom_size ram_base ram_size }
        ensures { result ≡ record { rom_base = rom_base; rom_size = rom_size; ram_base = ram_base; ram_size = ram_size } }
    {
        Map {
            rom_base,
            rom_size,
            ram_base,
            ram_size,
        }
    }

    /// Returns the first address of ROM.
    pub fn rom_base(&self) -> u32
        ensures { result ≡ self.now.rom_base }
    {
        self.rom_base
    }

    /// Returns the size of ROM in bytes.
    pub fn rom_size(&self) -> u32
        ensures { result ≡ self.now.rom_size }
    {
        self.rom_size
    }

    /// Returns the first address of RAM.
    pub fn ram_base(&self) -> u32
        ensures { result ≡ self.now.ram_base }
    {
        self.ram_base
    }

    /// Returns the size of RAM in bytes.
    pub fn ram_size(&self) -> u32
        ensures { result ≡ self.now.ram_size }
    {
        self.ram_size
    }

    /// Does nothing. Its contract states that a map breaks no rule.
    pub fn facts(&self)
        ensures { IsMap self.now.rom_base self.now.rom_size self.now.ram_base self.now.ram_size }
    {
        let _rom_base = &self.rom_base;
    }
}
