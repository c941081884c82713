//! Answers to a person's questions, in words.
ghost use Rattle.std.specs.Prelude.{◌≡◌, ◌++◌, ◌+◌, ◌^◌, ◌<◌, ◌≤◌, [], ◌∷◌, IfOk, decimal, if◌then◌else◌, ◌==◌, length, slice_index};
ghost use Rattle.std.specs.Int.{w32, to_be_bytes};
ghost use Rattle.hex.specs.Hex.{encode_lower};
ghost use Rattle.fs_model.specs.Map.{max_ram};
ghost use Rattle.debug_session.specs.Words as spec;

use crate::numbers::address_bytes;
use crate::replies::put;
use crate::session::SiteFacts;
use fs_model::{NoMemory, Site};
use gdb_packets::push_hex;
use itoa::Buffer;
use rv_machine::Machine;

/// The most bytes of RAM that `diff` lists.
const LISTED: u32 = 64;

pub(crate) fn put_number(text: &mut Vec<u8>, number: u32) -> Result<(), NoMemory>
    ensures { IfOk result (λ _. text.new.items ≡ text.old.items ++ decimal number) }
{
    let mut buffer = Buffer::new();
    put(text, buffer.format(number).as_bytes())
}

/// Puts a number in eight hexadecimal digits.
pub(crate) fn put_address(text: &mut Vec<u8>, number: u32) -> Result<(), NoMemory>
    ensures { IfOk result (λ _. text.new.items ≡ text.old.items ++ spec.word_words number) }
{
    push_hex(text, &address_bytes(number))
}

fn put_cell(text: &mut Vec<u8>, site: Site) -> Result<(), NoMemory>
    ensures { IfOk result (λ _. text.new.items ≡ text.old.items ++ spec.cell_words site) }
{
    put(text, b"site cycle ")?;
    put_number(text, site.cycle)?;
    put(text, b" cell ")?;
    put_number(text, site.cell)?;
    put(text, b" bit ")?;
    put_number(text, site.bit as u32)
}

fn put_weight(text: &mut Vec<u8>, weight: Option<u32>) -> Result<(), NoMemory>
    ensures { IfOk result (λ _. text.new.items ≡ text.old.items ++ spec.weight_words weight) }
{
    match weight {
        Some(weight) => {
            put(text, b" weight ")?;
            put_number(text, weight)
        }
        None => put(text, b" dead"),
    }
}

fn put_facts(text: &mut Vec<u8>, facts: SiteFacts) -> Result<(), NoMemory>
    ensures { IfOk result (λ _. text.new.items ≡ text.old.items ++ spec.facts_words facts) }
{
    put_weight(text, facts.weight)?;
    put(text, b" outcome ")?;
    put(text, facts.outcome.word().as_bytes())
}

fn put_place(text: &mut Vec<u8>, place: u32) -> Result<(), NoMemory>
    ensures { IfOk result (λ _. text.new.items ≡ text.old.items ++ spec.place_words place) }
{
    put(text, b", here after ")?;
    put_number(text, place)?;
    put(text, b" instructions\n")
}

/// Appends the site, what is told of it, and the place.
pub(crate) fn put_site(
    text: &mut Vec<u8>,
    site: Site,
    facts: SiteFacts,
    place: u32,
) -> Result<(), NoMemory>
    ensures { IfOk result (λ _. text.new.items ≡ text.old.items ++ spec.site_words site facts place) }
{
    put_cell(text, site)?;
    put_facts(text, facts)?;
    put_place(text, place)
}

fn put_line(text: &mut Vec<u8>, name: &[u8], injected: u32, golden: u32) -> Result<(), NoMemory>
    ensures { IfOk result (λ _. text.new.items ≡ text.old.items ++ spec.line_words name.now injected golden) }
{
    put(text, name)?;
    put(text, b" ")?;
    put_address(text, injected)?;
    put(text, b" golden ")?;
    put_address(text, golden)?;
    put(text, b"\n")
}

// Appends the two pcs, if they differ.
fn put_pc(text: &mut Vec<u8>, injected: u32, golden: u32) -> Result<(), NoMemory>
    ensures { IfOk result (λ _. text.new.items ≡ text.old.items ++ spec.pc_words injected golden) }
{
    if injected == golden {
        return Ok(());
    }
    put_line(text, b"pc", injected, golden)
}

// Appends a register of the two states, if they differ in it.
fn put_register(text: &mut Vec<u8>, number: u32, injected: u32, golden: u32) -> Result<(), NoMemory>
    ensures { IfOk result (λ _. text.new.items ≡ text.old.items ++ spec.register_words number injected golden) }
{
    if injected == golden {
        return Ok(());
    }
    put(text, b"x")?;
    put_number(text, number)?;
    put_line(text, b"", injected, golden)
}

fn put_registers(
    text: &mut Vec<u8>,
    injected: &[u32; 32],
    golden: &[u32; 32],
) -> Result<(), NoMemory>
    ensures { IfOk result (λ _. text.new.items ≡ text.old.items ++ spec.registers_words injected.now golden.now 32) }
{
    for number in 0..32 {
        let mine = injected[number as usize];
        let yours = golden[number as usize];
        put_register(text, number, mine, yours)?;
    }
    Ok(())
}

fn put_ram_address(text: &mut Vec<u8>, address: u32) -> Result<(), NoMemory>
    ensures { IfOk result (λ _. text.new.items ≡ text.old.items ++ spec.ram_address_words address) }
{
    put(text, b"ram ")?;
    put_address(text, address)?;
    put(text, b" ")
}

fn put_bytes(text: &mut Vec<u8>, injected: u8, golden: u8) -> Result<(), NoMemory>
    ensures { IfOk result (λ _. text.new.items ≡ text.old.items ++ spec.pair_words injected golden) }
{
    push_hex(text, &[injected])?;
    put(text, b" golden ")?;
    push_hex(text, &[golden])?;
    put(text, b"\n")
}

// Appends a byte of the two states, if they differ in it and not too many are listed.
fn put_listed(
    text: &mut Vec<u8>,
    listed: u32,
    address: u32,
    injected: u8,
    golden: u8,
) -> Result<(), NoMemory>
    ensures { IfOk result (λ _. text.new.items ≡ text.old.items ++ spec.listed_words listed address injected golden) }
{
    if injected == golden {
        return Ok(());
    }
    if listed < LISTED {
        put_ram_address(text, address)?;
        put_bytes(text, injected, golden)
    } else {
        Ok(())
    }
}

// Returns 1 if the bytes differ, and 0 otherwise.
fn difference(injected: u8, golden: u8) -> u32
    ensures value { result ≡ (if injected == golden then 0 else 1) }
    ensures few { result ≤ 1 }
{
    if injected == golden { 0 } else { 1 }
}

fn put_ram_count(text: &mut Vec<u8>, count: u32) -> Result<(), NoMemory>
    ensures { IfOk result (λ _. text.new.items ≡ text.old.items ++ spec.ram_count_words count) }
{
    put(text, b"ram: ")?;
    put_number(text, count)
}

fn put_rest(text: &mut Vec<u8>, rest: u32) -> Result<(), NoMemory>
    ensures { IfOk result (λ _. text.new.items ≡ text.old.items ++ spec.rest_words rest) }
{
    put_ram_count(text, rest)?;
    put(text, b" more bytes\n")
}

// Appends how many bytes are not listed, if there are any.
fn put_more(text: &mut Vec<u8>, rest: u32) -> Result<(), NoMemory>
    ensures { IfOk result (λ _. text.new.items ≡ text.old.items ++ spec.more_words rest) }
{
    if rest == 0 {
        Ok(())
    } else {
        put_rest(text, rest)
    }
}

// Appends the first bytes of RAM in which the two states differ, and how many others do.
fn put_ram(text: &mut Vec<u8>, base: u32, injected: &[u8], golden: &[u8]) -> Result<(), NoMemory>
    requires same { length golden.now ≡ length injected.now }
    requires few { length injected.now ≤ max_ram }
    requires fits { base + length injected.now ≤ 2 ^ 32 }
    ensures { IfOk result (λ _. text.new.items ≡ text.old.items ++ spec.ram_words base injected.now golden.now) }
{
    let mut count: u32 = 0;
    for offset in 0..injected.len() {
        let mine = injected[offset];
        let yours = golden[offset];
        put_listed(text, count, base + offset as u32, mine, yours)?;
        count += difference(mine, yours);
    }
    put_more(text, count.saturating_sub(LISTED))
}

// Puts words in place of no text.
fn or_none(text: &mut Vec<u8>) -> Result<(), NoMemory>
    ensures { IfOk result (λ _. text.new.items ≡ spec.or_none text.old.items) }
{
    if text.is_empty() {
        text.clear();
        put(text, b"no difference\n")
    } else {
        Ok(())
    }
}

/// Puts into the empty text in what the state of the injected run differs from that of the golden run.
pub(crate) fn put_differences(
    text: &mut Vec<u8>,
    base: u32,
    injected: &Machine,
    golden: &Machine,
) -> Result<(), NoMemory>
    requires empty { text.old.items ≡ [] }
    requires case { injected.now.case ≡ golden.now.case }
    requires fits { base + length injected.now.case.ram ≤ 2 ^ 32 }
    ensures { IfOk result (λ _. text.new.items ≡ spec.difference_words base injected.now.core golden.now.core) }
{
    put_pc(text, injected.pc(), golden.pc())?;
    put_registers(text, injected.registers(), golden.registers())?;
    put_ram(text, base, injected.ram(), golden.ram())?;
    or_none(text)
}

// Appends the bytes that a run has sent.
fn put_sent(text: &mut Vec<u8>, name: &[u8], output: &[u8]) -> Result<(), NoMemory>
    ensures { IfOk result (λ _. text.new.items ≡ text.old.items ++ spec.sent_words name.now output.now) }
{
    put(text, name)?;
    push_hex(text, output)?;
    put(text, b"\n")
}

/// Appends the bytes that the two runs have sent.
pub(crate) fn put_output(text: &mut Vec<u8>, injected: &[u8], golden: &[u8]) -> Result<(), NoMemory>
    ensures { IfOk result (λ _. text.new.items ≡ text.old.items ++ spec.output_words injected.now golden.now) }
{
    put_sent(text, b"injected ", injected)?;
    put_sent(text, b"golden   ", golden)
}
