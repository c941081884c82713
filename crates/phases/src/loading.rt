//! Loading the image of a line as a case.
ghost use Rattle.std.specs.Prelude.{◌≡◌, ◌≤◌, false, true, length, IfOk, IfErr};
ghost use Rattle.fs_model.specs.Card.{HasCard};
ghost use Rattle.fs_outside.specs.Faults.{IsCaused};
ghost use Rattle.command_line.specs.Line.{case_in, case_of, command_in, request_of};
ghost use Rattle.command_line.specs.Commands.{names_image};
ghost use Rattle.phases.specs.Demo.{demo_image};
ghost use Rattle.phases.specs.Failures.{status_for, status_of};
ghost use Rattle.phases.specs.Loading.{IsImageCause, LoadsBy, flagged, image_bytes, max_image};
ghost use Rattle.phases.specs.Status.{IsImageStatus, is_read_fault};

use crate::demo::demo_image;
use crate::failure::{Failure, ImageReason};
use command_line::{CaseLine, Program, Request};
use elf_loader::{ReadRefusal, load, read_image};
use fs_model::Case;
use fs_outside::Source;
use std::alloc::Global;

/// The image of a line, loaded.
#[derive(Drop)]
pub struct Loaded {
    pub bytes: Vec<u8>,
    /// The case of the bytes under the line's map, limit and flags.
    pub case: Case,
    ghost card: { HasCard case },
    ghost sized: { 52 ≤ length bytes.items },
}

/// Gives a proof the facts about the numbers of every case.
pub(crate) fn facts(case: &Case)
    ensures { HasCard case.now }
{
    case.facts();
    let _entry = case.entry();
}

// Returns a case with the flags of the line in place of its own, which are not set.
fn flagged(asked: &CaseLine<'_>, case: Case) -> Case
    requires { (case.pc_cell ≡ false) × (case.ram_code ≡ false) }
    ensures { result ≡ flagged (case_of asked.now) case }
{
    let case = if asked.pc_cell { case.with_pc() } else { case };
    if asked.ram_code {
        case.with_ram_code()
    } else {
        case
    }
}

// Returns the case of the bytes.
fn case_in(alloc: Global, asked: &CaseLine<'_>, bytes: &[u8]) -> Result<Case, Failure>
    requires { length bytes.now ≤ max_image }
    ensures loads { IfOk result (λ case. LoadsBy (case_of asked.now) bytes.now case) }
    ensures card { IfOk result HasCard }
    ensures sized { IfOk result (λ _. 52 ≤ length bytes.now) }
    ensures refused { IfErr result (λ why. IsImageCause (case_of asked.now) bytes.now (status_for why)) }
    ensures no_fault { is_read_fault (status_of result) ≡ false }
{
    let bare = load(alloc, bytes, &asked.map, asked.limit)?;
    let case = flagged(asked, bare);
    facts(&case);
    Ok(case)
}

// Returns these bytes with their case.
fn load_bytes(alloc: Global, asked: &CaseLine<'_>, bytes: Vec<u8>) -> Result<Loaded, Failure>
    requires { length bytes.items ≤ max_image }
    ensures loads { IfOk result (λ loaded. LoadsBy (case_of asked.now) bytes.items loaded.case) }
    ensures bytes { IfOk result (λ loaded. loaded.bytes.items ≡ bytes.items) }
    ensures refused { IfErr result (λ why. IsImageCause (case_of asked.now) bytes.items (status_for why)) }
    ensures no_fault { is_read_fault (status_of result) ≡ false }
{
    let case = case_in(alloc, asked, bytes.as_slice())?;
    Ok(Loaded { bytes, case })
}

/// Reads the rest of the source as the image, and returns it with its case.
///
/// # Errors
///
/// `ReadFault` if the source failed, `BadImage` with the reason, or `NoMemory`.
pub fn load_case<S: Source>(
    alloc: Global,
    asked: &CaseLine<'_>,
    source: &mut S,
) -> Result<Loaded, Failure>
    ensures loads { S.tells → IfOk result (λ loaded. LoadsBy (case_of asked.now) (S.left source.old) loaded.case) }
    ensures bytes { S.tells → IfOk result (λ loaded. loaded.bytes.items ≡ S.left source.old) }
    ensures refused { S.tells → IfErr result (λ why. IsImageCause (case_of asked.now) (S.left source.old) (status_for why)) }
    ensures of_image { IfErr result (λ why. IsImageStatus (status_for why)) }
    ensures faults { IsCaused (is_read_fault (status_of result)) (S.faults source.old) (S.faults source.new) }
{
    match read_image(alloc, source) {
        Ok(bytes) => load_bytes(alloc, asked, bytes),
        Err(ReadRefusal::ReadFault) => Err(Failure::ReadFault),
        Err(ReadRefusal::TooLong) => Err(Failure::BadImage(ImageReason::TooLong)),
        Err(ReadRefusal::NoMemory) => Err(Failure::NoMemory),
    }
}

// Makes the image of a generated program.
fn load_made(alloc: Global, asked: &CaseLine<'_>, program: &Program) -> Result<Loaded, Failure>
    ensures loads { IfOk result (λ loaded. LoadsBy (case_of asked.now) (demo_image program.now.seed program.now.blocks) loaded.case) }
    ensures bytes { IfOk result (λ loaded. loaded.bytes.items ≡ demo_image program.now.seed program.now.blocks) }
    ensures refused { IfErr result (λ why. IsImageCause (case_of asked.now) (demo_image program.now.seed program.now.blocks) (status_for why)) }
    ensures no_fault { is_read_fault (status_of result) ≡ false }
    ensures of_image { IfErr result (λ why. IsImageStatus (status_for why)) }
{
    let bytes = demo_image(alloc, program.seed, program.blocks)?;
    load_bytes(alloc, asked, bytes)
}

/// Reads or makes the image of the request, and returns it with its case.
///
/// # Errors
///
/// `ReadFault` if the source failed, `BadImage` with the reason, or `NoMemory`.
pub fn load_line<S: Source>(
    alloc: Global,
    request: &Request<'_>,
    source: &mut S,
) -> Result<Loaded, Failure>
    ensures loads { (names_image (command_in (request_of request.now)) ≡ true → S.tells)
        → IfOk result (λ loaded. LoadsBy (case_in (request_of request.now)) (image_bytes (request_of request.now) (S.left source.old)) loaded.case) }
    ensures bytes { (names_image (command_in (request_of request.now)) ≡ true → S.tells)
        → IfOk result (λ loaded. loaded.bytes.items ≡ image_bytes (request_of request.now) (S.left source.old)) }
    ensures refused { (names_image (command_in (request_of request.now)) ≡ true → S.tells)
        → IfErr result (λ why. IsImageCause (case_in (request_of request.now)) (image_bytes (request_of request.now) (S.left source.old)) (status_for why)) }
    ensures of_image { IfErr result (λ why. IsImageStatus (status_for why)) }
    ensures faults { IsCaused (is_read_fault (status_of result)) (S.faults source.old) (S.faults source.new) }
    ensures no_image { names_image (command_in (request_of request.now)) ≡ false → source.new ≡ source.old }
{
    match request {
        Request::Demo(case, program) => load_made(alloc, case, program),
        _ => load_case(alloc, request.case(), source),
    }
}
