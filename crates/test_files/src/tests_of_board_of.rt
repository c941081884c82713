//! The board that the bytes of a campaign file give, or their refusal.
use super::shards::{listed, sending};
use keep_format::{FormatFault, write_header};
use result_keeper::{BoardRefusal, KeepRefusal, board_of};
use std::alloc::Global;
use std::test::Fail;
use test_asserts::same;

// Returns the number of outcomes on the board that the bytes give for a case, or their refusal.
fn kept_of(alloc: Global, bytes: &[u8]) -> Result<Result<u32, BoardRefusal>, Fail> {
    let case = sending(alloc, 100)?;
    let list = listed(alloc, &case)?;
    Ok(board_of(alloc, bytes, &case, &list).map(|board| board.kept()))
}

// Returns a campaign file without rows for a case with this limit: a header, a card, and a closed gate.
fn begun(alloc: Global, limit: u32) -> Result<Vec<u8>, Fail> {
    let case = sending(alloc, limit)?;
    let mut bytes = Vec::new(alloc);
    write_header(&case, &mut bytes)?;
    Ok(bytes)
}

const NONE: KeepRefusal = KeepRefusal::Format(FormatFault::NotACampaign);

const CUT: KeepRefusal = KeepRefusal::Format(FormatFault::Cut);

const OTHER: KeepRefusal = KeepRefusal::OtherCase { at: 21 };

#[test]
fn boards_of_bytes(rt: HostRuntime) -> Result<(), Fail> {
    let alloc = rt.alloc();
    same("no bytes", kept_of(alloc, &[])?, Ok(0)).expect(&rt, "not the same");
    let elf = kept_of(alloc, b"\x7fELF")?;
    same("an image", elf, Err(BoardRefusal::Refused(NONE))).expect(&rt, "not the same");
    let mut file = begun(alloc, 100)?;
    same("begun", kept_of(alloc, &file)?, Ok(0)).expect(&rt, "not the same");
    file.truncate(118);
    let cut = kept_of(alloc, &file)?;
    same("cut", cut, Err(BoardRefusal::Refused(CUT))).expect(&rt, "not the same");
    let other = kept_of(alloc, &begun(alloc, 99)?)?;
    same("limit 99", other, Err(BoardRefusal::Refused(OTHER))).expect(&rt, "not the same");
    Ok(())
}
