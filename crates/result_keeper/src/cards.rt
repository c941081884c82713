//! Comparing the card of a file with that of a case.
ghost use Rattle.std.specs.Prelude.{◌≡◌};
ghost use Rattle.result_keeper.specs.Acceptance.{difference};
ghost use Rattle.fs_model.specs.Card.{card};

use fs_model::Case;

/// Returns the least index at which a card differs from that of the case.
pub(crate) fn find_difference(bytes: &[u8], case: &Case) -> Option<u64>
    ensures { result ≡ difference bytes.now (card case.now) }
{
    let len = case.card_len();
    for (i, byte) in bytes.iter().enumerate() {
        if i >= len as usize {
            return Some(i as u64);
        }
        if *byte != case.card_at(i as u32) {
            return Some(i as u64);
        }
    }
    if bytes.len() < len as usize {
        return Some(bytes.len() as u64);
    }
    None
}
