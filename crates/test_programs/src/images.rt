//! Images of short programs.

use crate::{NoCase, ROM};
use std::alloc::Global;

/// Bytes to load at an address.
#[derive(Clone, Copy)]
pub struct Segment<'a> {
    pub at: u32,
    pub bytes: &'a [u8],
}

// The file header before the entry field, and after it.
const HEAD: [u8; 24] = [
    0x7f, 0x45, 0x4c, 0x46, 1, 1, 1, 0, 0, 0, 0, 0, 0, 0, 0, 0, 2, 0, 0xf3, 0, 1, 0, 0, 0,
];

const TABLE: [u8; 16] = [52, 0, 0, 0, 0, 0, 0, 0, 0, 0, 0, 0, 52, 0, 32, 0];

fn put(image: &mut Vec<u8>, word: u32) -> Result<(), NoCase> {
    image.extend_from_slice(&word.to_le_bytes())?;
    Ok(())
}

/// Returns the bytes of these words.
pub fn code(alloc: Global, words: &[u32]) -> Result<Vec<u8>, NoCase> {
    let mut bytes = Vec::new(alloc);
    for word in words {
        put(&mut bytes, *word)?;
    }
    Ok(bytes)
}

/// Returns an executable file of these segments, which follow each other in the file.
pub fn image(alloc: Global, entry: u32, segments: &[Segment]) -> Result<Vec<u8>, NoCase> {
    let mut image = Vec::new(alloc);
    let Ok(count) = u8::try_from(segments.len()) else {
        return Err(NoCase::NotPossible);
    };
    image.extend_from_slice(&HEAD)?;
    put(&mut image, entry)?;
    image.extend_from_slice(&TABLE)?;
    image.extend_from_slice(&[count, 0, 0, 0, 0, 0, 0, 0])?;
    let mut offset = 52 + 32 * count as u32;
    for segment in segments {
        let Ok(size) = u32::try_from(segment.bytes.len()) else {
            return Err(NoCase::NotPossible);
        };
        for word in [1, offset, segment.at, segment.at, size, size, 5, 4] {
            put(&mut image, word)?;
        }
        offset = offset.wrapping_add(size);
    }
    for segment in segments {
        image.extend_from_slice(segment.bytes)?;
    }
    Ok(image)
}

/// Returns the executable file of a program at the start of ROM.
pub fn program(alloc: Global, words: &[u32]) -> Result<Vec<u8>, NoCase> {
    let bytes = code(alloc, words)?;
    image(
        alloc,
        ROM,
        &[Segment {
            at: ROM,
            bytes: &bytes,
        }],
    )
}
