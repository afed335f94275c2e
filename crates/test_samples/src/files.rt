//! Compiled lexicon files: GADDAGs.

use std::alloc::{AllocError, Global};

/// The bytes of a file of these 32-bit words, each with its lowest byte first: the name of the format, the number of arcs or of words of
/// nodes, the root and the number of listed words, and then the arcs or the nodes.
#[macro_export]
macro_rules! file_bytes {
    ($($word:expr),* $(,)?) => {
        [$(
            ($word & 0xff_u32) as u8,
            (($word & 0xff00_u32) >> 8) as u8,
            (($word & 0xff_0000_u32) >> 16) as u8,
            (($word & 0xff00_0000_u32) >> 24) as u8,
        )*]
    };
}

/// `GAD1`, as the first word of a file.
pub const GAD1: u32 = 0x3144_4147;

/// `GAD2`, as the first word of a file.
pub const GAD2: u32 = 0x3244_4147;

/// The file of the empty list.
pub const EMPTY: [u8; 16] = file_bytes![GAD1, 0, 0, 0];

/// The file of the word AT, whose paths are A+T and TA.
pub const AT: [u8; 36] = file_bytes![GAD1, 5, 4, 1, 0x74, 0xc0, 0x61, 0x101, 0x1d4];

/// The file of the words AT and IT, whose paths are A+T, I+T, TA and TI, with the node of +T shared.
pub const AT_IT: [u8; 44] = file_bytes![GAD1, 7, 5, 2, 0x74, 0xc0, 0x21, 0x69, 0x101, 0x109, 0x1d4];

/// The GAD2 file of the empty list.
pub const EMPTY_BY_NODES: [u8; 16] = file_bytes![GAD2, 0, 0, 0];

/// The GAD2 file of the word AT. Its four nodes have the labels T, the mark, A, and A and T, the last being the root.
pub const AT_BY_NODES: [u8; 68] = file_bytes![
    GAD2, 13, 10, 1, 0x80100000, 0x100000, 0, 0x80000001, 0, 1, 0x80000002, 2, 0, 0x80100002, 0, 4,
    7,
];

/// The GAD2 file of the words AT and IT. Its nodes have the labels T, the mark, A and I, and A, I and T; the second is the
/// target of A and of I.
pub const AT_IT_BY_NODES: [u8; 76] = file_bytes![
    GAD2, 15, 11, 2, 0x80100000, 0x100000, 0, 0x80000001, 0, 1, 0x80000202, 0x202, 0, 0,
    0x80100202, 0, 4, 4, 7,
];

/// The bytes of a file of these words, each with its lowest byte first.
pub fn file_of(alloc: Global, words: &[u32]) -> Result<Vec<u8>, AllocError> {
    let mut bytes = Vec::new(alloc);
    for word in words {
        bytes.extend_from_slice(&word.to_le_bytes())?;
    }
    Ok(bytes)
}

/// A file of 25 nodes with the arcs A and B. Those of the first node accept and have no target; those of each further
/// node do not accept, and their target is the node before. So a great many strings are spelt, and none of them has a
/// mark.
pub fn count_walks(alloc: Global) -> Result<Vec<u8>, AllocError> {
    let mut words: [u32; 54] = [0; 54];
    words[0] = GAD1;
    words[1] = 50;
    words[2] = 49;
    words[3] = 1;
    words[4] = 1 + 32;
    words[5] = 2 + 32 + 64;
    for node in 2..=25_u32 {
        let target = 2 * node - 3;
        let place = 2 * node as usize + 2;
        words[place] = 1 + 128 * target;
        words[place + 1] = 2 + 64 + 128 * target;
    }
    file_of(alloc, &words)
}
