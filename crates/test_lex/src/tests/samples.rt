//! The bytes of compiled lexicons, worked by hand, and word lists.
use test_samples::{GAD1, file_bytes};

/// The file of the words AT and ATE, whose paths are A+T, A+TE, ETA, TA and TA+E.
pub const AT_ATE: [u8; 56] = file_bytes![
    GAD1, 10, 8, 2, 0x65, 0xf4, 0x140, 0x61, 0x254, 0xc0, 0x361, 0x181, 0x285, 0x3d4,
];

/// The file of the words AT and ATE with the node of the letter E stored twice.
pub const AT_ATE_APART: [u8; 60] = file_bytes![
    GAD1, 11, 9, 2, 0x65, 0x65, 0xf4, 0x1c0, 0x61, 0x2d4, 0x140, 0x3e1, 0x201, 0x305, 0x454,
];

/// The file of the word AT with the string B, which is not a path.
pub const AT_AND_MORE: [u8; 40] = file_bytes![GAD1, 6, 4, 1, 0x74, 0xc0, 0x61, 0x101, 0x22, 0x1d4];

/// Word lists whose files are built, and then checked against them or seen at once.
pub const LISTS: [&[u8]; 8] = [
    b"",
    b"AT",
    b"AT\nTA",
    b"STAR\nRATS\nARTS\nTSAR",
    b"ABCDEFGHIJKLMNO\nONMLKJIHGFEDCBA\nAAAAAAAAAAAAAAA",
    b"AA\nAAA\nAAAA\nAAAAA\nAAAAAA",
    b"ZZ\nZA\nAZ\nAA\nZAZ\nAZA",
    b"CARE\nCARES\nCARED\nBARE\nBARES\nBARED\nCARING\nBARING",
];
