//! The boards and racks for which the generator's plays are compared with those of a plain search.
use super::boards::{Laid, WORD_AT};

/// The words of a list, the tiles on a board, a rack, and how many plays there are, by an independent search
/// (`oracle/judge/best.py`).
pub type Case<'a> = (&'a [u8], &'a [Laid], &'a [u8], usize);

const WORD: [Laid; 1] = ["8E WORD"];

const RETAINS: [Laid; 1] = ["8D RETAINS"];

/// The boards and racks of games that were worked by hand.
pub const CASES: [Case<'static>; 25] = [
    (b"WORD", &[], b"DORWAAE", 8),
    (b"WORD", &[], b"DOW?", 8),
    (b"RETAINS", &[], b"AEINRST", 14),
    (b"AT", &[], b"?A", 4),
    (b"QI", &[], b"AEOUUTT", 0),
    (b"AT\nRA\nWORD", &WORD, b"AT", 1),
    (b"AT\nDT\nRA\nWORD", &WORD, b"AT", 3),
    (b"DT\nRA\nWORD", &WORD, b"AT", 2),
    (b"DT\nRA\nWORD", &WORD, b"T", 1),
    (b"SWORDS\nWORD", &WORD, b"?S", 2),
    (b"SWORD\nSWORDS\nWORD", &WORD, b"?S", 4),
    (b"RETAINS", &RETAINS, b"ADEORTW", 0),
    (b"RETAINS", &RETAINS, b"AEINRST", 7),
    (b"AT", &[], b"SX", 0),
    (b"AT", &[], b"??", 4),
    (b"AT\nEAT\nOE\nRA\nWORD", &WORD_AT, b"E", 1),
    (b"AT", &["8H AT"], b"AAABCDE", 1),
    (b"", &[], b"A", 0),
    (b"AT\nDT\nRA\nWORD", &[], b"DORWAAE", 12),
    (b"AT\nEAT\nOE\nRA\nWORD", &[], b"DORWAAE", 16),
    (b"AT", &[], b"???", 4),
    (b"AT", &[], b"ABCDEF?", 4),
    (b"AT", &[], b"AEINRST", 4),
    (b"QAT", &["8F QAT"], b"AE", 0),
    (b"AT", &["8H TA"], b"AT", 2),
];

const ABAS: &[u8] = b"AT\nTA\nABAS\nTABA";

/// Plays of eight words, at the edges too.
const EIGHT: [Laid; 9] = [
    "8E WORD",
    "9G AT",
    "G10 ES",
    "10E TO",
    "10H S",
    "1A ABAS",
    "15I RETAINS",
    "O14 A",
    "A2 A",
];

/// The boards after the last play of games that were worked by hand, and those of the tables of cross-sets.
pub const PLAYED: [Case<'static>; 14] = [
    (b"WORD", &["H8 WORD"], b"DORWAAE", 4),
    (b"QAT", &["8F QAT"], b"AQT", 3),
    (b"AT\nRA\nWORD\nWORDS", &["8E WOrD"], b"AST", 2),
    (b"AT\nRA\nWORD\nWORDS", &["8E WORDS"], b"ART", 1),
    (b"AT\nEAT\nOE\nRA\nWORD", &["8E WORD", "9G At"], b"E", 1),
    (b"AT\nEAT\nOE\nRA\nWORD", &["8E WORD", "9F EAT"], b"AEOT", 0),
    (b"RETAINS", &["8B RETAINS"], b"AEINRST", 7),
    (b"RETAINS", &["8E RETAINS"], b"ADEORTW", 0),
    (b"RETAINS", &["8E RETAINS"], b"AEINRS?", 13),
    (ABAS, &["8G A", "8I A"], b"BST?", 40),
    (ABAS, &["8G ABA"], b"ABST", 20),
    (ABAS, &["8G aBA"], b"ABST", 20),
    (b"AT\nRA\nRAT\nWORD", &WORD_AT, b"ART?", 9),
    (
        b"AA\nAT\nEAT\nOE\nORE\nRA\nRETAINS\nSTOAE\nTOES\nWORDS",
        &EIGHT,
        b"AEST?",
        21,
    ),
];

/// Tiles on all four edges; two corners are free.
const EDGES: [Laid; 4] = [
    "1A TATATATATATATA",
    "15B TATATATATATATA",
    "A2 ATATATATATATA",
    "O2 TATATATATATAT",
];

/// Every other square of a row.
const GAPS: [Laid; 8] = [
    "8A A", "8C A", "8E A", "8G A", "8I A", "8K A", "8M A", "8O A",
];

/// All squares but the last one.
const FULL: [Laid; 15] = [
    "1A AAAAAAAAAAAAAAA",
    "2A AAAAAAAAAAAAAAA",
    "3A AAAAAAAAAAAAAAA",
    "4A AAAAAAAAAAAAAAA",
    "5A AAAAAAAAAAAAAAA",
    "6A AAAAAAAAAAAAAAA",
    "7A AAAAAAAAAAAAAAA",
    "8A AAAAAAAAAAAAAAA",
    "9A AAAAAAAAAAAAAAA",
    "10A AAAAAAAAAAAAAAA",
    "11A AAAAAAAAAAAAAAA",
    "12A AAAAAAAAAAAAAAA",
    "13A AAAAAAAAAAAAAAA",
    "14A AAAAAAAAAAAAAAA",
    "15A AAAAAAAAAAAAAA",
];

/// Words that no list has, apart from one another.
const APART: [Laid; 5] = ["1D Q", "O4 Z", "10A zz", "13M QT", "15D Z"];

/// Boards on which no game could stand, and a rack of eight tiles, of which a play takes at most seven.
pub const NO_GAME: [Case<'static>; 11] = [
    (b"AT\nTA", &["1A a", "15O T"], b"AT", 8),
    (
        b"ABCDEFGHIJKLMNO\nBCDEFGHIJKLMN",
        &["8B BCDEFGHIJKLMN"],
        b"AO",
        1,
    ),
    (b"ATATATATATATATA\nTATATATATATATAA", &EDGES, b"AT?", 4),
    (b"AT\nATA\nTA\nTAT", &EDGES, b"AT?", 428),
    (b"ABABABABABABABA", &GAPS, b"BBBBBBB", 1),
    (b"ABABABABABABABA", &GAPS, b"BBBBB??", 21),
    (b"AAAAAAAAAAAAAAA", &FULL, b"A?", 2),
    (b"AAAAAAAAAAAAAAB", &FULL, b"A?", 1),
    (b"AT\nTA\nZAT", &APART, b"AT", 8),
    (b"ABCDEFGH", &[], b"ABCDEFGH", 0),
    (b"ABCDEFGH", &["8H E"], b"ABCDEFGH", 2),
];

/// The new tiles of a whole game, in the order in which they came.
pub const GAME: [Laid; 41] = [
    "8E GAZE",
    "9G ONCE",
    "10F NOD",
    "10J FLOAT",
    "11K AID",
    "9M HAT",
    "O4 RESUL",
    "F6 Qu",
    "N2 WHEN",
    "O1 WE",
    "M2 OE",
    "G5 AI",
    "7H SAID",
    "H1 COURT",
    "6J KA",
    "G2 NY",
    "5K PE",
    "11C PILE",
    "D10 F",
    "D12 G",
    "C9 SI",
    "L4 N",
    "B7 AXE",
    "A7 Ja",
    "C6 EM",
    "C5 G",
    "D4 DUE",
    "5E T",
    "A9 Y",
    "E3 SI",
    "12E OT",
    "K12 B",
    "12H BUL",
    "13G VET",
    "H14 AM",
    "15F RI",
    "J13 O",
    "2I R",
    "14E IO",
    "I11 N",
    "E1 VI",
];

pub const LIST: &[u8] =
    b"AE\nAH\nAI\nAN\nAT\nAX\nBE\nDE\nEN\nER\nET\nEX\nHAT\nHE\nIN\nIS\nJA\nKA\nMA\nNA\nNE\nNO\nOE\nOR\nOX\nQUA\nRE\nSI\nSO\nTA\nUN\nUT\nWARN\nWE\nYA\nCORNU";

/// How many of these tiles are on the board, a rack, and how many plays there are.
pub const POSITIONS: [(usize, &[u8], usize); 9] = [
    (0, b"ADEGORZ", 24),
    (1, b"CELNOOT", 14),
    (5, b"AAHQRTW", 7),
    (7, b"AENQRW?", 80),
    (13, b"CNORTUU", 8),
    (20, b"EEISUUX", 1),
    (23, b"JRRRRS?", 20),
    (30, b"ILOOTUV", 0),
    (41, b"NRR", 0),
];
