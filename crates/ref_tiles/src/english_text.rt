//! The English rules as a text.
/// The English game as a rules text: [`Rules::read`](crate::Rules::read) reads it as [`ENGLISH`](crate::ENGLISH).
#[rattlefmt::skip]
pub const ENGLISH_TEXT: &[u8] = b"\
tile A 9 1\n\
tile B 2 3\n\
tile C 2 3\n\
tile D 4 2\n\
tile E 12 1\n\
tile F 2 4\n\
tile G 3 2\n\
tile H 2 4\n\
tile I 9 1\n\
tile J 1 8\n\
tile K 1 5\n\
tile L 4 1\n\
tile M 2 3\n\
tile N 6 1\n\
tile O 8 1\n\
tile P 2 3\n\
tile Q 1 10\n\
tile R 6 1\n\
tile S 4 1\n\
tile T 6 1\n\
tile U 4 1\n\
tile V 2 4\n\
tile W 2 4\n\
tile X 1 8\n\
tile Y 2 4\n\
tile Z 1 10\n\
tile ? 2 0\n\
row 1 T..d...T...d..T\n\
row 2 .D...t...t...D.\n\
row 3 ..D...d.d...D..\n\
row 4 d..D...d...D..d\n\
row 5 ....D.....D....\n\
row 6 .t...t...t...t.\n\
row 7 ..d...d.d...d..\n\
row 8 T..d...D...d..T\n\
row 9 ..d...d.d...d..\n\
row 10 .t...t...t...t.\n\
row 11 ....D.....D....\n\
row 12 d..D...d...D..d\n\
row 13 ..D...d.d...D..\n\
row 14 .D...t...t...D.\n\
row 15 T..d...T...d..T\n\
bonus 50\n\
exchange_min 7\n\
zero_limit 6\n\
challenge_unit 5\n\
time_step 5\n";
