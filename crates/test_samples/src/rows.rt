//! The rows of the English board without tiles, as texts show it. What a test changes, most often row 8, is left out.

/// The names of the columns, and the rows 1 to 7.
pub const ROWS_1_TO_7: &str = "\
\x20  A B C D E F G H I J K L M N O
 1 = . . ' . . . = . . . ' . . =
 2 . - . . . \" . . . \" . . . - .
 3 . . - . . . ' . ' . . . - . .
 4 ' . . - . . . ' . . . - . . '
 5 . . . . - . . . . . - . . . .
 6 . \" . . . \" . . . \" . . . \" .
 7 . . ' . . . ' . ' . . . ' . .
";

/// The rows 9 to 11.
pub const ROWS_9_TO_11: &str = "\
\x209 . . ' . . . ' . ' . . . ' . .
10 . \" . . . \" . . . \" . . . \" .
11 . . . . - . . . . . - . . . .
";

/// The rows 12 to 15, and what the marks mean.
pub const ROWS_12_TO_15: &str = "\
12 ' . . - . . . ' . . . - . . '
13 . . - . . . ' . ' . . . - . .
14 . - . . . \" . . . \" . . . - .
15 = . . ' . . . = . . . ' . . =
= triple word, - double word, \" triple letter, ' double letter
small letters are blanks
";
