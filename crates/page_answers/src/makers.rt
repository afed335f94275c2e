//! What a page is made by.

/// What a page is made by.
#[derive(Clone, Copy)]
pub struct Maker {
    /// The name and the version of the program.
    pub program: &'static str,
    /// How many words the list has.
    pub words: usize,
    /// The SHA-256 of the bytes of the list.
    pub list: [u8; 32],
    /// The SHA-256 of the bytes of the rules text; `None` for the rules of the English game.
    pub rules: Option<[u8; 32]>,
}
