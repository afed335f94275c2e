//! Texts that are compared part by part.

/// Whether a text has these parts, one after the other, and nothing else.
pub fn has_parts(text: &[u8], parts: &[&str]) -> bool {
    let mut rest = text;
    for part in parts {
        let want = part.as_bytes();
        if !rest.starts_with(want) {
            return false;
        }
        let Some(following) = rest.get(want.len()..) else {
            return false;
        };
        rest = following;
    }
    rest.is_empty()
}
