//! The last field of a text.
ghost use Rattle.std.specs.Prelude.{◌≡◌, ◌≤◌, ◌<◌, ◌-◌, ◌==◌, Bool, not, true, length, drop, take, slice_index};
ghost use Rattle.text_lines.specs.Fields.{is_blank};
ghost use Rattle.gcg_numbers.specs.Fields.{seen, AreOf};
ghost use Rattle.gcg_numbers.specs.Numbers.{last_field};

/// The last field of a text, what comes before it, and the blanks after it.
#[derive(Clone, Copy)]
pub struct Last<'a> {
    /// What comes before the field; it is empty or ends in a blank.
    pub front: &'a [u8],
    /// The field, which has a byte and no blank.
    pub field: &'a [u8],
    /// The blanks after the field.
    pub back: &'a [u8],
}

/// Whether a byte is a space or a tab.
fn is_blank(byte: u8) -> bool
    ensures { result ≡ is_blank byte }
{
    byte == b' ' || byte == b'\t'
}

/// The number of bytes of a text before its last bytes that are all blanks, or none of which is a blank.
fn count_before(text: &[u8], blank: bool) -> usize
    ensures bound { result ≤ length text.now }
    ensures following { AreOf blank (drop result text.now) }
    ensures stops { 0 < result → is_blank (slice_index text.now (result - 1)) ≡ not blank }
{
    let mut end = text.len();
    while end > 0 && is_blank(text[end - 1]) == blank {
        end -= 1;
    }
    end
}

/// The last field of a text; none if all bytes are blanks.
pub fn last_field(text: &[u8]) -> Option<Last<'_>>
    ensures { seen result ≡ last_field text.now }
{
    let end = count_before(text, true);
    if end == 0 {
        return None;
    }
    let start = count_before(&text[..end], false);
    Some(Last {
        front: &text[..start],
        field: &text[start..end],
        back: &text[end..],
    })
}
