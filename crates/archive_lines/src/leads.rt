//! Who is ahead by the last totals of a game.
ghost use Rattle.std.specs.Prelude.{◌≡◌};
ghost use Rattle.archive_lines.specs.Leads.{total_in, IsLead};

/// Who is ahead by two last totals.
#[derive(Clone, Copy)]
pub enum Lead {
    /// They are the same.
    Even,
    /// Player 1, by this number of points.
    First(i64),
    /// Player 2, by this number of points.
    Second(i64),
}

/// A total, or 0 if there is none.
fn total_in(total: Option<i32>) -> i64
    ensures { result ≡ total_in total }
{
    match total {
        Some(total) => total as i64,
        None => 0,
    }
}

/// Who is ahead by the last totals of two players.
pub fn lead_of(first: Option<i32>, second: Option<i32>) -> Lead
    ensures { IsLead first second result }
{
    let (first, second) = (total_in(first), total_in(second));
    if first > second {
        Lead::First(first - second)
    } else if second > first {
        Lead::Second(second - first)
    } else {
        Lead::Even
    }
}
