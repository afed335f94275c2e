//! Why a deal of a record cannot be searched for.
ghost use Rattle.std.specs.Prelude.{◌≡◌, Some, None, IfOk, OnErr};
ghost use Rattle.game_deal.specs.Faulty.{bound_reported};

use deal_steps::DealBound;
use ref_tiles::Kind;
use std::alloc::AllocError;

/// Why the needs of a record are not known: its racks exceed a bound, or memory ran out.
#[derive(Clone, Copy, Debug, PartialEq, Eq)]
pub enum DealFault {
    /// By this line a player has shown more tiles than came to the rack.
    RackTooBig {
        /// The line, counted from 1.
        line: u32,
    },
    /// By this line the players have shown more tiles of a kind than the game has.
    TilesShort {
        /// The line, counted from 1.
        line: u32,
        /// The first such kind, in the order A to Z and then blanks.
        kind: Kind,
    },
    /// Memory ran out.
    NoMemory,
}

/// The fault that a bound is exceeded.
pub(crate) fn exceeds(bound: DealBound) -> DealFault
    ensures { bound_reported result ≡ Some bound }
{
    match bound {
        DealBound::RackTooBig { line } => DealFault::RackTooBig { line },
        DealBound::TilesShort { line, kind } => DealFault::TilesShort { line, kind },
    }
}

/// The bound that is exceeded, if memory did not run out.
pub fn exceeded_bound(fault: DealFault) -> Result<DealBound, AllocError>
    ensures bound { IfOk result (λ bound. bound_reported fault ≡ Some bound) }
    ensures none { OnErr result (bound_reported fault ≡ None) }
{
    match fault {
        DealFault::RackTooBig { line } => Ok(DealBound::RackTooBig { line }),
        DealFault::TilesShort { line, kind } => Ok(DealBound::TilesShort { line, kind }),
        DealFault::NoMemory => Err(AllocError),
    }
}
