//! What may be wrong with one line of a record.

use gcg_read::{Points, Seat, Text};
use ref_board::{Dir, Square};
use ref_tiles::{Counts, Kind, Letter, Symbol};

/// What is wrong with the position of a play.
#[derive(Drop)]
pub enum PositionSlip {
    /// The play goes in the other direction.
    OtherDirection,
    /// It begins one square off in the same row or column: on this one.
    OneOff(Square),
    /// It begins further off in the same row or column: on this one.
    Further(Square),
    /// It begins on the square with row and column interchanged.
    Interchanged,
}

/// What is wrong with the text of a play. Places are counted from 0.
#[derive(Drop)]
pub enum SpellingSlip {
    /// A letter is a blank, or a blank is a letter: this one.
    OtherTile {
        /// The place of the symbol.
        place: usize,
        /// What should be there.
        right: Symbol,
    },
    /// A letter is a tile that was on the board before: a dot.
    Dot {
        /// The place of the symbol.
        place: usize,
    },
    /// A dot is a new tile.
    Letter {
        /// The place of the symbol.
        place: usize,
        /// Its letter.
        right: Letter,
    },
    /// A tile shows another letter.
    OtherLetter {
        /// The place of the symbol.
        place: usize,
        /// What should be there.
        right: Symbol,
    },
    /// A symbol should not be there.
    Extra {
        /// Its place.
        place: usize,
    },
    /// A dot is missing.
    MissingDot {
        /// The place before which it should be.
        place: usize,
    },
    /// A letter is missing.
    MissingLetter {
        /// The place before which it should be.
        place: usize,
        /// The letter.
        right: Letter,
    },
    /// A symbol and the next one are in each other's place.
    Twisted {
        /// The place of the first of the two.
        place: usize,
    },
    /// There are too many dots or too few: this is the whole run, in which the same tiles lie beside those that were there.
    Laid(Text),
}

/// Which tiles of a line are meant.
#[derive(Clone, Copy)]
pub enum TilesOf {
    /// The rack that the line states.
    Rack,
    /// The tiles that are exchanged.
    Exchange,
    /// The tiles of a last rack.
    LastRack,
}

/// What is wrong with tiles.
#[derive(Clone, Copy)]
pub enum TileSlip {
    /// A tile is another one.
    Other {
        /// The tile that is written.
        tile: Kind,
        /// The right one.
        right: Kind,
    },
    /// A tile should not be there.
    Extra {
        /// The tile.
        tile: Kind,
    },
    /// A tile is missing.
    Missing {
        /// The tile.
        tile: Kind,
    },
}

/// One tile that is misread twice on a line: on the rack that the line states, and in what was done with it.
#[derive(Clone, Copy)]
pub enum Misread {
    /// On the rack and in the word of the play.
    Played {
        /// The place of the tile in the text, counted from 0.
        place: usize,
        /// The letter that is written.
        tile: Letter,
        /// The right one.
        right: Letter,
    },
    /// On the rack and among the exchanged tiles.
    Exchanged {
        /// The tile that is written.
        tile: Kind,
        /// The right one.
        right: Kind,
    },
}

/// What a pass, an exchange of unknown tiles or a withdrawal should be.
#[derive(Clone, Copy)]
pub enum CodeSlip {
    /// A pass.
    Pass,
    /// An exchange of this number of tiles.
    Exchange(u8),
    /// A withdrawal.
    Withdrawal,
}

/// A play as it should be.
#[derive(Drop)]
pub struct RightPlay {
    /// The square on which it begins.
    pub at: Square,
    /// Its direction.
    pub dir: Dir,
    /// Its whole text.
    pub word: Text,
}

/// A missing line.
#[derive(Drop)]
pub enum MissingLine {
    /// A player makes a play.
    Play {
        /// The player.
        player: Seat,
        /// The play.
        play: RightPlay,
    },
    /// A player passes.
    Pass(Seat),
    /// A player exchanges a number of tiles.
    Exchange {
        /// The player.
        player: Seat,
        /// The number of tiles.
        number: u8,
    },
    /// A player gets a penalty for time.
    Time {
        /// The player.
        player: Seat,
        /// The penalty, as the score of the line.
        score: Points,
        /// Whether a turn comes after it.
        early: bool,
    },
    /// A player takes back the play before it.
    Withdrawal(Seat),
    /// The play before it was challenged without success.
    Challenge {
        /// The player of the play, who gets the bonus.
        player: Seat,
        /// The bonus, as the score of the line.
        score: Points,
        /// Whether more than one word was challenged.
        several: bool,
    },
    /// The last rack after the play of a player who is out: the tiles that are on no other line.
    Rest {
        /// The player who is out.
        player: Seat,
        /// The tiles.
        tiles: Counts,
    },
}

/// What is wrong with a line: a slip of the pen.
#[derive(Drop)]
pub enum Slip {
    /// A play has another position.
    Position(PositionSlip),
    /// A play has another text.
    Spelling(SpellingSlip),
    /// A play is a different one altogether: this one.
    Replayed(RightPlay),
    /// Tiles are wrong.
    Tile {
        /// Which tiles.
        of: TilesOf,
        /// What is wrong with them.
        slip: TileSlip,
    },
    /// A tile is misread twice.
    Misread(Misread),
    /// The rack that the line states is wrong, and the right one is not known.
    NoRack,
    /// This number of unknown tiles is exchanged.
    Number(u8),
    /// The line is a pass, an exchange or a withdrawal in place of another of these.
    Code(CodeSlip),
    /// The tiles of a last rack are those that are on no other line: these.
    Rest(Counts),
    /// The amount of a bonus for a challenge or of a penalty for time is wrong: it is this one.
    Amount(Points),
    /// The line is the other player's.
    OtherPlayer,
    /// The line should not be there, and it repeats the line before it.
    Repeated,
    /// The line is a pass that should not be there.
    ExtraPass,
    /// The line should not be there.
    Extra,
    /// The line and the next one are in each other's place.
    Swapped,
    /// The line and the second line after it are in each other's place.
    SwappedOver,
    /// A line is missing before this one.
    Missing(MissingLine),
}

/// A single change of a record: what is wrong with one line, and so what replaces it.
#[derive(Drop)]
pub struct Change {
    /// The place of the line among the events, counted from 0. A line may be missing after the last event too.
    pub place: usize,
    /// What is wrong there.
    pub slip: Slip,
}
