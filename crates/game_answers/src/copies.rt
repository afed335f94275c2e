//! What an answer keeps of a machine: copies.
ghost use Rattle.std.specs.Prelude.{◌≡◌, option_map};
ghost use Rattle.game_answers.specs.Answers.{tiles_in};

use ref_play::Play;

/// An equal play, if there is one.
pub(crate) fn copied(play: Option<&Play>) -> Option<Play>
    ensures { tiles_in result ≡ option_map (λ p. p.now.tiles.items) play.entry }
{
    match play {
        Some(play) => Some(play.copy()),
        None => None,
    }
}
