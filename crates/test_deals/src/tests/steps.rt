//! Racks that fit steps, and the bounds that steps exceed.
use deal_steps::{Act, DealBound, Held, Motion, Racks, Step, first_bound, fits};
use gcg_read::Seat;
use ref_tiles::{Counts, Kind, Letter, Rules, english_rules};
use std::process::Abort;

/// The tiles of a rack; a blank is written `?`.
fn tiles(letters: &str) -> Counts {
    let mut tiles = Counts::new();
    for letter in letters.bytes() {
        if let Some(kind) = Kind::of_byte(letter) {
            if tiles.count(kind) < u8::MAX {
                tiles.add(kind);
            }
        }
    }
    tiles
}

/// A step of the first player's with the whole tile set except two racks of seven in the bag.
fn step(line: u32, player: Seat, act: Act) -> Step {
    Step {
        line,
        player,
        counted: true,
        act,
        board: Counts::new(),
        first: 7,
        second: 7,
        bag: 86,
    }
}

/// A turn that keeps the rack and shows some tiles.
fn shows(line: u32, player: Seat, shown: &str) -> Step {
    let shown = tiles(shown);
    let motion = Motion::Keeps;
    step(line, player, Act::Turns { shown, motion })
}

/// What two players hold, and what one throws.
fn held(first: &str, second: &str, thrown: &str) -> Held {
    Held {
        racks: Racks {
            first: tiles(first),
            second: tiles(second),
        },
        thrown: tiles(thrown),
    }
}

/// A tile set of 14: two each of A, E, R and T, one each of D, I, N, O, S and W.
pub fn short_rules(rt: &impl Abort) -> Rules {
    let mut parts = english_rules().parts();
    parts.counts = tiles("AADEEINORRSTTW");
    Rules::checked(parts).expect(rt, "fourteen tiles")
}

/// RETAINS with the whole rack, and the other player's last rack.
fn short_game(last: &str) -> [Step; 2] {
    let played = Act::Turns {
        shown: tiles("AEINRST"),
        motion: Motion::Lays {
            used: tiles("RETAINS"),
            drawn: 0,
        },
    };
    let ended = Act::Ends {
        holder: Seat::Second,
        tiles: tiles(last),
    };
    let mut first = step(1, Seat::First, played);
    first.bag = 0;
    let mut second = step(2, Seat::First, ended);
    second.board = tiles("RETAINS");
    second.first = 0;
    second.bag = 0;
    [first, second]
}

#[test]
fn whole_games_fit(rt: HostRuntime) {
    let rules = short_rules(&rt);
    let deal = [held("AEINRST", "ADEORTW", ""), held("", "ADEORTW", "")];
    assert!(rt; fits(&rules, &short_game("ADEORTW"), &deal));
    assert!(rt;
        !fits(&rules, &short_game("ADEORTT"), &deal),
        "another last rack"
    );
    assert!(rt;
        !fits(&rules, &short_game("ADEORT"), &deal),
        "a part of the last rack"
    );
    assert!(rt;
        !fits(&rules, &short_game("ADEORTW"), &deal[..1]),
        "a step is left"
    );
    let other = [held("AEINRST", "ADEORTW", ""), held("W", "ADEORT", "")];
    assert!(rt; !fits(&rules, &short_game("ADEORT"), &other), "sizes");
}

#[test]
fn bounds_of_games(rt: HostRuntime) {
    let rules = short_rules(&rt);
    assert_eq!(rt; first_bound(&rules, &short_game("ADEORTW")), None);
    let t = Kind::Letter(Letter::new(19).expect(&rt, "T"));
    let short = DealBound::TilesShort { line: 2, kind: t };
    assert_eq!(rt; first_bound(&rules, &short_game("ADEORTT")), Some(short));
    let english = english_rules();
    let blanks = [shows(1, Seat::First, "??"), shows(2, Seat::Second, "?")];
    let no_blank = DealBound::TilesShort {
        line: 2,
        kind: Kind::Blank,
    };
    assert_eq!(rt; first_bound(&english, &blanks), Some(no_blank));
    let played = Act::Turns {
        shown: tiles("AEINRST"),
        motion: Motion::Lays {
            used: tiles("AT"),
            drawn: 2,
        },
    };
    let big = [
        step(1, Seat::First, played),
        shows(2, Seat::Second, ""),
        shows(3, Seat::First, "AAABCDE"),
    ];
    assert_eq!(rt;
        first_bound(&english, &big),
        Some(DealBound::RackTooBig { line: 3 })
    );
}

/// The first player plays AT from AEINRST and draws a number of tiles: the rack after it, and whether it fits.
#[test]
fn draws(rt: HostRuntime) {
    let english = english_rules();
    for (drawn, after, fit) in [
        (2, "EINRSBC", true),
        (2, "EINRSAT", true),
        (1, "EINRSBC", false),
        (2, "EINRSQQ", false),
        (2, "EINRBCD", false),
    ] {
        let played = Act::Turns {
            shown: Counts::new(),
            motion: Motion::Lays {
                used: tiles("AT"),
                drawn,
            },
        };
        let mut next = shows(2, Seat::Second, "");
        next.board = tiles("AT");
        next.bag = 84;
        let steps = [step(1, Seat::First, played), next];
        let deal = [held("AEINRST", "OOOOUUU", ""), held(after, "OOOOUUU", "")];
        assert_eq!(rt;
            fits(&english, &steps, &deal),
            fit,
            "{drawn} drawn to {after}"
        );
    }
}

/// The first player exchanges a tile: the racks before it, those after it, and whether they fit.
#[test]
fn exchanges(rt: HostRuntime) {
    let english = english_rules();
    let swap = |thrown: &str| Act::Turns {
        shown: Counts::new(),
        motion: Motion::Throws(tiles(thrown)),
    };
    for (thrown, before, after, fit) in [
        ("A", "AEINRST", "BEINRST", true),
        ("A", "AEINRST", "AEINRST", true),
        ("Q", "QEINRST", "QEINRST", false),
        ("Q", "AEINRST", "AEINRST", false),
        ("A", "AEINRST", "BCINRST", false),
    ] {
        let steps = [
            step(1, Seat::First, swap(thrown)),
            shows(2, Seat::Second, ""),
        ];
        let deal = [held(before, "OOOOUUU", thrown), held(after, "OOOOUUU", "")];
        assert_eq!(rt; fits(&english, &steps, &deal), fit, "{before} to {after}");
    }
    let steps = [shows(1, Seat::First, "Q"), shows(2, Seat::Second, "Q")];
    let both = [held("Q", "Q", ""), held("Q", "Q", "")];
    assert!(rt; !fits(&english, &steps, &both), "one Q for two racks");
}
