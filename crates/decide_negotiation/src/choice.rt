//! The first item with the greatest score.
ghost use Rattle.std.specs.Prelude.{◌≡◌};
ghost use Rattle.decide_negotiation.specs.Choice.{led};

/// The first place with the greatest score so far, if there is any score, and the score.
#[derive(Clone, Copy)]
pub(crate) struct Leader {
    pub(crate) place: Option<usize>,
    pub(crate) score: u64,
}

impl Leader {
    /// No place so far.
    pub(crate) const NONE: Leader = Leader {
        place: None,
        score: 0,
    };
}

/// Returns the first place with the greatest score, after one more score.
pub(crate) fn led(leader: Leader, place: Option<usize>, score: u64) -> Leader
    ensures { result ≡ led leader place score }
{
    if score > leader.score {
        Leader { place, score }
    } else {
        leader
    }
}
