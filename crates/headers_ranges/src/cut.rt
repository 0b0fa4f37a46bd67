//! Text cut at a character.
ghost use Rattle.std.specs.Prelude.{◌≡◌, ◌<◌, option_map};
ghost use Rattle.headers_items.specs.Pairs.{pair_shown};
ghost use Rattle.headers_ranges.specs.Cut.{cut};

// What is before and after the first such character. `None` if there is none.
pub(crate) fn cut_once(text: &str, at: char) -> Option<(&str, &str)>
    requires { at < 128 }
    ensures { option_map pair_shown result ≡ cut at text.now }
{
    text.split_once(at)
}
