//! The words of sources.
ghost use Rattle.std.specs.Prelude.{◌≡◌, ◌<◌, ◌/◌, ◌^◌};
ghost use Rattle.sig_flag.specs.Words.{version_in, word_of, is_held};

use sig_hist::Version;

/// What a word shows.
pub fn version_in(word: u64) -> Version
    requires { word / 4 < 2 ^ 32 }
    ensures { result ≡ version_in word }
{
    Version {
        count: (word / 4) as u32,
        closed: word / 2 % 2 == 1,
    }
}

/// The word while nobody has the turn.
pub fn word_of(count: u32, closed: bool) -> u64
    ensures { result ≡ word_of count closed }
{
    4 * u64::from(count) + if closed { 2 } else { 0 }
}

/// Whether a seat had the turn.
pub fn is_held(word: u64) -> bool
    ensures { result ≡ is_held word }
{
    word % 2 == 1
}
