//! Chance: a generator of words, and choices by it.
ghost use Rattle.std.specs.Prelude.{◌≡◌, ◌<◌};
ghost use Rattle.trace_generate.specs.Chance.{after_word, drawn, seeded as seeded_by};

use rand_core::utils::NextWord;
use rand_pcg::Pcg32;

/// The stream of the generator.
const STREAM: u64 = 0x6f77_6e65_7273;

/// The generator of a seed.
pub(crate) fn seeded(seed: u64) -> Pcg32
    ensures { result ≡ seeded_by seed }
{
    Pcg32::new(seed, STREAM)
}

/// A number below `count`: the next word, less the greatest multiple of it.
pub(crate) fn below(chance: &mut Pcg32, count: u64) -> u64
    requires { 0 < count }
    ensures below { result < count }
    ensures value { result ≡ drawn chance.old count }
    ensures next { chance.new ≡ after_word chance.old }
{
    u64::from(chance.next_word()) % count
}
