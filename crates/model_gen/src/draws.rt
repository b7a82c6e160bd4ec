//! What is drawn for the nets.
ghost use Rattle.std.specs.Prelude.{◌≡◌, ℕ, ◌+◌, ◌*◌, ◌≤◌};
ghost use Rattle.model_gen.specs.Draws.{generator_after, word_at, delay, server_net};

use rand_core::SeedableRng;
use rand_core::utils::NextWord;
use rand_pcg::Pcg32;

/// What is drawn for a net.
#[derive(Clone, Copy)]
pub(crate) struct Draw {
    /// The delay of the link to the next net, in millionths of a second.
    pub(crate) delay: u32,
    /// The net in which the server of this net's client is.
    pub(crate) server_net: u32,
}

/// The generator of a seed, before any word.
#[tactic(auto, using(crate::proofs::Words::none_drawn))]
pub(crate) fn generator(seed: u64) -> Pcg32
    ensures { result ≡ generator_after seed 0 }
{
    Pcg32::seed_from_u64(seed)
}

/// What is drawn for the next net of a campus of this size: one word for the delay, and then one for
/// the server.
pub(crate) fn draw_next(generator: &mut Pcg32, size: u32) -> Draw
    requires { 1 ≤ size }
    ensures delay { (seed i : ℕ) → generator.old ≡ generator_after seed (2 * i) → result.delay ≡ delay seed i }
    ensures server_net { (seed i : ℕ) → generator.old ≡ generator_after seed (2 * i) → result.server_net ≡ server_net seed size i }
    ensures generator { (seed i : ℕ) → generator.old ≡ generator_after seed (2 * i) → generator.new ≡ generator_after seed (2 * (i + 1)) }
{
    let u = next_word(generator);
    let v = next_word(generator);
    Draw {
        delay: 100 + u % 900,
        server_net: v % size,
    }
}

/// The next word of the generator.
#[tactic(auto, using(crate::proofs::Words::this_word, crate::proofs::Words::next_generator))]
fn next_word(generator: &mut Pcg32) -> u32
    ensures word { (seed n : ℕ) → generator.old ≡ generator_after seed n → result ≡ word_at seed n }
    ensures generator { (seed n : ℕ) → generator.old ≡ generator_after seed n → generator.new ≡ generator_after seed (n + 1) }
{
    generator.next_word()
}
