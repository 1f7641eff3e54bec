//! A law of the definitions. Its function does nothing: its contract is a theorem.

ghost use Rattle.std.specs.Prelude.{◌≡◌, ◌≤◌, ◌-◌, ◌*◌, ◌/◌, ℕ, None, length};
ghost use Rattle.chain_core.specs.Ids.{last_of};
ghost use Rattle.chain_core.specs.Links.{IsChain, link_ids};
ghost use Rattle.patch_meaning.specs.Replay.{links_said, replay};
ghost use Rattle.patch_meaning.specs.Stream.{IsStream};
ghost use Rattle.stream_generator.specs.Generator.{stream_text};
ghost use Rattle.generated_replay.specs.Meanings.{head, meanings_to};

/// The text of so many generated patches is a stream of as many patches, which are a chain. Each
/// adds a quad of its own, and a third of them, rounded down, delete an earlier one.
pub fn generated_streams_are_chains()
    ensures stream { (n : ℕ) → n ≤ 65536 → IsStream (stream_text n) (meanings_to n) }
    ensures short { (n : ℕ) → n ≤ 65536 → length (stream_text n) ≤ 256 * n }
    ensures chain { (n : ℕ) → n ≤ 65536 → IsChain (links_said (meanings_to n)) }
    ensures patches { (n : ℕ) → length (meanings_to n) ≡ n }
    ensures quads { (n : ℕ) → n ≤ 65536 → length (replay (meanings_to n)).quads ≡ n - n / 3 }
    ensures head { (n : ℕ) → last_of (link_ids (links_said (meanings_to n))) ≡ head n }
{}
