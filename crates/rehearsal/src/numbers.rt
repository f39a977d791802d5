//! The numbers that choose, and the actors in the order in which they are tried.

ghost use Rattle.std.specs.Prelude.{◌≡◌, ◌+◌, ◌<◌, ◌≤◌, ◌^◌, ◌%◌};
ghost use Rattle.rehearsal.specs.Choices.{turned, drawn_by};

/// The number that follows another: one step of a linear congruential generator.
pub(crate) fn turned(number: u64) -> u64
    ensures { result ≡ turned number }
{
    number
        .wrapping_mul(6_364_136_223_846_793_005)
        .wrapping_add(1_442_695_040_888_963_407)
}

/// The one of so many actors that a number draws, by its upper bits, which are the better mixed ones.
pub(crate) fn drawn_by(actors: u64, number: u64) -> u32
    requires some { 0 < actors }
    requires few { actors ≤ 2 ^ 32 }
    ensures { result ≡ drawn_by actors number }
{
    ((number >> 33) % actors) as u32
}

/// The actor after another, cyclically.
pub(crate) fn following(actors: u64, actor: u32) -> u32
    requires actor { actor < actors }
    requires few { actors ≤ 2 ^ 32 }
    ensures { result ≡ (actor + 1) % actors }
{
    let next = u64::from(actor) + 1;
    if next == actors { 0 } else { next as u32 }
}
