//! What is drawn from a seed.
ghost use Rattle.std.specs.Prelude.{◌<◌};

/// The number behind this one in a row that looks drawn (Knuth's MMIX generator); its upper bits are taken.
pub(crate) fn draw(seed: u64) -> u64 {
    seed.wrapping_mul(6_364_136_223_846_793_005)
        .wrapping_add(1_442_695_040_888_963_407)
}

/// How many bytes go at once, most often one.
pub(crate) fn cut_of(drawn: u64) -> u32
    ensures { 0 < result }
{
    match (drawn >> 50) % 6 {
        0 => 7,
        1 => 64,
        2 => 4096,
        _ => 1,
    }
}
