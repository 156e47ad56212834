//! Stretches of numbers.
ghost use Rattle.std.specs.Prelude.{◌≡◌, ◌↔◌, ◌≤◌, ℕ, All, IsTrue};
ghost use Rattle.known_numbers.specs.declared.stretch.Stretch.{Stretch as TheStretch};
ghost use Rattle.known_numbers.specs.Numbers.{AreApart, count_of};

use known_numbers::Stretch;

/// How many numbers these stretches have, which are apart.
pub(crate) fn count_known(stretches: &[Stretch]) -> u64
    requires { (below : ℕ) × AreApart below stretches.now }
    ensures { result ≡ count_of stretches.now }
{
    let mut count = 0;
    for stretch in stretches {
        count += stretch.to - stretch.from;
    }
    count
}

/// Whether all of the stretches end at this number or before.
pub(crate) fn end_by(stretches: &[Stretch], end: u64) -> bool
    ensures { IsTrue result ↔ All (λ (stretch : TheStretch). stretch.to ≤ end) stretches.now }
{
    stretches.iter().all(|stretch| stretch.to <= end)
}
