// The last fate of a family, and how many of its records have each.
ghost use Rattle.std.specs.Prelude.{◌≡◌};
ghost use Rattle.codec_rejects.specs.Fates.{AreFates, settled, fate_counts};

use caller::fates::first_fate;

// What ends a family falls on every record that has no fate yet.
pub fn settle(fates: &mut [u8], fate: u8)
    ensures { fates.new ≡ settled fate fates.old }
{
    for own in fates.iter_mut() {
        *own = first_fate(fate, *own);
    }
}

// How many records have each fate, 0 to 13.
#[tactic(auto, unfolding(lists::specs::Tabulate::tabulate, lists::specs::Total::total, crate::specs::Fates::with_fate))]
pub fn count_fates(fates: &[u8]) -> [u64; 14]
    requires { AreFates fates.now }
    ensures { result ≡ fate_counts fates.now }
{
    let mut counts = [0u64; 14];
    for &fate in fates {
        counts[fate as usize] += 1;
    }
    counts
}
