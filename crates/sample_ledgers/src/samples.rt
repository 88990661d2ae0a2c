// The samples' ledgers: 96 times 20 counts in one array, as the C interface lends them. Ledger s is the places 20 s to 20 s + 19.
ghost use Rattle.std.specs.Prelude.{◌≡◌, ◌*◌, ◌<◌};
ghost use Rattle.std.proofs.lemmas.List.Edits.{sets};
ghost use Rattle.codec_stats.specs.Counts.{counts_of};
ghost use Rattle.sample_ledgers.specs.Samples.{ledger_at};

use codec_stats::ledger::{COUNTS, Ledger};

// How many samples there are, and how many counts they have together.
pub const SAMPLES: usize = 96;

pub const SAMPLE_COUNTS: usize = SAMPLES * COUNTS;

// One ledger read out of the samples' array.
pub fn read_sample(samples: &[u64; SAMPLE_COUNTS], sample: usize) -> Ledger
    requires { sample < SAMPLES }
    ensures { result ≡ ledger_at samples.now sample }
{
    let at = COUNTS * sample;
    let mut counts = [0; COUNTS];
    counts.copy_from_slice(&samples[at..at + COUNTS]);
    Ledger::from(counts)
}

// One ledger put back into the samples' array.
pub fn store_sample(samples: &mut [u64; SAMPLE_COUNTS], sample: usize, ledger: Ledger)
    requires { sample < SAMPLES }
    ensures { samples.new ≡ sets samples.old (COUNTS * sample) (counts_of ledger) }
{
    let at = COUNTS * sample;
    let counts = <[u64; COUNTS]>::from(ledger);
    samples[at..at + COUNTS].copy_from_slice(&counts);
}
