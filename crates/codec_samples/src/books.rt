// The run's ledger and the sample's: which of them refuses the call, and what it adds to both.
ghost use Rattle.std.specs.Prelude.{false, cond, ◌≡◌, ◌*◌, ◌<◌};
ghost use Rattle.std.proofs.lemmas.List.Edits.{sets};
ghost use Rattle.codec_stats.specs.Counts.{counts_of};
ghost use Rattle.codec_stats.specs.Ledger.{plus, Addable};
ghost use Rattle.codec_family.specs.Ending.{is_refused};
ghost use Rattle.codec_samples.specs.Deciding.{with_families, Decides};

use codec_family::answer::Answer;
use codec_family::ending::Ending;
use codec_stats::ledger::{COUNTS, Ledger};
use codec_stats::refusals::{FAMILIES_LIMIT, is_full, is_too_large};
use sample_ledgers::samples::{SAMPLE_COUNTS, SAMPLES, store_sample};

// So many families that the call is refused as for the run's ledger or the sample's, lowest number first; none where neither refuses it.
// A ledger and no Result: the call asks the ledger that it is handed, behind its refusals 1 to 9.
fn deciding_families(run: Ledger, own: Ledger) -> u64
    ensures { Decides run own (with_families result) }
{
    let some_too_large = is_too_large(run) | is_too_large(own);
    let some_full = is_full(run) | is_full(own);
    if some_too_large {
        FAMILIES_LIMIT + 1
    } else if some_full {
        FAMILIES_LIMIT
    } else {
        0
    }
}

// The ledger to count the call in, fresh but for the families that decide.
pub fn deciding_ledger(run: Ledger, own: Ledger) -> Ledger
    ensures { Decides run own result }
{
    Ledger {
        families: deciding_families(run, own),
        ..Ledger::default()
    }
}

// The answer's ledger is what the call counted alone: it goes to the run's and to the sample's. A refusal leaves both.
pub fn keep_books(
    answer: Answer,
    run: Ledger,
    own: Ledger,
    samples: &mut [u64; SAMPLE_COUNTS],
    sample: usize,
) -> Answer
    requires sample_bound { sample < SAMPLES }
    requires addable { is_refused answer.ending ≡ false → Addable run answer.ledger × Addable own answer.ledger }
    ensures value { result ≡ record answer { ledger = cond (is_refused answer.ending) run (plus run answer.ledger) } }
    ensures samples_after { samples.new ≡ cond (is_refused answer.ending) samples.old
        (sets samples.old (COUNTS * sample) (counts_of (plus own answer.ledger))) }
{
    if let Ending::Refused(_) = answer.ending {
        return Answer {
            ledger: run,
            ..answer
        };
    }
    store_sample(samples, sample, own + answer.ledger);
    Answer {
        ledger: run + answer.ledger,
        ..answer
    }
}
