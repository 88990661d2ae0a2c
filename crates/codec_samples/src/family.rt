// The family call with its sample, on what selection chose among a family's records.
ghost use Rattle.std.specs.Prelude.{List, ◌≡◌, ℕ, length, take};
ghost use Rattle.codec_records.specs.Records.{room_of};
ghost use Rattle.codec_records.specs.declared.records.Record.{Record as AnyRecord};
ghost use Rattle.codec_family.specs.Answer.{reported_answer};
ghost use Rattle.codec_family.specs.Lent.{lent_in, call_in, SameLent};
ghost use Rattle.codec_caller.specs.Settling.{Selected, Chose};
ghost use Rattle.sample_ledgers.specs.Samples.{samples_of};
ghost use Rattle.codec_samples.specs.Books.{books_of};
ghost use Rattle.codec_samples.specs.SampledCall.{sampled_call_of};
ghost use Rattle.codec_samples.specs.SampledFamily.{SampledFamilyCalled};

use crate::books::{deciding_ledger, keep_books};
use caller::refusal::Refusal;
use codec_caller::choosing::Chosen;
use codec_caller::family::consensus_reads_raw;
use codec_family::answer::Answer;
use codec_family::ending::Ending;
use codec_family::lent::Lent;
use codec_family::strands::Strands;
use codec_records::options::Options;
use codec_stats::ledger::Ledger;
use sample_ledgers::samples::{SAMPLE_COUNTS, SAMPLES, read_sample};

// What the call counts is added to the run's ledger and to its own sample's; 20 comes before all else.
pub fn consensus_reads_sampled(
    chosen: Chosen,
    options: Options,
    strands: &Strands<'_>,
    ledger: Ledger,
    sample: u32,
    samples: &mut [u64; SAMPLE_COUNTS],
    lent: &mut Lent<'_>,
) -> Answer
    requires { Chose options chosen }
    ensures called { (rs : List AnyRecord) (words : List ℕ) → length rs ≡ chosen.given → Selected options chosen.given rs words chosen.decision (take (room_of chosen.given) chosen.fates) →
        SampledFamilyCalled
        (sampled_call_of (call_in rs words options strands.now (lent_in lent.old)) sample)
        (books_of ledger samples.old)
        (lent_in lent.old)
        (reported_answer result)
        (samples_of samples.new)
        (lent_in lent.new) }
    ensures same { SameLent lent.old lent.new }
{
    let at = sample as usize;
    let is_above = SAMPLES <= at;
    if is_above {
        return Answer {
            ending: Ending::Refused(Refusal::NoSuchSample),
            listed: 0,
            ledger,
        };
    }
    let own = read_sample(samples, at);
    let deciding = deciding_ledger(ledger, own);
    let answer = consensus_reads_raw(chosen, options, strands, deciding, lent);
    keep_books(answer, ledger, own, samples, at)
}
