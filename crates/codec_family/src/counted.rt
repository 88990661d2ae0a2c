// What a call adds to the ledger.
ghost use Rattle.std.specs.Prelude.{◌≡◌, suc, length, get_or};
ghost use Rattle.lists.specs.Tabulate.{tabulate};
ghost use Rattle.codec_rejects.specs.Fates.{AreFates};
ghost use Rattle.codec_family.specs.Counted.{ended_by_disagreement, counted_by};
ghost use Rattle.codec_family.specs.Ending.{called_length};

use crate::ending::{Ending, Verdict, fate_by, is_called};
use caller::reason::RejectionReason;
use codec_rejects::fates::count_fates;
use codec_stats::ledger::Ledger;
use std::array;

fn called_length(ending: Ending) -> u64
    ensures { result ≡ called_length ending }
{
    match ending {
        Ending::Called(length) => length,
        _ => 0,
    }
}

fn is_disagreeing(ending: Ending) -> bool
    ensures { result ≡ ended_by_disagreement ending }
{
    fate_by(ending) == u8::from(RejectionReason::HighDuplexDisagreement)
}

// The counts of the fates 1 to 10.
#[tactic(auto, unfolding(lists::specs::Tabulate::tabulate))]
fn reasons_of(counts: [u64; 14]) -> [u64; 10]
    ensures { result ≡ tabulate (λ i. get_or counts (suc i) 0) 10 }
{
    array::from_fn(|i| counts[i + 1])
}

// By the fates and the ending, one call that is not refused.
#[tactic(auto, unfolding(crate::specs::Counted::counted_by, lists::specs::Tabulate::tabulate))]
pub fn counted(fates: &[u8], verdict: Verdict) -> Ledger
    requires { AreFates fates.now }
    ensures { result ≡ counted_by (length fates.now) fates.now verdict.ending verdict.tally }
{
    let counts = count_fates(fates);
    let ending = verdict.ending;
    let tally = verdict.tally;
    Ledger {
        families: 1,
        records: fates.len() as u64,
        reasons: reasons_of(counts),
        passed_over: counts[11],
        no_strand: counts[12],
        used: counts[13],
        disagreement_rejected: u64::from(is_disagreeing(ending)),
        duplexes: u64::from(is_called(ending)),
        bases: called_length(ending),
        duplex_bases: u64::from(tally.bases),
        disagreements: u64::from(tally.disagreements),
    }
}
