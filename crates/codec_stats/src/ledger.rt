// The ledger goes into a family call by value and comes back by value.
ghost use Rattle.std.specs.Prelude.{◌≡◌, ℕ, ◌+◌, ◌<◌, ◌^◌, slice_index};
ghost use Rattle.lists.specs.Tabulate.{tabulate};
ghost use Rattle.codec_stats.specs.Ledger.{plus, Addable};
ghost use Rattle.codec_stats.specs.Counts.{counts_of, ledger_of};

use std::array;
use std::ops::Add;

// How many counts a ledger has.
pub const COUNTS: usize = 20;

#[repr(C)]
#[derive(Clone, Copy, Debug, Default, PartialEq, Eq, Hash)]
pub struct Ledger {
    pub families: u64,
    pub records: u64,
    pub reasons: [u64; 10],
    pub passed_over: u64,
    pub no_strand: u64,
    pub used: u64,
    pub disagreement_rejected: u64,
    pub duplexes: u64,
    pub bases: u64,
    pub duplex_bases: u64,
    pub disagreements: u64,
}

fn added_reasons(reasons: [u64; 10], more: [u64; 10]) -> [u64; 10]
    requires { (i : ℕ) → i < 10 → slice_index reasons i + slice_index more i < 2 ^ 64 }
    ensures { result ≡ tabulate (λ i. slice_index reasons i + slice_index more i) 10 }
{
    array::from_fn(|i| reasons[i] + more[i])
}

// Each count, and what is added to it.
impl Add for Ledger {
    type Output = Ledger;

    ghost can_add = { Addable };

    ghost add_gives = { λ ledger more sum. sum ≡ plus ledger more };

    #[tactic(auto, using(crate::proofs::Small::small), unfolding(crate::specs::Ledger::plus))]
    fn add(self, more: Ledger) -> Ledger {
        Ledger {
            families: self.families + more.families,
            records: self.records + more.records,
            reasons: added_reasons(self.reasons, more.reasons),
            passed_over: self.passed_over + more.passed_over,
            no_strand: self.no_strand + more.no_strand,
            used: self.used + more.used,
            disagreement_rejected: self.disagreement_rejected + more.disagreement_rejected,
            duplexes: self.duplexes + more.duplexes,
            bases: self.bases + more.bases,
            duplex_bases: self.duplex_bases + more.duplex_bases,
            disagreements: self.disagreements + more.disagreements,
        }
    }
}

// The counts in the order of the fields.
impl From<Ledger> for [u64; COUNTS] {
    ghost from_gives = { λ ledger counts. counts ≡ counts_of ledger };

    fn from(ledger: Ledger) -> [u64; COUNTS] {
        let mut counts = [0; COUNTS];
        counts[0] = ledger.families;
        counts[1] = ledger.records;
        counts[2..12].copy_from_slice(&ledger.reasons);
        counts[12..].copy_from_slice(&[
            ledger.passed_over,
            ledger.no_strand,
            ledger.used,
            ledger.disagreement_rejected,
            ledger.duplexes,
            ledger.bases,
            ledger.duplex_bases,
            ledger.disagreements,
        ]);
        counts
    }
}

impl From<[u64; COUNTS]> for Ledger {
    ghost from_gives = { λ counts ledger. ledger ≡ ledger_of counts };

    fn from(counts: [u64; COUNTS]) -> Ledger {
        let mut reasons = [0; 10];
        reasons.copy_from_slice(&counts[2..12]);
        Ledger {
            families: counts[0],
            records: counts[1],
            reasons,
            passed_over: counts[12],
            no_strand: counts[13],
            used: counts[14],
            disagreement_rejected: counts[15],
            duplexes: counts[16],
            bases: counts[17],
            duplex_bases: counts[18],
            disagreements: counts[19],
        }
    }
}
