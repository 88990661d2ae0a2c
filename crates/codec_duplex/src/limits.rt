// Which duplexes disagree too much.
ghost use Rattle.std.specs.Prelude.{◌≡◌};
ghost use Rattle.codec_duplex.specs.Limits.{rate_of, judged};

use crate::tally::DuplexBaseTally;

// How many disagreements a duplex may have, and how many of its positions, at most.
#[derive(Clone, Copy, Debug, PartialEq)]
pub struct Limits {
    pub max_disagreements: u64,
    pub max_rate: f64,
}

// Which limit rejected a duplex, with its figure.
#[derive(Clone, Copy, Debug, PartialEq)]
pub enum Disagreement {
    Count(u32),
    Rate(f64),
}

fn disagreement_rate(tally: DuplexBaseTally) -> f64
    ensures { result ≡ rate_of tally }
{
    f64::from(tally.disagreements) / f64::from(tally.bases)
}

impl Limits {
    // Without a position that both strands call nothing is rejected; a rate limit that is NaN rejects nothing either.
    #[tactic(auto, unfolding(crate::specs::Limits::judged))]
    pub fn judge(self, tally: DuplexBaseTally) -> Result<DuplexBaseTally, Disagreement>
        ensures { result ≡ judged tally self.max_disagreements self.max_rate }
    {
        if tally.bases == 0 {
            return Ok(tally);
        }
        if self.max_disagreements < u64::from(tally.disagreements) {
            return Err(Disagreement::Count(tally.disagreements));
        }
        let rate = disagreement_rate(tally);
        if rate > self.max_rate {
            return Err(Disagreement::Rate(rate));
        }
        Ok(tally)
    }
}
