// The family call, on what selection chose among a family's records.
ghost use Rattle.std.specs.Prelude.{List, ◌≡◌, ℕ, ◌+◌, ◌≤◌, length, get_or, take};
ghost use Rattle.std.specs.Int.Count.{ones};
ghost use Rattle.lists.specs.Total.{total};
ghost use Rattle.codec_rejects.specs.Fates.{AreFates, settled};
ghost use Rattle.codec_records.specs.Records.{room_of};
ghost use Rattle.codec_records.specs.declared.records.Record.{Record as AnyRecord};
ghost use Rattle.codec_family.specs.Answer.{reported_answer};
ghost use Rattle.codec_family.specs.FamilyCalled.{FamilyCalled};
ghost use Rattle.codec_family.specs.Fates.{fate_by};
ghost use Rattle.codec_family.specs.Lent.{lent_in, call_in, SameLent};
ghost use Rattle.codec_caller.specs.Settling.{Selected, Chose, Settles};

use crate::choosing::Chosen;
use crate::columns::write_columns;
use codec_family::answer::Answer;
use codec_family::counted::counted;
use codec_family::ending::{Ending, Verdict, end_family, fate_by, frame_of};
use codec_family::lent::Lent;
use codec_family::refusal::refuse;
use codec_family::strands::Strands;
use codec_records::options::Options;
use codec_records::room::room;
use codec_rejects::fates::settle;
use codec_rejects::rejects::{count_marks, write_list, write_marks};
use codec_stats::ledger::Ledger;

// The length of the handover list, and what the call adds to the ledger.
#[derive(Clone, Copy)]
pub struct Settlement {
    pub listed: u64,
    pub counted: Ledger,
}

// The marks have a one for each listed record but those that were downsampled.
fn list_length(marks: &[u64], counted: Ledger) -> u64
    requires { (8 ≤ length marks.now) × (total ones (take 8 marks.now) ≤ 512) × (get_or counted.reasons 4 0 ≤ 512) }
    ensures { result ≡ total ones (take 8 marks.now) + get_or counted.reasons 4 0 }
{
    let reasons = counted.reasons;
    count_marks(marks) + reasons[4]
}

// The last fates, and all that is read off them: marks, list and counts. Not the whole of what is lent: its twelve columns
// stay as they were.
fn settle_family(
    fates: &mut [u8],
    verdict: Verdict,
    listed: &mut [u32],
    reasons: &mut [u8],
    marks: &mut [u64],
) -> Settlement
    requires are_fates { AreFates (settled (fate_by verdict.ending) fates.old) }
    requires fates_len_bound { (length fates.old ≤ 512) × (512 ≤ length listed.old) × (512 ≤ length reasons.old) × (8 ≤ length marks.old) }
    ensures { Settles (settled (fate_by verdict.ending) fates.old) verdict result
        listed.old reasons.old marks.old
        listed.new reasons.new marks.new }
{
    let ending = verdict.ending;
    settle(fates, fate_by(ending));
    write_marks(fates, marks);
    write_list(fates, listed, reasons);
    let counted = counted(fates, verdict);
    Settlement {
        listed: list_length(marks, counted),
        counted,
    }
}

// All refusals come before anything is written.
pub fn consensus_reads_raw(
    chosen: Chosen,
    options: Options,
    strands: &Strands<'_>,
    ledger: Ledger,
    lent: &mut Lent<'_>,
) -> Answer
    requires { Chose options chosen }
    ensures called { (rs : List AnyRecord) (words : List ℕ) → length rs ≡ chosen.given → Selected options chosen.given rs words chosen.decision (take (room_of chosen.given) chosen.fates) →
        FamilyCalled (call_in rs words options strands.now (lent_in lent.old)) ledger (lent_in lent.old) (reported_answer result) (lent_in lent.new) }
    ensures same { SameLent lent.old lent.new }
{
    let n = room(chosen.given);
    let decision = chosen.decision;
    let mut fates = chosen.fates;
    if let Err(refusal) = refuse(decision, strands, lent.room(), ledger) {
        return Answer {
            ending: Ending::Refused(refusal),
            listed: 0,
            ledger,
        };
    }
    let verdict = end_family(decision, options, strands);
    let ending = verdict.ending;
    let settlement = settle_family(
        &mut fates[..n],
        verdict,
        lent.listed_records,
        lent.listed_reasons,
        lent.marks,
    );
    write_columns(ending, frame_of(decision), options, strands, lent);
    Answer {
        ending,
        listed: settlement.listed as usize,
        ledger: ledger + settlement.counted,
    }
}
