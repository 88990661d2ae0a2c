// Steps 4 and 5 of one side: who stays moves up, the others get their fate.
ghost use Rattle.std.specs.Prelude.{◌≡◌, length};
ghost use Rattle.caller.specs.Reasons.{number_of};
ghost use Rattle.caller.specs.declared.reason.RejectionReason.TheVariants.{MinorityAlignment};
ghost use Rattle.codec_records.specs.Records.{Below};
ghost use Rattle.codec_records.specs.Side.{kept};
ghost use Rattle.codec_sides.specs.Family.{HaveOperations, in_group, capped, with_excess};
ghost use Rattle.codec_sides.specs.Side.{dropped, given_fate};

use crate::staying::{
    cap_infos_to_lowest_ranking, filter_to_most_common_alignment_raw, give_fate_to_dropped,
};
use caller::reason::RejectionReason;
use codec_records::family::Family;
use codec_records::options::Options;
use codec_records::side::Side;

fn drop_others(side: &mut Side, stays: &[bool], fate: u8, fates: &mut [u8])
    requires stays_len { length stays.now ≡ length side.old }
    requires below { Below side.old (length fates.old) }
    ensures side_after { side.new ≡ kept side.old stays.now }
    ensures fates_after { fates.new ≡ given_fate fate (dropped side.old stays.now) fates.old }
{
    give_fate_to_dropped(side.as_slice(), stays, fate, fates);
    side.retain(stays);
}

// Step 4. Fewer than two all stay.
pub fn keep_group(family: &Family, side: &mut Side, fates: &mut [u8])
    requires have_operations { HaveOperations family.now side.old }
    requires below { Below side.old (length family.now.flags.now) }
    requires below_2 { Below side.old (length fates.old) }
    ensures side_after { side.new ≡ kept side.old (in_group family.now side.old) }
    ensures fates_after { fates.new ≡ given_fate (number_of MinorityAlignment) (dropped side.old (in_group family.now side.old)) fates.old }
{
    let n = side.len();
    if n < 2 {
        return;
    }
    let mut stays = [false; 256];
    filter_to_most_common_alignment_raw(
        family.ops,
        family.clipped,
        family.starts,
        family.counts,
        family.flags,
        side.as_slice(),
        &mut stays,
    );
    let fate = u8::from(RejectionReason::MinorityAlignment);
    drop_others(side, &stays[..n], fate, fates);
}

// Step 5, where there is a cap.
#[tactic(auto, unfolding(crate::specs::Side::capped, crate::specs::Side::with_excess))]
pub fn keep_lowest_ranking(family: &Family, options: Options, side: &mut Side, fates: &mut [u8])
    requires below { Below side.old (length family.now.flags.now) }
    requires below_2 { Below side.old (length fates.old) }
    ensures side_after { side.new ≡ capped options family.now side.old }
    ensures fates_after { fates.new ≡ with_excess options family.now side.old fates.old }
{
    if !options.has_max_reads_per_strand {
        return;
    }
    let n = side.len();
    let mut stays = [false; 256];
    cap_infos_to_lowest_ranking(
        family.ranks,
        options.max_reads_per_strand,
        side.as_slice(),
        &mut stays,
    );
    let fate = u8::from(RejectionReason::Downsampled);
    drop_others(side, &stays[..n], fate, fates);
}
