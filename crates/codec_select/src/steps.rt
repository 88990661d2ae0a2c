// Steps 1 to 7 of a family.
ghost use Rattle.std.specs.Prelude.{◌||◌, ◌≡◌, [], if◌then◌else◌, length};
ghost use Rattle.codec_pairing.specs.Family.{side_r1, side_r2};
ghost use Rattle.codec_select.specs.Alignments.{alignments_in, Formed, EnteredAdmissible};
ghost use Rattle.codec_select.specs.Steps.{CourseIn, cap_is_zero, too_few, is_kept, from_cap, from_sides, selected};

use crate::overlapping::overlap_of_sides;
use crate::selection::Decision;
use caller::reason::RejectionReason;
use codec_pairing::pairing::{write_fates, write_sides};
use codec_pairing::refusal::first_refusal;
use codec_records::family::Family;
use codec_records::options::Options;
use codec_records::side::Sides;
use codec_sides::dropping::{keep_group, keep_lowest_ranking};

// A family that ends without a duplex keeps no record.
fn conclude(decision: Decision, sides: &mut Sides) -> Decision
    ensures value { result ≡ decision }
    ensures r1 { sides.new.r1 ≡ (if is_kept decision then sides.old.r1 else []) }
    ensures r2 { sides.new.r2 ≡ (if is_kept decision then sides.old.r2 else []) }
{
    if !matches!(decision, Decision::Kept { .. }) {
        sides.clear();
    }
    decision
}

// A side below the minimum, or a cap of 0.
fn has_too_few_reads(options: Options, sides: &Sides) -> bool
    ensures { result ≡ too_few options sides.now.r1 || too_few options sides.now.r2 || cap_is_zero options }
{
    let minimum = options.min_reads_per_strand;
    let is_cap_zero = options.has_max_reads_per_strand && options.max_reads_per_strand == 0;
    (sides.r1.len() as u64) < minimum || (sides.r2.len() as u64) < minimum || is_cap_zero
}

// The end of step 4, and steps 5 to 7. The fates stand beside the family: it is lent to be read, and they are written.
fn from_cap(family: &Family, options: Options, fates: &mut [u8], sides: &mut Sides) -> Decision
    requires formed { Formed (alignments_in family.now) sides.old.r1 }
    requires formed_2 { Formed (alignments_in family.now) sides.old.r2 }
    requires fates_len { length fates.old ≡ length family.now.flags.now }
    ensures { CourseIn (from_cap options family.now.ranks.now (alignments_in family.now) sides.old.r1 sides.old.r2 fates.old) result fates.new sides.new }
{
    if has_too_few_reads(options, sides) {
        return conclude(
            Decision::Rejected(RejectionReason::InsufficientReads),
            sides,
        );
    }
    keep_lowest_ranking(family, options, &mut sides.r1, fates);
    keep_lowest_ranking(family, options, &mut sides.r2, fates);
    let decision = overlap_of_sides(
        family.flags,
        family.clipped,
        family.positions,
        family.starts,
        family.counts,
        family.ops,
        options,
        sides.r1.as_slice(),
        sides.r2.as_slice(),
    );
    conclude(decision, sides)
}

// Steps 3 to 7, of the records that step 2 enters.
fn from_sides(family: &Family, options: Options, fates: &mut [u8], sides: &mut Sides) -> Decision
    requires entered_admissible { EnteredAdmissible (alignments_in family.now) family.now.names.now family.now.verdicts.now }
    requires fates_len { length fates.old ≡ length family.now.flags.now }
    ensures { CourseIn (from_sides options family.now.ranks.now (alignments_in family.now) (side_r1 family.now) (side_r2 family.now) fates.old) result fates.new sides.new }
{
    write_sides(family, sides);
    let pairs = sides.r1.len();
    if pairs == 0 {
        return conclude(Decision::Empty, sides);
    }
    if (pairs as u64) < options.min_reads_per_strand {
        return conclude(
            Decision::Rejected(RejectionReason::InsufficientReads),
            sides,
        );
    }
    keep_group(family, &mut sides.r1, fates);
    keep_group(family, &mut sides.r2, fates);
    from_cap(family, options, fates, sides)
}

// Steps 1 to 7: the decision, the fate of each record so far, and the records of each side that stay.
pub fn select_family(
    family: &Family,
    options: Options,
    fates: &mut [u8],
    sides: &mut Sides,
) -> Decision
    requires { length fates.old ≡ length family.now.flags.now }
    ensures { CourseIn (selected options family.now.given family.now.names.now family.now.verdicts.now family.now.ranks.now (alignments_in family.now)) result fates.new sides.new }
{
    write_fates(family, fates);
    if let Err(refusal) = first_refusal(options.min_duplex_length, family, fates) {
        return conclude(Decision::Refused(refusal), sides);
    }
    from_sides(family, options, fates, sides)
}
