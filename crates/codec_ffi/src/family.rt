// The family call, for Rust and C hosts.
ghost use Rattle.codec_duplex.specs.Columns.{strand};
ghost use Rattle.codec_duplex.specs.Duplex.{duplex};
ghost use Rattle.codec_family.specs.Call.{lent_of, call_of};
ghost use Rattle.sample_ledgers.specs.Samples.{samples_of};
ghost use Rattle.codec_samples.specs.Books.{books_of};
ghost use Rattle.codec_samples.specs.SampledCall.{sampled_call_of};
ghost use Rattle.codec_samples.specs.SampledFamily.{SampledFamilyCalled};

use crate::choose::choose;
use codec_duplex::strand::Strand;
use codec_family::answer::FamilyAnswer;
use codec_family::lent::Lent;
use codec_family::strands::Strands;
use codec_records::options::Options;
use codec_records::records::Record;
use codec_samples::family::consensus_reads_sampled;
use codec_stats::ledger::Ledger;

// Steps 1 to 9 of a family: the duplex into d, both padded strands into s1 and s2, the handover list into listed and reasons, the marks;
// counted for the run and for the sample that it names. Flags, numbers and slices one by one: no Option and no struct of slices crosses the
// C interface.
#[unsafe(no_mangle)]
pub extern "C" fn codec_ffi_family(
    records: &[Record],
    ops: &[u32],
    options: Options,
    has_r1: bool,
    r1_bases: &[u8],
    r1_quals: &[u8],
    r1_depths: &[u16],
    r1_errors: &[u16],
    has_r2: bool,
    r2_bases: &[u8],
    r2_quals: &[u8],
    r2_depths: &[u16],
    r2_errors: &[u16],
    ledger: Ledger,
    sample: u32,
    samples: &mut [u64; 1920],
    d_bases: &mut [u8],
    d_quals: &mut [u8],
    d_depths: &mut [u16],
    d_errors: &mut [u16],
    s1_bases: &mut [u8],
    s1_quals: &mut [u8],
    s1_depths: &mut [u16],
    s1_errors: &mut [u16],
    s2_bases: &mut [u8],
    s2_quals: &mut [u8],
    s2_depths: &mut [u16],
    s2_errors: &mut [u16],
    listed: &mut [u32],
    reasons: &mut [u8],
    marks: &mut [u64],
) -> FamilyAnswer
    ensures { SampledFamilyCalled
        (sampled_call_of (call_of records.now ops.now options has_r1 (strand r1_bases.now r1_quals.now r1_depths.now r1_errors.now) has_r2 (strand r2_bases.now r2_quals.now r2_depths.now r2_errors.now)
        (lent_of (duplex d_bases.old d_quals.old d_depths.old d_errors.old) (strand s1_bases.old s1_quals.old s1_depths.old s1_errors.old) (strand s2_bases.old s2_quals.old s2_depths.old s2_errors.old) listed.old reasons.old marks.old)) «sample»)
        (books_of ledger «samples».old)
        (lent_of (duplex d_bases.old d_quals.old d_depths.old d_errors.old) (strand s1_bases.old s1_quals.old s1_depths.old s1_errors.old) (strand s2_bases.old s2_quals.old s2_depths.old s2_errors.old) listed.old reasons.old marks.old)
        result
        (samples_of «samples».new)
        (lent_of (duplex d_bases.new d_quals.new d_depths.new d_errors.new) (strand s1_bases.new s1_quals.new s1_depths.new s1_errors.new) (strand s2_bases.new s2_quals.new s2_depths.new s2_errors.new) listed.new reasons.new marks.new) }
{
    let r1 = Strand {
        bases: r1_bases,
        quals: r1_quals,
        depths: r1_depths,
        errors: r1_errors,
    };
    let r2 = Strand {
        bases: r2_bases,
        quals: r2_quals,
        depths: r2_depths,
        errors: r2_errors,
    };
    let strands = Strands {
        r1: has_r1.then_some(r1),
        r2: has_r2.then_some(r2),
    };
    let mut lent = Lent {
        duplex_bases: d_bases,
        duplex_quals: d_quals,
        duplex_depths: d_depths,
        duplex_errors: d_errors,
        r1_bases: s1_bases,
        r1_quals: s1_quals,
        r1_depths: s1_depths,
        r1_errors: s1_errors,
        r2_bases: s2_bases,
        r2_quals: s2_quals,
        r2_depths: s2_depths,
        r2_errors: s2_errors,
        listed_records: listed,
        listed_reasons: reasons,
        marks,
    };
    let chosen = choose(records, ops, options);
    FamilyAnswer::from(consensus_reads_sampled(
        chosen, options, &strands, ledger, sample, samples, &mut lent,
    ))
}
