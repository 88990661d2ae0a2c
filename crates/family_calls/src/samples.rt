// The samples' sheet of a run.
use family_windows::output;
use sample_ledgers::samples::SAMPLE_COUNTS;
use sheet_text::sheet::write_sheet;

// The sheet goes through an output that holds nothing any more.
pub fn write_samples(
    rt: &(impl Print + Eprint),
    samples: &[u64; SAMPLE_COUNTS],
    output: &mut [u8],
) {
    match write_sheet(samples, output) {
        Ok(end) => output::write_out(rt, &output[..end]),
        Err(refusal) => output::write_refusal(rt, u64::from(u32::from(refusal)), 0),
    }
}
