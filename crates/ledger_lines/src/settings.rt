// A line in front of a family: `G` and 20 numbers set the run's ledger, `GS SAMPLE` and 20 numbers that sample's, and `N SAMPLE` names the
// sample of the families after it.
ghost use Rattle.std.specs.Prelude.{◌≡◌, IfSome};
ghost use Rattle.table_text.specs.Fields.{fields_from};
ghost use Rattle.ledger_lines.specs.Settings.{Settable, fresh_handed, set_by, figures_of, run_of, sample_of, name_of, setting_of};

use codec_stats::ledger::{COUNTS, Ledger};
use line_text::{line, numbers};
use sample_ledgers::samples;
use sample_ledgers::samples::SAMPLE_COUNTS;
use table_text::fields;

// What a family is handed: the run's ledger, the samples', and the sample that a line has named.
#[derive(Clone, Copy)]
pub struct Handed {
    pub ledger: Ledger,
    pub samples: [u64; SAMPLE_COUNTS],
    pub sample: Option<u32>,
}

// What the first family of a file is handed, where no line in front of it sets anything.
impl Default for Handed {
    ghost is_default = { λ handed. handed ≡ fresh_handed };

    fn default() -> Handed {
        let ledger = Ledger::default();
        let samples = [0; SAMPLE_COUNTS];
        Handed {
            ledger,
            samples,
            sample: None,
        }
    }
}

// What a line sets: the run's ledger, a sample's, or which sample is named.
#[derive(Clone, Copy)]
pub enum Setting {
    Run(Ledger),
    Sample(usize, Ledger),
    Name(u32),
}

impl Handed {
    pub fn set(&mut self, setting: Setting)
        requires { Settable setting }
        ensures { self.new ≡ set_by self.old setting }
    {
        match setting {
            Setting::Run(ledger) => self.ledger = ledger,
            Setting::Sample(sample, ledger) => {
                samples::store_sample(&mut self.samples, sample, ledger);
            }
            Setting::Name(sample) => self.sample = Some(sample),
        }
    }
}

// The twenty figures of a ledger, from a place of its line on.
fn figures_at(line: &[u8], at: usize) -> Option<Ledger>
    ensures { result ≡ figures_of (fields_from line.now at) }
{
    let mut counts = [0; COUNTS];
    let n = numbers::read_column(line, at, &mut counts)?;
    (n == COUNTS).then_some(Ledger::from(counts))
}

fn run_at(line: &[u8], at: usize) -> Option<Setting>
    ensures { result ≡ run_of (fields_from line.now at) }
{
    Some(Setting::Run(figures_at(line, at)?))
}

fn sample_at(line: &[u8], at: usize) -> Option<Setting>
    ensures value { result ≡ sample_of (fields_from line.now at) }
    ensures settable { IfSome result Settable }
{
    let (sample, next) = fields::read_number(line, at, 95)?;
    Some(Setting::Sample(sample as usize, figures_at(line, next)?))
}

fn name_at(line: &[u8], at: usize) -> Option<Setting>
    ensures { result ≡ name_of (fields_from line.now at) }
{
    let (sample, next) = fields::read_number(line, at, 4294967295)?;
    (line.len() < next).then_some(Setting::Name(sample as u32))
}

// What a line in front of a family sets, or that it is malformed; none where its tag is another. Each reader of a line answers an Option: where
// the line began its caller knows.
pub(crate) fn read_setting(line: &[u8]) -> Option<Option<Setting>>
    ensures value { result ≡ setting_of line.now }
    ensures settable { IfSome result (λ said. IfSome said Settable) }
{
    if let Some(at) = line::read_tag(line, b"G") {
        return Some(run_at(line, at));
    }
    if let Some(at) = line::read_tag(line, b"N") {
        return Some(name_at(line, at));
    }
    if let Some(at) = line::read_tag(line, b"GS") {
        return Some(sample_at(line, at));
    }
    None
}
