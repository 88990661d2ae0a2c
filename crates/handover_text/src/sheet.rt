// The ledger as a sheet, for people: one figure a line.
ghost use Rattle.std.specs.Prelude.{◌≡◌, ◌+◌, ◌*◌, ◌≤◌, ◌<◌, length, sum_by};
ghost use Rattle.table_text.specs.Page.{HasRoom, Appends};
ghost use Rattle.handover_text.specs.Sheet.{reason_text, reasons_text, counts_text, fates_text, duplexes_text, digit_at, fraction_text, rates_text, sheet_text};

use crate::handover::write_reason;
use answer_text::line::{write_field, write_fields, write_line};
use caller::refusal::LedgerRefusal;
use codec_stats::ledger::Ledger;
use codec_stats::rates::{LedgerRates, rates};
use table_text::page::Page;

// Room for the sheet: 624 bytes for the fates, 183 for the duplexes, and 106 for the rates.
pub const SHEET_BYTES: usize = 913;

fn write_reason_count(page: &mut Page, reason: u8, count: u64)
    requires { HasRoom 47 page.old }
    ensures appended { Appends (reason_text reason count) page.old page.new }
    ensures upper_bound { page.new.end ≤ page.old.end + 47 }
{
    write_reason(page, reason);
    write_line(page, b":", &[count]);
}

fn write_reason_counts(page: &mut Page, counts: &[u64; 10])
    requires { HasRoom 470 page.old }
    ensures appended { Appends (reasons_text counts.now) page.old page.new }
    ensures upper_bound { page.new.end ≤ page.old.end + 470 }
{
    for (i, &count) in counts.iter().enumerate() {
        write_reason_count(page, i as u8 + 1, count);
    }
}

// A line for each label and its count.
fn write_counts(page: &mut Page, lines: &[(&str, u64)])
    requires { HasRoom (sum_by (λ line. length line.0.now + 22) lines.now) page.old }
    ensures appended { Appends (counts_text lines.now) page.old page.new }
    ensures upper_bound { page.new.end ≤ page.old.end + sum_by (λ line. length line.0.now + 22) lines.now }
{
    for (label, count) in lines {
        write_line(page, label.as_bytes(), &[*count]);
    }
}

fn write_fates(page: &mut Page, ledger: Ledger)
    requires { HasRoom 624 page.old }
    ensures appended { Appends (fates_text ledger) page.old page.new }
    ensures upper_bound { page.new.end ≤ page.old.end + 624 }
{
    write_counts(
        page,
        &[("families:", ledger.families), ("records:", ledger.records)],
    );
    write_reason_counts(page, &ledger.reasons);
    write_counts(
        page,
        &[
            ("passed over:", ledger.passed_over),
            ("no strand:", ledger.no_strand),
            ("used:", ledger.used),
        ],
    );
}

fn write_duplexes(page: &mut Page, ledger: Ledger)
    requires { HasRoom 183 page.old }
    ensures appended { Appends (duplexes_text ledger) page.old page.new }
    ensures upper_bound { page.new.end ≤ page.old.end + 183 }
{
    let rejected = ledger.disagreement_rejected;
    write_counts(
        page,
        &[
            ("disagreement-rejected families:", rejected),
            ("duplexes:", ledger.duplexes),
            ("bases:", ledger.bases),
            ("duplex bases:", ledger.duplex_bases),
            ("disagreements:", ledger.disagreements),
        ],
    );
}

fn digit_at(power: u64, n: u64) -> u8
    requires { 0 < power }
    ensures { result ≡ digit_at power n }
{
    b'0' + (n / power % 10) as u8
}

#[tactic(auto, using(answer_text::proofs::Lines::long_digits))]
fn write_fraction(page: &mut Page, millionths: u64)
    requires { HasRoom 28 page.old }
    ensures appended { Appends (fraction_text millionths) page.old page.new }
    ensures upper_bound { page.new.end ≤ page.old.end + 28 }
{
    // A call for each power: of the powers in an array a closure would not know that none is 0.
    let places = [
        b'.',
        digit_at(100000, millionths),
        digit_at(10000, millionths),
        digit_at(1000, millionths),
        digit_at(100, millionths),
        digit_at(10, millionths),
        digit_at(1, millionths),
    ];
    write_field(page, millionths / 1000000);
    page.write(&places);
}

#[tactic(auto, unfolding(crate::specs::Sheet::rates_text))]
fn write_rates(page: &mut Page, found: Result<LedgerRates, LedgerRefusal>)
    requires { HasRoom 106 page.old }
    ensures appended { Appends (rates_text found) page.old page.new }
    ensures upper_bound { page.new.end ≤ page.old.end + 106 }
{
    match found {
        Ok(rates) => {
            write_line(page, b"filtered:", &[rates.filtered]);
            page.write(b"rate:");
            write_fraction(page, rates.millionths);
            page.push(b'\n');
            write_line(page, b"rate in millionths:", &[rates.millionths]);
        }
        Err(refusal) => write_line(page, b"refused:", &[u64::from(refusal.number()), 0]),
    }
}

// Writes the sheet behind what the page has.
pub fn write_sheet(page: &mut Page, ledger: Ledger)
    requires { HasRoom 913 page.old }
    ensures appended { Appends (sheet_text ledger) page.old page.new }
    ensures upper_bound { page.new.end ≤ page.old.end + 913 }
{
    write_fates(page, ledger);
    write_duplexes(page, ledger);
    write_rates(page, rates(ledger));
}
