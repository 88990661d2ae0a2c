// The family call's answer as text.
ghost use Rattle.std.specs.Prelude.{◌≡◌, ◌+◌, ◌*◌, ◌≤◌, length};
ghost use Rattle.table_text.specs.Page.{HasRoom, Appends};
ghost use Rattle.answer_text.specs.FamilyText.{ending_text, listed_text, list_text, ledger_text, lists_text, columns_text, family_text, Holding, Answered};
ghost use Rattle.answer_text.specs.Left.{left_shown};
ghost use Rattle.codec_duplex.specs.Lent.{strand_of};

use crate::columns::write_strand;
use crate::left::Left;
use crate::line::{write_field, write_line};
use caller::reason::RejectionReason;
use codec_family::answer::Answer;
use codec_family::ending::Ending;
use codec_stats::ledger::{COUNTS, Ledger};
use table_text::page::Page;

// Room for the longest answer: 52 bytes for how it ends, 7,682 for a list of 512, 170 for the marks, 104,487 for twelve columns of 2,048
// places, and 422 for the ledger.
pub const ANSWER_BYTES: usize = 112813;

#[tactic(auto, unfolding(crate::specs::FamilyText::ending_text))]
fn write_ending(page: &mut Page, ending: Ending)
    requires { HasRoom 52 page.old }
    ensures appended { Appends (ending_text ending) page.old page.new }
    ensures upper_bound { page.new.end ≤ page.old.end + 52 }
{
    match ending {
        Ending::Called(length) => write_line(page, b"A called", &[length]),
        Ending::Empty => write_line::<u64>(page, b"A empty", &[]),
        Ending::NoStrand => write_line::<u64>(page, b"A nostrand", &[]),
        Ending::Rejected(reason) => write_line(page, b"A rejected", &[u8::from(reason)]),
        Ending::Disagreeing(_) => {
            let reason = RejectionReason::HighDuplexDisagreement;
            write_line(page, b"A rejected", &[u8::from(reason)])
        }
        Ending::Refused(refusal) => {
            write_line(
                page,
                b"A refused",
                &[u64::from(refusal.number()), refusal.given() as u64],
            )
        }
    }
}

// 32 bits are at most ten digits, and 8 bits three.
#[tactic(auto, using(crate::proofs::Lines::byte_digits, crate::proofs::Lines::word_digits))]
fn write_listed(page: &mut Page, record: u32, reason: u8)
    requires { HasRoom 15 page.old }
    ensures appended { Appends (listed_text «record» reason) page.old page.new }
    ensures upper_bound { page.new.end ≤ page.old.end + 15 }
{
    write_field(page, u64::from(record));
    page.push(b':');
    page.write_decimal(u64::from(reason));
}

// The handover list, each record with its reason.
fn write_list(page: &mut Page, records: &[u32], reasons: &[u8])
    requires alike { length reasons.now ≡ length records.now }
    requires room { HasRoom (15 * length records.now + 2) page.old }
    ensures appended { Appends (list_text (length records.now) records.now reasons.now) page.old page.new }
    ensures upper_bound { page.new.end ≤ page.old.end + 15 * length records.now + 2 }
{
    page.write(b"L");
    for (&record, &reason) in records.iter().zip(reasons) {
        write_listed(page, record, reason);
    }
    page.push(b'\n');
}

fn write_ledger(page: &mut Page, ledger: Ledger)
    requires { HasRoom 422 page.old }
    ensures appended { Appends (ledger_text ledger) page.old page.new }
    ensures upper_bound { page.new.end ≤ page.old.end + 422 }
{
    write_line(page, b"T", &<[u64; COUNTS]>::from(ledger));
}

// The handover list, and which of the family's records are marked.
fn write_lists(page: &mut Page, listed: usize, left: &Left<'_>)
    requires records { listed ≤ length left.now.listed.now }
    requires reasons { listed ≤ length left.now.reasons.now }
    requires marks { 8 ≤ length left.now.marks.now }
    requires room { HasRoom (15 * listed + 172) page.old }
    ensures appended { Appends (lists_text listed (left_shown left.now)) page.old page.new }
    ensures upper_bound { page.new.end ≤ page.old.end + 15 * listed + 172 }
{
    write_list(page, &left.listed[..listed], &left.reasons[..listed]);
    write_line(page, b"M", &left.marks[..8]);
}

// The first n places of the twelve result columns.
fn write_columns(page: &mut Page, n: usize, left: &Left<'_>)
    requires duplex { Holding n (strand_of left.now.duplex) }
    requires r1 { Holding n (strand_of left.now.r1) }
    requires r2 { Holding n (strand_of left.now.r2) }
    requires room { HasRoom (51 * n + 39) page.old }
    ensures appended { Appends (columns_text n (left_shown left.now).duplex (left_shown left.now).r1 (left_shown left.now).r2) page.old page.new }
    ensures upper_bound { page.new.end ≤ page.old.end + 51 * n + 39 }
{
    write_strand(page, b'D', n, &left.duplex);
    write_strand(page, b'1', n, &left.r1);
    write_strand(page, b'2', n, &left.r2);
}

// Writes the answer behind what the page has.
pub fn write_family_answer(page: &mut Page, answer: Answer, left: &Left<'_>)
    requires answered { Answered answer (left_shown left.now) }
    requires room { HasRoom 112813 page.old }
    ensures appended { Appends (family_text answer (left_shown left.now)) page.old page.new }
    ensures upper_bound { page.new.end ≤ page.old.end + 112813 }
{
    write_ending(page, answer.ending);
    match answer.ending {
        Ending::Refused(_) => {}
        Ending::Called(length) => {
            write_lists(page, answer.listed, left);
            write_columns(page, length as usize, left);
        }
        _ => write_lists(page, answer.listed, left),
    }
    write_ledger(page, answer.ledger);
}
