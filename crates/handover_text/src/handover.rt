// The list that is handed over, for people: the families that gave no duplex, and their rejected records with the reasons by name.
ghost use Rattle.std.specs.Prelude.{◌≡◌, ◌+◌, ◌*◌, ◌≤◌, length};
ghost use Rattle.caller.specs.Reasons.{name_of};
ghost use Rattle.table_text.specs.Page.{HasRoom, Appends};
ghost use Rattle.handover_text.specs.Handover.{reason_name, outcome_text, ended_text, rejected_text, rejections_text, handover_text, Listing};

use answer_text::line::write_fields;
use caller::reason::RejectionReason;
use codec_family::answer::Answer;
use codec_family::ending::Ending;
use table_text::page::Page;

// Room for what is handed over of a family: 78 bytes for how it ended, and 74 for each of 512 records.
pub const HANDOVER_BYTES: usize = 37966;

// The longest name has 24 bytes.
#[tactic(auto, using(crate::proofs::Names::longest_name))]
fn write_name(page: &mut Page, reason: RejectionReason)
    requires { HasRoom 24 page.old }
    ensures appended { Appends (name_of reason) page.old page.new }
    ensures upper_bound { page.new.end ≤ page.old.end + 24 }
{
    page.write(reason.name().as_bytes());
}

// The name of the reason with a number; nothing where no reason has it.
pub(crate) fn write_reason(page: &mut Page, number: u8)
    requires { HasRoom 24 page.old }
    ensures appended { Appends (reason_name number) page.old page.new }
    ensures upper_bound { page.new.end ≤ page.old.end + 24 }
{
    if let Ok(reason) = RejectionReason::try_from(number) {
        write_name(page, reason);
    }
}

#[tactic(auto, unfolding(crate::specs::Handover::outcome_text))]
fn write_outcome(page: &mut Page, ending: Ending)
    requires { HasRoom 50 page.old }
    ensures appended { Appends (outcome_text ending) page.old page.new }
    ensures upper_bound { page.new.end ≤ page.old.end + 50 }
{
    match ending {
        Ending::Called(_) => {}
        Ending::Empty => page.write(b" empty"),
        Ending::NoStrand => page.write(b" no strand"),
        Ending::Rejected(reason) => {
            page.write(b" rejected ");
            write_name(page, reason);
        }
        Ending::Disagreeing(_) => {
            page.write(b" rejected ");
            write_name(page, RejectionReason::HighDuplexDisagreement);
        }
        Ending::Refused(refusal) => {
            page.write(b" refused");
            write_fields(page, &[u64::from(refusal.number()), refusal.given() as u64]);
        }
    }
}

fn write_ended(page: &mut Page, family: u64, ending: Ending)
    requires { HasRoom 78 page.old }
    ensures appended { Appends (ended_text family ending) page.old page.new }
    ensures upper_bound { page.new.end ≤ page.old.end + 78 }
{
    page.write(b"family");
    write_fields(page, &[family]);
    write_outcome(page, ending);
    page.push(b'\n');
}

fn write_rejected(page: &mut Page, family: u64, record: u32, reason: u8)
    requires { HasRoom 74 page.old }
    ensures appended { Appends (rejected_text family «record» reason) page.old page.new }
    ensures upper_bound { page.new.end ≤ page.old.end + 74 }
{
    page.write(b"record");
    write_fields(page, &[family, u64::from(record)]);
    page.push(b' ');
    write_reason(page, reason);
    page.push(b'\n');
}

// A line for each record of the handover list.
fn write_rejections(page: &mut Page, family: u64, records: &[u32], reasons: &[u8])
    requires alike { length reasons.now ≡ length records.now }
    requires room { HasRoom (74 * length records.now) page.old }
    ensures appended { Appends (rejections_text family (length records.now) records.now reasons.now) page.old page.new }
    ensures upper_bound { page.new.end ≤ page.old.end + 74 * length records.now }
{
    for (&record, &reason) in records.iter().zip(reasons) {
        write_rejected(page, family, record, reason);
    }
}

// Writes what is handed over of a family behind what the page has.
pub fn write_handover(page: &mut Page, family: u64, answer: Answer, records: &[u32], reasons: &[u8])
    requires listing { Listing answer records.now reasons.now }
    requires room { HasRoom 37966 page.old }
    ensures appended { Appends (handover_text family answer records.now reasons.now) page.old page.new }
    ensures upper_bound { page.new.end ≤ page.old.end + 37966 }
{
    if let Ending::Called(_) = answer.ending {
        return;
    }
    let listed = answer.listed;
    write_ended(page, family, answer.ending);
    write_rejections(page, family, &records[..listed], &reasons[..listed]);
}
