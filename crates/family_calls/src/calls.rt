// The family call on a family of a text.
ghost use Rattle.family_text.specs.Shown.{family_in};
ghost use Rattle.family_calls.specs.Ledgers.{HandedOn};
ghost use Rattle.family_calls.specs.Short.{Short};
ghost use Rattle.family_calls.specs.Written.{AnswersFamily};

use crate::columns::Columns;
use codec_caller::choosing::select_fates;
use codec_family::answer::Answer;
use codec_family::strands::Strands;
use codec_records::columns::gather;
use codec_samples::family::consensus_reads_sampled;
use family_text::call::Family;
use ledger_lines::settings::Handed;

// Calls a family for the sample that it is handed, 0 until one is named, and hands on the ledgers as they are then.
pub fn call_family(family: &Family<'_>, handed: &mut Handed, columns: &mut Columns) -> Answer
    ensures handed_on { HandedOn (family_in family.now) handed.old handed.new }
    ensures short { Short result }
    ensures answered { AnswersFamily (family_in family.now) handed.old result }
{
    let header = family.header;
    let gathered = gather(family.records, header.records);
    let chosen = select_fates(&gathered, family.words, header.options);
    let strands = Strands {
        r1: family.r1,
        r2: family.r2,
    };
    let sample = handed.sample.unwrap_or(0);
    let mut lent = columns.lend(&header);
    let answer = consensus_reads_sampled(
        chosen,
        header.options,
        &strands,
        handed.ledger,
        sample,
        &mut handed.samples,
        &mut lent,
    );
    handed.ledger = answer.ledger;
    answer
}
