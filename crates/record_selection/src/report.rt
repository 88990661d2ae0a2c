// What a host is told of a selection.
ghost use Rattle.std.specs.Prelude.{List, ◌≡◌, ◌≤◌};
ghost use Rattle.codec_records.specs.Records.{Holds};
ghost use Rattle.codec_records.specs.declared.records.Record.{Record as AnyRecord};
ghost use Rattle.record_selection.specs.Reported.{reported_selection, SelectingRecords};

use crate::alone::select_marked;
use codec_records::columns::Columns;
use codec_records::options::Options;
use codec_select::selection::{Decision, Selection};

const KEPT: u32 = 0;

const EMPTY: u32 = 1;

const REJECTED: u32 = 2;

const REFUSED: u32 = 3;

// Numbers, since no enum crosses the C interface. A kept family has the window, the length and which side is negative, a rejected one a reason's number, a refused one a refusal's number
// and what goes with it.
#[repr(C)]
#[derive(Clone, Copy, Debug, Default, PartialEq, Eq, Hash)]
pub struct SelectDecision {
    pub kind: u32,
    pub number: u32,
    pub with: u64,
    pub start: u64,
    pub end: u64,
    pub length: u64,
    pub r1_is_negative: bool,
    pub r2_is_negative: bool,
}

impl From<Decision> for SelectDecision {
    ghost from_gives = { λ decision told. told ≡ reported_selection decision };

    fn from(decision: Decision) -> SelectDecision {
        let none = SelectDecision::default();
        match decision {
            Decision::Kept {
                start,
                end,
                length,
                r1_is_negative,
                r2_is_negative,
            } => SelectDecision {
                kind: KEPT,
                start,
                end,
                length,
                r1_is_negative,
                r2_is_negative,
                ..none
            },
            Decision::Empty => SelectDecision {
                kind: EMPTY,
                ..none
            },
            Decision::Rejected(reason) => SelectDecision {
                kind: REJECTED,
                number: u32::from(u8::from(reason)),
                ..none
            },
            Decision::Refused(refusal) => SelectDecision {
                kind: REFUSED,
                number: refusal.number(),
                with: refusal.given() as u64,
                ..none
            },
        }
    }
}

// The records of each side that are kept, as mark words.
#[repr(C)]
#[derive(Clone, Copy, Debug, Default, PartialEq, Eq, Hash)]
pub struct SelectAnswer {
    pub decision: SelectDecision,
    pub r1: [u64; 8],
    pub r2: [u64; 8],
}

impl From<Selection> for SelectAnswer {
    ghost from_gives = { λ selection told. told ≡ record { decision = reported_selection selection.decision; r1 = selection.r1; r2 = selection.r2 } };

    fn from(selection: Selection) -> SelectAnswer {
        let Selection { decision, r1, r2 } = selection;
        SelectAnswer {
            decision: SelectDecision::from(decision),
            r1,
            r2,
        }
    }
}

// The work, on the columns of the records.
pub fn report_columns(columns: &Columns, ops: &[u32], options: Options) -> SelectAnswer
    ensures { (records : List AnyRecord) → (columns.now.given ≤ 512 → Holds columns.now columns.now.given records) → SelectingRecords options columns.now.given records ops.now result }
{
    SelectAnswer::from(select_marked(columns, ops, options))
}
