// Answers as text: what selection and the family call answer, written on a page.
#![tactic(auto)]

pub mod columns;
pub mod family_answer;
pub mod left;
pub mod line;
pub mod sample_line;
pub mod selection_text;
