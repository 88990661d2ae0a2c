// Steps 1 and 2: the records that pair up by name, and the two sides that they enter.
ghost use Rattle.std.specs.Prelude.{true, false, None, Some, ◌≡◌, ℕ, ◌+◌, [], ◌∷◌, ◌≤◌, ◌<◌, if◌then◌else◌, length, get_or, IfNone, IfSome};
ghost use Rattle.lists.specs.Tabulate.{tabulate};
ghost use Rattle.lists.specs.Written.{written};
ghost use Rattle.codec_pairing.specs.Pairing.{not_primary, remains};
ghost use Rattle.codec_pairing.specs.Search.{has_name, has_namesake_between};
ghost use Rattle.codec_pairing.specs.Family.{name_of, is_namesake, namesakes_from, has_namesake, is_pair, later_of, opens_pair, fate_of, side_r1, side_r2};

use caller::fates::{PASSED_OVER, UNDECIDED};
use caller::reason::RejectionReason;
use codec_records::family::Family;
use codec_records::side::Sides;
use raw_bam::flags::{is_first_segment, is_paired, is_secondary, is_supplementary};

fn is_not_primary(flags: u16) -> bool
    ensures { result ≡ not_primary flags }
{
    is_secondary(flags) || is_supplementary(flags)
}

// Step 2 is of the records that this holds of.
fn is_remaining(flags: u16) -> bool
    ensures { result ≡ remains flags }
{
    is_paired(flags) && !is_not_primary(flags)
}

// Record i has the name, and remains.
#[tactic(auto, unfolding(crate::specs::Pairing::is_namesake))]
fn is_namesake(family: &Family, name: u32, i: usize) -> bool
    requires { i < length family.now.flags.now }
    ensures { result ≡ is_namesake family.now name i }
{
    family.names[i] == name && is_remaining(family.flags[i])
}

// Some record has the name. All are asked, with no early end, so that many are at once.
fn has_name(names: &[u32], name: u32) -> bool
    ensures { result ≡ has_name names.now name }
{
    let mut any = false;
    for &other in names {
        any |= other == name;
    }
    any
}

// Some record from one on and before another remains and has the name. All are asked with no branch, as above.
fn has_namesake_between(family: &Family, name: u32, from: usize, to: usize) -> bool
    requires { (from ≤ to) × (to ≤ length family.now.flags.now) }
    ensures { result ≡ has_namesake_between family.now.flags.now family.now.names.now name from to }
{
    let mut any = false;
    for k in from..to {
        any |= (family.names[k] == name) & is_remaining(family.flags[k]);
    }
    any
}

// Whether such a record may stand there: no is sure. Names alone are asked first, since mostly none has the name at all, and one that has
// it may not remain.
fn some_between(family: &Family, name: u32, from: usize, to: usize) -> bool
    requires { (from ≤ to) × (to ≤ length family.now.flags.now) }
    ensures { result ≡ false → namesakes_from family.now name from ≡ namesakes_from family.now name to }
{
    if !has_name(&family.names[from..to], name) {
        return false;
    }
    has_namesake_between(family, name, from, to)
}

// The first such record. The nearest is asked first, since a pair mostly stands side by side; the others are gone through only where there
// is one. A for: of find the check does not see that none is passed over.
fn first_between(family: &Family, name: u32, from: usize, to: usize) -> Option<usize>
    requires { (from < to) × (to ≤ length family.now.flags.now) }
    ensures none { IfNone result (namesakes_from family.now name from ≡ namesakes_from family.now name to) }
    ensures next { IfSome result (λ r. namesakes_from family.now name from ≡ r ∷ namesakes_from family.now name (r + 1)) }
    ensures found { IfSome result (λ r. is_namesake family.now name r ≡ true) }
    ensures within { IfSome result (λ r. (from ≤ r) × (r < to)) }
{
    if is_namesake(family, name, from) {
        return Some(from);
    }
    if !some_between(family, name, from, to) {
        return None;
    }
    for i in from..to {
        if is_namesake(family, name, i) {
            return Some(i);
        }
    }
    None
}

// The last such record, likewise.
fn last_between(family: &Family, name: u32, from: usize, to: usize) -> Option<usize>
    requires { (from < to) × (to ≤ length family.now.flags.now) }
    ensures none { IfNone result (namesakes_from family.now name from ≡ namesakes_from family.now name to) }
    ensures found { IfSome result (λ r. is_namesake family.now name r ≡ true) }
    ensures within { IfSome result (λ r. (from ≤ r) × (r < to)) }
{
    if is_namesake(family, name, to - 1) {
        return Some(to - 1);
    }
    if !some_between(family, name, from, to) {
        return None;
    }
    for i in (from..to).rev() {
        if is_namesake(family, name, i) {
            return Some(i);
        }
    }
    None
}

// The next record of a name that remains, from one on: 64 are asked at once.
fn next_namesake(family: &Family, name: u32, from: usize) -> Option<usize>
    requires { from ≤ length family.now.flags.now }
    ensures none { IfNone result (namesakes_from family.now name from ≡ []) }
    ensures next { IfSome result (λ r. namesakes_from family.now name from ≡ r ∷ namesakes_from family.now name (r + 1)) }
    ensures within { IfSome result (λ r. (from ≤ r) × (r < length family.now.flags.now)) }
{
    let n = family.len();
    let mut start = from;
    while start < n {
        let end = start + (n - start).min(64);
        if let Some(i) = first_between(family, name, start, end) {
            return Some(i);
        }
        start = end;
    }
    None
}

// Some record from one on remains and has the name. Mostly none has the name at all.
fn has_namesake(family: &Family, name: u32, from: usize) -> bool
    requires { from ≤ length family.now.flags.now }
    ensures { result ≡ has_namesake family.now name from }
{
    has_name(&family.names[from..], name) && next_namesake(family, name, from).is_some()
}

// The last record of record i's name that remains before it.
fn previous_namesake(family: &Family, i: usize) -> Option<usize>
    requires { i < length family.now.flags.now }
    ensures none { IfNone result (namesakes_from family.now (name_of family.now i) 0 ≡ namesakes_from family.now (name_of family.now i) i) }
    ensures previous { IfSome result (λ r. is_namesake family.now (name_of family.now i) r ≡ true) }
    ensures before { IfSome result (λ r. r < i) }
{
    let name = family.names[i];
    if !has_name(&family.names[..i], name) {
        return None;
    }
    let mut end = i;
    while 0 < end {
        let start = end - end.min(64);
        if let Some(k) = last_between(family, name, start, end) {
            return Some(k);
        }
        end = start;
    }
    None
}

// The later record of the pair whose earlier one is record i, the first of its name: exactly two of them remain, and the earlier one's
// verdict is yes. The later one's is never read.
fn pair_of(family: &Family, i: usize) -> Option<usize>
    requires i_in_bounds { i < length family.now.flags.now }
    requires first { namesakes_from family.now (name_of family.now i) 0 ≡ i ∷ namesakes_from family.now (name_of family.now i) (i + 1) }
    ensures value { result ≡ (if is_pair family.now i then Some (later_of family.now i) else None) }
    ensures within { IfSome result (λ r. r < length family.now.flags.now) }
{
    let name = family.names[i];
    let later = next_namesake(family, name, i + 1)?;
    if has_namesake(family, name, later + 1) {
        return None;
    }
    family.verdicts[i].then_some(later)
}

// What steps 1 and 2 make of a record: a record that is unpaired is rejected even where it is secondary. All of a name have one fate.
fn fate_of(family: &Family, fates: &[u8], i: usize) -> u8
    requires i_in_bounds { (i < length family.now.flags.now) × (i ≤ length fates.now) }
    requires by_index { (k : ℕ) → k < i → get_or fates.now k 0 ≡ fate_of family.now k }
    ensures { result ≡ fate_of family.now i }
{
    let own = family.flags[i];
    if !is_paired(own) {
        return u8::from(RejectionReason::FragmentRead);
    }
    if is_not_primary(own) {
        return PASSED_OVER;
    }
    if let Some(earlier) = previous_namesake(family, i) {
        return fates[earlier];
    }
    if pair_of(family, i).is_some() {
        UNDECIDED
    } else {
        u8::from(RejectionReason::NotPrimaryFrPair)
    }
}

// Writes the fate of each record after steps 1 and 2: the entered ones are undecided.
pub fn write_fates(family: &Family, fates: &mut [u8])
    requires { length family.now.flags.now ≤ length fates.old }
    ensures { fates.new ≡ written (tabulate (fate_of family.now) (length family.now.flags.now)) fates.old }
{
    for i in 0..family.len() {
        let fate = fate_of(family, fates, i);
        fates[i] = fate;
    }
}

// The later record of the pair that record i opens, as the first of its name.
fn later_of(family: &Family, i: usize) -> Option<usize>
    requires { i < length family.now.flags.now }
    ensures value { result ≡ (if opens_pair family.now i then Some (later_of family.now i) else None) }
    ensures within { IfSome result (λ r. r < length family.now.flags.now) }
{
    if !is_remaining(family.flags[i]) {
        return None;
    }
    match previous_namesake(family, i) {
        Some(_) => None,
        None => pair_of(family, i),
    }
}

// Writes the two sides, in the order of the names' first appearance.
pub fn write_sides(family: &Family, sides: &mut Sides)
    ensures r1 { sides.new.r1 ≡ side_r1 family.now }
    ensures r2 { sides.new.r2 ≡ side_r2 family.now }
{
    sides.clear();
    for i in 0..family.len() {
        if let Some(later) = later_of(family, i) {
            let is_first = is_first_segment(family.flags[i]);
            let (r1, r2) = if is_first { (i, later) } else { (later, i) };
            sides.r1.push(r1);
            sides.r2.push(r2);
        }
    }
}
