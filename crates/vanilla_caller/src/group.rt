// The groups of a side whose records align alike.
ghost use Rattle.std.specs.Prelude.{false, ◌||◌, ◌≡◌, ℕ, ◌≤◌, ◌<◌, [], length, slice_index_or, if◌then◌else◌};
ghost use Rattle.lists.specs.Member.{is_in};
ghost use Rattle.lists.specs.Tabulate.{tabulate};
ghost use Rattle.lists.specs.Written.{written};
ghost use Rattle.raw_bam.specs.Prefix.{is_prefix};
ghost use Rattle.vanilla_caller.specs.Founding.{founded};
ghost use Rattle.vanilla_caller.specs.Group.{larger, winner, no_group, staying};
ghost use Rattle.vanilla_caller.specs.Lists.{lists_of};
ghost use Rattle.vanilla_caller.specs.Side.{Orders};

use crate::order::sort_by_length;
use crate::side::Side;
use std::cmp::Ordering;

// A group by the place of its founder in the order, and its size.
#[derive(Clone, Copy)]
struct Founded {
    place: usize,
    size: usize,
}

// The records of a side, in an order of them all.
#[derive(Clone, Copy)]
struct InOrder<'a> {
    side: &'a Side<'a>,
    order: &'a [usize],
    ghost orders: { Orders (length side.now.clipped.now) order.now },
}

impl InOrder<'_> {
    ghost use Rattle.vanilla_caller.specs.InOrder.{list_at, group_of};

    // The record at place k founds a group: it and those after it whose list is a prefix of its own are marked as grouped, and
    // their number is answered.
    fn found_group(&self, k: usize, grouped: &mut [bool]) -> usize
        requires k_in_bounds { k < length self.now.order.now }
        requires all_marked { length self.now.order.now ≤ length grouped.old }
        ensures size { result ≡ length (group_of self.now k).members }
        ensures by_index { (j : ℕ) → k ≤ j → j < length self.now.order.now →
            slice_index_or grouped.new j false ≡ (is_prefix (list_at self.now j) (list_at self.now k) || slice_index_or grouped.old j false) }
    {
        let mut entries = [0; 64];
        let first = self.side.list(self.order[k], &mut entries);
        let mut size = 0;
        for j in k..self.order.len() {
            if self.side.is_prefix(self.order[j], first) {
                grouped[j] = true;
                size += 1;
            }
        }
        size
    }

    // The winner of the best group so far and of one more: the larger, at a tie that with the smaller first list.
    fn better(&self, best: Founded, other: Founded) -> Founded
        requires best_in_bounds { best.place < length self.now.order.now }
        requires other_in_bounds { other.place < length self.now.order.now }
        ensures { result ≡ (if larger other.size (list_at self.now other.place) best.size (list_at self.now best.place) then other else best) }
    {
        let (founder, rival) = (self.order[other.place], self.order[best.place]);
        let wins = match other.size.cmp(&best.size) {
            Ordering::Less => false,
            Ordering::Equal => self.side.is_smaller(founder, rival),
            Ordering::Greater => true,
        };
        if wins { other } else { best }
    }

    // The place in the order of the founder of the group that wins.
    fn largest_group(&self) -> usize
        requires nonzero { 0 < length self.now.order.now }
        requires len_bound { length self.now.order.now ≤ 256 }
        ensures in_bounds { result < length self.now.order.now }
        ensures wins { group_of self.now result ≡ winner no_group (founded (lists_of self.now.side.now) self.now.order.now []) }
    {
        let mut grouped = [false; 256];
        let mut best = Founded { place: 0, size: 0 };
        for k in 0..self.order.len() {
            if !grouped[k] {
                let size = self.found_group(k, &mut grouped);
                best = self.better(best, Founded { place: k, size });
            }
        }
        best.place
    }

    // Writes for each record whether it is in the group that the record at a place of the order founds.
    fn mark_group(&self, place: usize, stays: &mut [bool])
        requires place_in_bounds { place < length self.now.order.now }
        requires all_marked { length self.now.order.now ≤ length stays.old }
        ensures { stays.new ≡ written (tabulate (λ i. is_in i (group_of self.now place).members) (length self.now.order.now)) stays.old }
    {
        stays[..self.order.len()].fill(false);
        let mut entries = [0; 64];
        let first = self.side.list(self.order[place], &mut entries);
        for &i in &self.order[place..] {
            if self.side.is_prefix(i, first) {
                stays[i] = true;
            }
        }
    }
}

// Writes for each record of a side of up to 256 whether it is in the most common alignment group.
pub fn select_most_common_alignment_group(side: &Side<'_>, stays: &mut [bool])
    requires len_bound { length side.now.clipped.now ≤ 256 }
    requires all_marked { length side.now.clipped.now ≤ length stays.old }
    ensures { stays.new ≡ written (staying side.now.clipped.now (lists_of side.now)) stays.old }
{
    let n = side.clipped.len();
    if n < 2 {
        stays[..n].fill(true);
        return;
    }
    let mut order = [0; 256];
    sort_by_length(side.clipped, &mut order);
    let records = InOrder {
        side,
        order: &order[..n],
    };
    records.mark_group(records.largest_group(), stays);
}
