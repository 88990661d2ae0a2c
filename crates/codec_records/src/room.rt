// The room of the columns.
ghost use Rattle.std.specs.Prelude.{cond, ◌≡◌, ◌≤◌, ltb};

// How many records the columns take: none of too many, which are refused for their number.
pub fn room(len: usize) -> usize
    ensures value { result ≡ cond (ltb 512 len) 0 len }
    ensures upper_bound { (result ≤ len) × (result ≤ 512) }
{
    if 512 < len { 0 } else { len }
}
