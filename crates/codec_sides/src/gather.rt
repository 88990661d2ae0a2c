// What is read of each record of one side.
ghost use Rattle.std.specs.Prelude.{ℕ, false, ◌≡◌, ◌≤◌, map, length, All};
ghost use Rattle.lists.specs.Written.{written};
ghost use Rattle.codec_records.specs.Records.{Below};
ghost use Rattle.codec_sides.specs.Side.{gathered, orientations};

use raw_bam::flags::is_reverse;

pub fn gather<T: Copy, F: Fn(usize) -> T>(side: &[usize], out: &mut [T], read: F)
    requires callable { All (F.pre read) side.now }
    requires room { length side.now ≤ length out.old }
    ensures { (value : ℕ → T) → ((r : ℕ) (x : T) → F.post read r x → x ≡ value r) → out.new ≡ written (map value side.now) out.old }
{
    for (k, &record) in side.iter().enumerate() {
        out[k] = read(record);
    }
}

// Each record's orientation is by its own flag.
pub fn gather_reverse(flags: &[u16], side: &[usize], out: &mut [bool])
    requires below { Below side.now (length flags.now) }
    requires side_in_bounds { length side.now ≤ length out.old }
    ensures { out.new ≡ written (gathered false (orientations flags.now) side.now) out.old }
{
    for (k, &record) in side.iter().enumerate() {
        out[k] = is_reverse(flags[record]);
    }
}
