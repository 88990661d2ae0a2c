// The twelve result columns.
ghost use Rattle.std.specs.Prelude.{true, ◌≡◌, is_some};
ghost use Rattle.codec_framing.specs.Framing.{Framable};
ghost use Rattle.codec_family.specs.Call.{columns_of};
ghost use Rattle.codec_family.specs.Ending.{is_called, masks_of};
ghost use Rattle.codec_family.specs.Lent.{lent_in, r1_of, r2_of, SameLent};
ghost use Rattle.codec_caller.specs.Columns.{Writable, WrittenIf};

use codec_duplex::strand::StrandMut;
use codec_family::ending::Ending;
use codec_family::lent::Lent;
use codec_family::strands::Strands;
use codec_framing::frame::Frame;
use codec_framing::writing::write_duplex;
use codec_records::options::Options;
use codec_strands::mask::Masks;

fn masks_of(options: Options) -> Masks
    ensures { result ≡ masks_of options }
{
    Masks {
        outer_length: options.outer_bases_length,
        outer_quality: options
            .has_outer_bases_qual
            .then_some(options.outer_bases_qual),
        single_strand_quality: options
            .has_single_strand_qual
            .then_some(options.single_strand_qual),
    }
}

// Writes the duplex and both strands of a family that is called; any other touches no column.
pub fn write_columns(
    ending: Ending,
    frame: Frame,
    options: Options,
    strands: &Strands<'_>,
    lent: &mut Lent<'_>,
)
    requires { is_called ending ≡ true → Writable frame (r1_of strands.now) (r2_of strands.now) (lent_in lent.old) }
    ensures written { WrittenIf (is_called ending) frame (masks_of options)
        (columns_of (r1_of strands.now)) (columns_of (r2_of strands.now)) (lent_in lent.old) (lent_in lent.new) }
    ensures same { SameLent lent.old lent.new }
{
    let (Ending::Called(_), Some(r1), Some(r2)) = (ending, strands.r1, strands.r2) else {
        return;
    };
    let mut duplex = StrandMut {
        bases: &mut *lent.duplex_bases,
        quals: &mut *lent.duplex_quals,
        depths: &mut *lent.duplex_depths,
        errors: &mut *lent.duplex_errors,
    };
    let mut s1 = StrandMut {
        bases: &mut *lent.r1_bases,
        quals: &mut *lent.r1_quals,
        depths: &mut *lent.r1_depths,
        errors: &mut *lent.r1_errors,
    };
    let mut s2 = StrandMut {
        bases: &mut *lent.r2_bases,
        quals: &mut *lent.r2_quals,
        depths: &mut *lent.r2_depths,
        errors: &mut *lent.r2_errors,
    };
    let masks = masks_of(options);
    write_duplex(frame, masks, &r1, &r2, &mut duplex, &mut s1, &mut s2);
}
