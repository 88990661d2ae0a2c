// fgbio stores per-base depths and errors as signed 16-bit numbers.
ghost use Rattle.std.specs.Prelude.{◌≡◌};
ghost use Rattle.caller.specs.Short.{short_depth, short_error};

pub const FGBIO_SHORT_DEPTH_MAX: u16 = 32767;

// One depth, capped; wide enough that two of them can be added.
pub fn clamp_per_base_to_fgbio_short(depth: u16) -> u32
    ensures { result ≡ short_depth depth }
{
    u32::from(depth.min(FGBIO_SHORT_DEPTH_MAX))
}

// A combined error, which a difference can take below 0, limited to 0..32,767.
pub fn clamp_combined_error_to_fgbio_short(error_sum: i64) -> u16
    ensures { result ≡ short_error error_sum }
{
    error_sum.clamp(0, i64::from(FGBIO_SHORT_DEPTH_MAX)) as u16
}
