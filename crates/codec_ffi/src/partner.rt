// The check of a partner's table, exported.
ghost use Rattle.std.specs.Prelude.{◌≡◌};
ghost use Rattle.partner_table.specs.Check.{checked};
ghost use Rattle.partner_table.specs.Reported.{reported_check};

use partner_table::report::{PartnerAnswer, report_tables};

// Whether their output table is what the position rules give for our input table.
#[unsafe(no_mangle)]
pub extern "C" fn codec_ffi_check_table(ours: &[u8], theirs: &[u8]) -> PartnerAnswer
    ensures { result ≡ reported_check (checked ours.now theirs.now) }
{
    report_tables(ours, theirs)
}
