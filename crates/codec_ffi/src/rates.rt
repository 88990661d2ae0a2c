// The ledger's rates, exported.
ghost use Rattle.std.specs.Prelude.{◌≡◌};
ghost use Rattle.codec_stats.specs.Ledger.{rates_of};
ghost use Rattle.codec_stats.specs.Reported.{reported_rates};

use codec_stats::ledger::Ledger;
use codec_stats::rates::rates;
use codec_stats::report::RatesAnswer;

// The filtered records and both rates of a ledger.
#[unsafe(no_mangle)]
pub extern "C" fn codec_ffi_rates(ledger: Ledger) -> RatesAnswer
    ensures { result ≡ reported_rates (rates_of ledger) }
{
    RatesAnswer::from(rates(ledger))
}
