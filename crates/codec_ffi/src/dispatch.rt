// The dispatcher's three calls, exported. It goes into a call by value and comes back by value.
ghost use Rattle.std.specs.Prelude.{◌≡◌};
ghost use Rattle.codec_dispatch.specs.Dispatch.{fresh};
ghost use Rattle.codec_dispatch.specs.Reported.{reported};
ghost use Rattle.codec_dispatch.specs.Turns.{Add, Turn, outcome_of};

use codec_dispatch::dispatch::Dispatcher;
use codec_dispatch::report::DispatchAnswer;

// A dispatcher with no family waiting.
#[unsafe(no_mangle)]
pub extern "C" fn codec_ffi_fresh_dispatcher() -> Dispatcher
    ensures { result ≡ fresh }
{
    Dispatcher::default()
}

// A family of the lane waits now too.
#[unsafe(no_mangle)]
pub extern "C" fn codec_ffi_add(mut dispatcher: Dispatcher, lane: u32) -> DispatchAnswer
    ensures { result ≡ reported (outcome_of dispatcher (Add lane)) }
{
    let added = dispatcher.add(lane);
    DispatchAnswer::of_add(added, dispatcher)
}

// Whose family is next.
#[unsafe(no_mangle)]
pub extern "C" fn codec_ffi_turn(mut dispatcher: Dispatcher) -> DispatchAnswer
    ensures { result ≡ reported (outcome_of dispatcher Turn) }
{
    let turn = dispatcher.turn();
    DispatchAnswer::of_turn(turn, dispatcher)
}
