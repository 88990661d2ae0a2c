// What a host is told.
ghost use Rattle.std.specs.Prelude.{◌≡◌, OnOk, IfOk, IfErr};
ghost use Rattle.codec_dispatch.specs.Reported.{reported_as};
ghost use Rattle.codec_dispatch.specs.Turns.{Added, Refused, answer_of_turn};

use crate::dispatch::{Dispatcher, LaneRefusal};

// Numbers, since no enum crosses the C interface. Kind 0 is an added family, 1 has the lane served, 2 is idle, 3 a refusal's number and what goes with it; the dispatcher is for the next call.
#[repr(C)]
#[derive(Clone, Copy)]
pub struct DispatchAnswer {
    pub kind: u32,
    pub lane: u32,
    pub number: u32,
    pub with: u64,
    pub dispatcher: Dispatcher,
}

impl DispatchAnswer {
    // What an add answers, and the dispatcher that it leaves.
    pub fn of_add(added: Result<(), LaneRefusal>, dispatcher: Dispatcher) -> Self
        ensures ok { OnOk added (result ≡ reported_as Added dispatcher) }
        ensures err { IfErr added (λ why. result ≡ reported_as (Refused why) dispatcher) }
    {
        match added {
            Ok(()) => DispatchAnswer {
                kind: 0,
                lane: 0,
                number: 0,
                with: 0,
                dispatcher,
            },
            Err(why) => DispatchAnswer::of_refusal(why, dispatcher),
        }
    }

    // What a turn answers, and the dispatcher that it leaves.
    pub fn of_turn(turn: Result<Option<u32>, LaneRefusal>, dispatcher: Dispatcher) -> Self
        ensures ok { IfOk turn (λ lane. result ≡ reported_as (answer_of_turn lane) dispatcher) }
        ensures err { IfErr turn (λ why. result ≡ reported_as (Refused why) dispatcher) }
    {
        match turn {
            Ok(Some(lane)) => DispatchAnswer {
                kind: 1,
                lane,
                number: 0,
                with: 0,
                dispatcher,
            },
            Ok(None) => DispatchAnswer {
                kind: 2,
                lane: 0,
                number: 0,
                with: 0,
                dispatcher,
            },
            Err(why) => DispatchAnswer::of_refusal(why, dispatcher),
        }
    }

    fn of_refusal(why: LaneRefusal, dispatcher: Dispatcher) -> Self
        ensures { result ≡ reported_as (Refused why) dispatcher }
    {
        DispatchAnswer {
            kind: 3,
            lane: 0,
            number: u32::from(why),
            with: 0,
            dispatcher,
        }
    }
}
