//! Laws of seat machines.
ghost use Rattle.bq_seat.specs.Past.{IsOrderly, Past};
ghost use Rattle.bq_seat.specs.SeatStands.{StandsFor};
ghost use Rattle.bq_seat.specs.declared.machine.SeatMachine.{SeatMachine};

/// In every past that a machine represents, the close is among the steps if and only if the past
/// says so, and no mail was late before it.
#[tactic(auto, using(crate::proofs::OrderlyLemmas::orderly))]
pub fn pasts_are_orderly()
    ensures { (machine : SeatMachine) (p : Past) → StandsFor machine p → IsOrderly p }
{}
