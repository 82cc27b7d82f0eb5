//! Laws of all records and of all runs, which no code stands for.
ghost use Rattle.xlate_core.specs.Laws.{EachRunIsAhead, EachRunIsTold, EachStepIsAhead, EachStepIsTold};
ghost use Rattle.xlate_core.specs.Lasting.{EachRefusalLeavesAll, EachUseLasts};
ghost use Rattle.xlate_core.specs.Laws.{EachRunIsReached, EachRunIsValid, EachRunKeepsTold};

/// The log can be believed: it can be told what each record logs, in the order of a message, and it then tells the leases,
/// the plans and the horizon that the translator has. Each packet of a subscriber lies within the horizon, so that a
/// question for its moment is answered (RFC 6888 section 4).
pub fn log_is_believed()
    ensures step_told { EachStepIsTold }
    ensures run_told { EachRunIsTold }
    ensures step_ahead { EachStepIsAhead }
    ensures run_ahead { EachRunIsAhead }
{}

/// Each state that a run comes to from an accepted configuration and a log of ended leases is consistent, and keeps what the log
/// told; it is valid, where no two leases of the log share a port at a moment.
pub fn runs_are_valid()
    ensures reached { EachRunIsReached }
    ensures valid { EachRunIsValid }
    ensures kept { EachRunKeepsTold }
{}

/// Nothing goes to make room (RFC 6888 section 3): whatever the records are, a mapping keeps its place and its remote endpoints
/// until their time has run out, and a packet that is refused a place changes nothing.
pub fn quotas_refuse()
    ensures lasting { EachUseLasts }
    ensures refusal { EachRefusalLeavesAll }
{}
