//! What a run counts.
ghost use Rattle.std.specs.Prelude.{◌≡◌, ◌<◌, ◌+◌, ◌^◌, ◌++◌, option_to_list, [], List, EachIndex, slice_index};
ghost use Rattle.aftr_base.specs.declared.event.DropCause.{DropCause};
ghost use Rattle.aftr_base.specs.Drops.{drop_counts};

use aftr_base::{DropCause, DropCounts};

/// What a run counts from its start on, for its report.
#[derive(Clone, Copy, Debug)]
pub struct Tally {
    /// How many records were read.
    pub records: u64,
    /// How many packets were sent.
    pub sent: u64,
    /// How many records were dropped, by cause.
    pub drops: DropCounts,
}

impl Tally {
    /// Nothing counted yet.
    pub fn new() -> Self
        ensures records { result.records ≡ 0 }
        ensures sent { result.sent ≡ 0 }
        ensures drops { result.drops.0 ≡ drop_counts [] }
    {
        Tally {
            records: 0,
            sent: 0,
            drops: DropCounts::none(),
        }
    }

    /// Counts one more record, the packets that it gave, and its drop if it was one.
    pub fn count(&mut self, packets: usize, cause: Option<DropCause>)
        requires records { self.old.records < 2 ^ 60 }
        requires sent { self.old.sent + packets < 2 ^ 62 }
        requires drops { EachIndex self.old.drops.0 (λ k. slice_index self.old.drops.0 k < 2 ^ 63) }
        ensures records { self.new.records ≡ self.old.records + 1 }
        ensures sent { self.new.sent ≡ self.old.sent + packets }
        ensures drops { (drops : List DropCause) → self.old.drops.0 ≡ drop_counts drops
            → self.new.drops.0 ≡ drop_counts (drops ++ option_to_list cause) }
    {
        self.records += 1;
        self.sent += packets as u64;
        if let Some(cause) = cause {
            self.drops.count(cause);
        }
    }
}
