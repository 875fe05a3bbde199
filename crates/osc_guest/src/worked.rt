//! Instructions worked through. Each function does nothing: what it says is computed from the
//! definitions.

ghost use Rattle.osc_guest.specs.Worked.{
  AddiHits,
  AddiMisses,
  AddiMissesFour,
  SdMisses,
  LdHits,
  LdFaults,
  LinkBeyondFaults,
  LrReserves,
  ScSucceeds,
  ScOutdated,
  ScUnreserved,
  PartsKept,
};
ghost use Rattle.osc_guest.specs.WorkedOrders.{
  EcallAsks,
  FirstPcFaults,
  FourReachFurther,
  StopObeyed,
  OverObeyed,
  StartObeyed,
};

/// `addi` takes three actions where the fetch hits the cache, and six where it misses; with four levels
/// of page tables it takes seven.
#[tactic(auto, unfolding(crate::specs::Worked::worked))]
pub fn addi_takes_three_or_six()
    ensures hits { AddiHits }
    ensures misses { AddiMisses }
    ensures four { AddiMissesFour }
{}

/// `sd` takes ten actions where the fetch hits and the data's page is not in the cache.
#[tactic(auto, unfolding(crate::specs::Worked::worked))]
pub fn sd_takes_ten()
    ensures { SdMisses }
{}

/// `ld` takes four actions where both pages are in the cache; it faults where an entry or a frame
/// is missing, and then changes nothing.
#[tactic(auto, unfolding(crate::specs::Worked::worked))]
pub fn ld_takes_four()
    ensures hits { LdHits }
    ensures unmapped { LdFaults }
    ensures beyond { LinkBeyondFaults }
{}

/// A load-reserved keeps the version of its frame, and the store-conditional after it stores
/// exactly where the gate has that version still.
#[tactic(auto, unfolding(crate::specs::Worked::worked))]
pub fn reservations_by_version()
    ensures reserves { LrReserves }
    ensures succeeds { ScSucceeds }
    ensures outdated { ScOutdated }
    ensures unreserved { ScUnreserved }
{}

/// An `ecall` asks for the call that its registers say.
#[tactic(auto, unfolding(crate::specs::Worked::worked))]
pub fn ecall_asks()
    ensures { EcallAsks }
{}

/// A first pc that is misaligned or not canonical is found at once.
#[tactic(auto, unfolding(crate::specs::Worked::worked))]
pub fn first_pc_faults()
    ensures three { FirstPcFaults }
    ensures four { FourReachFurther }
{}

/// What a hart does with each order.
#[tactic(auto, unfolding(crate::specs::Worked::worked))]
pub fn orders_obeyed()
    ensures stop { StopObeyed }
    ensures over { OverObeyed }
    ensures start { StartObeyed }
{}

/// An access to a part of a word leaves its other bytes as they are.
#[tactic(auto, unfolding(crate::specs::Worked::worked))]
pub fn parts_kept()
    ensures { PartsKept }
{}
