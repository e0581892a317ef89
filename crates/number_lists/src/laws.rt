ghost use Rattle.number_lists.specs.Reach.{ReachesIs};

/// A law, and nothing at run time: the rounds by which the definitions tell what is connected reach exactly
/// what a chain of steps leads to.
pub fn rounds_reach_what_steps_lead_to()
    ensures { ReachesIs }
{}
