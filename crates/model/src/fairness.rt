ghost use Rattle.model.specs.Asks.{NeverLonger, AlwaysServed};

/// Whatever the policy, its front is served: it is passed by at most patience times in a row, and the asks are bounded
/// by how often it was answered.
pub fn asks_stand()
    ensures bound { NeverLonger }
    ensures count { AlwaysServed }
{}
