//! Laws of the agents' rules.
ghost use Rattle.t1_live.specs.Laws.{CoreAgentsKeepTheirRule, DestinationAgentsKeepTheirRule, CrossbarAgentsKeepTheirRule};

/// What a core agent keeps in its type, at each of its turns, is the rule of a core.
pub fn core_agents_keep_their_rule()
    ensures { CoreAgentsKeepTheirRule }
{}

/// What a destination agent keeps is the rule of a destination.
pub fn destination_agents_keep_their_rule()
    ensures { DestinationAgentsKeepTheirRule }
{}

/// What the crossbar agent keeps is the rule of the crossbar.
pub fn crossbar_agents_keep_their_rule()
    ensures { CrossbarAgentsKeepTheirRule }
{}
