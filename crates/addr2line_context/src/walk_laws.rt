//! What follows from the definitions of walks between two ends. Each function is a law: it does
//! nothing, and its contract is proved.

ghost use Rattle.addr2line_context.specs.ContextCosts.{StepAsksOnItsWay};

/// The next step of a walk asks no units but those that the walk may still ask.
pub fn step_asks_on_its_way()
    ensures { StepAsksOnItsWay }
{}
