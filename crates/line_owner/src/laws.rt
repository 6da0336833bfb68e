//! Laws of the owner's turns, over their definitions alone: each stands as the contract of a function that does nothing.
ghost use Rattle.line_owner.specs.Refreshings.{RoundsAreFresh, SpansHaveOne};
ghost use Rattle.line_owner.specs.Sends.{OnlyMembersSend};

/// Whatever the task: a reading is sent by a meter that has joined and has power, what was asked for by a meter with power, and questions and receipts go
/// to meters that have joined.
pub fn only_members_send()
    ensures { OnlyMembersSend }
{}

/// Where the coordinator gives routes anew (`refresh`): as each round of readings begins it does so, or did so as an earlier one began, at most
/// `refresh_every` before.
pub fn rounds_are_fresh()
    ensures { RoundsAreFresh }
{}

/// The coordinator gives routes anew at most once in each span of `refresh_every`, counted from the first round of readings on: as its first round begins.
pub fn spans_have_one()
    ensures { SpansHaveOne }
{}
