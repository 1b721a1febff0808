//! What holds of every type and every value.
ghost use Rattle.guard_eval.specs.Violations.{MembersViolateNothing};

/// A value violates no constraint exactly where it is a member.
pub fn law_members_violate_nothing()
    ensures { MembersViolateNothing }
{}
