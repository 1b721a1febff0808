//! Laws of the definitions alone. Each is carried by a function that does nothing when it runs.
ghost use Rattle.guard_tables.specs.Laws.{NoneLaw, OnlyLaw, AddedLaw, BelowLaw, WithoutLaw, SoundLaw, FormLaw};
ghost use Rattle.guard_tables.specs.Laws.{ConjunctionLaw, SpeakLaw, CountLaw, EachPartLaw, WithinPartLaw, FewLaw};
ghost use Rattle.guard_tables.specs.Laws.{LayLaw, MarkedLaw, MemberLaw, TableMembersLaw, TableRoomLaw, StandsLaw};

/// Which slots a set has.
pub fn law_slots()
    ensures none { NoneLaw }
    ensures only { OnlyLaw }
    ensures added { AddedLaw }
    ensures below { BelowLaw }
    ensures without { WithoutLaw }
{}

/// What a type or a constraint asks of the values at a node is what some terms of the node ask, with formulas over
/// slots of the node's own where it isn't a conjunction.
pub fn law_forms()
    ensures fails { FormLaw }
    ensures conjunctions { ConjunctionLaw }
    ensures speaks { SpeakLaw }
    ensures sound { SoundLaw }
{}

/// 256 slots suffice at each node of a type, whatever the depth, where no node has too many conditions.
pub fn law_few_slots()
    ensures one { CountLaw }
    ensures each { EachPartLaw }
    ensures within { WithinPartLaw }
    ensures all { FewLaw }
{}

/// The plan that is laid for a sound type asks of each value all that is asked of it, and nothing else.
pub fn law_lay()
    ensures demands { LayLaw }
    ensures members { MemberLaw }
{}

/// What fails at a value is added to what failed before.
pub fn law_marked()
    ensures { MarkedLaw }
{}

/// Once a value has passed the plan of a table's types, the slots that have failed are those of the types of which it
/// is no member, and each node has room for the slots that it needs.
pub fn law_table()
    ensures members { TableMembersLaw }
    ensures room { TableRoomLaw }
{}

/// The plan that is laid for a sound type has the type's tags, parts and defaults, whatever is asked.
pub fn law_standing()
    ensures { StandsLaw }
{}
