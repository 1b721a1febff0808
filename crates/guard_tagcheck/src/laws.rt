//! What holds of the definitions: a call that does nothing, proved for every type.
ghost use Rattle.guard_tagcheck.specs.Laws.{NoneWhereDistinct};

/// The search for a clash finds none exactly where all tags are distinct that must be (X.680 25.6, 27.3, 29.3). So a
/// definition that searches says the same as one that asks for distinct tags, also of types inside constraints.
pub fn law_distinct()
    ensures { NoneWhereDistinct }
{}
