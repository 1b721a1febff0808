//! What holds of lines however they are put.
ghost use Rattle.guard_json.specs.Taken.{JsonCameLaw};

/// However plain lines were put into a sink of lines, the sink behind is still the one that was given, and what it took
/// since is the JSON of these lines; and only where the sink of lines has failed a part of one more object.
pub fn law_json_came()
    ensures { JsonCameLaw }
{}
