//! Laws of the definitions alone. Each is carried by a function that does nothing when it runs.
ghost use Rattle.guard_reader.specs.Laws.{ContentsLaw, MessagesLaw};

/// A pass over contents octets reads them as `decode` does, and what fails is what fails at the value.
pub fn law_contents()
    ensures { ContentsLaw }
{}

/// There is an answer exactly where some value has the octets as its encoding, and then it is what fails at that value.
pub fn law_messages()
    ensures { MessagesLaw }
{}
