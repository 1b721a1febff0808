//! Laws of the texts, over the definitions alone. Each is carried by a function that does nothing when it runs.
ghost use Rattle.std.specs.Prelude.{◌≡◌, ℕ, List, [], Option};
ghost use Rattle.guard_model.specs.AbstractType.{AbstractType};
ghost use Rattle.guard_model.specs.AbstractValue.{AbstractValue};
ghost use Rattle.guard_report.specs.declared.layout.Layout.TheVariants.{Lines};
ghost use Rattle.guard_report.specs.Shown.{value_lines};
ghost use Rattle.guard_report.specs.ValueText.{value_octets};

/// Where no place is noted, a shown value is the value as it is written: the notes are all that it has besides.
pub fn law_notes_alone()
    ensures { (octets : List ℕ) (level : ℕ) (line at : Option ℕ) (t : Option AbstractType) (v : AbstractValue)
        → value_lines (λ place. []) octets level line at t v ≡ value_octets (Lines level) t v }
{}
