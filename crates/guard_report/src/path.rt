//! The text of a path.
ghost use Rattle.std.specs.Prelude.{◌≡◌, ◌++◌, OnOk, codes, option_map};
ghost use Rattle.guard_model.specs.declared.site.Step.TheVariants.{Component};
ghost use Rattle.guard_model.specs.TypeView.{type_view, component_view};
ghost use Rattle.guard_report.specs.Text.{component_of, part_name, element_type, type_within, step_text, steps_text};

use super::words::{add, add_name, add_number};
use guard_model::{Comp, OutOfMemory, Step, Ty};

/// Appends `$` and the steps, from a value of the type, if one is known.
pub fn add_path(text: &mut Vec<u8>, ty: Option<&Ty>, path: &[Step]) -> Result<(), OutOfMemory>
    ensures { OnOk result (text.new.items
        ≡ text.old.items ++ (codes "$" ++ steps_text (option_map (λ ty. type_view ty.now) ty.entry) path.now)) }
{
    add(text, b"$")?;
    let mut inner = ty;
    for step in path {
        add_step(text, inner, *step)?;
        inner = type_within(inner, *step);
    }
    Ok(())
}

fn add_step(text: &mut Vec<u8>, ty: Option<&Ty>, step: Step) -> Result<(), OutOfMemory>
    ensures { OnOk result (text.new.items
        ≡ text.old.items ++ step_text (option_map (λ ty. type_view ty.now) ty.entry) step) }
{
    match step {
        Step::Component(place) => {
            add(text, b".")?;
            add_part_name(text, ty, usize::from(place))
        }
        Step::Element(place) => {
            add(text, b"[")?;
            add_number(text, u64::from(place))?;
            add(text, b"]")
        }
    }
}

/// Appends the name of the component or alternative at this place of the type, or its number where there is none.
pub(crate) fn add_part_name(
    text: &mut Vec<u8>,
    ty: Option<&Ty>,
    place: usize,
) -> Result<(), OutOfMemory>
    ensures { OnOk result (text.new.items
        ≡ text.old.items ++ part_name (option_map (λ ty. type_view ty.now) ty.entry) place) }
{
    let name = component_at(ty, place).map(|comp| comp.name.as_str());
    add_name(text, name, place as u64)
}

/// The type one step further in; None where no type is known, or it has no such part.
pub fn type_within(ty: Option<&Ty>, step: Step) -> Option<&Ty>
    ensures { option_map (λ ty. type_view ty.now) result
        ≡ type_within (option_map (λ ty. type_view ty.now) ty.entry) step }
{
    match step {
        Step::Component(place) => part_type(ty, usize::from(place)),
        Step::Element(_) => element_type(ty),
    }
}

/// The type of the component or alternative at this place of the written list, from 0; None where no type is known, or
/// it has no such part.
pub fn part_type(ty: Option<&Ty>, place: usize) -> Option<&Ty>
    ensures { option_map (λ ty. type_view ty.now) result
        ≡ type_within (option_map (λ ty. type_view ty.now) ty.entry) (Component place) }
{
    Some(&component_at(ty, place)?.ty)
}

/// The component or alternative at this place of the written list, from 0; None where no type is known, or it has no
/// such part.
pub fn component_at(ty: Option<&Ty>, place: usize) -> Option<&Comp>
    ensures { option_map (λ comp. component_view comp.now) result
        ≡ component_of (option_map (λ ty. type_view ty.now) ty.entry) place }
{
    let kind = &ty?.kind;
    kind.components().get(place)
}

/// The type of the elements of an OF type; None where no type is known, or it is no OF type.
pub fn element_type(ty: Option<&Ty>) -> Option<&Ty>
    ensures { option_map (λ ty. type_view ty.now) result ≡ element_type (option_map (λ ty. type_view ty.now) ty.entry) }
{
    ty?.kind.element()
}
