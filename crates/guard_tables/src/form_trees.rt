//! Formulas, put together from the right.
ghost use Rattle.std.specs.Prelude.{◌≡◌, map, IfOk};
ghost use Rattle.guard_tables.specs.Formulas as formulas;
ghost use Rattle.guard_tables.specs.Forms.{eithers, boths, own_form};
ghost use Rattle.guard_tables.specs.NodeViews.{form_view};

use crate::node::Form;
use guard_model::OutOfMemory;
use std::alloc::Global;

/// The formula that fails where this slot has failed or one of these formulas fails.
pub(crate) fn own_form(alloc: Global, slot: u8, forms: Vec<Form>) -> Result<Form, OutOfMemory>
    ensures { IfOk result (λ f. form_view f ≡ own_form slot (map form_view forms.items)) }
{
    let other = one_of(alloc, forms)?;
    either(alloc, Form::Slot(slot), other)
}

/// The formula that fails where one of these does.
fn one_of(alloc: Global, forms: Vec<Form>) -> Result<Form, OutOfMemory>
    ensures { IfOk result (λ f. form_view f ≡ eithers (map form_view forms.items) formulas.never) }
{
    let mut forms = forms;
    let mut all = Form::Never;
    while let Some(form) = forms.pop() {
        all = either(alloc, form, all)?;
    }
    Ok(all)
}

/// The formula that fails where all of these do.
pub(crate) fn all_of(alloc: Global, forms: Vec<Form>) -> Result<Form, OutOfMemory>
    ensures { IfOk result (λ f. form_view f ≡ boths (map form_view forms.items) formulas.always) }
{
    let mut forms = forms;
    let mut all = Form::Always;
    while let Some(form) = forms.pop() {
        all = both(alloc, form, all)?;
    }
    Ok(all)
}

fn either(alloc: Global, first: Form, second: Form) -> Result<Form, OutOfMemory>
    ensures { IfOk result (λ f. form_view f ≡ formulas.either (form_view first) (form_view second)) }
{
    let first = Box::new(alloc, first)?;
    let second = Box::new(alloc, second)?;
    Ok(Form::Either(first, second))
}

fn both(alloc: Global, first: Form, second: Form) -> Result<Form, OutOfMemory>
    ensures { IfOk result (λ f. form_view f ≡ formulas.both (form_view first) (form_view second)) }
{
    let first = Box::new(alloc, first)?;
    let second = Box::new(alloc, second)?;
    Ok(Form::Both(first, second))
}

/// The formula that fails where this one doesn't.
pub(crate) fn unless(alloc: Global, form: Form) -> Result<Form, OutOfMemory>
    ensures { IfOk result (λ f. form_view f ≡ formulas.unless (form_view form)) }
{
    let form = Box::new(alloc, form)?;
    Ok(Form::Unless(form))
}
