//! Messages whose names and types lie elsewhere.
use guard_model::Ty;

/// A message of a policy, as it says it: its name, and its declared type with the name of the module that assigns it.
#[derive(Clone, Copy)]
pub struct SaidMessage<'a> {
    pub name: &'a str,
    pub home: &'a str,
    /// The name of the declared type in this module.
    pub(crate) type_name: &'a str,
    pub ty: &'a Ty,
}
