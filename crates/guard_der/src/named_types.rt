//! Types by their names, as a schema has them, and the names of its modules.
ghost use Rattle.std.specs.Prelude.{◌≡◌, ◌≤◌, option_map, length, IfSome, IsTrue};
ghost use Rattle.guard_model.specs.TypeView.{type_view};
ghost use Rattle.guard_der.specs.NamedTypes.{AbstractTypes, module_at};
ghost use Rattle.guard_der.specs.Sound.{is_sound};

use guard_model::Ty;

/// Sound types by the name of their module and their own, and the names of modules by the places of their texts, of
/// which there are 64 at most. An implementation is known by what it answers, so that what asks for types need not know
/// how they are kept.
pub trait Types {
    // the modules' names, and the types that names have
    ghost types: { Self → AbstractTypes };

    // there are 64 modules at most
    ghost few: { (s : Self) → length (types s).modules ≤ 64 };

    /// The type of this name that the module of this name assigns, which is sound; None where there is no such module
    /// or it assigns no type of this name.
    fn ty(&self, module_name: &str, name: &str) -> Option<&Ty>
        ensures sound { IfSome result (λ ty. IsTrue (is_sound (type_view ty.now))) }
        ensures named { option_map (λ ty. type_view ty.now) result ≡ (types self.now).types module_name.now name.now };

    /// The name of the module at this place of the list of texts, from 1; None where there is no such place.
    fn module(&self, text: u32) -> Option<&str>
        ensures { option_map (λ name. name.now) result ≡ module_at (types self.now).modules text };
}
