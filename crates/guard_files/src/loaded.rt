//! A policy with its modules, in which values are written.
ghost use Rattle.std.specs.Prelude.{◌≡◌, map, string_bytes, Ok, IfOk, IfErr};
ghost use Rattle.guard_schema.specs.Accepts.{ReadsModules};
ghost use Rattle.guard_syntax.specs.ModuleViews.{module_view};
ghost use Rattle.guard_files.specs.Explaining.{AreTextsOf, IsNoPolicyWith};
ghost use Rattle.guard_files.specs.Files.{IsLater};
ghost use Rattle.guard_files.specs.Reading.{loaded_view, IsLoadedAt, SayLoaded, SayNoneLoaded};

use crate::explaining::Refusal;
use crate::fault::Fault;
use crate::files::Files;
use crate::loading::read_noted;
use crate::texts::Texts;
use guard_policy::Policy;
use guard_schema::BuiltModules;
use guard_syntax::Module;
use std::alloc::Global;

/// A policy, and the modules over whose types it is. They are built once, for the types of its messages and for what
/// names mean in values that are written.
#[derive(Drop)]
pub struct Loaded<'m, 'a> {
    pub policy: Policy,
    pub modules: BuiltModules<'m, 'a>,
    /// The trees of the modules.
    pub trees: &'m [Module<'a>],
    /// What says the policy and the modules.
    pub texts: &'a Texts,
}

impl<'m, 'a> Loaded<'m, 'a> {
    /// The policy at the path with its modules; or why there is none, explained where that is asked for. The texts and
    /// the trees of the modules are kept in the rooms.
    ///
    /// Faults are looked for in the order of `load`.
    pub fn at<F: Files>(
        alloc: Global,
        path: &str,
        explain: bool,
        files: &mut F,
        texts: &'a mut Option<Texts>,
        trees: &'m mut Vec<Module<'a>>,
    ) -> Result<Loaded<'m, 'a>, Refusal>
        ensures there { IfOk result (λ l. IsLoadedAt (F.told files.old) path.now (loaded_view l)) }
        // The texts are those at the path, with the names of their files.
        ensures listed { IfOk result (λ l. AreTextsOf (F.told files.old) path.now l.texts.now.policy.items
            (map string_bytes l.texts.now.files.items) (map (λ text. text.items) l.texts.now.modules.items)) }
        ensures said { IfOk result (λ l. SayLoaded (map (λ text. text.items) l.texts.now.modules.items)
            l.texts.now.policy.items (loaded_view l)) }
        ensures trees { IfOk result (λ l. ReadsModules (map (λ text. text.items) l.texts.now.modules.items)
            (Ok (map module_view l.trees.now))) }
        ensures none { IfErr result (λ r. IsNoPolicyWith explain (F.told files.old) path.now r.fault
            (string_bytes r.note)) }
        ensures later { IsLater (F.told files.old) (F.told files.new) }
    {
        let read = read_noted(alloc, path, explain, files)?;
        let texts = texts.insert(read);
        match Loaded::of(alloc, texts, trees) {
            Ok(loaded) => Ok(loaded),
            Err(fault) => Err(Refusal::over(alloc, explain, path, texts, fault)),
        }
    }

    /// The policy that the texts say, with its modules, whose trees are kept in the room.
    ///
    /// It refuses with Schema or Policy, by the first fault of the modules, or of the policy's text over them.
    fn of(
        alloc: Global,
        texts: &'a Texts,
        room: &'m mut Vec<Module<'a>>,
    ) -> Result<Loaded<'m, 'a>, Fault>
        ensures said { IfOk result (λ l. SayLoaded (map (λ text. text.items) texts.now.modules.items)
            texts.now.policy.items (loaded_view l)) }
        ensures trees { IfOk result (λ l. ReadsModules (map (λ text. text.items) texts.now.modules.items)
            (Ok (map module_view l.trees.now))) }
        ensures kept { IfOk result (λ l. l.texts.now ≡ texts.now) }
        ensures none { IfErr result (SayNoneLoaded (map (λ text. text.items) texts.now.modules.items)
            texts.now.policy.items) }
    {
        *room = texts.trees(alloc)?;
        let trees = room.as_slice();
        let built = BuiltModules::of(alloc, trees)?;
        let policy = Policy::load(alloc, &texts.policy, &built.schema)?;
        Ok(Loaded {
            policy,
            modules: built,
            trees,
            texts,
        })
    }
}
