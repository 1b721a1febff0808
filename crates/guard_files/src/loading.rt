//! The policy at a path; or why there is none.
ghost use Rattle.std.specs.Prelude.{map, string_bytes, IfOk, IfErr};
ghost use Rattle.guard_policy.specs.PolicyView.{policy_view};
ghost use Rattle.guard_frames.specs.Texts.{SayPolicy};
ghost use Rattle.guard_files.specs.Digest.{IsNumberedAt};
ghost use Rattle.guard_files.specs.Explaining.{AreTextsOf, IsNoPolicyWith};
ghost use Rattle.guard_files.specs.Files.{IsLater};
ghost use Rattle.guard_files.specs.Reading.{IsPolicyAt, IsNoPolicyAt, SayNoneLoaded};

use crate::digest::digest_of;
use crate::explaining::{Refusal, sources_of_path};
use crate::fault::Fault;
use crate::files::Files;
use crate::texts::{Texts, beside_policy, read};
use guard_frames::load_texts;
use guard_policy::Policy;
use std::alloc::Global;

/// The policy at the path, over the modules that it lists.
///
/// Faults are looked for in this order, and the first is answered: the policy's file, its top, the files of the modules
/// in listed order, the modules, the policy over them. NoMemory may come in place of any answer.
pub fn load<F: Files>(alloc: Global, path: &str, files: &mut F) -> Result<Policy, Fault>
    ensures there { IfOk result (λ p. IsPolicyAt (F.told files.old) path.now (policy_view p)) }
    ensures none { IfErr result (IsNoPolicyAt (F.told files.old) path.now) }
    ensures later { IsLater (F.told files.old) (F.told files.new) }
{
    let (policy, _) = load_numbered(alloc, path, files)?;
    Ok(policy)
}

/// The policy at the path, as `load` finds it, with the number of its texts.
pub fn load_numbered<F: Files>(
    alloc: Global,
    path: &str,
    files: &mut F,
) -> Result<(Policy, [u8; 32]), Fault>
    ensures there { IfOk result (λ p. IsNumberedAt (F.told files.old) path.now (policy_view p.0) p.1) }
    ensures none { IfErr result (IsNoPolicyAt (F.told files.old) path.now) }
    ensures later { IsLater (F.told files.old) (F.told files.new) }
{
    match load_noted(alloc, path, false, files) {
        Ok(found) => Ok(found),
        Err(refusal) => Err(refusal.fault),
    }
}

/// The policy at the path with the number of its texts; or why there is none, explained where that is asked for.
pub fn load_noted<F: Files>(
    alloc: Global,
    path: &str,
    explain: bool,
    files: &mut F,
) -> Result<(Policy, [u8; 32]), Refusal>
    ensures there { IfOk result (λ p. IsPolicyAt (F.told files.old) path.now (policy_view p.0)) }
    ensures numbered { IfOk result (λ p. IsNumberedAt (F.told files.old) path.now (policy_view p.0) p.1) }
    ensures none { IfErr result (λ r. IsNoPolicyWith explain (F.told files.old) path.now r.fault
        (string_bytes r.note)) }
    ensures later { IsLater (F.told files.old) (F.told files.new) }
{
    let texts = read_noted(alloc, path, explain, files)?;
    match said_by(alloc, &texts) {
        Ok(policy) => Ok((policy, digest_of(&texts))),
        Err(fault) => Err(Refusal::over(alloc, explain, path, &texts, fault)),
    }
}

/// The texts of the policy at the path and of its modules; or why they can't be had, explained where that is asked for.
///
/// It refuses with CannotRead by the path at which nothing can be read, with TooLarge where the policy has more than
/// 67,108,864 octets, and with Policy where its text lists no modules (Q1 to Q3 of its top).
pub(crate) fn read_noted<F: Files>(
    alloc: Global,
    path: &str,
    explain: bool,
    files: &mut F,
) -> Result<Texts, Refusal>
    ensures listed { IfOk result (λ texts. AreTextsOf (F.told files.old) path.now texts.policy.items
        (map string_bytes texts.files.items) (map (λ text. text.items) texts.modules.items)) }
    ensures none { IfErr result (λ r. IsNoPolicyWith explain (F.told files.old) path.now r.fault
        (string_bytes r.note)) }
    ensures later { IsLater (F.told files.old) (F.told files.new) }
{
    let sources = sources_of_path(path);
    let policy = match read(alloc, path, files) {
        Ok(policy) => policy,
        Err(fault) => return Err(Refusal::new(alloc, explain, &sources, &[], fault)),
    };
    match beside_policy(alloc, path, &policy, files) {
        Ok((listed, modules)) => Ok(Texts {
            policy,
            files: listed,
            modules,
        }),
        Err(fault) => Err(Refusal::new(alloc, explain, &sources, &policy, fault)),
    }
}

/// The policy that the texts say. It refuses with Schema or Policy, by the first fault of the texts.
pub(crate) fn said_by(alloc: Global, texts: &Texts) -> Result<Policy, Fault>
    ensures there { IfOk result (λ p. SayPolicy
        (map (λ text. text.items) texts.now.modules.items) texts.now.policy.items (policy_view p)) }
    ensures none { IfErr result (SayNoneLoaded
        (map (λ text. text.items) texts.now.modules.items) texts.now.policy.items) }
{
    let modules = texts.module_slices(alloc)?;
    Ok(load_texts(alloc, &modules, &texts.policy)?)
}
