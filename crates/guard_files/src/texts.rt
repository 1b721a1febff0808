//! The texts of a policy and of its modules.
ghost use Rattle.std.specs.Prelude.{◌≡◌, ◌++◌, map, string_bytes, Ok, IfOk, IfErr};
ghost use Rattle.guard_policy.specs.Loads.{ListsFiles};
ghost use Rattle.guard_schema.specs.Accepts.{ReadsModules};
ghost use Rattle.guard_schema.specs.Texts.{AreOfTexts};
ghost use Rattle.guard_syntax.specs.ModuleViews.{module_view};
ghost use Rattle.guard_files.specs.Files.{Told, HasFirst, HasFront, HasText, after_read, IsLater};
ghost use Rattle.guard_files.specs.Reading.{folder, HaveTexts, IsNoPolicyAt, IsUnreadable};
ghost use Rattle.guard_files.specs.Reading.{SayNoneLoaded, HasNoFront};
ghost use Rattle.guard_files.specs.inside.Texts.{CannotAllBeRead, IsBeforeModules};

use crate::fault::Fault;
use crate::files::{Files, FilesFault};
use guard_lexer::LONGEST_TEXT;
use guard_notes::beside;
use guard_policy::module_files;
use guard_schema::read_modules;
use guard_syntax::Module;
use std::alloc::{AllocError, Global};

/// The most octets of a policy or of a file of cases.
const MOST: usize = 67_108_864;

/// One octet more than a module, or a message in a file, may have.
const FRONT: usize = LONGEST_TEXT + 1;

/// The text of a policy, the files of the modules that it lists, in order, and their texts.
#[derive(Drop)]
pub struct Texts {
    pub policy: Vec<u8>,
    pub files: Vec<String>,
    pub modules: Vec<Vec<u8>>,
}

impl Texts {
    /// The texts of the modules, as a schema is built from them.
    pub fn module_slices(&self, alloc: Global) -> Result<Vec<&[u8]>, AllocError>
        ensures { IfOk result (λ slices. map (λ s. s.now) slices.items
            ≡ map (λ text. text.items) self.now.modules.items) }
    {
        let mut slices = Vec::with_capacity(alloc, self.modules.len())?;
        for text in &self.modules {
            slices.push(text.as_slice())?;
        }
        Ok(slices)
    }

    /// The trees of the modules. It refuses with Schema, by the first fault of tokens or grammar, or where there are
    /// too many modules.
    pub(crate) fn trees(&self, alloc: Global) -> Result<Vec<Module<'_>>, Fault>
        ensures read { IfOk result (λ trees. ReadsModules (map (λ text. text.items) self.now.modules.items)
            (Ok (map module_view trees.items))) }
        ensures kept { IfOk result (λ trees. AreOfTexts (map module_view trees.items)) }
        ensures none { IfErr result (SayNoneLoaded (map (λ text. text.items) self.now.modules.items)
            self.now.policy.items) }
    {
        let slices = self.module_slices(alloc)?;
        Ok(read_modules(alloc, &slices)?)
    }
}

/// The files that the policy's text lists, and their texts beside the policy at the path, which was read before.
pub fn beside_policy<F: Files>(
    alloc: Global,
    path: &str,
    policy: &[u8],
    files: &mut F,
) -> Result<(Vec<String>, Vec<Vec<u8>>), Fault>
    ensures listed { IfOk result (λ p. ListsFiles policy.now (map string_bytes p.0.items)) }
    ensures read { IfOk result (λ p. HaveTexts (F.told files.old) (folder path.now) (map string_bytes p.0.items)
        (map (λ text. text.items) p.1.items)) }
    ensures missing { (told : Told) → HasText told path.now policy.now → F.told files.old ≡ after_read told
        → IfErr result (IsNoPolicyAt told path.now) }
    ensures before { IfErr result IsBeforeModules }
    ensures later { IsLater (F.told files.old) (F.told files.new) }
{
    let listed = module_files(alloc, policy)?;
    let modules = module_texts(alloc, path, &listed, files)?;
    Ok((listed, modules))
}

/// The texts of these files, beside the policy at the path.
fn module_texts<F: Files>(
    alloc: Global,
    path: &str,
    listed: &[String],
    files: &mut F,
) -> Result<Vec<Vec<u8>>, Fault>
    ensures read { IfOk result (λ texts. HaveTexts (F.told files.old) (folder path.now) (map string_bytes listed.now)
        (map (λ text. text.items) texts.items)) }
    ensures missing { IfErr result (CannotAllBeRead (F.told files.old) (folder path.now)
        (map string_bytes listed.now)) }
    ensures later { IsLater (F.told files.old) (F.told files.new) }
{
    let mut texts = Vec::with_capacity(alloc, listed.len())?;
    for name in listed {
        let place = beside(alloc, path, name)?;
        let text = read_front(alloc, &place, files)?;
        texts.push(text)?;
    }
    Ok(texts)
}

/// All of a policy or of a file of cases. What can't be read is named, and so is one that has too many octets.
pub fn read<F: Files>(alloc: Global, path: &str, files: &mut F) -> Result<Vec<u8>, Fault>
    ensures text { IfOk result (λ text. HasText (F.told files.old) path.now text.items) }
    ensures missing { IfErr result (IsUnreadable (F.told files.old) path.now) }
    ensures next { F.told files.new ≡ after_read (F.told files.old) }
{
    let text = read_up_to(alloc, path, MOST + 1, files)?;
    whole(alloc, path, text)
}

/// The text that was read, unless it has too many octets.
fn whole(alloc: Global, path: &str, text: Vec<u8>) -> Result<Vec<u8>, Fault>
    ensures all { (told : Told) → HasFirst 67108865 told path.now text.items
        → IfOk result (λ all. HasText told path.now all.items) }
    ensures none { (told : Told) → HasFirst 67108865 told path.now text.items
        → IfErr result (IsUnreadable told path.now) }
{
    if text.len() > MOST {
        return Err(Fault::TooLarge(String::from_str(alloc, path)?));
    }
    Ok(text)
}

/// A module, or a message in a file: where it has too many octets, one more than it may have. What can't be read is
/// named.
pub fn read_front<F: Files>(alloc: Global, path: &str, files: &mut F) -> Result<Vec<u8>, Fault>
    ensures text { IfOk result (λ text. HasFront (F.told files.old) path.now text.items) }
    ensures missing { IfErr result (HasNoFront (F.told files.old) path.now) }
    ensures next { F.told files.new ≡ after_read (F.told files.old) }
{
    read_up_to(alloc, path, FRONT, files)
}

/// At most so many octets of the text at the path, the first ones. What can't be read is named.
fn read_up_to<F: Files>(
    alloc: Global,
    path: &str,
    most: usize,
    files: &mut F,
) -> Result<Vec<u8>, Fault>
    ensures text { IfOk result (λ text. HasFirst most (F.told files.old) path.now text.items) }
    ensures missing { IfErr result (HasNoFront (F.told files.old) path.now) }
    ensures next { F.told files.new ≡ after_read (F.told files.old) }
{
    match files.read(alloc, path, most) {
        Ok(text) => Ok(text),
        Err(FilesFault::CannotRead(obstacle)) => {
            Err(Fault::CannotRead(String::from_str(alloc, path)?, obstacle))
        }
        Err(FilesFault::OutOfMemory) => Err(Fault::NoMemory),
    }
}
