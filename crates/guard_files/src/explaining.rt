//! What comes after the line of a fault where it is to be explained.
ghost use Rattle.std.specs.Prelude.{◌≡◌, [], map, string_bytes, IfOk};
ghost use Rattle.guard_notes.specs.Sources.{sources, sources_view};
ghost use Rattle.guard_files.specs.Explaining.{AreTextsOf, IsExplanation, IsNoPolicyWith, IsRefused};
ghost use Rattle.guard_files.specs.Explaining.{obstacle_line, unread_note};
ghost use Rattle.guard_files.specs.Files.{Told};
ghost use Rattle.guard_files.specs.Reading.{SayNoneLoaded};

use crate::fault::Fault;
use crate::files::Obstacle;
use crate::texts::Texts;
use guard_model::OutOfMemory;
use guard_notes::{Sources, explain_policy, explain_schema};
use std::alloc::Global;

/// Where nothing but the path is known.
pub fn sources_of_path<'a>(path: &'a str) -> Sources<'a>
    ensures { sources_view result ≡ sources path.now [] [] }
{
    Sources {
        path,
        files: &[],
        modules: &[],
    }
}

/// Where a fault may be: in the policy at this path, or in the modules whose files and texts these are.
pub fn sources_of<'a>(path: &'a str, texts: &'a Texts) -> Sources<'a>
    ensures { sources_view result ≡ sources path.now (map string_bytes texts.now.files.items)
        (map (λ text. text.items) texts.now.modules.items) }
{
    Sources {
        path,
        files: texts.files.as_slice(),
        modules: texts.modules.as_slice(),
    }
}

/// A fault with what comes after its line.
#[derive(Drop)]
pub struct Refusal {
    pub fault: Fault,
    pub note: String,
}

impl Refusal {
    /// The fault by which these texts, of the policy at the path and of its modules, say none, explained where that is
    /// asked for; or NoMemory without a word, where there is no memory to explain it.
    pub(crate) fn over(
        alloc: Global,
        explain: bool,
        path: &str,
        texts: &Texts,
        fault: Fault,
    ) -> Refusal
        ensures { (told : Told) → AreTextsOf told path.now texts.now.policy.items
            (map string_bytes texts.now.files.items) (map (λ text. text.items) texts.now.modules.items)
            → SayNoneLoaded (map (λ text. text.items) texts.now.modules.items) texts.now.policy.items fault
            → IsNoPolicyWith explain told path.now result.fault (string_bytes result.note) }
    {
        let sources = sources_of(path, texts);
        Refusal::new(alloc, explain, &sources, &texts.policy, fault)
    }

    /// The fault, explained over these texts and that of the policy where that is asked for; or NoMemory without a
    /// word, where there is no memory to explain it.
    pub(crate) fn new(
        alloc: Global,
        explain: bool,
        sources: &Sources,
        policy: &[u8],
        fault: Fault,
    ) -> Refusal
        ensures { IsRefused explain (sources_view sources.now) policy.now fault result.fault
            (string_bytes result.note) }
    {
        if !explain {
            return Refusal::plain(alloc, fault);
        }
        match explanation(alloc, sources, policy, &fault) {
            Ok(note) => Refusal { fault, note },
            Err(_) => Refusal::plain(alloc, Fault::NoMemory),
        }
    }

    /// The fault, of which nothing more is said.
    pub fn plain(alloc: Global, fault: Fault) -> Refusal
        ensures fault { result.fault ≡ fault }
        ensures silent { string_bytes result.note ≡ [] }
    {
        Refusal {
            fault,
            note: String::new(alloc),
        }
    }
}

/// What comes after the line of the fault.
fn explanation(
    alloc: Global,
    sources: &Sources,
    policy: &[u8],
    fault: &Fault,
) -> Result<String, OutOfMemory>
    ensures { IfOk result (λ note. IsExplanation (sources_view sources.now) policy.now fault.now (string_bytes note)) }
{
    match fault {
        Fault::Schema(fault) => explain_schema(alloc, sources, fault),
        Fault::Policy(fault) => {
            explain_policy(alloc, sources.path, sources.modules, policy, fault)
        },
        Fault::CannotRead(_, obstacle) => unread_note(alloc, *obstacle),
        Fault::TooLarge(_) => Ok(String::from_str(
            alloc,
            "  A policy has 67,108,864 octets at most. Look whether this path leads to one.\n",
        )?),
        Fault::Run(_) | Fault::NoMemory => Ok(String::new(alloc)),
    }
}

fn unread_note(alloc: Global, obstacle: Obstacle) -> Result<String, OutOfMemory>
    ensures { IfOk result (λ note. string_bytes note ≡ unread_note obstacle) }
{
    let mut note = String::from_str(alloc, obstacle_line(obstacle))?;
    note.push_str(
        "  Nothing can be read at this path. Module files are looked for in the folder of the policy.\n",
    )?;
    Ok(note)
}

fn obstacle_line(obstacle: Obstacle) -> &'static str
    ensures { result.now ≡ obstacle_line obstacle }
{
    match obstacle {
        Obstacle::Untold => "",
        Obstacle::NoFile => "  There is no file.\n",
        Obstacle::LostLink => "  There is a link, and nothing where it leads.\n",
        Obstacle::Folder => "  There is a folder in place of a file.\n",
        Obstacle::NotAllowed => {
            "  This user may not read the file, or not go through a folder on the way to it.\n"
        }
    }
}
