//! Laws of the definitions. The functions do nothing when they run.
ghost use Rattle.std.specs.Prelude.{◌≡◌, ◌<◌, ◌≤◌, ℕ, Bool, false, List, [], Option, Some, None, IsTrue, length};
ghost use Rattle.std.specs.Io.KnownBytes.{Appends};
ghost use Rattle.clap.specs.Words.{Text, fault_of};
ghost use Rattle.guard_files.specs.Devices.{Input, Device};
ghost use Rattle.guard_files.specs.Files.{Told};
ghost use Rattle.guard_files.specs.Reading.{AbstractLoaded, IsLoadedAt, IsPolicyAt};
ghost use Rattle.guard_files.specs.Records.{Record, AreRecords, HasNoRecord};
ghost use Rattle.guard_streams.specs.Counters.{AbstractCounted};
ghost use Rattle.guard_streams.specs.Muxing.{GuardsLinks, new_mux};
ghost use Rattle.guard_streams.specs.OwnRecords.{AreTurns};
ghost use Rattle.guard_streams.specs.Shown.{Display};
ghost use Rattle.guard_streams.specs.Stream.{GuardsStream};
ghost use Rattle.guard_streams.specs.Turns.{AbstractMux, Written, InTurn};
ghost use Rattle.guard_streams.specs.declared.seen.Seen.{Seen};
ghost use Rattle.guard_authors.specs.Encodes.{IsEncoding};
ghost use Rattle.derguard_program.specs.Requests.{AbstractRequest};
ghost use Rattle.derguard_program.specs.RunHeadline.{KeepsBetween, KeepsHeadline};
ghost use Rattle.derguard_program.specs.Words.{Asks, joined, the_app};
ghost use Rattle.guard_der.specs.Der.{der};
ghost use Rattle.guard_der.specs.Fits.{fits};
ghost use Rattle.guard_der.specs.ProperConstraints.{is_short};
ghost use Rattle.guard_der.specs.Sound.{is_sound};
ghost use Rattle.guard_frames.specs.GatewaySteps.{Turn};
ghost use Rattle.guard_frames.specs.OwnPieces.{pieces_of, added_to, is_broken};
ghost use Rattle.guard_frames.specs.OwnStream.{Gives};
ghost use Rattle.guard_lexer.specs.Lexing.{longest_text};
ghost use Rattle.guard_policy.specs.Policies.{AbstractPolicy};
ghost use Rattle.guard_model.specs.AbstractType.{AbstractType};
ghost use Rattle.guard_model.specs.AbstractValue.{AbstractValue};
ghost use Rattle.guard_report.specs.Shown.{value_shown};
ghost use Rattle.guard_values.specs.Meanings.{Meaning};
ghost use Rattle.reads_back.specs.Names.{HasNames, is_seen};

use guard_frames::laws::{law_guarded, law_own_stream};
use reads_back::laws::{law_one_value_of_text, law_shown_reads_back};

/// Words in which nothing is wrong ask for a request, with or without lines that are JSON, and for one alone.
pub fn law_one_request()
    ensures some { (words : List Text) → fault_of the_app (joined words) ≡ [] → (request : AbstractRequest)
        × (json : Bool) × Asks words request json }
    ensures one { (words : List Text) (request other : AbstractRequest) (json also : Bool) → Asks words request json
        → Asks words other also → (request ≡ other) × (json ≡ also) }
{}

/// The headline, of the program's own call: where the status of `run` says that nothing failed, the texts at the path
/// say a policy, and what was read is frames, of which those come out that may go, in order and octet by octet, and each
/// other one is reported, with notes before and behind the reports where they are asked for. Where neither notes nor
/// counters are, standard error takes nothing else.
pub fn law_headline_of_run()
    ensures run { (verbose : Bool) (place : Option (List ℕ)) (told : Told) (path : List ℕ) (shows : Display)
        (input : Input) (out err : Device) (status : ℕ) →
        GuardsStream verbose place told path shows input out err status → status ≤ 1 →
        KeepsBetween told path input out err }
    ensures plain { (told : Told) (path : List ℕ) (shows : Display) (input : Input) (out err : Device) (status : ℕ) →
        GuardsStream false None told path shows input out err status → status ≤ 1 →
        KeepsHeadline told path input (out.before, out.after) (err.before, err.after) }
{
    law_guarded();
}

/// A stream has one reading as records and a rest with which no record begins.
pub fn law_one_reading()
    ensures exists { (stream : List ℕ) → (records : List Record) × (rest : List ℕ) × AreRecords stream records rest
        × HasNoRecord rest }
    ensures one { (stream : List ℕ) (records others : List Record) (rest last : List ℕ) →
        AreRecords stream records rest → AreRecords stream others last → HasNoRecord rest → HasNoRecord last →
        (records ≡ others) × (rest ≡ last) }
{}

/// Whatever comes of a stream of records, the status is 3 at most; and where it is 0, and neither notes nor counters
/// are asked for, nothing is reported.
pub fn law_status_of_links()
    ensures most { (verbose : Bool) (place : Option (List ℕ)) (told : Told) (path : List ℕ) (shows : Display)
        (input : Input) (out err : Device) (status : ℕ) →
        GuardsLinks verbose place told path shows input out err status → status ≤ 3 }
    ensures silent { (told : Told) (path : List ℕ) (shows : Display) (input : Input) (out err : Device) →
        GuardsLinks false None told path shows input out err 0 → Appends err.before err.after [] }
{}

/// Whatever else comes in the stream of records, what is written of one of its sixteen links is what that link's own
/// stream gives: each frame of its pieces decided, numbered and reported by the policy in force as its last octet came,
/// up to a failure of an output of the link. Its own stream is its pieces until its first end, or until a piece that
/// was answered with a fault.
pub fn law_own_records()
    ensures { (k : ℕ) (path : List ℕ) (p : AbstractPolicy) (told : Told) (seen : Option Seen)
        (counted : Option AbstractCounted) (records : List Record) (written : List Written) (last : AbstractMux)
        → k < 16 → InTurn path (new_mux p told seen counted) records written last
        → (turns : List Turn) × AreTurns path (new_mux p told seen counted) records written turns
        × Gives (pieces_of k p turns) (added_to k turns) (is_broken k turns) }
{
    law_own_stream();
}

/// What is loaded to write values under the policy at a path has the policy that is there.
pub fn law_loaded()
    ensures { (told : Told) (path : List ℕ) (l : AbstractLoaded) → IsLoadedAt told path l
        → IsPolicyAt told path l.policy }
{}

/// What `show` prints of a value is encoded as the octets that were shown, and as no others, whatever names mean. Left
/// out are values with a hidden character, and those whose text or encoding is longer than what is read.
pub fn law_shown_encodes()
    ensures there { (m : Meaning) (t : AbstractType) (octets : List ℕ) (v : AbstractValue) → IsTrue (is_sound t)
        → HasNames t → IsTrue (fits t v) → IsTrue (is_seen v) → IsTrue (is_short (der t v))
        → length (value_shown t octets v) ≤ longest_text → der t v ≡ Some octets
        → IsEncoding m t (value_shown t octets v) v octets }
    ensures one { (m : Meaning) (t : AbstractType) (octets : List ℕ) (v : AbstractValue) → IsTrue (is_sound t)
        → HasNames t → IsTrue (fits t v) → IsTrue (is_seen v) → IsTrue (is_short (der t v))
        → length (value_shown t octets v) ≤ longest_text → der t v ≡ Some octets
        → (w : AbstractValue) (encoded : List ℕ) → IsEncoding m t (value_shown t octets v) w encoded
        → encoded ≡ octets }
{
    law_shown_reads_back();
    law_one_value_of_text();
}
