//! Laws of the definitions. The functions do nothing when they run.

ghost use Rattle.std.specs.Prelude.{◌≡◌, ◌⊎◌, ℕ, List, ◌++◌, ◌↔◌, Some, Ok, true, false, slice_get};
ghost use Rattle.std.specs.Io.KnownBytes.{IsAtEnd};
ghost use Rattle.guard_policy.specs.Policies.{AbstractPolicy};
ghost use Rattle.guard_policy.specs.Verdicts.{pass};
ghost use Rattle.guard_report.specs.Lines.{line_octets};
ghost use Rattle.guard_frames.specs.Answering.{pass_line, AllAnswer};
ghost use Rattle.guard_frames.specs.Bodies.{AbstractBody, IsBody, body_in};
ghost use Rattle.guard_frames.specs.Added.{Added};
ghost use Rattle.guard_frames.specs.Frames.{ConsistsOf};
ghost use Rattle.guard_frames.specs.Headline.{Headline, IsGuarded};
ghost use Rattle.guard_frames.specs.OfPolicy.{decision_of, route_of};
ghost use Rattle.guard_frames.specs.Outcomes.{FrameGoes, Outcome, frames_of};
ghost use Rattle.guard_frames.specs.Guarding.{Adds, AllAdd};
ghost use Rattle.guard_frames.specs.Runs.{RunsToEnd};
ghost use Rattle.guard_frames.specs.RunsTexts.{RunsTexts};
ghost use Rattle.guard_frames.specs.declared.totals.Totals.{Totals};
ghost use Rattle.guard_frames.specs.LinkView.{new_link};
ghost use Rattle.guard_frames.specs.Gateways.{AbstractGateway};
ghost use Rattle.guard_frames.specs.GatewaySteps.{Turn, AreSteps};
ghost use Rattle.guard_frames.specs.OwnPieces.{OwnPiece, own_stream, pieces_of, added_to, is_broken};
ghost use Rattle.guard_frames.specs.InForce.{Ruled, frames_ruled, policies_of, AreInForce};
ghost use Rattle.guard_frames.specs.OwnStream.{Gives};

use crate::decision::Decide;
use crate::devices::Source;

/// The headline, of what `run_texts` promises where it ends without a fault: whatever policy the texts say, what was
/// read is frames, of which those come out that may go, in order and octet by octet, and each other one is reported.
pub fn law_headline<S: Source>(source: &S)
    ensures { (modules : List (List ℕ)) (text read : List ℕ) (totals : Totals) (added : Added) →
        RunsTexts modules text read (IsAtEnd (S.tells source.now)) (Ok totals) added →
        Headline modules text read added }
{}

/// The headline under a policy, of what `run` and `decide_link` promise where they end without a fault.
pub fn law_guarded()
    ensures { (p : AbstractPolicy) (read : List ℕ) (totals : Totals) (added : Added) →
        RunsToEnd (decision_of p) read totals added → IsGuarded p read added }
{}

/// How a stream was cut into pieces doesn't matter: the frames of two pieces joined are those of the first, and then
/// those of its rest with the second after it.
pub fn law_any_cut()
    ensures { (a b : List ℕ) (frames others : List (List ℕ)) (rest last : List ℕ) →
        ConsistsOf a frames rest → ConsistsOf (rest ++ b) others last → ConsistsOf (a ++ b) (frames ++ others) last }
{}

/// Each stream has a reading as frames and a rest, and it has one.
pub fn law_one_reading()
    ensures exists { (stream : List ℕ) → (frames : List (List ℕ)) × (rest : List ℕ) × ConsistsOf stream frames rest }
    ensures one { (stream : List ℕ) (frames others : List (List ℕ)) (rest last : List ℕ) →
        ConsistsOf stream frames rest → ConsistsOf stream others last → (frames ≡ others) × (rest ≡ last) }
{}

/// Exactly those frames go out that are decided to go.
pub fn law_goes_exactly<D: Decide>(policy: &D)
    ensures { (n : ℕ) (o : Outcome) (line : List ℕ) → Adds (D.decides policy.now) n o line →
        (o.goes ≡ true) ↔ FrameGoes (D.decides policy.now) o.frame }
{}

/// Where each frame of a stream is answered, those are answered to go that go out of a run under the same decision.
pub fn law_answers<D: Decide>(policy: &D)
    ensures { (n m : ℕ) (outcomes answered : List Outcome) (text answers : List ℕ) →
        AllAdd (λ _. D.decides policy.now) n outcomes text → AllAnswer (D.decides policy.now) m answered answers →
        frames_of outcomes ≡ frames_of answered → outcomes ≡ answered }
{}

/// The line of a frame that is answered to go is that of its reason, which is to pass.
pub fn law_pass_line()
    ensures { (p : AbstractPolicy) (n : ℕ) (b : AbstractBody) → pass_line n b ≡ line_octets p (route_of b) n pass }
{}

/// A body that is read is there, and one that is there is read: three names, each after its length, and the message.
pub fn law_one_header()
    ensures read { (octets : List ℕ) (body : AbstractBody) → body_in octets ≡ Some body → IsBody octets body }
    ensures only { (octets : List ℕ) (body : AbstractBody) → IsBody octets body → body_in octets ≡ Some body }
{}

/// Whatever else happens in a gateway, what its steps add to the sinks of a new link is what that link's own stream
/// gives: each frame decided, numbered and reported by the policy in force as its last octet came, up to a failure of a
/// sink of the link. Its own stream is its pieces until it ends for the first time, as it does with a piece that was
/// answered with a fault.
pub fn law_own_stream()
    ensures { (k : ℕ) (turns : List Turn) (before after : AbstractGateway) →
        slice_get before.links k ≡ Some new_link → AreSteps before turns after →
        Gives (pieces_of k before.policy turns) (added_to k turns) (is_broken k turns) }
{}

/// A stream in pieces has one reading as frames and a rest, and each of the frames is under one policy.
pub fn law_one_own()
    ensures { (pieces : List OwnPiece) (ruled others : List Ruled) (rest last : List ℕ) →
        ConsistsOf (own_stream pieces) (frames_ruled ruled) rest →
        ConsistsOf (own_stream pieces) (frames_ruled others) last →
        AreInForce 0 pieces 0 ruled → AreInForce 0 pieces 0 others →
        (frames_ruled ruled ≡ frames_ruled others) × (policies_of ruled ≡ policies_of others) × (rest ≡ last) }
{}
