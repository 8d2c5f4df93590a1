ghost use Rattle.std.specs.Prelude.{◌≡◌, ℕ};
ghost use Rattle.network_model.specs.Network.{Network};
ghost use Rattle.network_model.specs.Plan.{Plan};
ghost use Rattle.fault_model.specs.Findings.{Findings};
ghost use Rattle.desk_core.specs.declared.event.LoggedEvent.TheVariants as logged;
ghost use Rattle.desk_core.specs.Past.{Past};
ghost use Rattle.desk_core.specs.Replies.{reply_of, Located, Closed};
ghost use Rattle.desk_core.specs.Witnesses.{AreWitnessed, IsReport, IsEnding};

/// Each outcome that counts, and so each that a report counts, has one caller's departure and arrival in the history. Both stand where
/// the round is open, has its plan and its network is the one now. No departure of the packet that counts stands between the two, and no
/// accepted change between the round's opening and the arrival.
pub fn reported_outcomes()
    ensures counted { (opening : Network) (entries : ℕ) (past : Past) (round : ℕ) → AreWitnessed opening entries past round }
    ensures located { (opening : Network) (plan : Plan) (past : Past) (caller round : ℕ) (found : Findings) →
        reply_of opening plan past caller (logged.Locate round) ≡ Located found → IsReport opening plan past round found }
    ensures closed { (opening : Network) (plan : Plan) (past : Past) (caller round : ℕ) (found : Findings) →
        reply_of opening plan past caller (logged.Close round) ≡ Closed found → IsEnding opening plan past round found }
{}
