ghost use Rattle.std.specs.Prelude.{◌≡◌, IfOk, OnErr, IfErr};
ghost use Rattle.lift_join.specs.Joins.{joint_claim};

use claim_types::SpanClaim;

/// Makes one claim of two, the second of which follows the first: it has the state before of the first,
/// the state after and the exit of the second, and the journals and assumption calls of both. Err is want
/// of memory: it hands the second back, and the first is as before.
pub fn append(claim: &mut SpanClaim, next: SpanClaim) -> Result<(), SpanClaim>
    ensures ok { IfOk result (λ _. claim.new ≡ joint_claim claim.old next) }
    ensures err { OnErr result (claim.new ≡ claim.old) }
    ensures handed_back { IfErr result (λ back. back ≡ next) }
{
    let journal_room = claim.journal.reserve(next.journal.len());
    let calls_room = claim.calls.reserve(next.calls.len());
    if journal_room.is_err() || calls_room.is_err() {
        return Err(next);
    }
    claim.journal.append_spare(next.journal);
    claim.calls.append_spare(next.calls);
    claim.after = next.after;
    claim.exit = next.exit;
    Ok(())
}
