ghost use Rattle.std.specs.Prelude.{◌≡◌, ℕ, List};
ghost use Rattle.trace_judged.specs.declared.judging.Judgement.{Judgement};
ghost use Rattle.trace_judged.specs.Judgements.{IsJudgement};

/// Of some bytes no two things are to be said.
pub fn judged_once()
    ensures { (bytes : List ℕ) (one other : Judgement) → IsJudgement bytes one → IsJudgement bytes other → one ≡ other }
{}
