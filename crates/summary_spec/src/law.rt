//! Laws of the verdict of a job.

ghost use Rattle.std.specs.Prelude.{◌≡◌, ◌<◌, List, length};
ghost use Rattle.ds_base.specs.declared.summary.Summary.{Summary};
ghost use Rattle.ds_base.specs.declared.verdict.Verdict.{Verdict};
ghost use Rattle.summary_spec.specs.Declaration.{Declared};
ghost use Rattle.summary_spec.specs.Judge.{IsVerdict, verdict_on};
ghost use Rattle.summary_spec.specs.Lawful.{IsLawful};

/// For each lawful job there is exactly one verdict on each group that is not empty: what is asked
/// has that verdict, and no other.
pub fn one_verdict()
    ensures verdict { (d : Declared) (members : List Summary) → IsLawful d → 0 < length members
        → IsVerdict d.query members (verdict_on d.query members) }
    ensures only { (d : Declared) (members : List Summary) (v : Verdict) → IsLawful d → 0 < length members
        → IsVerdict d.query members v → v ≡ verdict_on d.query members }
{}
