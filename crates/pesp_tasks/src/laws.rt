//! Laws of what is solved and of what is gone on from. Each is a function without a body whose contract is the law.

ghost use Rattle.std.specs.Prelude.{◌≡◌, ℕ, List, ◌++◌, Option, Some, None, ⊤};
ghost use Rattle.std.specs.Io.KnownBytes.{Appends};
ghost use Rattle.pesp_instance.specs.declared.refusal.ReadRefusal.{ReadRefusal};
ghost use Rattle.pesp_cert.specs.declared.refusal.CertRefusal.{CertRefusal};
ghost use Rattle.pesp_judges.specs.declared.refusal.Verdict.{Verdict};
ghost use Rattle.pesp_judges.specs.declared.refusal.Verdict.TheVariants.{Accepted};
ghost use Rattle.pesp_cert_lines.specs.declared.versions.Versions.TheVariants.{Plain, All};
ghost use Rattle.pesp_cert_items.specs.Texts.{RefusesText};
ghost use Rattle.pesp_check.specs.Checking.{Checks, RefusesInstance};
ghost use Rattle.pesp_runs.specs.Reading.{ReadsBase, ReadsTimetable};
ghost use Rattle.pesp_runs.specs.Bases.{ReadsSharpBase};
ghost use Rattle.pesp_runs.specs.Runs.{OverBase, OverWorks};
ghost use Rattle.pesp_tasks.specs.Solving.{Solves, WritesSolution};
ghost use Rattle.pesp_tasks.specs.Resuming.{WritesGoneOn};
ghost use Rattle.pesp_tasks.specs.Outside.{Grafts};
ghost use Rattle.pesp_tasks.specs.SharpSolving.{SolvesSharp, ResumesSharp, WritesSharpSolution};
ghost use Rattle.pesp_tasks.specs.SharpOutside.{WritesSharpWork, WritesSharpGraft};

/// The bytes that `run_solve` appended for an instance's text, within whichever number of steps, `run_check` accepts for the
/// same text and period, where it answers Ok.
pub fn what_is_solved_is_accepted()
    ensures { (text before bytes : List ℕ) (left left_instance left_certificate old new : Option
        (List ℕ)) (period steps : ℕ) (verdict : Verdict)
        → Solves (Some text) left period steps (Appends (Some before) (Some (before ++ bytes)))
        → Checks Plain (Some text) left_instance (Some bytes) left_certificate period verdict
        (Appends old new)
        → verdict ≡ Accepted }
{}

/// And `run_check` refuses neither of the two texts: for them no `Instance` fault and no `Certificate` fault has a cause, so
/// that memory and devices alone can keep it from its verdict.
pub fn what_is_solved_is_read()
    ensures instance { (text : List ℕ) (left left_instance old new : Option (List ℕ))
        (period steps : ℕ) (refusal : ReadRefusal)
        → Solves (Some text) left period steps (Appends old new)
        → RefusesInstance (Some text) left_instance period refusal → ⊥ }
    ensures certificate { (text before bytes : List ℕ) (left left_certificate : Option (List ℕ))
        (period steps : ℕ) (refusal : CertRefusal)
        → Solves (Some text) left period steps (Appends (Some before) (Some (before ++ bytes)))
        → RefusesText Plain (Some bytes) left_certificate 1073741824 refusal → ⊥ }
{}

/// And so are the bytes that `Solve` appended from times, that `Resume` appended where the certificate had no marked walks, however
/// it ended, and that `run_graft` appended.
pub fn what_goes_on_is_accepted()
    ensures from_times { (text before bytes : List ℕ) (left times left_times left_instance left_certificate old new : Option
        (List ℕ)) (period steps : ℕ) (verdict : Verdict)
        → ReadsTimetable (Some text) left times left_times period
        (λ p begun. WritesSolution p begun steps (Appends (Some before) (Some (before ++ bytes))))
        → Checks Plain (Some text) left_instance (Some bytes) left_certificate period verdict
        (Appends old new)
        → verdict ≡ Accepted }
    ensures resumed { (text before bytes : List ℕ) (left base left_base left_instance left_certificate old new : Option
        (List ℕ)) (period steps : ℕ) (verdict : Verdict)
        → OverBase ReadsSharpBase (Some text) left base left_base period
        (λ p begun. (begun.front ≡ None) × WritesGoneOn p begun steps ⊤ (Appends (Some before) (Some (before ++ bytes))))
        → Checks Plain (Some text) left_instance (Some bytes) left_certificate period verdict
        (Appends old new)
        → verdict ≡ Accepted }
    ensures grafted { (text before bytes : List ℕ) (left base left_base works left_works left_instance left_certificate told_old told_new old new : Option
        (List ℕ)) (period : ℕ) (verdict : Verdict)
        → OverWorks ReadsBase (Some text) left base left_base works left_works period
        (λ p begun work. Grafts p begun work
        (Appends (Some before) (Some (before ++ bytes))) (Appends told_old told_new))
        → Checks Plain (Some text) left_instance (Some bytes) left_certificate period verdict
        (Appends old new)
        → verdict ≡ Accepted }
{}

/// The bytes that `SolveSharp` appended for an instance's text, within whichever number of steps, `run_check_sharp` accepts
/// for the same text and period, where it answers Ok.
pub fn what_is_sharpened_is_accepted()
    ensures { (text before bytes : List ℕ) (left left_instance left_certificate old new : Option
        (List ℕ)) (period steps : ℕ) (verdict : Verdict)
        → SolvesSharp (Some text) left period steps
        (Appends (Some before) (Some (before ++ bytes)))
        → Checks All (Some text) left_instance (Some bytes) left_certificate period verdict
        (Appends old new)
        → verdict ≡ Accepted }
{}

/// The bytes that `ResumeSharp` appended for the texts of an instance and of a certificate, within whichever number of steps,
/// `run_check_sharp` accepts for the same instance and period, where it answers Ok.
pub fn what_is_resumed_is_accepted()
    ensures { (text before bytes : List ℕ) (left base left_base left_instance left_certificate old new : Option
        (List ℕ)) (period steps : ℕ) (verdict : Verdict)
        → ResumesSharp (Some text) left base left_base period steps
        (Appends (Some before) (Some (before ++ bytes)))
        → Checks All (Some text) left_instance (Some bytes) left_certificate period verdict
        (Appends old new)
        → verdict ≡ Accepted }
{}

/// And so are the bytes that `SolveSharp` appended from times, that `Resume` appended, that `WorkSharp` appended, and that
/// `GraftSharp` appended.
pub fn what_goes_on_with_marks_is_accepted()
    ensures from_times { (text before bytes : List ℕ) (left times left_times left_instance left_certificate old new : Option
        (List ℕ)) (period steps : ℕ) (verdict : Verdict)
        → ReadsTimetable (Some text) left times left_times period
        (λ p begun. WritesSharpSolution p begun steps (Appends (Some before) (Some (before ++ bytes))))
        → Checks All (Some text) left_instance (Some bytes) left_certificate period verdict
        (Appends old new)
        → verdict ≡ Accepted }
    ensures resumed { (text before bytes : List ℕ) (left base left_base left_instance left_certificate old new : Option
        (List ℕ)) (period steps : ℕ) (verdict : Verdict)
        → OverBase ReadsSharpBase (Some text) left base left_base period
        (λ p begun. WritesGoneOn p begun steps ⊤ (Appends (Some before) (Some (before ++ bytes))))
        → Checks All (Some text) left_instance (Some bytes) left_certificate period verdict
        (Appends old new)
        → verdict ≡ Accepted }
    ensures worked { (text before bytes : List ℕ) (left base left_base left_instance left_certificate old new : Option
        (List ℕ)) (period : ℕ) (jobs : List ℕ) (steps : ℕ) (until : Option ℕ) (verdict : Verdict)
        → OverBase ReadsSharpBase (Some text) left base left_base period
        (λ p begun. WritesSharpWork p begun jobs steps until (Appends (Some before) (Some (before ++ bytes))))
        → Checks All (Some text) left_instance (Some bytes) left_certificate period verdict
        (Appends old new)
        → verdict ≡ Accepted }
    ensures grafted { (text before bytes : List ℕ) (left base left_base works left_works left_instance left_certificate told_old told_new old new : Option
        (List ℕ)) (period : ℕ) (verdict : Verdict)
        → OverWorks ReadsSharpBase (Some text) left base left_base works left_works period
        (λ p begun work. WritesSharpGraft p begun work
        (Appends (Some before) (Some (before ++ bytes))) (Appends told_old told_new))
        → Checks All (Some text) left_instance (Some bytes) left_certificate period verdict
        (Appends old new)
        → verdict ≡ Accepted }
{}
