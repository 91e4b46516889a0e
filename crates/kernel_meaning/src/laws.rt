// What holds of every building run.
ghost use Rattle.std.specs.Prelude.{◌≡◌, List, [], Err, IfOk};
ghost use Rattle.maxj_syntax.specs.Tree.{ClassTree};
ghost use Rattle.kernel_calls.specs.Laws.{AreLawful};
ghost use Rattle.kernel_meaning.specs.Answer.{calls_of, end_of};
ghost use Rattle.kernel_meaning.specs.Arithmetic.{TypesAgree, FaultsAgree, WordsAgree, RefusalsAgree};
ghost use Rattle.kernel_meaning.specs.Constructors.{building_run};
ghost use Rattle.kernel_meaning.specs.Managers.{source_plan};
ghost use Rattle.kernel_meaning.specs.Sound.{AreSound};
ghost use Rattle.kernel_meaning.specs.SoundPlans.{IsSoundPlan};
ghost use Rattle.kernel_meaning.specs.declared.error.EvalError.TheVariants as E;
ghost use Rattle.kernel_meaning.specs.declared.value.Value.{Value};

/// Each call of a building run may come after those before it: it speaks of nodes that were made, of
/// the right types, and what a port is called has at most 64 bytes.
#[tactic(auto, using(crate::proofs::WholeRun::all_lawful))]
pub fn lawful()
    ensures { (class : ClassTree) (args : List Value) → AreSound [] args → AreLawful [] (calls_of (building_run class args)) }
{}

/// What a source builds, by its manager or without one, can be carried out: each kernel has a name,
/// a class of the source and arguments that it can be built with; a join has on each side a port of
/// a kernel that was added, or a stream that was; and a stream has a name of at most 64 bytes, as
/// ports have. Without a manager it is one kernel, and nothing is joined.
#[tactic(auto, using(crate::proofs::SourcePlans::source_sound))]
pub fn plans_are_sound()
    ensures { (classes : List ClassTree) → IfOk (source_plan classes) (IsSoundPlan classes) }
{}

/// No building run is refused for want of memory: that is a want of the program that carries the run
/// out, and never a source's.
#[tactic(auto, using(crate::proofs::WholeRun::all_told))]
pub fn runs_never_want_memory()
    ensures { (class : ClassTree) (args : List Value) → AreSound [] args
        → end_of (building_run class args) ≡ Err E.NoMemory → ⊥ }
{}

/// Nor is a source refused for it, by its manager or without one.
#[tactic(auto, using(crate::proofs::SourcePlans::source_told))]
pub fn plans_never_want_memory()
    ensures { (classes : List ClassTree) → source_plan classes ≡ Err E.NoMemory → ⊥ }
{}

/// The types that a building run gives to operations, the faults that it tells of them, and the words
/// of its literals are those of `fix_arith`'s `result_type` and `literal`.
pub fn arithmetic_agrees()
    ensures types { TypesAgree }
    ensures faults { FaultsAgree }
    ensures words { WordsAgree }
    ensures refusals { RefusalsAgree }
{}
