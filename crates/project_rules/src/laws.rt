// The laws, each the contract of a function that does nothing.
ghost use Rattle.project_rtl.specs.Laws.{ProjectIsAccepted, RefinementsKeepRules};

/// The design of a project whose kernels' modules keep all rules of designs keeps them: the modules
/// are formed, each behind those that it has instances of, and have names that differ; in each of
/// them names differ, each net has one driver, widths agree, and no net hangs on itself within an
/// edge. Nothing is asked of how the outputs of a kernel's module hang on its inputs, nor of how
/// deep the links are.
pub fn project_is_accepted()
    ensures { ProjectIsAccepted }
{}

/// Modules that refine the kernels of a project keep all rules of designs, so that a design with
/// them is accepted.
pub fn refinements_keep_rules()
    ensures { RefinementsKeepRules }
{}
