// A project whose kernels are causal computes one family of words.
ghost use Rattle.project_words.specs.Family.{HasOneFamily};

use kernel_family::one_family;
use manager_links::Project;

/// Two families that satisfy the equations of a project of causal kernels in one run have the same
/// words. The function does nothing: its contract is the law, which follows from that of each
/// kernel.
pub fn one_project_family(project: &Project)
    ensures { HasOneFamily project.now }
{
    for kernel in project.kernels() {
        one_family(kernel);
    }
}
