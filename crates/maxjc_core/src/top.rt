// The top call.
ghost use Rattle.std.specs.Prelude.{◌≡◌, ◌⊎◌, None, Some};
ghost use Rattle.stall_source.specs.Stalls.{IsDecided, IsFreeAtZero};
ghost use Rattle.maxjc_core.specs.Command.{Names, RunNames, ExpectNames, CheckNames, Compile, Simulate, Expect, Check, command_of, usage_line, said_more};
ghost use Rattle.maxjc_core.specs.Outside.{outside};
ghost use Rattle.maxjc_core.specs.CommandEnds.{EndsAll};
ghost use Rattle.maxjc_core.specs.CompileEnds.{EndsCompile};
ghost use Rattle.maxjc_core.specs.SimulateEnds.{EndsSimulate};
ghost use Rattle.maxjc_core.specs.ExpectEnds.{EndsExpect};
ghost use Rattle.maxjc_core.specs.CheckEnds.{EndsCheck};

use crate::Status;
use crate::check_command::run_check;
use crate::command::{Command, parse_command};
use crate::compile_command::run_compile;
use crate::expect_command::run_expect;
use crate::saying::say_usage;
use crate::simulate_command::run_simulate;
use mx_base::{Files, Say, Text};
use stall_source::Pattern;
use std::alloc::Global;

/// Runs one command: reads its files, does its work, writes its files, says its line, and answers
/// how it ended. `stalls` says which ports stall in a simulation.
pub fn maxjc<F: Files, S: Say, G: Fn(u64, u64, u32) -> bool>(
    alloc: Global,
    words: &Vec<Text>,
    files: &mut F,
    say: &mut S,
    stalls: &Pattern<G>,
) -> Status
    requires callable { G.IsAlwaysCallable stalls.now.test }
    requires decided { IsDecided (G.post stalls.now.test) }
    requires free { IsFreeAtZero (G.post stalls.now.test) }

    // `Usage` comes exactly where the words are no command, unless the line can't be said.
    ensures usage { result ≡ Status.Usage → command_of words.now.items ≡ None }
    ensures no_command { command_of words.now.items ≡ None → (result ≡ Status.Usage) ⊎ (result ≡ Status.WriteFault) }
    ensures no_command_files { command_of words.now.items ≡ None →
        (F.held files.new ≡ F.held files.old)
        × (F.read_faults files.new ≡ F.read_faults files.old)
        × (F.write_faults files.new ≡ F.write_faults files.old) }
    ensures usage_said { result ≡ Status.Usage → S.said say.new ≡ said_more (S.said say.old) usage_line }

    // A command ends as its record says: with the outside before it and after it, and the status.
    ensures compile { (names : Names) → command_of words.now.items ≡ Some (Compile names)
        → EndsCompile names
        (outside (F.held files.old) (F.read_faults files.old) (F.write_faults files.old)
        (S.said say.old) (S.say_faults say.old))
        (outside (F.held files.new) (F.read_faults files.new) (F.write_faults files.new)
        (S.said say.new) (S.say_faults say.new))
        result }
    ensures simulate { (names : RunNames) → command_of words.now.items ≡ Some (Simulate names)
        → EndsSimulate (G.post stalls.now.test) names
        (outside (F.held files.old) (F.read_faults files.old) (F.write_faults files.old)
        (S.said say.old) (S.say_faults say.old))
        (outside (F.held files.new) (F.read_faults files.new) (F.write_faults files.new)
        (S.said say.new) (S.say_faults say.new))
        result }
    ensures expect { (names : ExpectNames) → command_of words.now.items ≡ Some (Expect names)
        → EndsExpect names
        (outside (F.held files.old) (F.read_faults files.old) (F.write_faults files.old)
        (S.said say.old) (S.say_faults say.old))
        (outside (F.held files.new) (F.read_faults files.new) (F.write_faults files.new)
        (S.said say.new) (S.say_faults say.new))
        result }
    ensures check { (names : CheckNames) → command_of words.now.items ≡ Some (Check names)
        → EndsCheck names
        (outside (F.held files.old) (F.read_faults files.old) (F.write_faults files.old)
        (S.said say.old) (S.say_faults say.old))
        (outside (F.held files.new) (F.read_faults files.new) (F.write_faults files.new)
        (S.said say.new) (S.say_faults say.new))
        result }

    // And so does every list of words.
    ensures all { EndsAll
        (outside (F.held files.old) (F.read_faults files.old) (F.write_faults files.old)
        (S.said say.old) (S.say_faults say.old))
        (outside (F.held files.new) (F.read_faults files.new) (F.write_faults files.new)
        (S.said say.new) (S.say_faults say.new))
        result }
{
    match parse_command(words) {
        None => say_usage(say),
        Some(Command::Compile(names)) => run_compile(alloc, files, say, names),
        Some(Command::Simulate(names)) => run_simulate(alloc, files, say, names, stalls),
        Some(Command::Expect(names)) => run_expect(alloc, files, say, names),
        Some(Command::Check(names)) => run_check(alloc, files, say, names),
    }
}
