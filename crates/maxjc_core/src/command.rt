// The words of a command.
ghost use Rattle.std.specs.Prelude.{◌≡◌, IfSome, IfNone, Some, None};
ghost use Rattle.maxjc_core.specs.Command.{command_of};
ghost use Rattle.maxjc_core.specs.NamedCommand.{command_told, IsApart};

use mx_base::Text;

/// The files of `compile`.
#[derive(Clone, Copy)]
pub struct Compile<'a> {
    pub source: &'a Text,
    pub table: &'a Text,
    pub output: &'a Text,
    pub report: &'a Text,
}

/// The files of `simulate`.
#[derive(Clone, Copy)]
pub struct Simulate<'a> {
    pub text: &'a Text,
    pub run: &'a Text,
}

/// The files of `check`.
#[derive(Clone, Copy)]
pub struct Check<'a> {
    pub source: &'a Text,
    pub table: &'a Text,
    pub report: &'a Text,
}

/// The files of `expect`: those of `check`, and a run file.
#[derive(Clone, Copy)]
pub struct Expect<'a> {
    pub check: Check<'a>,
    pub run: &'a Text,
}

/// A command.
#[derive(Clone, Copy)]
pub enum Command<'a> {
    Compile(Compile<'a>),
    Simulate(Simulate<'a>),
    Expect(Expect<'a>),
    Check(Check<'a>),
}

/// The command that a list of words is, if it is one. The output and the report of `compile` have
/// different names.
pub fn parse_command(words: &[Text]) -> Option<Command<'_>>
    ensures some { IfSome result (λ c. command_of words.now ≡ Some (command_told c)) }
    ensures apart { IfSome result IsApart }
    ensures none { IfNone result (command_of words.now ≡ None) }
{
    match words {
        [word, source, table, third, fourth] => {
            if word.is(b"compile") && !third.is(fourth.as_bytes()) {
                Some(Command::Compile(Compile {
                    source,
                    table,
                    output: third,
                    report: fourth,
                }))
            } else if word.is(b"expect") {
                Some(Command::Expect(Expect {
                    check: Check {
                        source,
                        table,
                        report: third,
                    },
                    run: fourth,
                }))
            } else {
                None
            }
        }
        [word, text, run] => {
            if word.is(b"simulate") {
                Some(Command::Simulate(Simulate { text, run }))
            } else {
                None
            }
        }
        [word, source, table, report] => {
            if word.is(b"check") {
                Some(Command::Check(Check {
                    source,
                    table,
                    report,
                }))
            } else {
                None
            }
        }
        _ => None,
    }
}
