// The line that a refusal says.
ghost use Rattle.std.specs.Prelude.{◌≡◌, ◌++◌, ◌∷◌, [], IfOk, OnOk};
ghost use Rattle.std.specs.List.{flat_map};
ghost use Rattle.std.specs.Fmt.{decimal};
ghost use Rattle.refusal_line.specs.Lines.{refused, words_of, after_blank};

use itoa::Buffer;
use mx_base::{NoMemory, Text};
use std::alloc::Global;

/// What a refusal says behind its code.
#[derive(Clone, Copy)]
pub enum Value<'a> {
    /// A name, as it is.
    Name(&'a Text),
    /// Any number of names.
    Names(&'a [Text]),
    /// A number, in decimal digits.
    Number(u64),
}

/// The line of a refusal of this code: `refused`, the code, each value after a blank, and a line end.
pub fn refusal_line(alloc: Global, code: &str, values: &[Value<'_>]) -> Result<Vec<u8>, NoMemory>
    ensures { IfOk result (λ line. line.items ≡ refused code.now (flat_map words_of values.now)) }
{
    let mut line = b"refused ".to_vec(alloc)?;
    line.extend_from_slice(code.as_bytes())?;
    for value in values {
        push_value(&mut line, value)?;
    }
    line.push(b'\n')?;
    Ok(line)
}

/// Puts a value behind a line, each of its words after a blank.
fn push_value(line: &mut Vec<u8>, value: &Value<'_>) -> Result<(), NoMemory>
    ensures { OnOk result (line.new.items ≡ line.old.items ++ flat_map after_blank (words_of value.now)) }
{
    match value {
        Value::Name(name) => push_word(line, name.as_bytes()),
        Value::Names(names) => push_names(line, names),
        Value::Number(number) => {
            let mut digits = Buffer::new();
            push_word(line, digits.format(*number).as_bytes())
        }
    }
}

/// Puts names behind a line, each after a blank.
fn push_names(line: &mut Vec<u8>, names: &[Text]) -> Result<(), NoMemory>
    ensures { OnOk result (line.new.items ≡ line.old.items ++ flat_map after_blank names.now) }
{
    for name in names {
        push_word(line, name.as_bytes())?;
    }
    Ok(())
}

/// Puts a word behind a line, after a blank.
fn push_word(line: &mut Vec<u8>, word: &[u8]) -> Result<(), NoMemory>
    ensures { OnOk result (line.new.items ≡ line.old.items ++ after_blank word.now) }
{
    line.push(b' ')?;
    line.extend_from_slice(word)?;
    Ok(())
}
