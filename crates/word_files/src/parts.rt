// The parts of a run file, each under its key.
ghost use Rattle.std.specs.Prelude.{◌≡◌, ◌⊎◌, Some, None, Option, IfOk, option_and_then};
ghost use Rattle.serde_json.specs.Data.{Data};
ghost use Rattle.serde_json.specs.Find.{get};
ghost use Rattle.serde_json.specs.View.{view};
ghost use Rattle.word_files.specs.RunFiles.{up_to, word, text, object_of, or_default, most_count, IsPart};
ghost use Rattle.word_files.specs.declared.error.RunFileError.TheVariants.{Shape, NoMemory as WantOfMemory};

use crate::RunFileError;
use crate::hex::parse_word;
use mx_base::{List, NoMemory, Text};
use serde_json::Value;
use std::alloc::Global;

// Ticks and edges are at most so many.
const MOST_COUNT: u64 = 1 << 40;

/// What a value of the run file can be read as.
pub(crate) trait Part: Sized + Drop {
    /// What a value says, where it is of the part's form.
    ghost reads: { Data → Option Self };

    /// What a value says, or `None` where it isn't of the part's form.
    fn read(alloc: Global, value: &Value) -> Result<Option<Self>, NoMemory>
        ensures { IfOk result (λ part. part ≡ reads (view value.now)) };
}

/// A number of ticks or edges.
impl Part for u64 {
    ghost reads = { up_to most_count };

    fn read(_alloc: Global, value: &Value) -> Result<Option<Self>, NoMemory> {
        match value.as_u64() {
            Some(count) if count <= MOST_COUNT => Ok(Some(count)),
            _ => Ok(None),
        }
    }
}

/// A word of hexadecimal digits.
impl Part for u128 {
    ghost reads = { word };

    fn read(_alloc: Global, value: &Value) -> Result<Option<Self>, NoMemory> {
        match value.as_str() {
            Some(digits) => Ok(parse_word(digits.as_bytes())),
            None => Ok(None),
        }
    }
}

/// The name of a file.
impl Part for Text {
    ghost reads = { text };

    fn read(alloc: Global, value: &Value) -> Result<Option<Self>, NoMemory> {
        match value.as_str() {
            Some(name) => Ok(Some(Text::from_vec(name.as_bytes().to_vec(alloc)?))),
            None => Ok(None),
        }
    }
}

/// An object whose values are all of one form, as a list in the byte order of its keys.
impl<T: Part> Part for List<(Text, T)> {
    ghost reads = { object_of T.reads };

    fn read(alloc: Global, value: &Value) -> Result<Option<Self>, NoMemory> {
        let Some(object) = value.as_object() else {
            return Ok(None);
        };
        let mut parts = List::new(alloc);
        for (key, member) in object.iter() {
            let Some(part) = T::read(alloc, member)? else {
                return Ok(None);
            };
            let key = Text::from_vec(key.as_bytes().to_vec(alloc)?);
            parts.push((key, part))?;
        }
        Ok(Some(parts))
    }
}

/// The part under a key that has to be there.
pub(crate) fn needed<T: Part>(alloc: Global, file: &Value, key: &str) -> Result<T, RunFileError>
    ensures { IsPart key.now (option_and_then T.reads (get key.now (view file.now))) result }
{
    match file.get(key) {
        Some(value) => of_its_form(alloc, key, value),
        None => Err(shape(alloc, key)),
    }
}

/// The part under a key that may be absent, and then is the default.
pub(crate) fn optional<T: Part>(
    alloc: Global,
    file: &Value,
    key: &str,
    default: T,
) -> Result<T, RunFileError>
    ensures { IsPart key.now (or_default default T.reads (get key.now (view file.now))) result }
{
    match file.get(key) {
        Some(value) => of_its_form(alloc, key, value),
        None => Ok(default),
    }
}

fn of_its_form<T: Part>(alloc: Global, key: &str, value: &Value) -> Result<T, RunFileError>
    ensures { IsPart key.now (T.reads (view value.now)) result }
{
    match T::read(alloc, value)? {
        Some(part) => Ok(part),
        None => Err(shape(alloc, key)),
    }
}

/// The refusal of what stands under a key.
pub(crate) fn shape(alloc: Global, key: &str) -> RunFileError
    ensures { (result ≡ Shape key.now) ⊎ (result ≡ WantOfMemory) }
{
    match key.as_bytes().to_vec(alloc) {
        Ok(key) => RunFileError::Shape(Text::from_vec(key)),
        Err(_) => RunFileError::NoMemory,
    }
}
