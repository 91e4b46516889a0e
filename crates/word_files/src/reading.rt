// Reading a run file.
ghost use Rattle.std.specs.Prelude.{◌≡◌, ◌⊎◌, Some, None, IfOk, codes};
ghost use Rattle.serde_json.specs.View.{view};
ghost use Rattle.serde_json.specs.Find.{get};
ghost use Rattle.word_files.specs.RunFiles.{IsPart, IsFurther, pick_of, is_key, files, is_shared, further_key, Says, Reads, Parses};

use crate::parts::{needed, optional, shape};
use crate::{RunFile, RunFileError};
use mx_base::{List, NoMemory, Text};
use serde_json::Value;
use std::alloc::Global;
use std::collections::BTreeSet;

impl RunFile {
    /// The run file that these bytes are. Each list is in the byte order of its keys; it is empty
    /// for an absent key `scalars`, and `pick` and `fill` are 0 for absent keys `pattern` and
    /// `fill`. Errors: `NotJson`; and `Shape` with the key under which the first fault stands that
    /// the file alone shows, in the order of the fields, before a further key of the file.
    pub fn read(alloc: Global, bytes: &[u8]) -> Result<Self, RunFileError>
        ensures { Reads bytes.now result }
    {
        let file = parse(alloc, bytes)?;
        read_parts(alloc, &file)
    }
}

// The JSON value that the bytes are.
fn parse(alloc: Global, bytes: &[u8]) -> Result<Value, RunFileError>
    ensures { Parses bytes.now result }
{
    match Value::from_slice(alloc, bytes) {
        Ok(value) => Ok(value),
        Err(error) if error.is_memory() => Err(RunFileError::NoMemory),
        Err(_) => Err(RunFileError::NotJson),
    }
}

fn read_parts(alloc: Global, file: &Value) -> Result<RunFile, RunFileError>
    ensures { Says (view file.now) result }
{
    if !file.is_object() {
        return Err(shape(alloc, "-"));
    }
    let ticks = needed(alloc, file, "ticks")?;
    let scalars = optional(alloc, file, "scalars", List::new(alloc))?;
    let inputs = needed(alloc, file, "inputs")?;
    let outputs = needed(alloc, file, "outputs")?;
    if share_files(alloc, &inputs, &outputs)? {
        return Err(shape(alloc, "outputs"));
    }
    let edges = needed(alloc, file, "edges")?;
    let pick = pattern(alloc, file)?;
    let fill = optional(alloc, file, "fill", 0)?;
    refuse_further(alloc, file)?;
    Ok(RunFile {
        ticks,
        scalars,
        inputs,
        outputs,
        edges,
        pick,
        fill,
    })
}

// The pattern number, which may be any of 64 bits.
fn pattern(alloc: Global, file: &Value) -> Result<u64, RunFileError>
    ensures { IsPart (codes "pattern") (pick_of (view file.now)) result }
{
    match file.get("pattern") {
        None => Ok(0),
        Some(value) => match value.as_u64() {
            Some(pick) => Ok(pick),
            None => Err(shape(alloc, "pattern")),
        },
    }
}

// Whether two outputs have one file, or an output and an input.
fn share_files(
    alloc: Global,
    inputs: &List<(Text, Text)>,
    outputs: &List<(Text, Text)>,
) -> Result<bool, NoMemory>
    ensures { IfOk result (λ shared. shared ≡ is_shared (files inputs.now) (files outputs.now)) }
{
    let mut taken: BTreeSet<&[u8]> = BTreeSet::new(alloc);
    for (_, file) in inputs.as_slice() {
        taken.insert(file.as_bytes())?;
    }
    for (_, file) in outputs.as_slice() {
        if !taken.insert(file.as_bytes())? {
            return Ok(true);
        }
    }
    Ok(false)
}

// Refuses the first key in byte order that is none of a run file's.
fn refuse_further(alloc: Global, file: &Value) -> Result<(), RunFileError>
    ensures { IsFurther (further_key (view file.now)) result }
{
    let Some(object) = file.as_object() else {
        return Ok(());
    };
    for (key, _) in object.iter() {
        if !is_known(key) {
            return Err(shape(alloc, key));
        }
    }
    Ok(())
}

#[tactic(auto, unfolding(crate::specs::RunFiles::is_key))]
fn is_known(key: &str) -> bool
    ensures { result ≡ is_key key.now }
{
    key == "ticks"
        || key == "scalars"
        || key == "inputs"
        || key == "outputs"
        || key == "edges"
        || key == "pattern"
        || key == "fill"
}
