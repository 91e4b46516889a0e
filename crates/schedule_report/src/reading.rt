// Reads a report.
ghost use Rattle.std.specs.Prelude.{◌≡◌, ◌++◌, ◌∷◌, true, List, ℕ, IfOk, IfErr, IfSome, IfNone};
ghost use Rattle.std.specs.List.{list_all};
ghost use Rattle.text_scan.specs.Classes.{is_in};
ghost use Rattle.text_scan.specs.declared.bytes.ByteClass.TheVariants.{NotLineFeed};
ghost use Rattle.schedule_report.specs.Reading.{Says, IsRefused};

use crate::error::ReportError;
use crate::report::Report;
use crate::stage::Stage;
use std::alloc::Global;
use text_scan::{ByteClass, Split, split_front};

impl Report {
    /// The report that the bytes are. Else the number of the first line that is wrong.
    pub fn read(alloc: Global, bytes: &[u8]) -> Result<Report, ReportError>
        ensures ok { IfOk result (Says bytes.now) }
        ensures err { IfErr result (IsRefused bytes.now) }
    {
        let mut stage = Stage::Start;
        let mut rest = bytes;
        let mut number: u64 = 1;
        while let Some(line) = split_line(rest) {
            match stage.next(alloc, line.front)? {
                Some(new) => {
                    stage = new;
                }
                None => return Err(ReportError::Shape(number)),
            }
            rest = line.rest;
            number += 1;
        }
        if !rest.is_empty() {
            return Err(ReportError::Shape(number));
        }
        match stage.report() {
            Some(report) => Ok(report),
            None => Err(ReportError::Shape(number)),
        }
    }
}

/// A text round its first line feed.
fn split_line(text: &[u8]) -> Option<Split<'_>>
    ensures some { IfSome result (λ s. text.now ≡ s.front.now ++ 10 ∷ s.rest.now) }
    ensures line { IfSome result (λ s. list_all (is_in NotLineFeed) s.front.now ≡ true) }
    ensures none { IfNone result (list_all (is_in NotLineFeed) text.now ≡ true) }
{
    let split = split_front(text, ByteClass::NotLineFeed);
    match split.rest.split_first() {
        Some((_, rest)) => Some(Split {
            front: split.front,
            rest,
        }),
        None => None,
    }
}
