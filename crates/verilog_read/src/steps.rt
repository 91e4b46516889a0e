// The steps of a reader.
ghost use Rattle.std.specs.Prelude.{◌≡◌, ◌<◌, ◌^◌, length, IfOk, IfErr, OnOk};
ghost use Rattle.rtl_ir.specs.Formed.{IsFormed};
ghost use Rattle.rtl_ir.specs.Rules.{IsAccepted};
ghost use Rattle.verilog_read.specs.Answers.{AreTokens, IsScanFault, IsDesign, IsTreeFault, IsRefusal, BreaksRule, SaysBroken, CanRun, HasWrongPort};

use crate::VerilogError;
use crate::builder::text;
use crate::fault::Fault;
use crate::resolve::resolve;
use mx_base::List;
use rtl_check::check;
use rtl_ir::{Design, RtlError};
use std::alloc::Global;
use top_ports::first_wrong;
use verilog_syntax::{ParseError, Placed, ScanError, parse, scan};

/// The tokens of a text.
pub(crate) fn tokens(alloc: Global, bytes: &[u8]) -> Result<List<Placed<'_>>, VerilogError>
    requires { length bytes.now < 2 ^ 32 }
    ensures ok { IfOk result (λ tokens. AreTokens bytes.now tokens) }
    ensures err { IfErr result (λ e. IsScanFault bytes.now e) }
{
    match scan(alloc, bytes) {
        Ok(tokens) => Ok(tokens),
        Err(ScanError::NoToken(place)) => Err(VerilogError::NoToken(place)),
        Err(ScanError::NoMemory) => Err(VerilogError::NoMemory),
    }
}

/// The error of trees that have no design.
fn refusal(alloc: Global, fault: Fault<'_>) -> VerilogError
    ensures { IsRefusal fault.entry result }
{
    match fault {
        Fault::Unknown(name) => match text(alloc, name) {
            Ok(name) => VerilogError::Rtl(RtlError::Unknown(name)),
            Err(_) => VerilogError::NoMemory,
        },
        Fault::NoMemory => VerilogError::NoMemory,
    }
}

/// The design of the tokens of a text of this length. The tokens are gone once they are parsed, so that
/// what they take is free while the design is made.
pub(crate) fn design(
    alloc: Global,
    tokens: List<Placed<'_>>,
    size: u32,
) -> Result<Design, VerilogError>
    ensures ok { IfOk result (λ d. IsDesign tokens.entry d) }
    ensures err { IfErr result (λ e. IsTreeFault tokens.entry size e) }
{
    let parsed = parse(alloc, tokens.as_slice(), size);
    drop(tokens);
    match parsed {
        Ok(trees) => match resolve(alloc, trees.as_slice()) {
            Ok(design) => Ok(design),
            Err(fault) => Err(refusal(alloc, fault)),
        },
        Err(ParseError::Syntax(place)) => Err(VerilogError::Syntax(place)),
        Err(ParseError::NoMemory) => Err(VerilogError::NoMemory),
    }
}

/// The error of a design that breaks a rule.
fn broken(error: RtlError) -> VerilogError
    ensures { SaysBroken error result }
{
    match error {
        RtlError::NoMemory => VerilogError::NoMemory,
        RtlError::Unknown(name) => VerilogError::Rtl(RtlError::Unknown(name)),
        RtlError::Width(name) => VerilogError::Rtl(RtlError::Width(name)),
        RtlError::TwoDrivers(name) => VerilogError::Rtl(RtlError::TwoDrivers(name)),
        RtlError::CombLoop(names) => VerilogError::Rtl(RtlError::CombLoop(names)),
        RtlError::NoDriver(name) => VerilogError::Rtl(RtlError::NoDriver(name)),
        RtlError::SameName(name) => VerilogError::Rtl(RtlError::SameName(name)),
    }
}

/// Tests that a design keeps the rules.
pub(crate) fn keep_rules(alloc: Global, design: &Design) -> Result<(), VerilogError>
    requires { IsFormed design.now.modules }
    ensures ok { OnOk result (IsAccepted design.now) }
    ensures err { IfErr result (λ e. BreaksRule design.now e) }
{
    match check(alloc, design) {
        Ok(()) => Ok(()),
        Err(error) => Err(broken(error)),
    }
}

/// Tests that the last module of a design can be run.
pub(crate) fn can_run(alloc: Global, design: &Design) -> Result<(), VerilogError>
    requires { 0 < length design.now.modules }
    ensures ok { OnOk result (CanRun design.now) }
    ensures err { IfErr result (λ e. HasWrongPort design.now e) }
{
    let top = design.top();
    match first_wrong(top) {
        None => Ok(()),
        Some(name) => {
            let name = text(alloc, name)?;
            Err(VerilogError::PortShape(name))
        }
    }
}
