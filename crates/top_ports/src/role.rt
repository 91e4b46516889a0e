// What a port of a top module is.
ghost use Rattle.std.specs.Prelude.{◌≡◌, option_map, bytes_eq};
ghost use Rattle.std.specs.List.{list_all};
ghost use Rattle.rtl_ir.specs.Names.{is_letter, is_digit};
ghost use Rattle.rtl_ir.specs.Ports.{is_plain_byte, is_plain_name, port_view};
ghost use Rattle.rtl_ir.specs.Formed.{name_of};
ghost use Rattle.top_ports.specs.Roles.{cut, RoleView, role_view, side_of, part_of, lone_role};
ghost use Rattle.top_ports.specs.Roles.{kernel_role, inner_role, plain_behind, name_role};
ghost use Rattle.top_ports.specs.Roles.{port_role, fits};

use crate::cut::cut_name;
use rtl_ir::{Module, Port};

/// Whether words come into the module by a stream or leave it.
#[derive(Clone, Copy, PartialEq, Eq)]
pub enum Side {
    Input,
    Output,
}

/// The port of a stream.
#[derive(Clone, Copy, PartialEq, Eq)]
pub enum Part {
    Data,
    Valid,
    Ready,
}

/// What a port is, with the names that its own name is made of.
#[derive(Clone, Copy)]
pub enum Role<'a> {
    Clock,
    Reset,
    /// Whether this kernel is held.
    Hold(&'a [u8]),
    /// How many ticks this kernel runs.
    Ticks(&'a [u8]),
    /// A kernel, and the name of its scalar.
    Scalar(&'a [u8], &'a [u8]),
    Stream(Side, Part, &'a [u8]),
    Done,
}

fn is_letter(byte: u8) -> bool
    ensures { result ≡ is_letter byte }
{
    b'A' <= byte && byte <= b'Z' || b'a' <= byte && byte <= b'z'
}

fn is_digit(byte: u8) -> bool
    ensures { result ≡ is_digit byte }
{
    b'0' <= byte && byte <= b'9'
}

fn is_plain_byte(byte: u8) -> bool
    ensures { result ≡ is_plain_byte byte }
{
    is_letter(byte) || is_digit(byte) || byte == b'_'
}

/// Whether a text is a letter, and then letters, digits and `_`.
fn is_plain_name(text: &[u8]) -> bool
    ensures { result ≡ is_plain_name text.now }
{
    let Some((first, rest)) = text.split_first() else {
        return false;
    };
    if !is_letter(*first) {
        return false;
    }
    for byte in rest {
        if !is_plain_byte(*byte) {
            return false;
        }
    }
    true
}

/// Whether a word is this text.
fn is(word: &[u8], text: &[u8]) -> bool
    ensures { result ≡ bytes_eq word.now text.now }
{
    word == text
}

/// The side that a stream's first word names.
fn side_of(word: &[u8]) -> Option<Side>
    ensures { result ≡ side_of word.now }
{
    if is(word, b"in") {
        Some(Side::Input)
    } else if is(word, b"out") {
        Some(Side::Output)
    } else {
        None
    }
}

/// The part that a stream's last word names.
fn part_of(word: &[u8]) -> Option<Part>
    ensures { result ≡ part_of word.now }
{
    if is(word, b"data") {
        Some(Part::Data)
    } else if is(word, b"valid") {
        Some(Part::Valid)
    } else if is(word, b"ready") {
        Some(Part::Ready)
    } else {
        None
    }
}

/// The role that a name of one word gives.
fn lone_role(word: &[u8]) -> Option<Role<'_>>
    ensures { option_map role_view result ≡ lone_role word.now }
{
    if is(word, b"clk") {
        Some(Role::Clock)
    } else if is(word, b"reset") {
        Some(Role::Reset)
    } else if is(word, b"done") {
        Some(Role::Done)
    } else {
        None
    }
}

/// The role that a name of a word and a kernel's name gives.
fn kernel_role<'a>(word: &[u8], kernel: &'a [u8]) -> Option<Role<'a>>
    ensures { option_map role_view result ≡ kernel_role word.now kernel.now }
{
    if is(word, b"hold") {
        Some(Role::Hold(kernel))
    } else if is(word, b"ticks") {
        Some(Role::Ticks(kernel))
    } else {
        None
    }
}

/// The role that a name of a word, a plain name and one more part gives.
fn inner_role<'a>(word: &[u8], name: &'a [u8], back: &'a [u8]) -> Option<Role<'a>>
    ensures { option_map role_view result ≡ inner_role word.now name.now back.now }
{
    if is(word, b"scalar") {
        if is_plain_name(back) {
            return Some(Role::Scalar(name, back));
        }
        return None;
    }
    let side = side_of(word)?;
    let part = part_of(back)?;
    Some(Role::Stream(side, part, name))
}

/// The role that a word and what follows its `$` give.
fn plain_behind<'a>(word: &[u8], rest: &'a [u8]) -> Option<Role<'a>>
    ensures { option_map role_view result ≡ plain_behind word.now (cut rest.now) }
{
    let behind = cut_name(rest);
    if !is_plain_name(behind.head) {
        return None;
    }
    match behind.rest {
        None => kernel_role(word, behind.head),
        Some(back) => inner_role(word, behind.head, back),
    }
}

/// The role that a name gives.
fn name_role(name: &[u8]) -> Option<Role<'_>>
    ensures { option_map role_view result ≡ name_role name.now }
{
    let word = cut_name(name);
    match word.rest {
        None => lone_role(word.head),
        Some(rest) => plain_behind(word.head, rest),
    }
}

/// Whether a port with this role may have this width and direction.
fn fits(role: Role<'_>, width: u8, output: bool) -> bool
    ensures { result ≡ fits (role_view role.entry) width output }
{
    match role {
        Role::Clock | Role::Reset | Role::Hold(_) => width == 1 && !output,
        Role::Ticks(_) => width == 48 && !output,
        Role::Scalar(_, _) => !output,
        Role::Stream(side, Part::Data, _) => output == (side == Side::Output),
        Role::Stream(side, Part::Valid, _) => width == 1 && output == (side == Side::Output),
        Role::Stream(side, Part::Ready, _) => width == 1 && output == (side == Side::Input),
        Role::Done => width == 1 && output,
    }
}

/// The name of a port's net, which is empty where there is no such net.
pub fn port_name<'a>(top: &'a Module, port: &Port) -> &'a [u8]
    ensures { result.now ≡ name_of top.now port.now.net }
{
    match top.net(port.net) {
        Some(net) => net.name.as_bytes(),
        None => b"",
    }
}

/// The role of a port, where it has one.
pub fn port_role<'a>(top: &'a Module, port: &Port) -> Option<Role<'a>>
    ensures { option_map role_view result ≡ port_role (port_view top.now port.now) }
{
    let net = top.net(port.net)?;
    let role = name_role(net.name.as_bytes())?;
    if fits(role, net.width, port.output) {
        Some(role)
    } else {
        None
    }
}
