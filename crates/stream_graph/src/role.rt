// What each kind of node is. The definitions of all of it stand on one page, specs/Kinds.
ghost use Rattle.std.specs.Prelude.{◌≡◌};

use crate::Kind;

/// What a node is in its kernel.
#[derive(Clone, Copy, Debug, PartialEq, Eq)]
pub enum Role {
    /// Its words are given to a run.
    Given,
    /// It has one word, which its kind says.
    Constant,
    /// Its word in a tick is made of those of its operands in this tick.
    Wired,
    /// It has the word of its operand in another tick.
    LooksAhead,
    /// Its word in a tick hangs on what it kept in the tick before.
    KeepsState,
    /// It shows the word of another node, or a part of it.
    ShowsAnother,
}

/// The side of a port: words come in from outside, go out, or one is given for the whole run.
#[derive(Clone, Copy, Debug, PartialEq, Eq)]
pub enum PortSide {
    Input,
    Output,
    Scalar,
}

impl Kind {
    ghost use Rattle.stream_graph.specs.Kinds.{
      role_of,
      side_of,
      is_steady,
      is_offset,
      keeps_state,
      counts,
      is_stream,
      is_like_first,
      control_place,
      fixed_operands,
    };

    /// What a node of this kind is in its kernel.
    pub fn role(self) -> Role
        ensures { result ≡ role_of self }
    {
        match self {
            Kind::Input | Kind::Scalar => Role::Given,
            Kind::Constant(_) => Role::Constant,
            Kind::Operation(..) => Role::Wired,
            Kind::Offset(_) => Role::LooksAhead,
            Kind::Hold | Kind::Counter | Kind::Chain => Role::KeepsState,
            Kind::Output | Kind::Feed | Kind::Part(_) => Role::ShowsAnother,
        }
    }

    /// The side of a port, and `None` of a kind that is no port.
    pub fn side(self) -> Option<PortSide>
        ensures { result ≡ side_of self }
    {
        match self {
            Kind::Input => Some(PortSide::Input),
            Kind::Output => Some(PortSide::Output),
            Kind::Scalar => Some(PortSide::Scalar),
            _ => None,
        }
    }

    /// Whether the words of a node are one word in all ticks of a run, so that nothing waits for it.
    pub fn is_steady(self) -> bool
        ensures { result ≡ is_steady self }
    {
        matches!(self, Kind::Constant(_) | Kind::Scalar)
    }

    /// Whether a node has the words of its operand in another tick.
    pub fn is_offset(self) -> bool
        ensures { result ≡ is_offset self }
    {
        matches!(self.role(), Role::LooksAhead)
    }

    /// Whether a node keeps a state from tick to tick.
    pub fn keeps_state(self) -> bool
        ensures { result ≡ keeps_state self }
    {
        matches!(self.role(), Role::KeepsState)
    }

    /// Whether a node counts by itself.
    pub fn counts(self) -> bool
        ensures { result ≡ counts self }
    {
        matches!(self, Kind::Counter | Kind::Chain)
    }

    /// Whether other nodes may take a node's words as operands.
    pub fn is_stream(self) -> bool
        ensures { result ≡ is_stream self }
    {
        !matches!(self, Kind::Output | Kind::Chain)
    }

    /// Whether the words of a node have the type of its first operand by its kind.
    pub fn is_like_first(self) -> bool
        ensures { result ≡ is_like_first self }
    {
        matches!(
            self,
            Kind::Output | Kind::Offset(_) | Kind::Feed | Kind::Hold
        )
    }

    /// The place, among a node's operands, of the control of a port, where it has one, or of the
    /// store of a hold; and `None` of a kind that has neither.
    pub fn control_place(self) -> Option<usize>
        ensures { result ≡ control_place self }
    {
        match self {
            Kind::Input => Some(0),
            Kind::Output | Kind::Hold => Some(1),
            _ => None,
        }
    }

    /// How many operands a node of a kernel has, where its kind says it.
    pub fn fixed_operands(self) -> Option<usize>
        ensures { result ≡ fixed_operands self }
    {
        match self {
            Kind::Scalar | Kind::Constant(_) | Kind::Counter | Kind::Chain => Some(0),
            Kind::Offset(_) | Kind::Feed | Kind::Part(_) => Some(1),
            Kind::Hold => Some(2),
            Kind::Input | Kind::Output | Kind::Operation(..) => None,
        }
    }
}

impl PortSide {
    ghost use Rattle.stream_graph.specs.Kinds.{is_on};

    /// Whether a node of this kind is a port of this side.
    pub fn has(self, kind: Kind) -> bool
        ensures { result ≡ is_on self kind }
    {
        match self {
            PortSide::Input => matches!(kind, Kind::Input),
            PortSide::Output => matches!(kind, Kind::Output),
            PortSide::Scalar => matches!(kind, Kind::Scalar),
        }
    }
}
