// What waits for a value, or for the end of a statement.
use kernel_meaning::{Bindings, Declared, Row, Spot, Stack, Value};
use maxj_syntax::NodeId;
use mx_base::{List, Text};

/// The number of a part of a node, or none where the part is missing.
pub type Part = Option<NodeId>;

/// What is done with operands once all have values.
#[derive(Drop)]
pub enum Purpose {
    /// A row of the tables.
    ForRow(Row),
    /// The operand is the name of a kernel that a manager adds: the node of the new object, and the
    /// number of its class.
    ForKernelName { node: Part, class: u32 },
    /// The operands are the arguments of a kernel of a class, with its name.
    ForKernel { class: u32, name: Text },
}

/// The condition of a loop.
#[derive(Clone, Copy, PartialEq, Eq)]
pub enum Condition {
    /// A `for` without one.
    Always,
    Holds(Part),
}

/// A loop: its place, its parts, and how many variables stay after a `for`.
#[derive(Clone, Copy, PartialEq, Eq)]
pub struct Loop {
    pub at: u32,
    pub condition: Condition,
    pub step: Option<NodeId>,
    pub body: Part,
    pub count: Option<usize>,
}

/// What waits for a value, or for the end of a statement. `at` is the place of the production.
#[derive(Drop)]
pub enum Task {
    /// An expression waits for an operand: the node whose parts are the operands, the place of the
    /// next one, how many more there may be, and the values so far.
    Operands {
        node: Part,
        at: u32,
        place: usize,
        count: u32,
        purpose: Purpose,
        values: List<Value>,
    },
    /// `?:` waits for its condition.
    Choice {
        at: u32,
        first: Part,
        second: Part,
    },
    /// `?:` waits for the branch that the host chose.
    Picked {
        at: u32,
    },
    /// `?:` by a stream waits for its first branch.
    ChooseFirst {
        at: u32,
        second: Part,
        test: Value,
    },
    /// `?:` by a stream waits for its second branch.
    ChooseSecond {
        at: u32,
        test: Value,
        first: Value,
    },
    /// `&&` waits for its first operand, or `||` where `either`.
    Short {
        at: u32,
        either: bool,
        second: Part,
    },
    /// `&&` or `||` waits for its second operand.
    FlagAlone {
        at: u32,
    },
    /// A block goes on with the statement of this place, and leaves so many variables.
    Statements {
        node: Part,
        place: usize,
        count: usize,
    },
    /// `if` waits for the condition of this body; at the place stands what comes after the body.
    Test {
        at: u32,
        node: Part,
        place: usize,
        body: Part,
    },
    /// A loop begins, after the first part of a `for`.
    LoopBegin {
        repeat: Loop,
    },
    /// A loop waits for its condition; so many turns may come after this one.
    LoopTurn {
        repeat: Loop,
        more: u64,
    },
    /// A loop waits for the end of its body.
    LoopBody {
        repeat: Loop,
        more: u64,
    },
    /// A `for` waits for the end of its step.
    LoopAgain {
        repeat: Loop,
        more: u64,
    },
    /// The value isn't used.
    Discard,
    /// `return` waits for its value.
    GiveBack {
        at: u32,
    },
    /// A variable waits for its initial value.
    Initial {
        at: u32,
        of: Declared,
        spot: Spot,
    },
    /// Braces wait for an element of this type, after these.
    Elements {
        node: Part,
        of: Declared,
        values: List<Value>,
    },
    /// The place of an assignment waits for an index into an array, and then for the indices of
    /// these parts.
    Indexed {
        node: Part,
        array: Value,
        pending: Stack<Part>,
    },
    /// `=` waits for its value.
    Assign {
        at: u32,
        spot: Spot,
    },
    /// A compound assignment waits for its value; what stood at the spot was this.
    Combine {
        node: Part,
        old: Value,
        spot: Spot,
    },
    /// What an operator gave is stored.
    Store {
        at: u32,
        spot: Spot,
    },
    /// The fields from a place of the members on, before which so many fields stand, and then the
    /// block of the constructor with these variables.
    Fields {
        place: usize,
        before: usize,
        body: Part,
        variables: Bindings,
    },
}
