// What the parser reads: the symbols that stand on its stack.
ghost use Rattle.std.specs.Prelude.{◌≡◌};
ghost use Rattle.maxj_syntax.specs.Productions.{is_manager};

use crate::kind::Word;
use crate::level::Level;
use crate::tree::NodeKind;
use maxj_tokens::Sign;

/// A class of tokens.
#[derive(Clone, Copy)]
pub enum TokenClass {
    /// This sign.
    Sign(Sign),
    /// This word.
    Word(Word),
    /// Any name.
    Name,
    /// Any name but this one.
    NameBut(Word),
    /// `int` or `boolean`.
    TypeWord,
    /// A word before a class or a member.
    Modifier,
    /// `this`, `true` or `false`.
    ValueWord,
    /// An integer, a decimal or a string.
    Literal,
    /// `=`, `+=`, `-=` or `*=`.
    Assigning,
    /// `++` or `--`.
    Counting,
    /// A prefix, or a sign that joins operands of the level.
    Operator(Level),
    /// `<`, `<=`, `>` or `>=`, but not this one.
    OrderBut(Sign),
}

/// What a token does to the trees that are being built.
#[derive(Clone, Copy)]
pub enum Effect {
    Skip,
    /// A new tree of the literal.
    Leaf,
    /// A new tree with the token's word.
    Push(NodeKind),
    /// The tree on top becomes the first child of a new one with the token's word.
    Over(NodeKind),
    /// The tree on top gets the token's word.
    Text,
}

/// What a class is, by the class that it extends.
#[derive(Clone, Copy)]
pub enum ClassKind {
    Kernel,
    Manager,
}

impl ClassKind {
    /// Whether the class is a manager.
    pub fn is_manager(self) -> bool
        ensures { result ≡ is_manager self }
    {
        match self {
            ClassKind::Manager => true,
            ClassKind::Kernel => false,
        }
    }
}

/// What a step between tokens does to them.
#[derive(Clone, Copy)]
pub enum Action {
    /// A new tree.
    Begin(NodeKind),
    /// The tree on top becomes the first child of a new one.
    Wrap(NodeKind),
    /// The tree on top becomes one of this kind.
    Turn(NodeKind),
    /// The tree on top becomes the last child of the one below.
    Into,
    /// The tree on top ends here.
    End,
    /// The tree on top takes the place of the one below.
    Inner,
    /// The word of the tree on top becomes that of the one below.
    Named,
    /// A new tree for what is absent.
    Hole,
    /// The tree on top becomes the type of memories, which ends here.
    Memory,
    /// The tree on top, a name, becomes a local variable: its type, that of memories, stands where the tree below does.
    Declare,
    /// The tree on top is a whole class.
    Keep(ClassKind),
}

/// How far a statement that begins with a primary has come.
#[derive(Clone, Copy)]
pub enum Form {
    Place,
    Call,
    Free,
    /// A new array.
    Fresh,
}

/// Where a declaration stands.
#[derive(Clone, Copy)]
pub enum Site {
    Alone,
    /// As the first part of a `for`.
    Loop,
}

// Made by tools/source_grammar.py from tools/source_grammar.txt: the rules.
#[derive(Clone, Copy)]
pub enum Rule {
    // Files and classes.
    File,
    Package,
    Path,
    MorePath,
    Imports,
    MaybeStatic,
    ImportMore,
    ImportDot,
    Classes,
    Class,
    Mods,
    Declares,
    MethodRest,
    Params,
    MoreParams,
    Param,
    MaybeFinal,
    /// The parameter of a constructor, of a manager or a kernel.
    Opening(ClassKind),
    /// What stands behind its name.
    Opened(ClassKind),
    SuperRest,
    // Types.
    TypeName,
    MemoryType,
    Dims,
    // Expressions.
    Expr,
    CondTail,
    Operand(Level),
    Tail(Level),
    Postfix,
    Called,
    Args,
    MoreArgs,
    Post,
    Dotted,
    NewBase,
    NewMemory,
    NewRest,
    FreshTail,
    Sizes,
    MoreSizes,
    // Simple statements.
    Simple,
    NameRest,
    Other,
    NewStmt,
    NewStmtMemory,
    NewStmtRest,
    Rest(Form),
    Bare,
    DottedRest,
    // Statements.
    Init,
    Inits,
    MoreInits,
    Block,
    Stmts,
    Stmt,
    NameThen(Site),
    BracketThen(Site),
    Declared(Site),
    ReturnRest,
    ElseTail,
    ElseRest,
    Body,
    First,
    Test,
    Step,
    // Statements that begin with `Memory`, `Memory <`, `Memory < DFEVar`, `Memory < DFEVar >`, and that and a name.
    MemoryThen(Site),
    LessThen(Site),
    DFEVarThen(Site),
    GreaterThen(Site),
    MemoryName(Site),
    /// Behind `Memory`, whatever is no declaration and goes on without `<`.
    MemoryBare,
    /// An operand that doesn't begin with the name `DFEVar`.
    OtherOperand,
    /// An operand that begins with no name.
    NamelessOperand,
    /// A call, names behind dots or indexes, at least one.
    Further,
    /// Products, sums or shifts, at least one.
    Tighter,
}
// By hand again.

/// Where a member of a class stands.
#[derive(Clone, Copy)]
pub struct Inside<'a> {
    pub kind: ClassKind,
    /// The name of the class.
    pub class: &'a [u8],
    /// Whether the constructor is still to come.
    pub unmade: bool,
}

/// The name that a member begins with.
#[derive(Clone, Copy)]
pub struct FirstName {
    /// Whether it is that of the class, where the constructor is still to come.
    pub own: bool,
    /// Whether it is `Memory`.
    pub memory: bool,
}

/// A rule that speaks of a name.
#[derive(Clone, Copy)]
pub enum Named<'a> {
    /// What stands behind the name of the class.
    Parent(&'a [u8]),
    Members(Inside<'a>),
    /// A member, behind its modifiers, and the members behind it.
    Head(Inside<'a>),
    /// A member behind its first word, a name.
    After(Inside<'a>, FirstName),
}

/// What the parser is to read next, where that speaks of no name.
#[derive(Clone, Copy)]
pub enum Fixed {
    /// A token of the class.
    Mark(TokenClass, Effect),
    Sub(Rule),
    /// The name of a class, and the rest of its head, that speaks of it.
    ClassName,
    /// The name of a constructor's first parameter, and the rest of the constructor.
    FirstParam(ClassKind),
    Act(Action),
}

/// What the parser is to read next.
#[derive(Clone, Copy)]
pub enum Symbol<'a> {
    Fixed(Fixed),
    /// This name.
    Name(&'a [u8], Effect),
    Named(Named<'a>),
}
