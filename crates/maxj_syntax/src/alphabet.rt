// The symbols that the choices of the parser are written in.

use crate::kind::Word;
use crate::level::Level;
use crate::symbol::{Action, Effect, Fixed, Form, Rule, Site, TokenClass};
use crate::tree::NodeKind;
use maxj_tokens::Sign;

pub const INTO: Fixed = Fixed::Act(Action::Into);

pub const END: Fixed = Fixed::Act(Action::End);

pub const HOLE: Fixed = Fixed::Act(Action::Hole);

pub const INNER: Fixed = Fixed::Act(Action::Inner);

/// An expression in parentheses begins.
pub const GROUP: Fixed = Fixed::Act(Action::Begin(NodeKind::Empty));

/// Something new.
pub const BEGIN_NEW: Fixed = Fixed::Act(Action::Begin(NodeKind::New));

/// The name on top is that of a call.
pub const TURN_CALL: Fixed = Fixed::Act(Action::Turn(NodeKind::Call));

/// The name on top is a type.
pub const TURN_PLAIN: Fixed = Fixed::Act(Action::Turn(NodeKind::Plain));

/// What is new is an array.
pub const TURN_ARRAY: Fixed = Fixed::Act(Action::Turn(NodeKind::NewArray));

/// An element of the array on top.
pub const WRAP_INDEX: Fixed = Fixed::Act(Action::Wrap(NodeKind::Index));

/// An array of the type on top.
pub const WRAP_ARRAY: Fixed = Fixed::Act(Action::Wrap(NodeKind::ArrayOf));

/// A connection to what is on top.
pub const CONNECTION: Fixed = Fixed::Act(Action::Wrap(NodeKind::Connect));

/// The name behind the dot is that of a call.
pub const TURN_DOT: Fixed = Fixed::Act(Action::Turn(NodeKind::DotCall));

/// What was begun is the type of memories.
pub const MEMORIES: Fixed = Fixed::Act(Action::Memory);

/// A parameter begins.
pub const PARAMETER: Fixed = Fixed::Act(Action::Begin(NodeKind::Param));

pub const BEGIN_IF: Fixed = Fixed::Act(Action::Begin(NodeKind::If));

pub const BEGIN_FOR: Fixed = Fixed::Act(Action::Begin(NodeKind::For));

/// A name that stands in no tree.
pub const ANY_NAME: Fixed = Fixed::Mark(TokenClass::Name, Effect::Skip);

/// The name behind a dot.
pub const DOT_NAME: Fixed = Fixed::Mark(TokenClass::Name, Effect::Over(NodeKind::Dot));

/// The name of a local variable, behind its type.
pub const LOCAL_NAME: Fixed = Fixed::Mark(TokenClass::Name, Effect::Over(NodeKind::Local));

/// A name that is an expression.
pub const NAME: Fixed = Fixed::Mark(TokenClass::Name, Effect::Push(NodeKind::Name));

/// The name of what was begun.
pub const NAME_TEXT: Fixed = Fixed::Mark(TokenClass::Name, Effect::Text);

pub const OPEN: Fixed = Fixed::Mark(TokenClass::Sign(Sign::Open), Effect::Skip);

pub const CLOSE: Fixed = Fixed::Mark(TokenClass::Sign(Sign::Close), Effect::Skip);

pub const BRACE: Fixed = Fixed::Mark(TokenClass::Sign(Sign::OpenBrace), Effect::Skip);

pub const BRACE_END: Fixed = Fixed::Mark(TokenClass::Sign(Sign::CloseBrace), Effect::Skip);

pub const SQUARE: Fixed = Fixed::Mark(TokenClass::Sign(Sign::OpenBracket), Effect::Skip);

pub const SQUARE_END: Fixed = Fixed::Mark(TokenClass::Sign(Sign::CloseBracket), Effect::Skip);

pub const SEMICOLON: Fixed = Fixed::Mark(TokenClass::Sign(Sign::Semicolon), Effect::Skip);

pub const COMMA: Fixed = Fixed::Mark(TokenClass::Sign(Sign::Comma), Effect::Skip);

pub const DOT: Fixed = Fixed::Mark(TokenClass::Sign(Sign::Dot), Effect::Skip);

pub const ASSIGN: Fixed = Fixed::Mark(TokenClass::Sign(Sign::Assign), Effect::Skip);

pub const CONNECT: Fixed = Fixed::Mark(TokenClass::Sign(Sign::Connect), Effect::Skip);

pub const LESS: Fixed = Fixed::Mark(TokenClass::Sign(Sign::Less), Effect::Skip);

pub const GREATER: Fixed = Fixed::Mark(TokenClass::Sign(Sign::Greater), Effect::Skip);

pub const NEW: Fixed = Fixed::Mark(TokenClass::Word(Word::New), Effect::Skip);

pub const IF: Fixed = Fixed::Mark(TokenClass::Word(Word::If), Effect::Skip);

pub const DFEVAR: Fixed = Fixed::Mark(TokenClass::Word(Word::DFEVar), Effect::Skip);

/// A type that is a word of the language.
pub const TYPE_WORD: Fixed = Fixed::Mark(TokenClass::TypeWord, Effect::Push(NodeKind::Plain));

/// The type or class `Memory`.
pub const MEMORY: Fixed = Fixed::Mark(
    TokenClass::Word(Word::Memory),
    Effect::Push(NodeKind::Plain),
);

pub const FOR: Fixed = Fixed::Mark(TokenClass::Word(Word::For), Effect::Skip);

/// A prefix.
pub const PREFIX: Fixed = Fixed::Mark(
    TokenClass::Operator(Level::Prefixes),
    Effect::Push(NodeKind::Prefix),
);

/// An operator of the level, behind its left side.
pub const PRODUCT: Fixed = Fixed::Mark(
    TokenClass::Operator(Level::Products),
    Effect::Over(NodeKind::Binary),
);

pub const SUM: Fixed = Fixed::Mark(
    TokenClass::Operator(Level::Sums),
    Effect::Over(NodeKind::Binary),
);

pub const SHIFT: Fixed = Fixed::Mark(
    TokenClass::Operator(Level::Shifts),
    Effect::Over(NodeKind::Binary),
);

pub const ORDER: Fixed = Fixed::Mark(
    TokenClass::Operator(Level::Orders),
    Effect::Over(NodeKind::Binary),
);

pub const EQUALITY: Fixed = Fixed::Mark(
    TokenClass::Operator(Level::Equalities),
    Effect::Over(NodeKind::Binary),
);

pub const BIT_AND: Fixed = Fixed::Mark(
    TokenClass::Operator(Level::BitAnds),
    Effect::Over(NodeKind::Binary),
);

pub const BIT_XOR: Fixed = Fixed::Mark(
    TokenClass::Operator(Level::BitXors),
    Effect::Over(NodeKind::Binary),
);

pub const BIT_OR: Fixed = Fixed::Mark(
    TokenClass::Operator(Level::BitOrs),
    Effect::Over(NodeKind::Binary),
);

pub const AND: Fixed = Fixed::Mark(
    TokenClass::Operator(Level::Ands),
    Effect::Over(NodeKind::Binary),
);

pub const OR: Fixed = Fixed::Mark(
    TokenClass::Operator(Level::Ors),
    Effect::Over(NodeKind::Binary),
);

/// An order that is no `>`, behind its left side.
pub const NO_GREATER: Fixed = Fixed::Mark(
    TokenClass::OrderBut(Sign::Greater),
    Effect::Over(NodeKind::Binary),
);

/// An order that is no `<`, behind its left side.
pub const NO_LESS: Fixed = Fixed::Mark(
    TokenClass::OrderBut(Sign::Less),
    Effect::Over(NodeKind::Binary),
);

/// `>`, behind its left side.
pub const IS_GREATER: Fixed = Fixed::Mark(
    TokenClass::Sign(Sign::Greater),
    Effect::Over(NodeKind::Binary),
);

/// `<`, behind its left side.
pub const IS_LESS: Fixed = Fixed::Mark(
    TokenClass::Sign(Sign::Less),
    Effect::Over(NodeKind::Binary),
);

pub const EXPR: Fixed = Fixed::Sub(Rule::Expr);

pub const ARGS: Fixed = Fixed::Sub(Rule::Args);

pub const POST: Fixed = Fixed::Sub(Rule::Post);

pub const DIMS: Fixed = Fixed::Sub(Rule::Dims);

pub const SIZES: Fixed = Fixed::Sub(Rule::Sizes);

pub const CALLED: Fixed = Fixed::Sub(Rule::Called);

pub const INIT: Fixed = Fixed::Sub(Rule::Init);

pub const BODY: Fixed = Fixed::Sub(Rule::Body);

pub const BLOCK: Fixed = Fixed::Sub(Rule::Block);

pub const BARE: Fixed = Fixed::Sub(Rule::Bare);

pub const OTHER: Fixed = Fixed::Sub(Rule::Other);

pub const SIMPLE: Fixed = Fixed::Sub(Rule::Simple);

pub const STMTS: Fixed = Fixed::Sub(Rule::Stmts);

pub const DOTTED: Fixed = Fixed::Sub(Rule::Dotted);

pub const TIGHTER: Fixed = Fixed::Sub(Rule::Tighter);

pub const FURTHER: Fixed = Fixed::Sub(Rule::Further);

pub const COND_TAIL: Fixed = Fixed::Sub(Rule::CondTail);

pub const FRESH_TAIL: Fixed = Fixed::Sub(Rule::FreshTail);

pub const NEW_REST: Fixed = Fixed::Sub(Rule::NewRest);

pub const DOTTED_REST: Fixed = Fixed::Sub(Rule::DottedRest);

pub const MORE_PARAMS: Fixed = Fixed::Sub(Rule::MoreParams);

pub const MAYBE_FINAL: Fixed = Fixed::Sub(Rule::MaybeFinal);

pub const REST_CALL: Fixed = Fixed::Sub(Rule::Rest(Form::Call));

pub const REST_FREE: Fixed = Fixed::Sub(Rule::Rest(Form::Free));

pub const REST_FRESH: Fixed = Fixed::Sub(Rule::Rest(Form::Fresh));

pub const REST_PLACE: Fixed = Fixed::Sub(Rule::Rest(Form::Place));

/// The rest of a variable that a statement declares.
pub const DECLARED: Fixed = Fixed::Sub(Rule::Declared(Site::Alone));

/// The rest of a variable that a `for` declares.
pub const LOOP_LOCAL: Fixed = Fixed::Sub(Rule::Declared(Site::Loop));

pub const MORE_ARGS: Fixed = Fixed::Sub(Rule::MoreArgs);

/// An operand that begins otherwise than with the name `DFEVar`.
pub const NOT_DFEVAR: Fixed = Fixed::Sub(Rule::OtherOperand);

/// An operand that begins with no name.
pub const NAMELESS: Fixed = Fixed::Sub(Rule::NamelessOperand);

pub const FIRST: Fixed = Fixed::Sub(Rule::First);

pub const TEST: Fixed = Fixed::Sub(Rule::Test);

pub const STEP: Fixed = Fixed::Sub(Rule::Step);

pub const ELSE_TAIL: Fixed = Fixed::Sub(Rule::ElseTail);

pub const TYPE_NAME: Fixed = Fixed::Sub(Rule::TypeName);

/// An operand, by the loosest operators that may stand in it: prefixes alone, or the levels from products on down to those named.
pub const PREFIXED: Fixed = Fixed::Sub(Rule::Operand(Level::Prefixes));

pub const MULTIPLIED: Fixed = Fixed::Sub(Rule::Operand(Level::Products));

pub const SUMMED: Fixed = Fixed::Sub(Rule::Operand(Level::Sums));

pub const SHIFTED: Fixed = Fixed::Sub(Rule::Operand(Level::Shifts));

pub const ORDERED: Fixed = Fixed::Sub(Rule::Operand(Level::Orders));

pub const EQUATED: Fixed = Fixed::Sub(Rule::Operand(Level::Equalities));

pub const BIT_ANDED: Fixed = Fixed::Sub(Rule::Operand(Level::BitAnds));

pub const BIT_XORED: Fixed = Fixed::Sub(Rule::Operand(Level::BitXors));

pub const BIT_ORED: Fixed = Fixed::Sub(Rule::Operand(Level::BitOrs));

pub const ANDED: Fixed = Fixed::Sub(Rule::Operand(Level::Ands));

pub const ORED: Fixed = Fixed::Sub(Rule::Operand(Level::Ors));

/// The further operands of a level.
pub const PRODUCTS: Fixed = Fixed::Sub(Rule::Tail(Level::Products));

pub const SUMS: Fixed = Fixed::Sub(Rule::Tail(Level::Sums));

pub const SHIFTS: Fixed = Fixed::Sub(Rule::Tail(Level::Shifts));

pub const ORDERS: Fixed = Fixed::Sub(Rule::Tail(Level::Orders));

pub const EQUALITIES: Fixed = Fixed::Sub(Rule::Tail(Level::Equalities));

pub const BIT_ANDS: Fixed = Fixed::Sub(Rule::Tail(Level::BitAnds));

pub const BIT_XORS: Fixed = Fixed::Sub(Rule::Tail(Level::BitXors));

pub const BIT_ORS: Fixed = Fixed::Sub(Rule::Tail(Level::BitOrs));

pub const ANDS: Fixed = Fixed::Sub(Rule::Tail(Level::Ands));

pub const ORS: Fixed = Fixed::Sub(Rule::Tail(Level::Ors));

// Made by tools/source_grammar.py from tools/source_grammar.txt: the lists that have a name.
/// The rest of a connection behind the first operand: the tails of all levels, and the right side.
pub const ONWARD: &[Fixed] = &[
    PRODUCTS, SUMS, SHIFTS, ORDERS, EQUALITIES, BIT_ANDS, BIT_XORS, BIT_ORS, ANDS, ORS, COND_TAIL,
    CONNECTION, CONNECT, EXPR, INTO, END,
];
// By hand again.
