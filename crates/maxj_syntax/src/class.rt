// The kinds of tokens that a class has.
ghost use Rattle.std.specs.Prelude.{◌≡◌};
ghost use Rattle.maxj_syntax.specs.TokenClasses.{same, among, names, operators, class_has};

use crate::kind::{Kind, Word};
use crate::level::Level;
use crate::symbol::TokenClass;
use maxj_tokens::Sign;

fn is_same(a: Kind, b: Kind) -> bool
    ensures { result ≡ same a b }
{
    a.number() == b.number()
}

/// A name, or a word that is a name too.
fn is_name(kind: Kind) -> bool
    ensures { result ≡ among kind names }
{
    match kind {
        Kind::Name => true,
        Kind::Word(word) => matches!(
            word,
            Word::Kernel
                | Word::CustomManager
                | Word::Memory
                | Word::DFEVar
                | Word::KernelParameters
                | Word::EngineParameters
        ),
        _ => false,
    }
}

fn is_operator(kind: Kind, level: Level) -> bool
    ensures { result ≡ among kind (operators level) }
{
    let Kind::Sign(sign) = kind else { return false };
    match level {
        Level::Prefixes => matches!(sign, Sign::Minus | Sign::Tilde | Sign::Not),
        Level::Products => matches!(sign, Sign::Star | Sign::Slash | Sign::Percent),
        Level::Sums => matches!(sign, Sign::Plus | Sign::Minus),
        Level::Shifts => matches!(sign, Sign::ShiftLeft | Sign::ShiftRight),
        Level::Orders => matches!(
            sign,
            Sign::Less | Sign::LessEqual | Sign::Greater | Sign::GreaterEqual
        ),
        Level::Equalities => matches!(
            sign,
            Sign::Same | Sign::NotSame | Sign::Equal | Sign::NotEqual
        ),
        Level::BitAnds => matches!(sign, Sign::And),
        Level::BitXors => matches!(sign, Sign::Xor),
        Level::BitOrs => matches!(sign, Sign::Or),
        Level::Ands => matches!(sign, Sign::AndAnd),
        Level::Ors => matches!(sign, Sign::OrOr),
    }
}

/// A word before a class or a member.
fn is_modifier(kind: Kind) -> bool
    ensures { result ≡ class_has TokenClass.Modifier kind }
{
    matches!(
        kind,
        Kind::Word(Word::Public | Word::Private | Word::Protected | Word::Static | Word::Final)
    )
}

fn is_assigning(kind: Kind) -> bool
    ensures { result ≡ class_has TokenClass.Assigning kind }
{
    matches!(
        kind,
        Kind::Sign(Sign::Assign | Sign::PlusAssign | Sign::MinusAssign | Sign::StarAssign)
    )
}

/// Whether the class has tokens of the kind: all of them, or none.
pub fn class_has(class: TokenClass, kind: Kind) -> bool
    ensures { result ≡ class_has class kind }
{
    match class {
        TokenClass::Sign(sign) => is_same(kind, Kind::Sign(sign)),
        TokenClass::Word(word) => is_same(kind, Kind::Word(word)),
        TokenClass::Name => is_name(kind),
        TokenClass::NameBut(word) => is_name(kind) && !is_same(kind, Kind::Word(word)),
        TokenClass::TypeWord => matches!(kind, Kind::Word(Word::Int | Word::Boolean)),
        TokenClass::Modifier => is_modifier(kind),
        TokenClass::ValueWord => matches!(kind, Kind::Word(Word::This | Word::True | Word::False)),
        TokenClass::Literal => matches!(kind, Kind::Whole | Kind::Decimal | Kind::Str),
        TokenClass::Assigning => is_assigning(kind),
        TokenClass::Counting => matches!(kind, Kind::Sign(Sign::PlusPlus | Sign::MinusMinus)),
        TokenClass::Operator(level) => is_operator(kind, level),
        TokenClass::OrderBut(sign) => {
            is_operator(kind, Level::Orders) && !is_same(kind, Kind::Sign(sign))
        }
    }
}
