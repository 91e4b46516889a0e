// Made by tools/source_grammar.py from tools/source_grammar.txt.
// The choices of each rule, as the parser reads them.

ghost use Rattle.std.specs.Prelude.{◌≡◌, map};
ghost use Rattle.maxj_syntax.specs.Symbols.{fixed_view};
ghost use Rattle.maxj_syntax.specs.Table.{choices};

use crate::alphabet::AND;
use crate::alphabet::ANDED;
use crate::alphabet::ANDS;
use crate::alphabet::ANY_NAME;
use crate::alphabet::ARGS;
use crate::alphabet::ASSIGN;
use crate::alphabet::BARE;
use crate::alphabet::BEGIN_FOR;
use crate::alphabet::BEGIN_IF;
use crate::alphabet::BEGIN_NEW;
use crate::alphabet::BIT_AND;
use crate::alphabet::BIT_ANDED;
use crate::alphabet::BIT_ANDS;
use crate::alphabet::BIT_OR;
use crate::alphabet::BIT_ORED;
use crate::alphabet::BIT_ORS;
use crate::alphabet::BIT_XOR;
use crate::alphabet::BIT_XORED;
use crate::alphabet::BIT_XORS;
use crate::alphabet::BLOCK;
use crate::alphabet::BODY;
use crate::alphabet::BRACE;
use crate::alphabet::BRACE_END;
use crate::alphabet::CALLED;
use crate::alphabet::CLOSE;
use crate::alphabet::COMMA;
use crate::alphabet::COND_TAIL;
use crate::alphabet::CONNECT;
use crate::alphabet::CONNECTION;
use crate::alphabet::DECLARED;
use crate::alphabet::DFEVAR;
use crate::alphabet::DIMS;
use crate::alphabet::DOT;
use crate::alphabet::DOT_NAME;
use crate::alphabet::DOTTED;
use crate::alphabet::DOTTED_REST;
use crate::alphabet::ELSE_TAIL;
use crate::alphabet::END;
use crate::alphabet::EQUALITIES;
use crate::alphabet::EQUALITY;
use crate::alphabet::EQUATED;
use crate::alphabet::EXPR;
use crate::alphabet::FIRST;
use crate::alphabet::FOR;
use crate::alphabet::FRESH_TAIL;
use crate::alphabet::FURTHER;
use crate::alphabet::GREATER;
use crate::alphabet::GROUP;
use crate::alphabet::HOLE;
use crate::alphabet::IF;
use crate::alphabet::INIT;
use crate::alphabet::INNER;
use crate::alphabet::INTO;
use crate::alphabet::IS_GREATER;
use crate::alphabet::IS_LESS;
use crate::alphabet::LESS;
use crate::alphabet::LOCAL_NAME;
use crate::alphabet::LOOP_LOCAL;
use crate::alphabet::MAYBE_FINAL;
use crate::alphabet::MEMORIES;
use crate::alphabet::MEMORY;
use crate::alphabet::MORE_ARGS;
use crate::alphabet::MORE_PARAMS;
use crate::alphabet::MULTIPLIED;
use crate::alphabet::NAME;
use crate::alphabet::NAME_TEXT;
use crate::alphabet::NAMELESS;
use crate::alphabet::NEW;
use crate::alphabet::NEW_REST;
use crate::alphabet::NO_GREATER;
use crate::alphabet::NO_LESS;
use crate::alphabet::NOT_DFEVAR;
use crate::alphabet::ONWARD;
use crate::alphabet::OPEN;
use crate::alphabet::OR;
use crate::alphabet::ORDER;
use crate::alphabet::ORDERED;
use crate::alphabet::ORDERS;
use crate::alphabet::ORED;
use crate::alphabet::ORS;
use crate::alphabet::OTHER;
use crate::alphabet::PARAMETER;
use crate::alphabet::POST;
use crate::alphabet::PREFIX;
use crate::alphabet::PREFIXED;
use crate::alphabet::PRODUCT;
use crate::alphabet::PRODUCTS;
use crate::alphabet::REST_CALL;
use crate::alphabet::REST_FREE;
use crate::alphabet::REST_FRESH;
use crate::alphabet::REST_PLACE;
use crate::alphabet::SEMICOLON;
use crate::alphabet::SHIFT;
use crate::alphabet::SHIFTED;
use crate::alphabet::SHIFTS;
use crate::alphabet::SIMPLE;
use crate::alphabet::SIZES;
use crate::alphabet::SQUARE;
use crate::alphabet::SQUARE_END;
use crate::alphabet::STEP;
use crate::alphabet::STMTS;
use crate::alphabet::SUM;
use crate::alphabet::SUMMED;
use crate::alphabet::SUMS;
use crate::alphabet::TEST;
use crate::alphabet::TIGHTER;
use crate::alphabet::TURN_ARRAY;
use crate::alphabet::TURN_CALL;
use crate::alphabet::TURN_DOT;
use crate::alphabet::TURN_PLAIN;
use crate::alphabet::TYPE_NAME;
use crate::alphabet::TYPE_WORD;
use crate::alphabet::WRAP_ARRAY;
use crate::alphabet::WRAP_INDEX;
use crate::kind::Word;
use crate::level::Level;
use crate::symbol::Action;
use crate::symbol::ClassKind;
use crate::symbol::Effect;
use crate::symbol::Fixed;
use crate::symbol::Form;
use crate::symbol::Rule;
use crate::symbol::Site;
use crate::symbol::TokenClass;
use crate::tree::NodeKind;
use maxj_tokens::Sign;

/// The choices of a rule. Each begins with tokens of its own, but the last, which is taken otherwise.
pub fn choices_of(rule: Rule) -> &'static [&'static [Fixed]]
    ensures { map (λ c. map fixed_view c.now) result.now ≡ choices rule }
{
    match rule {
        Rule::File => &[&[
            Fixed::Sub(Rule::Package),
            Fixed::Sub(Rule::Imports),
            Fixed::Sub(Rule::Class),
            Fixed::Sub(Rule::Classes),
        ]],
        Rule::Package => &[
            &[
                Fixed::Mark(TokenClass::Word(Word::Package), Effect::Skip),
                Fixed::Sub(Rule::Path),
                SEMICOLON,
            ],
            &[],
        ],
        Rule::Path => &[&[ANY_NAME, Fixed::Sub(Rule::MorePath)]],
        Rule::MorePath => &[&[DOT, ANY_NAME, Fixed::Sub(Rule::MorePath)], &[]],
        Rule::Imports => &[
            &[
                Fixed::Mark(TokenClass::Word(Word::Import), Effect::Skip),
                Fixed::Sub(Rule::MaybeStatic),
                ANY_NAME,
                Fixed::Sub(Rule::ImportMore),
                SEMICOLON,
                Fixed::Sub(Rule::Imports),
            ],
            &[],
        ],
        Rule::MaybeStatic => &[
            &[Fixed::Mark(TokenClass::Word(Word::Static), Effect::Skip)],
            &[],
        ],
        Rule::ImportMore => &[&[DOT, Fixed::Sub(Rule::ImportDot)], &[]],
        Rule::ImportDot => &[
            &[ANY_NAME, Fixed::Sub(Rule::ImportMore)],
            &[Fixed::Mark(TokenClass::Sign(Sign::Star), Effect::Skip)],
        ],
        Rule::Classes => &[&[Fixed::Sub(Rule::Class), Fixed::Sub(Rule::Classes)], &[]],
        Rule::Class => &[&[
            Fixed::Act(Action::Begin(NodeKind::Class)),
            Fixed::Sub(Rule::Mods),
            Fixed::Mark(TokenClass::Word(Word::Class), Effect::Skip),
            Fixed::ClassName,
        ]],
        Rule::Mods => &[
            &[
                Fixed::Mark(TokenClass::Modifier, Effect::Skip),
                Fixed::Sub(Rule::Mods),
            ],
            &[],
        ],
        Rule::Declares => &[
            &[SEMICOLON, END],
            &[ASSIGN, INIT, INTO, SEMICOLON, END],
            &[
                Fixed::Act(Action::Turn(NodeKind::Method)),
                Fixed::Sub(Rule::MethodRest),
            ],
        ],
        Rule::MethodRest => &[&[OPEN, Fixed::Sub(Rule::Params), CLOSE, BLOCK, INTO, END]],
        Rule::Params => &[&[Fixed::Sub(Rule::Param), INTO, MORE_PARAMS], &[]],
        Rule::MoreParams => &[&[COMMA, Fixed::Sub(Rule::Param), INTO, MORE_PARAMS], &[]],
        Rule::Param => &[&[PARAMETER, MAYBE_FINAL, TYPE_NAME, INTO, NAME_TEXT, END]],
        Rule::MaybeFinal => &[
            &[Fixed::Mark(TokenClass::Word(Word::Final), Effect::Skip)],
            &[],
        ],
        Rule::Opening(ClassKind::Kernel) => &[&[
            PARAMETER,
            MAYBE_FINAL,
            Fixed::Mark(
                TokenClass::Word(Word::KernelParameters),
                Effect::Push(NodeKind::Plain),
            ),
            INTO,
            Fixed::FirstParam(ClassKind::Kernel),
        ]],
        Rule::Opening(ClassKind::Manager) => &[&[
            PARAMETER,
            MAYBE_FINAL,
            Fixed::Mark(
                TokenClass::Word(Word::EngineParameters),
                Effect::Push(NodeKind::Plain),
            ),
            INTO,
            Fixed::FirstParam(ClassKind::Manager),
        ]],
        Rule::Opened(ClassKind::Kernel) => &[&[END, INTO, MORE_PARAMS]],
        Rule::Opened(ClassKind::Manager) => &[&[END, INTO]],
        Rule::SuperRest => &[&[CLOSE, SEMICOLON, STMTS, BRACE_END, END, INTO, END]],
        Rule::TypeName => &[
            &[
                Fixed::Mark(
                    TokenClass::NameBut(Word::Memory),
                    Effect::Push(NodeKind::Plain),
                ),
                DIMS,
            ],
            &[MEMORY, Fixed::Sub(Rule::MemoryType), DIMS],
            &[TYPE_WORD, DIMS],
        ],
        Rule::MemoryType => &[&[LESS, DFEVAR, GREATER, END], &[]],
        Rule::Dims => &[&[WRAP_ARRAY, SQUARE, SQUARE_END, END, DIMS], &[]],
        Rule::Expr => &[&[ORED, COND_TAIL]],
        Rule::CondTail => &[
            &[
                Fixed::Act(Action::Wrap(NodeKind::Cond)),
                Fixed::Mark(TokenClass::Sign(Sign::Question), Effect::Skip),
                EXPR,
                INTO,
                Fixed::Mark(TokenClass::Sign(Sign::Colon), Effect::Skip),
                EXPR,
                INTO,
                END,
            ],
            &[],
        ],
        Rule::Operand(Level::Prefixes) => &[
            &[PREFIX, PREFIXED, INTO, END],
            &[Fixed::Sub(Rule::Postfix)],
        ],
        Rule::Operand(Level::Products) => &[&[PREFIXED, PRODUCTS]],
        Rule::Operand(Level::Sums) => &[&[MULTIPLIED, SUMS]],
        Rule::Operand(Level::Shifts) => &[&[SUMMED, SHIFTS]],
        Rule::Operand(Level::Orders) => &[&[SHIFTED, ORDERS]],
        Rule::Operand(Level::Equalities) => &[&[ORDERED, EQUALITIES]],
        Rule::Operand(Level::BitAnds) => &[&[EQUATED, BIT_ANDS]],
        Rule::Operand(Level::BitXors) => &[&[BIT_ANDED, BIT_XORS]],
        Rule::Operand(Level::BitOrs) => &[&[BIT_XORED, BIT_ORS]],
        Rule::Operand(Level::Ands) => &[&[BIT_ORED, ANDS]],
        Rule::Operand(Level::Ors) => &[&[ANDED, ORS]],
        Rule::Tail(Level::Prefixes) => &[&[]],
        Rule::Tail(Level::Products) => &[&[PRODUCT, PREFIXED, INTO, END, PRODUCTS], &[]],
        Rule::Tail(Level::Sums) => &[&[SUM, MULTIPLIED, INTO, END, SUMS], &[]],
        Rule::Tail(Level::Shifts) => &[&[SHIFT, SUMMED, INTO, END, SHIFTS], &[]],
        Rule::Tail(Level::Orders) => &[&[ORDER, SHIFTED, INTO, END, ORDERS], &[]],
        Rule::Tail(Level::Equalities) => &[&[EQUALITY, ORDERED, INTO, END, EQUALITIES], &[]],
        Rule::Tail(Level::BitAnds) => &[&[BIT_AND, EQUATED, INTO, END, BIT_ANDS], &[]],
        Rule::Tail(Level::BitXors) => &[&[BIT_XOR, BIT_ANDED, INTO, END, BIT_XORS], &[]],
        Rule::Tail(Level::BitOrs) => &[&[BIT_OR, BIT_XORED, INTO, END, BIT_ORS], &[]],
        Rule::Tail(Level::Ands) => &[&[AND, BIT_ORED, INTO, END, ANDS], &[]],
        Rule::Tail(Level::Ors) => &[&[OR, ANDED, INTO, END, ORS], &[]],
        Rule::Postfix => &[
            &[Fixed::Mark(TokenClass::Literal, Effect::Leaf), POST],
            &[
                Fixed::Mark(TokenClass::ValueWord, Effect::Push(NodeKind::Name)),
                POST,
            ],
            &[NAME, CALLED, POST],
            &[GROUP, OPEN, EXPR, CLOSE, INNER, POST],
            &[BEGIN_NEW, NEW, Fixed::Sub(Rule::NewBase)],
        ],
        Rule::Called => &[&[TURN_CALL, OPEN, ARGS, CLOSE, END], &[]],
        Rule::Args => &[&[EXPR, INTO, MORE_ARGS], &[]],
        Rule::MoreArgs => &[&[COMMA, EXPR, INTO, MORE_ARGS], &[]],
        Rule::Post => &[
            &[DOT, DOT_NAME, DOTTED, POST],
            &[WRAP_INDEX, SQUARE, EXPR, INTO, SQUARE_END, END, POST],
            &[],
        ],
        Rule::Dotted => &[&[TURN_DOT, OPEN, ARGS, CLOSE, END], &[END]],
        Rule::NewBase => &[
            &[
                Fixed::Mark(
                    TokenClass::NameBut(Word::Memory),
                    Effect::Push(NodeKind::Plain),
                ),
                NEW_REST,
            ],
            &[MEMORY, Fixed::Sub(Rule::NewMemory)],
            &[TYPE_WORD, INTO, TURN_ARRAY, SIZES, END, FRESH_TAIL],
        ],
        Rule::NewMemory => &[
            &[
                LESS, DFEVAR, GREATER, END, INTO, TURN_ARRAY, SIZES, END, FRESH_TAIL,
            ],
            &[NEW_REST],
        ],
        Rule::NewRest => &[
            &[Fixed::Act(Action::Named), OPEN, ARGS, CLOSE, END, POST],
            &[INTO, TURN_ARRAY, SIZES, END, FRESH_TAIL],
        ],
        Rule::FreshTail => &[&[DOT, DOT_NAME, DOTTED, POST], &[]],
        Rule::Sizes => &[&[SQUARE, EXPR, INTO, SQUARE_END, Fixed::Sub(Rule::MoreSizes)]],
        Rule::MoreSizes => &[&[SIZES], &[]],
        Rule::Simple => &[&[NAME, Fixed::Sub(Rule::NameRest)], &[OTHER]],
        Rule::NameRest => &[
            &[TURN_CALL, OPEN, ARGS, CLOSE, END, REST_CALL],
            &[REST_PLACE],
        ],
        Rule::Other => &[
            &[
                PREFIX, PREFIXED, INTO, END, PRODUCTS, SUMS, SHIFTS, ORDERS, EQUALITIES, BIT_ANDS,
                BIT_XORS, BIT_ORS, ANDS, ORS, COND_TAIL, CONNECTION, CONNECT, EXPR, INTO, END,
            ],
            &[Fixed::Mark(TokenClass::Literal, Effect::Leaf), REST_FREE],
            &[
                Fixed::Mark(TokenClass::ValueWord, Effect::Push(NodeKind::Name)),
                REST_FREE,
            ],
            &[GROUP, OPEN, EXPR, CLOSE, INNER, REST_FREE],
            &[BEGIN_NEW, NEW, Fixed::Sub(Rule::NewStmt)],
        ],
        Rule::NewStmt => &[
            &[
                Fixed::Mark(
                    TokenClass::NameBut(Word::Memory),
                    Effect::Push(NodeKind::Plain),
                ),
                Fixed::Sub(Rule::NewStmtRest),
            ],
            &[MEMORY, Fixed::Sub(Rule::NewStmtMemory)],
            &[TYPE_WORD, INTO, TURN_ARRAY, SIZES, END, REST_FRESH],
        ],
        Rule::NewStmtMemory => &[
            &[
                LESS, DFEVAR, GREATER, END, INTO, TURN_ARRAY, SIZES, END, REST_FRESH,
            ],
            &[Fixed::Sub(Rule::NewStmtRest)],
        ],
        Rule::NewStmtRest => &[
            &[Fixed::Act(Action::Named), OPEN, ARGS, CLOSE, END, REST_CALL],
            &[INTO, TURN_ARRAY, SIZES, END, REST_FRESH],
        ],
        Rule::Rest(Form::Place) => &[
            &[WRAP_INDEX, SQUARE, EXPR, INTO, SQUARE_END, END, REST_PLACE],
            &[BARE],
        ],
        Rule::Rest(Form::Call) => &[
            &[WRAP_INDEX, SQUARE, EXPR, INTO, SQUARE_END, END, REST_FREE],
            &[DOT, DOT_NAME, DOTTED_REST],
            ONWARD,
            &[Fixed::Act(Action::Wrap(NodeKind::Run)), END],
        ],
        Rule::Rest(Form::Free) => &[
            &[WRAP_INDEX, SQUARE, EXPR, INTO, SQUARE_END, END, REST_FREE],
            &[DOT, DOT_NAME, DOTTED_REST],
            ONWARD,
        ],
        Rule::Rest(Form::Fresh) => &[&[DOT, DOT_NAME, DOTTED_REST], ONWARD],
        Rule::Bare => &[
            &[
                Fixed::Mark(TokenClass::Assigning, Effect::Over(NodeKind::Set)),
                EXPR,
                INTO,
                END,
            ],
            &[
                Fixed::Mark(TokenClass::Counting, Effect::Over(NodeKind::Set)),
                END,
            ],
            &[DOT, DOT_NAME, DOTTED_REST],
            ONWARD,
        ],
        Rule::DottedRest => &[
            &[TURN_DOT, OPEN, ARGS, CLOSE, END, REST_CALL],
            &[END, REST_FREE],
        ],
        Rule::Init => &[
            &[EXPR],
            &[
                Fixed::Act(Action::Begin(NodeKind::Braces)),
                BRACE,
                Fixed::Sub(Rule::Inits),
                BRACE_END,
                END,
            ],
        ],
        Rule::Inits => &[&[INIT, INTO, Fixed::Sub(Rule::MoreInits)], &[]],
        Rule::MoreInits => &[&[COMMA, INIT, INTO, Fixed::Sub(Rule::MoreInits)], &[]],
        Rule::Block => &[&[
            Fixed::Act(Action::Begin(NodeKind::Block)),
            BRACE,
            STMTS,
            BRACE_END,
            END,
        ]],
        Rule::Stmts => &[&[Fixed::Sub(Rule::Stmt), INTO, STMTS], &[]],
        Rule::Stmt => &[
            &[BLOCK],
            &[
                Fixed::Act(Action::Begin(NodeKind::Local)),
                Fixed::Mark(TokenClass::Word(Word::Final), Effect::Skip),
                TYPE_NAME,
                INTO,
                NAME_TEXT,
                DECLARED,
            ],
            &[TYPE_WORD, DIMS, LOCAL_NAME, DECLARED],
            &[
                Fixed::Mark(
                    TokenClass::NameBut(Word::Memory),
                    Effect::Push(NodeKind::Name),
                ),
                Fixed::Sub(Rule::NameThen(Site::Alone)),
            ],
            &[
                Fixed::Mark(TokenClass::Word(Word::Memory), Effect::Push(NodeKind::Name)),
                Fixed::Sub(Rule::MemoryThen(Site::Alone)),
            ],
            &[
                Fixed::Act(Action::Begin(NodeKind::Return)),
                Fixed::Mark(TokenClass::Word(Word::Return), Effect::Skip),
                Fixed::Sub(Rule::ReturnRest),
            ],
            &[
                BEGIN_IF, IF, OPEN, EXPR, INTO, CLOSE, BODY, INTO, ELSE_TAIL, END,
            ],
            &[
                Fixed::Act(Action::Begin(NodeKind::While)),
                Fixed::Mark(TokenClass::Word(Word::While), Effect::Skip),
                OPEN,
                EXPR,
                INTO,
                CLOSE,
                BODY,
                INTO,
                END,
            ],
            &[
                BEGIN_FOR, FOR, OPEN, FIRST, INTO, SEMICOLON, TEST, INTO, SEMICOLON, STEP, INTO,
                CLOSE, BODY, INTO, END,
            ],
            &[GROUP, SEMICOLON, END],
            &[OTHER, SEMICOLON],
        ],
        Rule::NameThen(Site::Alone) => &[
            &[TURN_PLAIN, LOCAL_NAME, DECLARED],
            &[SQUARE, Fixed::Sub(Rule::BracketThen(Site::Alone))],
            &[TURN_CALL, OPEN, ARGS, CLOSE, END, REST_CALL, SEMICOLON],
            &[BARE, SEMICOLON],
        ],
        Rule::NameThen(Site::Loop) => &[
            &[TURN_PLAIN, LOCAL_NAME, LOOP_LOCAL],
            &[SQUARE, Fixed::Sub(Rule::BracketThen(Site::Loop))],
            &[TURN_CALL, OPEN, ARGS, CLOSE, END, REST_CALL],
            &[BARE],
        ],
        Rule::BracketThen(Site::Alone) => &[
            &[
                TURN_PLAIN, WRAP_ARRAY, SQUARE_END, END, DIMS, LOCAL_NAME, DECLARED,
            ],
            &[
                WRAP_INDEX, EXPR, INTO, SQUARE_END, END, REST_PLACE, SEMICOLON,
            ],
        ],
        Rule::BracketThen(Site::Loop) => &[
            &[
                TURN_PLAIN, WRAP_ARRAY, SQUARE_END, END, DIMS, LOCAL_NAME, LOOP_LOCAL,
            ],
            &[WRAP_INDEX, EXPR, INTO, SQUARE_END, END, REST_PLACE],
        ],
        Rule::Declared(Site::Alone) => &[&[SEMICOLON, END], &[ASSIGN, INIT, INTO, SEMICOLON, END]],
        Rule::Declared(Site::Loop) => &[&[ASSIGN, EXPR, INTO, END]],
        Rule::ReturnRest => &[&[SEMICOLON, END], &[EXPR, INTO, SEMICOLON, END]],
        Rule::ElseTail => &[
            &[
                Fixed::Mark(TokenClass::Word(Word::Else), Effect::Skip),
                Fixed::Sub(Rule::ElseRest),
            ],
            &[],
        ],
        Rule::ElseRest => &[
            &[IF, OPEN, EXPR, INTO, CLOSE, BODY, INTO, ELSE_TAIL],
            &[BODY, INTO],
        ],
        Rule::Body => &[
            &[BLOCK],
            &[
                Fixed::Act(Action::Begin(NodeKind::Return)),
                Fixed::Mark(TokenClass::Word(Word::Return), Effect::Skip),
                Fixed::Sub(Rule::ReturnRest),
            ],
            &[SIMPLE, SEMICOLON],
        ],
        Rule::First => &[
            &[TYPE_WORD, DIMS, LOCAL_NAME, LOOP_LOCAL],
            &[
                Fixed::Mark(
                    TokenClass::NameBut(Word::Memory),
                    Effect::Push(NodeKind::Name),
                ),
                Fixed::Sub(Rule::NameThen(Site::Loop)),
            ],
            &[
                Fixed::Mark(TokenClass::Word(Word::Memory), Effect::Push(NodeKind::Name)),
                Fixed::Sub(Rule::MemoryThen(Site::Loop)),
            ],
            &[OTHER],
            &[HOLE],
        ],
        Rule::Test => &[&[EXPR], &[HOLE]],
        Rule::Step => &[&[SIMPLE], &[HOLE]],
        Rule::MemoryThen(Site::Alone) => &[
            &[TURN_PLAIN, LOCAL_NAME, DECLARED],
            &[SQUARE, Fixed::Sub(Rule::BracketThen(Site::Alone))],
            &[TURN_CALL, OPEN, ARGS, CLOSE, END, REST_CALL, SEMICOLON],
            &[IS_LESS, Fixed::Sub(Rule::LessThen(Site::Alone))],
            &[Fixed::Sub(Rule::MemoryBare), SEMICOLON],
        ],
        Rule::MemoryThen(Site::Loop) => &[
            &[TURN_PLAIN, LOCAL_NAME, LOOP_LOCAL],
            &[SQUARE, Fixed::Sub(Rule::BracketThen(Site::Loop))],
            &[TURN_CALL, OPEN, ARGS, CLOSE, END, REST_CALL],
            &[IS_LESS, Fixed::Sub(Rule::LessThen(Site::Loop))],
            &[Fixed::Sub(Rule::MemoryBare)],
        ],
        Rule::LessThen(Site::Alone) => &[
            &[
                Fixed::Mark(TokenClass::Word(Word::DFEVar), Effect::Push(NodeKind::Name)),
                Fixed::Sub(Rule::DFEVarThen(Site::Alone)),
            ],
            &[
                NOT_DFEVAR, PRODUCTS, SUMS, SHIFTS, INTO, END, ORDERS, EQUALITIES, BIT_ANDS,
                BIT_XORS, BIT_ORS, ANDS, ORS, COND_TAIL, CONNECTION, CONNECT, EXPR, INTO, END,
                SEMICOLON,
            ],
        ],
        Rule::LessThen(Site::Loop) => &[
            &[
                Fixed::Mark(TokenClass::Word(Word::DFEVar), Effect::Push(NodeKind::Name)),
                Fixed::Sub(Rule::DFEVarThen(Site::Loop)),
            ],
            &[
                NOT_DFEVAR, PRODUCTS, SUMS, SHIFTS, INTO, END, ORDERS, EQUALITIES, BIT_ANDS,
                BIT_XORS, BIT_ORS, ANDS, ORS, COND_TAIL, CONNECTION, CONNECT, EXPR, INTO, END,
            ],
        ],
        Rule::DFEVarThen(Site::Alone) => &[
            &[
                INTO,
                END,
                IS_GREATER,
                Fixed::Sub(Rule::GreaterThen(Site::Alone)),
            ],
            &[
                FURTHER, PRODUCTS, SUMS, SHIFTS, INTO, END, ORDERS, EQUALITIES, BIT_ANDS, BIT_XORS,
                BIT_ORS, ANDS, ORS, COND_TAIL, CONNECTION, CONNECT, EXPR, INTO, END, SEMICOLON,
            ],
            &[
                TIGHTER, INTO, END, ORDERS, EQUALITIES, BIT_ANDS, BIT_XORS, BIT_ORS, ANDS, ORS,
                COND_TAIL, CONNECTION, CONNECT, EXPR, INTO, END, SEMICOLON,
            ],
            &[
                INTO, END, NO_GREATER, SHIFTED, INTO, END, ORDERS, EQUALITIES, BIT_ANDS, BIT_XORS,
                BIT_ORS, ANDS, ORS, COND_TAIL, CONNECTION, CONNECT, EXPR, INTO, END, SEMICOLON,
            ],
            &[
                INTO, END, EQUALITIES, BIT_ANDS, BIT_XORS, BIT_ORS, ANDS, ORS, COND_TAIL,
                CONNECTION, CONNECT, EXPR, INTO, END, SEMICOLON,
            ],
        ],
        Rule::DFEVarThen(Site::Loop) => &[
            &[
                INTO,
                END,
                IS_GREATER,
                Fixed::Sub(Rule::GreaterThen(Site::Loop)),
            ],
            &[
                FURTHER, PRODUCTS, SUMS, SHIFTS, INTO, END, ORDERS, EQUALITIES, BIT_ANDS, BIT_XORS,
                BIT_ORS, ANDS, ORS, COND_TAIL, CONNECTION, CONNECT, EXPR, INTO, END,
            ],
            &[
                TIGHTER, INTO, END, ORDERS, EQUALITIES, BIT_ANDS, BIT_XORS, BIT_ORS, ANDS, ORS,
                COND_TAIL, CONNECTION, CONNECT, EXPR, INTO, END,
            ],
            &[
                INTO, END, NO_GREATER, SHIFTED, INTO, END, ORDERS, EQUALITIES, BIT_ANDS, BIT_XORS,
                BIT_ORS, ANDS, ORS, COND_TAIL, CONNECTION, CONNECT, EXPR, INTO, END,
            ],
            &[
                INTO, END, EQUALITIES, BIT_ANDS, BIT_XORS, BIT_ORS, ANDS, ORS, COND_TAIL,
                CONNECTION, CONNECT, EXPR, INTO, END,
            ],
        ],
        Rule::GreaterThen(Site::Alone) => &[
            &[NAME, Fixed::Sub(Rule::MemoryName(Site::Alone))],
            &[
                MEMORIES, WRAP_ARRAY, SQUARE, SQUARE_END, END, DIMS, LOCAL_NAME, DECLARED,
            ],
            &[
                NAMELESS, PRODUCTS, SUMS, SHIFTS, INTO, END, ORDERS, EQUALITIES, BIT_ANDS,
                BIT_XORS, BIT_ORS, ANDS, ORS, COND_TAIL, CONNECTION, CONNECT, EXPR, INTO, END,
                SEMICOLON,
            ],
        ],
        Rule::GreaterThen(Site::Loop) => &[
            &[NAME, Fixed::Sub(Rule::MemoryName(Site::Loop))],
            &[
                MEMORIES, WRAP_ARRAY, SQUARE, SQUARE_END, END, DIMS, LOCAL_NAME, LOOP_LOCAL,
            ],
            &[
                NAMELESS, PRODUCTS, SUMS, SHIFTS, INTO, END, ORDERS, EQUALITIES, BIT_ANDS,
                BIT_XORS, BIT_ORS, ANDS, ORS, COND_TAIL, CONNECTION, CONNECT, EXPR, INTO, END,
            ],
        ],
        Rule::MemoryName(Site::Alone) => &[
            &[Fixed::Act(Action::Declare), DECLARED],
            &[
                CALLED, POST, PRODUCTS, SUMS, SHIFTS, INTO, END, ORDERS, EQUALITIES, BIT_ANDS,
                BIT_XORS, BIT_ORS, ANDS, ORS, COND_TAIL, CONNECTION, CONNECT, EXPR, INTO, END,
                SEMICOLON,
            ],
        ],
        Rule::MemoryName(Site::Loop) => &[
            &[Fixed::Act(Action::Declare), LOOP_LOCAL],
            &[
                CALLED, POST, PRODUCTS, SUMS, SHIFTS, INTO, END, ORDERS, EQUALITIES, BIT_ANDS,
                BIT_XORS, BIT_ORS, ANDS, ORS, COND_TAIL, CONNECTION, CONNECT, EXPR, INTO, END,
            ],
        ],
        Rule::MemoryBare => &[
            &[
                Fixed::Mark(TokenClass::Assigning, Effect::Over(NodeKind::Set)),
                EXPR,
                INTO,
                END,
            ],
            &[
                Fixed::Mark(TokenClass::Counting, Effect::Over(NodeKind::Set)),
                END,
            ],
            &[DOT, DOT_NAME, DOTTED_REST],
            &[
                TIGHTER, ORDERS, EQUALITIES, BIT_ANDS, BIT_XORS, BIT_ORS, ANDS, ORS, COND_TAIL,
                CONNECTION, CONNECT, EXPR, INTO, END,
            ],
            &[
                NO_LESS, SHIFTED, INTO, END, ORDERS, EQUALITIES, BIT_ANDS, BIT_XORS, BIT_ORS, ANDS,
                ORS, COND_TAIL, CONNECTION, CONNECT, EXPR, INTO, END,
            ],
            &[
                EQUALITIES, BIT_ANDS, BIT_XORS, BIT_ORS, ANDS, ORS, COND_TAIL, CONNECTION, CONNECT,
                EXPR, INTO, END,
            ],
        ],
        Rule::OtherOperand => &[
            &[
                Fixed::Mark(
                    TokenClass::NameBut(Word::DFEVar),
                    Effect::Push(NodeKind::Name),
                ),
                CALLED,
                POST,
            ],
            &[NAMELESS],
        ],
        Rule::NamelessOperand => &[
            &[PREFIX, PREFIXED, INTO, END],
            &[Fixed::Mark(TokenClass::Literal, Effect::Leaf), POST],
            &[
                Fixed::Mark(TokenClass::ValueWord, Effect::Push(NodeKind::Name)),
                POST,
            ],
            &[GROUP, OPEN, EXPR, CLOSE, INNER, POST],
            &[BEGIN_NEW, NEW, Fixed::Sub(Rule::NewBase)],
        ],
        Rule::Further => &[
            &[TURN_CALL, OPEN, ARGS, CLOSE, END, POST],
            &[DOT, DOT_NAME, DOTTED, POST],
            &[WRAP_INDEX, SQUARE, EXPR, INTO, SQUARE_END, END, POST],
        ],
        Rule::Tighter => &[
            &[PRODUCT, PREFIXED, INTO, END, PRODUCTS, SUMS, SHIFTS],
            &[SUM, MULTIPLIED, INTO, END, SUMS, SHIFTS],
            &[SHIFT, SUMMED, INTO, END, SHIFTS],
        ],
    }
}
