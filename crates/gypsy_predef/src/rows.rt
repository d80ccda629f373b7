//! The bodies, line by line.

ghost use Rattle.std.specs.Prelude.{◌≡◌, IsTrue};
ghost use Rattle.stack_text.specs.Names.{is_name};
ghost use Rattle.gypsy_syntax.specs.Predefined.{predef_name};
ghost use Rattle.gypsy_predef.specs.Texts.{formals_of, lines_of, temporary_locals};

use crate::line::{Label, Line, Local, Temporary};
use gypsy_syntax::Predef;
use piton_syntax::{PitonOp, TestKind};

/// The jump to `fail` where the top word is true: the least integer has no minus, or a sum was carried.
const FAIL_IF_TRUE: Line = Line::Test(PitonOp::TestBoolAndJump, TestKind::T);

/// The jump to `fail` where the top word is false: an index isn't below the length.
const FAIL_IF_FALSE: Line = Line::Test(PitonOp::TestBoolAndJump, TestKind::F);

/// The jump to `fail` where the top word is negative, as an index may be.
const FAIL_IF_NEGATIVE: Line = Line::Test(PitonOp::TestIntAndJump, TestKind::Neg);

static SIMPLE_VARIABLE_ASSIGNMENT: [Line; 3] = [
    Line::Get(Local::X),
    Line::Put(Local::D),
    Line::Plain(PitonOp::Ret),
];

static SIMPLE_CONSTANT_ASSIGNMENT: [Line; 3] = [
    Line::Local(PitonOp::PushLocal, Local::V),
    Line::Put(Local::D),
    Line::Plain(PitonOp::Ret),
];

static SIMPLE_VARIABLE_EQ: [Line; 5] = [
    Line::Get(Local::X),
    Line::Get(Local::Y),
    Line::Plain(PitonOp::Eq),
    Line::Put(Local::B),
    Line::Plain(PitonOp::Ret),
];

static SIMPLE_CONSTANT_EQ: [Line; 5] = [
    Line::Get(Local::X),
    Line::Local(PitonOp::PushLocal, Local::V),
    Line::Plain(PitonOp::Eq),
    Line::Put(Local::B),
    Line::Plain(PitonOp::Ret),
];

static INTEGER_LE: [Line; 6] = [
    Line::Get(Local::Y),
    Line::Get(Local::X),
    Line::Plain(PitonOp::LtInt),
    Line::Plain(PitonOp::NotBool),
    Line::Put(Local::B),
    Line::Plain(PitonOp::Ret),
];

static INTEGER_UNARY_MINUS: [Line; 9] = [
    Line::Get(Local::X),
    Line::Integer(-2147483648),
    Line::Plain(PitonOp::Eq),
    FAIL_IF_TRUE,
    Line::Get(Local::X),
    Line::Plain(PitonOp::NegInt),
    Line::Put(Local::D),
    Line::Plain(PitonOp::Ret),
    Line::Fail,
];

static INTEGER_ADD: [Line; 10] = [
    Line::Truth(false),
    Line::Get(Local::X),
    Line::Get(Local::Y),
    Line::Plain(PitonOp::AddIntWithCarry),
    Line::Local(PitonOp::PopLocal, Local::T),
    FAIL_IF_TRUE,
    Line::Local(PitonOp::PushLocal, Local::T),
    Line::Put(Local::D),
    Line::Plain(PitonOp::Ret),
    Line::Fail,
];

static INTEGER_SUBTRACT: [Line; 10] = [
    Line::Truth(false),
    Line::Get(Local::X),
    Line::Get(Local::Y),
    Line::Plain(PitonOp::SubIntWithCarry),
    Line::Local(PitonOp::PopLocal, Local::T),
    FAIL_IF_TRUE,
    Line::Local(PitonOp::PushLocal, Local::T),
    Line::Put(Local::D),
    Line::Plain(PitonOp::Ret),
    Line::Fail,
];

static BOOLEAN_OR: [Line; 5] = [
    Line::Get(Local::X),
    Line::Get(Local::Y),
    Line::Plain(PitonOp::OrBool),
    Line::Put(Local::B),
    Line::Plain(PitonOp::Ret),
];

static BOOLEAN_AND: [Line; 5] = [
    Line::Get(Local::X),
    Line::Get(Local::Y),
    Line::Plain(PitonOp::AndBool),
    Line::Put(Local::B),
    Line::Plain(PitonOp::Ret),
];

static BOOLEAN_NOT: [Line; 4] = [
    Line::Get(Local::X),
    Line::Plain(PitonOp::NotBool),
    Line::Put(Local::B),
    Line::Plain(PitonOp::Ret),
];

static INDEX_ARRAY: [Line; 15] = [
    Line::Get(Local::I),
    Line::Local(PitonOp::SetLocal, Local::T),
    FAIL_IF_NEGATIVE,
    Line::Local(PitonOp::PushLocal, Local::T),
    Line::Local(PitonOp::PushLocal, Local::N),
    Line::Plain(PitonOp::LtInt),
    FAIL_IF_FALSE,
    Line::Local(PitonOp::PushLocal, Local::A),
    Line::Local(PitonOp::PushLocal, Local::T),
    Line::Plain(PitonOp::IntToNat),
    Line::Plain(PitonOp::AddNat),
    Line::Plain(PitonOp::FetchTempStk),
    Line::Put(Local::D),
    Line::Plain(PitonOp::Ret),
    Line::Fail,
];

static ARRAY_ELEMENT_ASSIGNMENT: [Line; 15] = [
    Line::Get(Local::I),
    Line::Local(PitonOp::SetLocal, Local::T),
    FAIL_IF_NEGATIVE,
    Line::Local(PitonOp::PushLocal, Local::T),
    Line::Local(PitonOp::PushLocal, Local::N),
    Line::Plain(PitonOp::LtInt),
    FAIL_IF_FALSE,
    Line::Get(Local::X),
    Line::Local(PitonOp::PushLocal, Local::A),
    Line::Local(PitonOp::PushLocal, Local::T),
    Line::Plain(PitonOp::IntToNat),
    Line::Plain(PitonOp::AddNat),
    Line::Plain(PitonOp::DepositTempStk),
    Line::Plain(PitonOp::Ret),
    Line::Fail,
];

static INTEGER_MULTIPLY: [Line; 38] = [
    Line::Get(Local::X),
    Line::Local(PitonOp::PopLocal, Local::X),
    Line::Get(Local::Y),
    Line::Local(PitonOp::PopLocal, Local::Y),
    Line::Truth(false),
    Line::Local(PitonOp::PushLocal, Local::Z),
    Line::Choose(Label::L2, Label::L3),
    Line::At(Label::L3, PitonOp::SubIntWithCarry),
    Line::Local(PitonOp::PopLocal, Local::P),
    Line::Local(PitonOp::PopLocal, Local::O),
    Line::TruthAt(Label::L1, false),
    Line::Local(PitonOp::PushLocal, Local::Y),
    Line::Local(PitonOp::PushLocal, Local::Y),
    Line::Plain(PitonOp::AddIntWithCarry),
    Line::Local(PitonOp::PopLocal, Local::Y),
    Line::Plain(PitonOp::Pop),
    Line::Truth(false),
    Line::Local(PitonOp::PushLocal, Local::P),
    Line::Choose(Label::L4, Label::L5),
    Line::At(Label::L5, PitonOp::AddIntWithCarry),
    Line::Local(PitonOp::PopLocal, Local::T),
    Line::Note,
    Line::Truth(false),
    Line::Local(PitonOp::PushLocal, Local::T),
    Line::Local(PitonOp::PushLocal, Local::P),
    Line::Plain(PitonOp::AddIntWithCarry),
    Line::Local(PitonOp::PopLocal, Local::P),
    Line::Note,
    Line::Local(PitonOp::PushLocal, Local::I),
    Line::Plain(PitonOp::Sub1Nat),
    Line::Local(PitonOp::SetLocal, Local::I),
    Line::Branch(PitonOp::TestNatAndJump, TestKind::NotZero, Label::L1),
    Line::Local(PitonOp::PushLocal, Local::O),
    FAIL_IF_TRUE,
    Line::Local(PitonOp::PushLocal, Local::P),
    Line::Put(Local::D),
    Line::Plain(PitonOp::Ret),
    Line::Fail,
];

static D_X: [Local; 2] = [Local::D, Local::X];

static D_V: [Local; 2] = [Local::D, Local::V];

static B_X_Y: [Local; 3] = [Local::B, Local::X, Local::Y];

static B_X_V: [Local; 3] = [Local::B, Local::X, Local::V];

static D_X_Y: [Local; 3] = [Local::D, Local::X, Local::Y];

static B_X: [Local; 2] = [Local::B, Local::X];

static D_A_I_N: [Local; 4] = [Local::D, Local::A, Local::I, Local::N];

static A_I_X_N: [Local; 4] = [Local::A, Local::I, Local::X, Local::N];

static NO_TEMPORARY: [Temporary; 0] = [];

static ONE_NUMBER: [Temporary; 1] = [Temporary::Int(Local::T, 0)];

/// The sum so far, a zero, whether a sum overflowed, the bits that are to come, and a sum on the way.
static OF_THE_PRODUCT: [Temporary; 5] = [
    Temporary::Int(Local::P, 0),
    Temporary::Int(Local::Z, 0),
    Temporary::Bool(Local::O, false),
    Temporary::Nat(Local::I, 31),
    Temporary::Int(Local::T, 0),
];

/// A body.
#[derive(Clone, Copy)]
pub struct Body {
    /// The formals: one for each argument, and one for an array's length.
    pub formals: &'static [Local],
    /// The temporaries.
    pub temporaries: &'static [Temporary],
    /// The lines.
    pub lines: &'static [Line],
}

/// The body of a row.
pub fn listed_body(row: Predef) -> Body
    ensures formals { result.formals.now ≡ formals_of row }
    ensures temporaries { result.temporaries.now ≡ temporary_locals row }
    ensures lines { result.lines.now ≡ lines_of row }
{
    match row {
        Predef::MgSimpleVariableAssignment => Body {
            formals: D_X.as_slice(),
            temporaries: NO_TEMPORARY.as_slice(),
            lines: SIMPLE_VARIABLE_ASSIGNMENT.as_slice(),
        },
        Predef::MgSimpleConstantAssignment => Body {
            formals: D_V.as_slice(),
            temporaries: NO_TEMPORARY.as_slice(),
            lines: SIMPLE_CONSTANT_ASSIGNMENT.as_slice(),
        },
        Predef::MgSimpleVariableEq => Body {
            formals: B_X_Y.as_slice(),
            temporaries: NO_TEMPORARY.as_slice(),
            lines: SIMPLE_VARIABLE_EQ.as_slice(),
        },
        Predef::MgSimpleConstantEq => Body {
            formals: B_X_V.as_slice(),
            temporaries: NO_TEMPORARY.as_slice(),
            lines: SIMPLE_CONSTANT_EQ.as_slice(),
        },
        Predef::MgIntegerLe => Body {
            formals: B_X_Y.as_slice(),
            temporaries: NO_TEMPORARY.as_slice(),
            lines: INTEGER_LE.as_slice(),
        },
        Predef::MgIntegerUnaryMinus => Body {
            formals: D_X.as_slice(),
            temporaries: NO_TEMPORARY.as_slice(),
            lines: INTEGER_UNARY_MINUS.as_slice(),
        },
        Predef::MgIntegerAdd => Body {
            formals: D_X_Y.as_slice(),
            temporaries: ONE_NUMBER.as_slice(),
            lines: INTEGER_ADD.as_slice(),
        },
        Predef::MgIntegerSubtract => Body {
            formals: D_X_Y.as_slice(),
            temporaries: ONE_NUMBER.as_slice(),
            lines: INTEGER_SUBTRACT.as_slice(),
        },
        Predef::MgBooleanOr => Body {
            formals: B_X_Y.as_slice(),
            temporaries: NO_TEMPORARY.as_slice(),
            lines: BOOLEAN_OR.as_slice(),
        },
        Predef::MgBooleanAnd => Body {
            formals: B_X_Y.as_slice(),
            temporaries: NO_TEMPORARY.as_slice(),
            lines: BOOLEAN_AND.as_slice(),
        },
        Predef::MgBooleanNot => Body {
            formals: B_X.as_slice(),
            temporaries: NO_TEMPORARY.as_slice(),
            lines: BOOLEAN_NOT.as_slice(),
        },
        Predef::MgIndexArray => Body {
            formals: D_A_I_N.as_slice(),
            temporaries: ONE_NUMBER.as_slice(),
            lines: INDEX_ARRAY.as_slice(),
        },
        Predef::MgArrayElementAssignment => Body {
            formals: A_I_X_N.as_slice(),
            temporaries: ONE_NUMBER.as_slice(),
            lines: ARRAY_ELEMENT_ASSIGNMENT.as_slice(),
        },
        Predef::MgIntegerMultiply => Body {
            formals: D_X_Y.as_slice(),
            temporaries: OF_THE_PRODUCT.as_slice(),
            lines: INTEGER_MULTIPLY.as_slice(),
        },
    }
}

/// The name of a row's program.
pub fn program_name(row: Predef) -> &'static [u8]
    ensures name { result.now ≡ predef_name row }
    ensures is_name { IsTrue (is_name result.now) }
{
    row.name().as_bytes()
}
