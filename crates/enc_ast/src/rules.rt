// Why a text is refused, and where.

use std::alloc::AllocError;
use std::fmt;

/// A part of a text, in bytes: from `start` to before `end`.
#[derive(Clone, Copy, Debug, PartialEq, Eq)]
pub struct Span {
    pub start: u32,
    pub end: u32,
}

/// The rules by which a text can be refused.
#[derive(Clone, Copy, Debug, PartialEq, Eq)]
pub enum Rule {
    Size,
    Token,
    Form,
    Limit,
    KName,
    KMain,
    KTrait,
    KClass,
    KOr,
    KActive,
    KSig,
    EVar,
    EMoved,
    ECopy,
    EType,
    SLet,
    SAssign,
    SNew,
    SField,
    STake,
    SStore,
    SReadonly,
    SCall,
    SInner,
    SSend,
    SSendable,
    SGet,
    SAwait,
    SChain,
    SPart,
    SBestow,
    SAtomic,
    SSplit,
    SPack,
    SChoose,
    SIf,
    SLoop,
    SReturn,
    SPrint,
    Stage,
}

impl Rule {
    ghost use Rattle.std.specs.Prelude.{◌≡◌};
    ghost use Rattle.enc_ast.specs.Rules.{rule_name};

    /// The name by which users know the rule.
    pub fn name(self) -> &'static str
        ensures { result.now ≡ rule_name self }
    {
        match self {
            Rule::Size => "L-SIZE",
            Rule::Token => "P-TOKEN",
            Rule::Form => "P-FORM",
            Rule::Limit => "P-LIMIT",
            Rule::KName => "K-NAME",
            Rule::KMain => "K-MAIN",
            Rule::KTrait => "K-TRAIT",
            Rule::KClass => "K-CLASS",
            Rule::KOr => "K-OR",
            Rule::KActive => "K-ACTIVE",
            Rule::KSig => "K-SIG",
            Rule::EVar => "E-VAR",
            Rule::EMoved => "E-MOVED",
            Rule::ECopy => "E-COPY",
            Rule::EType => "E-TYPE",
            Rule::SLet => "S-LET",
            Rule::SAssign => "S-ASSIGN",
            Rule::SNew => "S-NEW",
            Rule::SField => "S-FIELD",
            Rule::STake => "S-TAKE",
            Rule::SStore => "S-STORE",
            Rule::SReadonly => "S-READONLY",
            Rule::SCall => "S-CALL",
            Rule::SInner => "S-INNER",
            Rule::SSend => "S-SEND",
            Rule::SSendable => "S-SENDABLE",
            Rule::SGet => "S-GET",
            Rule::SAwait => "S-AWAIT",
            Rule::SChain => "S-CHAIN",
            Rule::SPart => "S-PART",
            Rule::SBestow => "S-BESTOW",
            Rule::SAtomic => "S-ATOMIC",
            Rule::SSplit => "S-SPLIT",
            Rule::SPack => "S-PACK",
            Rule::SChoose => "S-CHOOSE",
            Rule::SIf => "S-IF",
            Rule::SLoop => "S-LOOP",
            Rule::SReturn => "S-RETURN",
            Rule::SPrint => "S-PRINT",
            Rule::Stage => "STAGE",
        }
    }
}

impl fmt::Display for Rule {
    ghost use Rattle.std.specs.Prelude.{Some};
    ghost use Rattle.enc_ast.specs.Rules.{rule_name};

    ghost output = { λ rule. Some (rule_name rule) };

    fn fmt<W: fmt::Write>(&self, f: &mut fmt::Formatter<W>) -> fmt::Result {
        f.write_str(self.name())
    }
}

/// A text breaks a rule at a part of it.
#[derive(Clone, Copy, Debug, PartialEq, Eq)]
pub struct Reject {
    pub rule: Rule,
    pub span: Span,
}

/// Why no program is made of a text.
#[derive(Clone, Copy, Debug, PartialEq, Eq)]
pub enum Fail {
    Reject(Reject),
    Memory,
}

impl From<AllocError> for Fail {
    ghost use Rattle.std.specs.Prelude.{◌≡◌};
    ghost use Rattle.enc_ast.specs.declared.rules.Fail.TheVariants.{Memory};

    ghost from_gives = { λ _ e. e ≡ Memory };

    fn from(_: AllocError) -> Self {
        Fail::Memory
    }
}
