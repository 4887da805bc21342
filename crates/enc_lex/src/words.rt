// The language's own words.
ghost use Rattle.std.specs.Prelude.{◌≡◌};
ghost use Rattle.enc_lex.specs.Words.{kind_in, kind_of_word, words_of_len, other_words};

use crate::Kind;

/// The kind of a token that is spelled as a name: one of the language's own words, or a name.
pub(crate) fn kind_of(word: &str) -> Kind
    ensures { result ≡ kind_of_word word.now }
{
    match word.len() {
        2 => of_two(word),
        3 => of_three(word),
        4 => of_four(word),
        5 => of_five(word),
        6 => of_six(word),
        _ => of_others(word),
    }
}

fn of_two(word: &str) -> Kind
    ensures { result ≡ kind_in (words_of_len 2) word.now }
{
    match word {
        "as" => Kind::As,
        "at" => Kind::At,
        "if" => Kind::If,
        "or" => Kind::Or,
        _ => Kind::Name,
    }
}

fn of_three(word: &str) -> Kind
    ensures { result ≡ kind_in (words_of_len 3) word.now }
{
    match word {
        "and" => Kind::And,
        "def" => Kind::Def,
        "fun" => Kind::Fun,
        "Fut" => Kind::Fut,
        "get" => Kind::Get,
        "int" => Kind::TypeInt,
        "len" => Kind::Len,
        "let" => Kind::Let,
        "new" => Kind::New,
        "nil" => Kind::Nil,
        "not" => Kind::Not,
        "Par" => Kind::Par,
        "seq" => Kind::Seq,
        _ => Kind::Name,
    }
}

fn of_four(word: &str) -> Kind
    ensures { result ≡ kind_in (words_of_len 4) word.now }
{
    match word {
        "bool" => Kind::TypeBool,
        "both" => Kind::Both,
        "each" => Kind::Each,
        "else" => Kind::Else,
        "into" => Kind::Into,
        "join" => Kind::Join,
        "lift" => Kind::Lift,
        "List" => Kind::List,
        "null" => Kind::Null,
        "pack" => Kind::Pack,
        "read" => Kind::Read,
        "take" => Kind::Take,
        "text" => Kind::TypeText,
        "this" => Kind::This,
        "true" => Kind::True,
        "unit" => Kind::Unit,
        "with" => Kind::With,
        _ => Kind::Name,
    }
}

fn of_five(word: &str) -> Kind
    ensures { result ≡ kind_in (words_of_len 5) word.now }
{
    match word {
        "await" => Kind::Await,
        "chain" => Kind::Chain,
        "class" => Kind::Class,
        "empty" => Kind::Empty,
        "false" => Kind::False,
        "local" => Kind::Local,
        "print" => Kind::Print,
        "prune" => Kind::Prune,
        "split" => Kind::Split,
        "trait" => Kind::Trait,
        "while" => Kind::While,
        _ => Kind::Name,
    }
}

fn of_six(word: &str) -> Kind
    ensures { result ≡ kind_in (words_of_len 6) word.now }
{
    match word {
        "active" => Kind::Active,
        "append" => Kind::Append,
        "atomic" => Kind::Atomic,
        "bestow" => Kind::Bestow,
        "choose" => Kind::Choose,
        "future" => Kind::Future,
        "isnull" => Kind::IsNull,
        "linear" => Kind::Linear,
        "return" => Kind::Return,
        _ => Kind::Name,
    }
}

fn of_others(word: &str) -> Kind
    ensures { result ≡ kind_in other_words word.now }
{
    match word {
        "Bestowed" => Kind::Bestowed,
        "extract" => Kind::Extract,
        "otherwise" => Kind::Otherwise,
        "subordinate" => Kind::Subordinate,
        "suspend" => Kind::Suspend,
        _ => Kind::Name,
    }
}
