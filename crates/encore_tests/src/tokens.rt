// The tokens of a text, and what they stand for.

use enc_ast::{Fail as Refusal, Reject, Rule, Span};
use enc_lex::{Kind, MAX_LEN, Token, bytes_at, int_value, lex, text_bytes, word_of};
use std::test::Fail;

fn token(kind: Kind, start: u32, end: u32) -> Token {
    let span = Span { start, end };
    Token { kind, span }
}

#[test]
fn tokens_have_places(rt: HostRuntime) -> Result<(), Fail> {
    let alloc = rt.alloc();
    let tokens = lex(alloc, b"let x1 = 5;")?;
    let due = [
        token(Kind::Let, 0, 3),
        token(Kind::Name, 4, 6),
        token(Kind::Assign, 7, 8),
        token(Kind::Int, 9, 10),
        token(Kind::Semicolon, 10, 11),
    ];
    assert_eq!(rt; tokens.len(), 5);
    assert!(rt; !tokens.is_empty());
    assert_eq!(rt; tokens.get(4), Some(&token(Kind::Semicolon, 10, 11)));
    assert_eq!(rt; tokens.as_slice(), due.as_slice());
    Ok(())
}

/// The words and the symbols of the language, and the kind of each.
const WORDS: &[(&str, Kind)] = &[
    ("active", Kind::Active),
    ("and", Kind::And),
    ("append", Kind::Append),
    ("as", Kind::As),
    ("at", Kind::At),
    ("atomic", Kind::Atomic),
    ("await", Kind::Await),
    ("bestow", Kind::Bestow),
    ("Bestowed", Kind::Bestowed),
    ("bool", Kind::TypeBool),
    ("both", Kind::Both),
    ("chain", Kind::Chain),
    ("choose", Kind::Choose),
    ("class", Kind::Class),
    ("def", Kind::Def),
    ("each", Kind::Each),
    ("else", Kind::Else),
    ("empty", Kind::Empty),
    ("extract", Kind::Extract),
    ("false", Kind::False),
    ("fun", Kind::Fun),
    ("Fut", Kind::Fut),
    ("future", Kind::Future),
    ("get", Kind::Get),
    ("if", Kind::If),
    ("int", Kind::TypeInt),
    ("into", Kind::Into),
    ("isnull", Kind::IsNull),
    ("join", Kind::Join),
    ("len", Kind::Len),
    ("let", Kind::Let),
    ("lift", Kind::Lift),
    ("linear", Kind::Linear),
    ("List", Kind::List),
    ("local", Kind::Local),
    ("new", Kind::New),
    ("nil", Kind::Nil),
    ("not", Kind::Not),
    ("null", Kind::Null),
    ("or", Kind::Or),
    ("otherwise", Kind::Otherwise),
    ("pack", Kind::Pack),
    ("Par", Kind::Par),
    ("print", Kind::Print),
    ("prune", Kind::Prune),
    ("read", Kind::Read),
    ("return", Kind::Return),
    ("seq", Kind::Seq),
    ("split", Kind::Split),
    ("subordinate", Kind::Subordinate),
    ("suspend", Kind::Suspend),
    ("take", Kind::Take),
    ("text", Kind::TypeText),
    ("this", Kind::This),
    ("trait", Kind::Trait),
    ("true", Kind::True),
    ("unit", Kind::Unit),
    ("while", Kind::While),
    ("with", Kind::With),
    ("{", Kind::OpenBrace),
    ("}", Kind::CloseBrace),
    ("(", Kind::OpenParen),
    (")", Kind::CloseParen),
    ("[", Kind::OpenBracket),
    ("]", Kind::CloseBracket),
    (":", Kind::Colon),
    (";", Kind::Semicolon),
    (",", Kind::Comma),
    (".", Kind::Dot),
    ("!", Kind::Bang),
    ("=", Kind::Assign),
    ("==", Kind::Equal),
    ("!=", Kind::NotEqual),
    ("<", Kind::Less),
    ("<=", Kind::LessEqual),
    (">", Kind::Greater),
    (">=", Kind::GreaterEqual),
    ("+", Kind::Plus),
    ("-", Kind::Minus),
    ("*", Kind::Star),
    ("/", Kind::Slash),
    ("%", Kind::Percent),
];

#[test]
fn words_and_symbols_are_tokens(rt: HostRuntime) -> Result<(), Fail> {
    let alloc = rt.alloc();
    assert_eq!(rt; WORDS.len(), 82);
    for &(word, kind) in WORDS {
        let Ok(end) = u32::try_from(word.len()) else {
            panic!(rt; "a short word")
        };
        let due = token(kind, 0, end);
        assert_eq!(rt; lex(alloc, word.as_bytes())?.as_slice(), [due].as_slice());
    }
    Ok(())
}

#[test]
fn tokens_can_be_bad(rt: HostRuntime) {
    let alloc = rt.alloc();
    let refusal = Refusal::Reject(Reject {
        rule: Rule::Token,
        span: Span { start: 0, end: 1 },
    });
    assert!(rt; matches!(lex(alloc, &[255]), Err(found) if found == refusal));
    assert!(rt; matches!(lex(alloc, b"9223372036854775808"), Err(found) if found == refusal));
}

#[test]
fn texts_can_be_too_long(rt: HostRuntime) -> Result<(), Fail> {
    let alloc = rt.alloc();
    assert_eq!(rt; MAX_LEN, 1_048_576);
    let longest = vec![in alloc; b' '; MAX_LEN]?;
    assert!(rt; lex(alloc, &longest)?.is_empty());
    let refusal = Refusal::Reject(Reject {
        rule: Rule::Size,
        span: Span { start: 0, end: 0 },
    });
    let longer = vec![in alloc; b' '; MAX_LEN + 1]?;
    assert!(rt; matches!(lex(alloc, &longer), Err(found) if found == refusal));
    Ok(())
}

#[test]
fn tokens_stand_for_values(rt: HostRuntime) -> Result<(), Fail> {
    let alloc = rt.alloc();
    let text = "größe 017 \"a\\n\" // end".as_bytes();
    let tokens = lex(alloc, text)?;
    let [name, number, quoted] = tokens.as_slice() else {
        panic!(rt; "three tokens")
    };
    assert_eq!(rt; name.kind, Kind::Name);
    assert_eq!(rt; word_of(alloc, text, name.span)?.as_str(), "größe");
    assert_eq!(rt; int_value(text, number.span), 17);
    assert_eq!(rt; bytes_at(text, number.span), b"017".as_slice());
    assert_eq!(rt;
        text_bytes(alloc, text, quoted.span)?.as_slice(),
        b"a\n".as_slice()
    );
    Ok(())
}
