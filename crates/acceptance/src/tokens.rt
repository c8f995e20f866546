//! Small texts, and their tokens; what the scanner refuses, and which line a token is in, is told by rows of tests/answers.txt.

use crate::expect::each;
use plm_token::{
    Keyword, Kind, Mark, Token, is_normal, normal, same_name, scan, scan_literal, string_value,
};
use std::alloc::Global;
use std::process::Abort;

const IDENTIFIER: Kind = Kind::Identifier;

const STRING: Kind = Kind::String;

const COLON: Kind = Kind::Special(Mark::Colon);

const SEMICOLON: Kind = Kind::Special(Mark::Semicolon);

const DO: Kind = Kind::Reserved(Keyword::Do);

const END: Kind = Kind::Reserved(Keyword::End);

const DECLARE: Kind = Kind::Reserved(Keyword::Declare);

/// A token's kind, slice and line.
type Row<'w> = (Kind, &'w [u8], u32);

/// Whether a token is as its row says.
fn is_token(token: &Token<'_>, (kind, slice, line): &Row<'_>) -> bool {
    token.kind == *kind && token.text == *slice && token.line == *line
}

/// Whether tokens are as their rows say, one after another.
fn are_tokens(tokens: &[Token<'_>], rows: &[Row<'_>]) -> bool {
    tokens.len() == rows.len()
        && tokens
            .iter()
            .zip(rows)
            .all(|(token, row)| is_token(token, row))
}

/// Whether a text has just these tokens.
fn has_tokens(alloc: Global, text: &[u8], rows: &[Row<'_>]) -> bool {
    match scan(alloc, text) {
        Ok(tokens) => are_tokens(&tokens, rows),
        Err(_) => false,
    }
}

/// Texts with several tokens, or with none.
const TEXTS: &[(&[u8], &[Row<'static>])] = &[
    (
        b"M: DO; ; END M;",
        &[
            (IDENTIFIER, b"M", 1),
            (COLON, b":", 1),
            (DO, b"DO", 1),
            (SEMICOLON, b";", 1),
            (SEMICOLON, b";", 1),
            (END, b"END", 1),
            (IDENTIFIER, b"M", 1),
            (SEMICOLON, b";", 1),
        ],
    ),
    (
        b"M:\nDO",
        &[(IDENTIFIER, b"M", 1), (COLON, b":", 1), (DO, b"DO", 2)],
    ),
    (b"", &[]),
    (b"\x1A\x1A", &[]),
    (b"$LIST\x1A", &[]),
    (b"'a' 'b'", &[(STRING, b"'a'", 1), (STRING, b"'b'", 1)]),
    (
        b"=<",
        &[
            (Kind::Special(Mark::Equal), b"=", 1),
            (Kind::Special(Mark::Less), b"<", 1),
        ],
    ),
    (
        b"<<>",
        &[
            (Kind::Special(Mark::Less), b"<", 1),
            (Kind::Special(Mark::NotEqual), b"<>", 1),
        ],
    ),
    (
        b"*/",
        &[
            (Kind::Special(Mark::Star), b"*", 1),
            (Kind::Special(Mark::Slash), b"/", 1),
        ],
    ),
];

#[test]
fn texts(rt: HostRuntime) {
    let alloc = rt.alloc();
    each(&rt, TEXTS, |(text, wanted)| has_tokens(alloc, text, wanted));
}

/// Texts that are one token.
const WORDS: &[(&[u8], Kind)] = &[
    // names and words
    (b"a", IDENTIFIER),
    (b"A1_b$2$", IDENTIFIER),
    (b"A23456789_123456789_123456789_1", IDENTIFIER),
    (b"A$2$3$4$5$6$7$8$9_123456789_123456789_1$", IDENTIFIER),
    (b"INTEGERS", IDENTIFIER),
    (b"DO_", IDENTIFIER),
    (b"DWORD", Kind::Reserved(Keyword::Dword)),
    (b"declare", DECLARE),
    (b"DE$CLARE", DECLARE),
    (b"eNd$", END),
    (b"Literally", Kind::Reserved(Keyword::Literally)),
    (b"xor", Kind::Reserved(Keyword::Xor)),
    // reserved words
    (b"ADDRESS", Kind::Reserved(Keyword::Address)),
    (b"AND", Kind::Reserved(Keyword::And)),
    (b"AT", Kind::Reserved(Keyword::At)),
    (b"BASED", Kind::Reserved(Keyword::Based)),
    (b"BY", Kind::Reserved(Keyword::By)),
    (b"BYTE", Kind::Reserved(Keyword::Byte)),
    (b"CALL", Kind::Reserved(Keyword::Call)),
    (b"CASE", Kind::Reserved(Keyword::Case)),
    (b"DATA", Kind::Reserved(Keyword::Data)),
    (b"DECLARE", Kind::Reserved(Keyword::Declare)),
    (b"DISABLE", Kind::Reserved(Keyword::Disable)),
    (b"DO", Kind::Reserved(Keyword::Do)),
    (b"DWORD", Kind::Reserved(Keyword::Dword)),
    (b"ELSE", Kind::Reserved(Keyword::Else)),
    (b"ENABLE", Kind::Reserved(Keyword::Enable)),
    (b"END", Kind::Reserved(Keyword::End)),
    (b"EXTERNAL", Kind::Reserved(Keyword::External)),
    (b"GO", Kind::Reserved(Keyword::Go)),
    (b"GOTO", Kind::Reserved(Keyword::Goto)),
    (b"HALT", Kind::Reserved(Keyword::Halt)),
    (b"IF", Kind::Reserved(Keyword::If)),
    (b"INITIAL", Kind::Reserved(Keyword::Initial)),
    (b"INTEGER", Kind::Reserved(Keyword::Integer)),
    (b"INTERRUPT", Kind::Reserved(Keyword::Interrupt)),
    (b"LABEL", Kind::Reserved(Keyword::Label)),
    (b"LITERALLY", Kind::Reserved(Keyword::Literally)),
    (b"MINUS", Kind::Reserved(Keyword::Minus)),
    (b"MOD", Kind::Reserved(Keyword::Mod)),
    (b"NOT", Kind::Reserved(Keyword::Not)),
    (b"OR", Kind::Reserved(Keyword::Or)),
    (b"PLUS", Kind::Reserved(Keyword::Plus)),
    (b"POINTER", Kind::Reserved(Keyword::Pointer)),
    (b"PROCEDURE", Kind::Reserved(Keyword::Procedure)),
    (b"PUBLIC", Kind::Reserved(Keyword::Public)),
    (b"REAL", Kind::Reserved(Keyword::Real)),
    (b"REENTRANT", Kind::Reserved(Keyword::Reentrant)),
    (b"RETURN", Kind::Reserved(Keyword::Return)),
    (b"SELECTOR", Kind::Reserved(Keyword::Selector)),
    (b"STRUCTURE", Kind::Reserved(Keyword::Structure)),
    (b"THEN", Kind::Reserved(Keyword::Then)),
    (b"TO", Kind::Reserved(Keyword::To)),
    (b"WHILE", Kind::Reserved(Keyword::While)),
    (b"WORD", Kind::Reserved(Keyword::Word)),
    (b"XOR", Kind::Reserved(Keyword::Xor)),
    // numbers
    (b"0", Kind::Numeral(0)),
    (b"12", Kind::Numeral(12)),
    (b"12d", Kind::Numeral(12)),
    (b"1$2$D$", Kind::Numeral(12)),
    (b"1$", Kind::Numeral(1)),
    (b"101B", Kind::Numeral(5)),
    (b"1b", Kind::Numeral(1)),
    (b"17O", Kind::Numeral(15)),
    (b"17q", Kind::Numeral(15)),
    (b"0FFH", Kind::Numeral(255)),
    (b"0bh", Kind::Numeral(11)),
    (b"0B8H", Kind::Numeral(0xB8)),
    (b"1D", Kind::Numeral(1)),
    (b"0DH", Kind::Numeral(13)),
    (b"300H", Kind::Numeral(0x300)),
    (b"0000000000000000000000001", Kind::Numeral(1)),
    (b"0F$FFFFH", Kind::Numeral(0xF_FFFF)),
    (b"1048575", Kind::Numeral(0xF_FFFF)),
    (b"3777777Q", Kind::Numeral(0xF_FFFF)),
    (b"11111111111111111111B", Kind::Numeral(0xF_FFFF)),
    // strings
    (b"''", STRING),
    (b"'A'", STRING),
    (b"''''", STRING),
    (b"'it''s'", STRING),
    (b"'''a'''''", STRING),
    (b"' ~/* $'", STRING),
    // special tokens
    (b"=", Kind::Special(Mark::Equal)),
    (b".", Kind::Special(Mark::Period)),
    (b"/", Kind::Special(Mark::Slash)),
    (b"(", Kind::Special(Mark::LeftParenthesis)),
    (b")", Kind::Special(Mark::RightParenthesis)),
    (b"+", Kind::Special(Mark::Plus)),
    (b"-", Kind::Special(Mark::Minus)),
    (b"*", Kind::Special(Mark::Star)),
    (b",", Kind::Special(Mark::Comma)),
    (b"<", Kind::Special(Mark::Less)),
    (b">", Kind::Special(Mark::Greater)),
    (b":", Kind::Special(Mark::Colon)),
    (b";", Kind::Special(Mark::Semicolon)),
    (b"@", Kind::Special(Mark::AtSign)),
    (b"<>", Kind::Special(Mark::NotEqual)),
    (b"<=", Kind::Special(Mark::LessEqual)),
    (b">=", Kind::Special(Mark::GreaterEqual)),
    (b":=", Kind::Special(Mark::Assign)),
];

#[test]
fn words(rt: HostRuntime) {
    let alloc = rt.alloc();
    each(
        &rt,
        WORDS,
        |(text, kind)| has_tokens(alloc, text, &[(*kind, *text, 1)]),
    );
}

/// Strings, and their characters.
const STRINGS: &[(&[u8], &[u8])] = &[
    (b"''", b""),
    (b"'A'", b"A"),
    (b"''''", b"'"),
    (b"'it''s'", b"it's"),
    (b"'''a'''''", b"'a''"),
    (b"' ~/* $'", b" ~/* $"),
];

/// Whether a string has these characters.
fn stands_for(alloc: Global, text: &[u8], characters: &[u8]) -> bool {
    match string_value(alloc, text) {
        Ok(value) => value.as_slice() == characters,
        Err(_) => false,
    }
}

#[test]
fn strings(rt: HostRuntime) {
    let alloc = rt.alloc();
    each(
        &rt,
        STRINGS,
        |(text, characters)| stands_for(alloc, text, characters),
    );
}

/// Two spellings, and whether they are one name.
const SPELLINGS: &[(&[u8], &[u8], bool)] = &[
    (b"Fo$o_1", b"f$OO_1$", true),
    (b"FOO", b"FO", false),
    (b"FO", b"FOO", false),
    (b"F_O", b"FO", false),
];

/// Whether a name's normal form is this.
fn is_normally(alloc: Global, name: &[u8], wanted: &[u8]) -> bool {
    match normal(alloc, name) {
        Ok(found) => found.as_slice() == wanted,
        Err(_) => false,
    }
}

#[test]
fn normal_forms(rt: HostRuntime) {
    each(
        &rt,
        SPELLINGS,
        |(one, other, same)| same_name(one, other) == *same,
    );
    assert!(rt; is_normally(rt.alloc(), b"$Fo$o_1$", b"FOO_1"));
    assert!(rt; is_normal(b"F_O1") && !is_normal(b"F_o1") && !is_normal(b"F$O"));
}

/// The tokens of a literal's text, which have the line of its string.
const LITERAL: &[Row<'static>] = &[
    (Kind::Reserved(Keyword::While), b"WHILE", 7),
    (Kind::Numeral(1), b"1", 7),
];

/// Whether a literal's text has these tokens.
fn has_literal(alloc: Global, text: &[u8], rows: &[Row<'_>]) -> bool {
    match scan_literal(alloc, text, 7) {
        Ok(tokens) => are_tokens(&tokens, rows),
        Err(_) => false,
    }
}

#[test]
fn literals(rt: HostRuntime) {
    let alloc = rt.alloc();
    assert!(rt; has_literal(alloc, b"WHILE /* it''s */ 1", LITERAL));
    assert!(rt; has_literal(alloc, b"", &[]));
}
