// From bytes to tokens.
ghost use Rattle.std.specs.Prelude.{◌≡◌, ◌≤◌, ◌<◌, ◌++◌, ◌∷◌, [], ◌^◌, ◌+◌, ◌-◌, false, length, option_map, IfOk, OnOk};
ghost use Rattle.std.specs.List.{list_any, take_while};
ghost use Rattle.beldi_syntax.specs.Lexer.{is_blank, is_of, is_pair, is_single, sign_len, closes, escapes, text_len, piece_len, is_reserved, word_of, string_in, text_token_of, utf8_of, begun, token_of, is_bad, is_script, ends, put, line_after, lexemes, to_script};
ghost use Rattle.beldi_syntax.specs.Phrase.{same};
ghost use Rattle.beldi_value.specs.ValueReading.{json_at};
ghost use Rattle.serde_json.specs.View.{view};

use crate::token::{Lexeme, Token};
use crate::tokens::Tokens;
use beldi_value::{Str, read_number};
use std::alloc::{AllocError, Global};

/// Kinds of bytes.
#[derive(Clone, Copy)]
enum Kind {
    /// What a word has.
    Word,
    Digit,
    /// What a comment has.
    Comment,
}

fn is_blank(byte: u8) -> bool
    ensures { result ≡ is_blank byte }
{
    byte == b' ' || byte == b'\t' || byte == b'\r' || byte == b'\n'
}

fn is_of(kind: Kind, byte: u8) -> bool
    ensures { result ≡ is_of kind byte }
{
    match kind {
        Kind::Word => byte.is_ascii_alphanumeric() || byte == b'_',
        Kind::Digit => byte.is_ascii_digit(),
        Kind::Comment => byte != b'\n',
    }
}

// How many bytes of this kind stand at the front.
fn front_len(bytes: &[u8], kind: Kind) -> usize
    ensures { result ≡ length (take_while (is_of kind) bytes.now) }
{
    bytes.iter().take_while(|byte| is_of(kind, **byte)).count()
}

// Signs of two bytes.
fn is_pair(first: u8, second: u8) -> bool
    ensures { result ≡ is_pair first second }
{
    if second == b'=' {
        first == b'=' || first == b'!' || first == b'<' || first == b'>'
    } else {
        first == b'+' && second == b'+'
    }
}

// Signs of one byte.
fn is_single(byte: u8) -> bool
    ensures { result ≡ is_single byte }
{
    b";,.:(){}[]=<>+-*/%".iter().any(|sign| *sign == byte)
}

fn sign_len(bytes: &[u8]) -> usize
    ensures { result ≡ sign_len bytes.now }
{
    match bytes {
        [first, second, ..] if is_pair(*first, *second) => 2,
        [first, ..] if is_single(*first) => 1,
        _ => 0,
    }
}

// Whether this byte closes a text, where the one before it may be a backslash that takes it.
fn closes(escaped: bool, byte: u8) -> bool
    ensures { result ≡ closes escaped byte }
{
    !escaped && byte == b'"'
}

// Whether this byte takes the next one.
fn escapes(escaped: bool, byte: u8) -> bool
    ensures { result ≡ escapes escaped byte }
{
    !escaped && byte == b'\\'
}

// How many bytes a text has, with its quotes; none where it is not closed. These are the bytes after its first quote.
fn text_len(bytes: &[u8]) -> usize
    ensures { result ≡ text_len false 1 bytes.now }
{
    let mut escaped = false;
    let mut count = 1;
    for byte in bytes {
        count += 1;
        if closes(escaped, *byte) {
            return count;
        }
        escaped = escapes(escaped, *byte);
    }
    0
}

/// How many bytes the blank, the comment or the token at the front has; none where no such thing begins there.
fn piece_len(bytes: &[u8]) -> usize
    ensures { result ≡ piece_len bytes.now }
{
    let [first, rest @ ..] = bytes else { return 0 };
    if is_blank(*first) {
        1
    } else if *first == b'#' {
        front_len(bytes, Kind::Comment)
    } else if first.is_ascii_alphabetic() {
        front_len(bytes, Kind::Word)
    } else if first.is_ascii_digit() {
        front_len(bytes, Kind::Digit)
    } else if *first == b'"' {
        text_len(rest)
    } else {
        sign_len(bytes)
    }
}

fn is_one_of(word: &str, words: &[&str]) -> bool
    ensures { result ≡ list_any (λ r. same r.now word.now) words.now }
{
    words.iter().any(|one| *one == word)
}

fn is_reserved(word: &str) -> bool
    ensures { result ≡ is_reserved word.now }
{
    is_one_of(
        word,
        &[
            "life",
            "room",
            "function",
            "script",
            "table",
            "set",
            "read",
            "write",
            "condwrite",
            "then",
            "call",
            "async",
            "lock",
            "unlock",
            "transaction",
            "aborted",
            "abort",
            "break",
            "if",
            "else",
            "repeat",
            "return",
            "or",
            "and",
            "not",
            "true",
            "false",
            "null",
            "len",
            "text",
            "push",
            "with",
        ],
    )
}

fn word_of(word: Str) -> Token
    ensures { result ≡ word_of word }
{
    if word.len() > 32 {
        Token::Bad
    } else if is_reserved(word.as_str()) {
        Token::Sign(word)
    } else {
        Token::Name(word)
    }
}

// What `serde_json` reads.
fn json_of(alloc: Global, piece: &[u8]) -> Result<Option<serde_json::Value>, AllocError>
    ensures { IfOk result (λ j. option_map view j ≡ json_at piece.now) }
{
    match serde_json::Value::from_slice(alloc, piece) {
        Ok(json) => Ok(Some(json)),
        Err(error) if error.is_memory() => Err(AllocError),
        Err(_) => Ok(None),
    }
}

// The text that JSON is.
fn string_in(json: Option<serde_json::Value>) -> Result<Option<Str>, AllocError>
    ensures { IfOk result (λ t. t ≡ string_in (option_map view json)) }
{
    match json {
        Some(serde_json::Value::String(text)) => Ok(Some(Str::from_string(text)?)),
        _ => Ok(None),
    }
}

fn text_of(alloc: Global, piece: &[u8]) -> Result<Token, AllocError>
    ensures { IfOk result (λ t. t ≡ text_token_of piece.now) }
{
    match string_in(json_of(alloc, piece)?)? {
        Some(_) if piece.len() > 4096 => Ok(Token::Text(None)),
        Some(text) => Ok(Token::Text(Some(text))),
        None => Ok(Token::Bad),
    }
}

// The bytes as a text, where they are UTF-8.
fn utf8_of(alloc: Global, bytes: &[u8]) -> Result<Option<Str>, AllocError>
    ensures { IfOk result (λ t. t ≡ utf8_of bytes.now) }
{
    Str::from_bytes(alloc, bytes)
}

// The token that the bytes are, where they are neither a blank nor a comment.
fn token_begun(alloc: Global, first: u8, piece: &[u8]) -> Result<Token, AllocError>
    ensures { IfOk result (λ t. t ≡ begun first piece.now) }
{
    if first == b'"' {
        return text_of(alloc, piece);
    }
    if first.is_ascii_digit() {
        return Ok(Token::Number(read_number(piece, i64::MAX as u64)));
    }
    match utf8_of(alloc, piece)? {
        Some(word) if first.is_ascii_alphabetic() => Ok(word_of(word)),
        Some(sign) => Ok(Token::Sign(sign)),
        None => Ok(Token::Bad),
    }
}

/// The token that the bytes are; none where they are a blank or a comment.
fn token_of(alloc: Global, piece: &[u8]) -> Result<Option<Token>, AllocError>
    ensures { IfOk result (λ t. t ≡ token_of piece.now) }
{
    match piece {
        [] => Ok(Some(Token::Bad)),
        [first, ..] if is_blank(*first) || *first == b'#' => Ok(None),
        [first, ..] => Ok(Some(token_begun(alloc, *first, piece)?)),
    }
}

fn is_bad(token: &Option<Token>) -> bool
    ensures { result ≡ is_bad token.now }
{
    match token {
        Some(Token::Bad) => true,
        _ => false,
    }
}

fn is_script(token: &Option<Token>) -> bool
    ensures { result ≡ is_script token.now }
{
    match token {
        Some(Token::Sign(word)) => word.as_str() == "script",
        _ => false,
    }
}

// The line of what follows the front of these bytes, which stands in this line.
fn line_after(bytes: &[u8], line: u32) -> u32
    requires { line < 2 ^ 32 - 1 }
    ensures { result ≡ line_after bytes.now line }
{
    match bytes {
        [b'\n', _, ..] => line + 1,
        _ => line,
    }
}

impl Tokens {
    // Appends the token that the bytes are, if any, and tells whether it ends the tokens.
    fn put(&mut self, alloc: Global, piece: &[u8], line: u32) -> Result<bool, AllocError>
        ensures put { OnOk result (self.new ≡ self.old ++ put (token_of piece.now) line) }
        ensures ends { IfOk result (λ b. b ≡ ends (token_of piece.now)) }
    {
        let token = token_of(alloc, piece)?;
        let ends = is_bad(&token) || is_script(&token);
        match token {
            Some(token) => self.push(Lexeme { token, line })?,
            None => (),
        }
        Ok(ends)
    }
}

/// The tokens of a text, and the end of it. The last one is `script`, the end, or bytes that begin no token.
pub(crate) fn tokens_of(alloc: Global, bytes: &[u8]) -> Result<Tokens, AllocError>
    requires { length bytes.now ≤ 65536 }
    ensures { IfOk result (λ s. s ≡ lexemes 0 1 bytes.now) }
{
    let mut tokens = Tokens::new(alloc);
    let mut rest = bytes;
    let mut line = 1;
    'pieces: while !rest.is_empty() {
        let (piece, after) = rest.split_at(piece_len(rest));
        match tokens.put(alloc, piece, line) {
            Ok(false) => (),
            Ok(true) => return Ok(tokens),
            Err(why) => return Err(why),
        }
        line = line_after(rest, line);
        rest = after;
    }
    tokens.push(Lexeme {
        token: Token::End,
        line,
    })?;
    Ok(tokens)
}

// Whether the bytes are no token, and whether they are the token `script`.
fn marks_of(alloc: Global, piece: &[u8]) -> Result<(bool, bool), AllocError>
    ensures { IfOk result (λ m. m ≡ (is_bad (token_of piece.now), is_script (token_of piece.now))) }
{
    let token = token_of(alloc, piece)?;
    Ok((is_bad(&token), is_script(&token)))
}

/// How many bytes there are up to the end of the first token `script`; all where there is none, or where bytes that begin
/// no token come before it.
pub(crate) fn front_of(alloc: Global, bytes: &[u8]) -> Result<usize, AllocError>
    ensures { IfOk result (λ n. n ≡ to_script 0 bytes.now) }
{
    let mut rest = bytes;
    'pieces: while !rest.is_empty() {
        let (piece, after) = rest.split_at(piece_len(rest));
        let (bad, script) = match marks_of(alloc, piece) {
            Ok(marks) => marks,
            Err(why) => return Err(why),
        };
        if bad {
            return Ok(bytes.len());
        }
        if script {
            return Ok(bytes.len() - after.len());
        }
        rest = after;
    }
    Ok(bytes.len())
}
