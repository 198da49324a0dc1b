// The tokens that deployments are written in.
use beldi_value::Str;

/// A token.
#[derive(Drop)]
pub(crate) enum Token {
    /// A reserved word or a sign, as it is written.
    Sign(Str),
    /// A word that may be a name.
    Name(Str),
    /// A number. One past 9,223,372,036,854,775,807 has no value.
    Number(Option<u64>),
    /// What a text says. One that is written in more than 4,096 bytes has no value.
    Text(Option<Str>),
    /// The end of the text.
    End,
    /// Bytes that begin no token.
    Bad,
}

/// A token, and the line that it begins in.
#[derive(Drop)]
pub(crate) struct Lexeme {
    pub(crate) token: Token,
    pub(crate) line: u32,
}
