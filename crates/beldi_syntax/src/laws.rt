// The laws of the reader.
ghost use Rattle.beldi_syntax.specs.SourceText.{ReadsGrammar, RefusesFirst};

/// What is read: what a text holds by the grammar, where no token of its deployment breaks a limit.
pub fn reads_the_grammar()
    ensures { ReadsGrammar }
{}

/// What is refused: the first cause in the text is told, with its line.
pub fn refuses_first()
    ensures { RefusesFirst }
{}
