// What the text of the bank, and of generated work, says.
ghost use Rattle.beldi_bank_text.specs.BankText.{GeneratedIsTheBank, GeneratedIsWork, TextIsTheBank};

/// The text of the bank, with a script below it, is read as the bank, and the script begins in its sixth line.
pub fn the_text_is_the_bank()
    ensures { TextIsTheBank }
{}

/// A generated source is accepted as the bank, which keeps every rule.
pub fn generated_is_the_bank()
    ensures { GeneratedIsTheBank }
{}

/// A generated script of which no line is refused carries out events, of which each request is for a transfer, and settlings; then
/// come the last listings.
pub fn generated_is_work()
    ensures { GeneratedIsWork }
{}
